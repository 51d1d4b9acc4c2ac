//! Why an instruction can't be executed.

/// A fault of the instruction at the program counter. It is found before the instruction has done
/// anything.
#[derive(Clone, Copy, Debug, PartialEq, Eq, Drop)]
pub enum CpuFault {
    /// The byte at `at` is no documented opcode.
    BadOpcode { opcode: u8, at: u16 },
    /// An opcode, operand, pointer or vector byte would come from a register of a device, at `at`.
    FetchOutside { at: u16 },
}
