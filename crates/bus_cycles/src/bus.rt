//! What the processor is connected to.

ghost use Rattle.std.specs.Prelude.{◌≡◌, ◌+◌, ◌%◌, IfSome};
ghost use Rattle.bus_cycles.specs.Buses.{AtHand, Meaning};

/// What a read is for.
#[derive(Clone, Copy, Debug, PartialEq, Eq)]
pub enum Purpose {
    /// A byte of the program: an opcode, or one of those after it.
    Code,
    /// A byte of a pointer or of the interrupt vector.
    Pointer,
    /// What the instruction reads or pulls.
    Data,
    /// Nothing: the byte is thrown away.
    Discarded,
}

/// A bus of 16 address lines and 8 data lines, with the parts on it and the clock that drives them.
///
/// An implementer says by `State` and `state` what contracts see of it, and by `meaning` what each
/// call does to that.
pub trait CycleBus {
    ghost State: { Type 0 };

    ghost state: { Self → State };

    ghost meaning: { Meaning State };

    /// Whether a byte of an instruction can be fetched from an address. This is no cycle.
    fn holds_code(&self, address: u16) -> bool
        ensures { result ≡ meaning.holds_code (state self.now) address };

    /// A cycle that reads.
    fn read(&mut self, address: u16, purpose: Purpose) -> u8
        ensures value { result ≡ meaning.read_value (state self.old) address }
        ensures bus { state self.new ≡ meaning.after_read (state self.old) purpose address };

    /// A cycle that writes.
    fn write(&mut self, address: u16, value: u8)
        ensures { state self.new ≡ meaning.after_write (state self.old) address value };

    /// The byte at an address and the one after it, if the bus has both at hand: what the next two
    /// cycles would fetch there. This is no cycle. None says nothing of them.
    fn at_hand(&self, _address: u16) -> Option<(u8, u8)>
        ensures { IfSome result (λ bytes. AtHand meaning (state self.now) _address bytes.0 bytes.1) }
    {
        None
    }

    /// Two cycles that read, the first a byte of the program and the second the byte after it, which is
    /// known.
    fn read_two(&mut self, address: u16, _second: u8, purpose: Purpose)
        requires { _second ≡ meaning.read_value (meaning.after_read (state self.old) Purpose.Code address) ((address + 1) % 65536) }
        ensures { state self.new ≡ meaning.after_read (meaning.after_read (state self.old) Purpose.Code address) purpose ((address + 1) % 65536) }
    {
        let _ = self.read(address, Purpose::Code);
        let _ = self.read(address.wrapping_add(1), purpose);
    }
}
