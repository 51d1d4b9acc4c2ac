//! What the processor is connected to.

ghost use Rattle.std.specs.Prelude.{◌≡◌, ◌≤◌, ◌+◌, ◌%◌, Some, IfSome};
ghost use Rattle.mos_cpu.specs.Buses.{Meaning};

/// A bus of 16 address lines and 8 data lines, with the parts on it and the clock that drives them.
///
/// An implementer says by `State` and `state` what contracts see of it, and by `meaning` what each
/// call does to that.
pub trait Bus {
    ghost State: { Type 0 };

    ghost state: { Self → State };

    ghost meaning: { Meaning State };

    /// Lets cycles go by in which the processor makes no data access. They are at most the 76 of a
    /// scanline.
    fn pass(&mut self, cycles: u8)
        requires { cycles ≤ 76 }
        ensures { state self.new ≡ meaning.passed (state self.old) cycles };

    /// A data read, at the end of the cycle that passed last. It may change what it reads from.
    fn read(&mut self, address: u16) -> u8
        ensures value { result ≡ meaning.read_value (state self.old) address }
        ensures bus { state self.new ≡ meaning.after_read (state self.old) address };

    /// A data write, at the end of the cycle that passed last.
    fn write(&mut self, address: u16, value: u8)
        ensures { state self.new ≡ meaning.after_write (state self.old) address value };

    /// An opcode, operand, pointer or vector byte, looked at with no effect. None if a register
    /// of a device would answer.
    fn peek(&self, address: u16) -> Option<u8>
        ensures { result ≡ meaning.peeked (state self.now) address };

    /// The byte after an address, looked at with no effect, if the bus has both at hand together.
    /// None says nothing of it.
    fn peek_after(&self, _address: u16) -> Option<u8>
        ensures { IfSome result (λ byte. meaning.peeked (state self.now) ((_address + 1) % 65536) ≡ Some byte) }
    {
        None
    }

    /// A byte of a pointer in page zero, looked at with no effect: what a read of it would give.
    fn peek_zero(&self, address: u8) -> u8
        ensures { result ≡ meaning.peeked_zero (state self.now) address };
}
