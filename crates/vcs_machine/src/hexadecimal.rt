//! Numbers as capital hexadecimal digits.

use std::fmt;

/// A byte, as two digits.
#[derive(Clone, Copy)]
pub struct HexByte(pub u8);

impl fmt::Display for HexByte {
    ghost use Rattle.std.specs.Prelude.{Some};
    ghost use Rattle.vcs_machine.specs.Faults.{hex2};

    ghost output = { λ byte. Some (hex2 byte.0) };

    fn fmt<W: fmt::Write>(&self, f: &mut fmt::Formatter<W>) -> fmt::Result {
        let byte = self.0;
        write!(f, "{byte:02X}")
    }
}

/// Two bytes, as four digits.
#[derive(Clone, Copy)]
pub struct HexWord(pub u16);

impl fmt::Display for HexWord {
    ghost use Rattle.std.specs.Prelude.{Some};
    ghost use Rattle.vcs_machine.specs.Faults.{hex4};

    ghost output = { λ word. Some (hex4 word.0) };

    fn fmt<W: fmt::Write>(&self, f: &mut fmt::Formatter<W>) -> fmt::Result {
        let [high, low] = self.0.to_be_bytes();
        write!(f, "{}{}", HexByte(high), HexByte(low))
    }
}
