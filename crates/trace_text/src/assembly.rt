//! Instructions as an assembler writes them.
ghost use Rattle.std.specs.Prelude.{◌≡◌};
ghost use Rattle.std.specs.Fmt.{WritesOnOk};
ghost use Rattle.trace_text.specs.Assembly.{branch_address, operand_text, word};
ghost use Rattle.trace_text.specs.Columns.{blanks, left};
ghost use Rattle.trace_text.specs.TraceLines.{spaced};

use mos_cpu::Mode;
use std::fmt;
use vcs_machine::{HexByte, HexWord};

/// The bytes of an instruction, in 8 columns.
#[derive(Clone, Copy)]
pub(crate) struct InstructionBytes<'a>(pub &'a [u8]);

/// Writes bytes with a space between.
fn write_spaced<W: fmt::Write>(f: &mut fmt::Formatter<W>, bytes: &[u8]) -> fmt::Result
    ensures { WritesOnOk W.write_str_gives f.old result (spaced bytes.now) f.new }
{
    let Some((first, more)) = bytes.split_first() else {
        return Ok(());
    };
    write!(f, "{}", HexByte(*first))?;
    for byte in more {
        write!(f, " {}", HexByte(*byte))?;
    }
    Ok(())
}

/// Writes so many blanks.
fn write_blanks<W: fmt::Write>(f: &mut fmt::Formatter<W>, count: usize) -> fmt::Result
    ensures { WritesOnOk W.write_str_gives f.old result (blanks count) f.new }
{
    for _ in 0..count {
        f.write_str(" ")?;
    }
    Ok(())
}

impl fmt::Display for InstructionBytes<'_> {
    ghost use Rattle.std.specs.Prelude.{Some};

    ghost output = { λ i. Some (left 8 (spaced i.0.now)) };

    fn fmt<W: fmt::Write>(&self, f: &mut fmt::Formatter<W>) -> fmt::Result {
        write_spaced(f, self.0)?;
        let width = self.0.len().saturating_mul(3).saturating_sub(1);
        write_blanks(f, 8usize.saturating_sub(width))
    }
}

/// The operand of an instruction at an address with these bytes after its opcode, in 7 columns.
#[derive(Clone, Copy)]
pub(crate) struct OperandText {
    pub mode: Mode,
    pub pc: u16,
    pub low: u8,
    pub high: u8,
}

impl OperandText {
    /// The number of the two bytes.
    fn word(self) -> HexWord
        ensures { result.0 ≡ word self.low self.high }
    {
        HexWord(u16::from_le_bytes([self.low, self.high]))
    }

    /// Where a branch leads if it is taken.
    fn target(self) -> HexWord
        ensures { result.0 ≡ branch_address self.pc self.low }
    {
        let next = self.pc.wrapping_add(2);
        let offset = if self.low >= 0x80 {
            0xFF00 + self.low as u16
        } else {
            self.low as u16
        };
        HexWord(next.wrapping_add(offset))
    }
}

impl fmt::Display for OperandText {
    ghost use Rattle.std.specs.Prelude.{Some};

    ghost output = { λ o. Some (left 7 (operand_text o.mode o.pc o.low o.high)) };

    fn fmt<W: fmt::Write>(&self, f: &mut fmt::Formatter<W>) -> fmt::Result {
        let low = HexByte(self.low);
        match self.mode {
            Mode::Implied => write!(f, "       "),
            Mode::Accumulator => write!(f, "A      "),
            Mode::Immediate => write!(f, "#${low}   "),
            Mode::ZeroPage => write!(f, "${low}    "),
            Mode::ZeroPageX => write!(f, "${low},X  "),
            Mode::ZeroPageY => write!(f, "${low},Y  "),
            Mode::Absolute => write!(f, "${}  ", self.word()),
            Mode::AbsoluteX => write!(f, "${},X", self.word()),
            Mode::AbsoluteY => write!(f, "${},Y", self.word()),
            Mode::Relative => write!(f, "${}  ", self.target()),
            Mode::Indirect => write!(f, "(${})", self.word()),
            Mode::IndirectX => write!(f, "(${low},X)"),
            Mode::IndirectY => write!(f, "(${low}),Y"),
        }
    }
}
