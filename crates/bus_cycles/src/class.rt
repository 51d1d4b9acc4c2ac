//! Which instructions are done in one go where their bytes are at hand.

ghost use Rattle.std.specs.Prelude.{◌≡◌};
ghost use Rattle.bus_cycles.specs.Private.Classes.{class_of};

use crate::kind::Kind;
use mos_cpu::{Mode, Row};

/// Instructions that are alike in their cycles, and that programs mostly consist of: of one byte or
/// two, and those that read memory.
#[derive(Clone, Copy, Debug, PartialEq, Eq)]
pub(crate) enum Class {
    /// Touches registers alone.
    Implied,
    /// Changes A.
    Accumulator,
    /// Reads the byte after the opcode.
    Immediate,
    /// Goes elsewhere if its test is met.
    Branch,
    /// Reads a byte of page zero.
    ZeroPageRead,
    /// Stores a register there.
    ZeroPageStore,
    /// Reads a byte that other modes find.
    MemoryRead,
    Other,
}

impl Class {
    #[inline(always)]
    pub(crate) fn of(row: Row) -> Class
        ensures { result ≡ class_of row }
    {
        match Kind::of(row.operation) {
            Kind::Implied => Class::Implied,
            Kind::Branch => Class::Branch,
            Kind::Change => match row.mode {
                Mode::Accumulator => Class::Accumulator,
                _ => Class::Other,
            },
            Kind::Read => match row.mode {
                Mode::Immediate => Class::Immediate,
                Mode::ZeroPage => Class::ZeroPageRead,
                _ => Class::MemoryRead,
            },
            Kind::Store => match row.mode {
                Mode::ZeroPage => Class::ZeroPageStore,
                _ => Class::Other,
            },
            _ => Class::Other,
        }
    }
}
