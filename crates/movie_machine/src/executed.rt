//! Instructions of a frame, one by one.
use arrayvec::ArrayVec;
use mos_cpu::Cpu;
use std::marker::Model;
use vcs_machine::DataAccess;

/// Most bytes and accesses of an instruction for which there is room. It has three at most.
pub const MOST_ACCESSES: usize = 8;

/// Most banks that are selected at once.
pub const MOST_BANKS: usize = 3;

/// An instruction: the console as it was before it began, and the accesses that it then made.
#[derive(Drop)]
pub struct Executed {
    /// The scanline of the frame, counted from 0.
    pub line: u16,
    /// The cycle of that line, 0 to 75.
    pub cycle: u8,
    pub cpu: Cpu,
    /// The selected banks, of a cartridge that has some.
    pub banks: ArrayVec<u8, MOST_BANKS>,
    /// The bytes of the instruction, its opcode first.
    pub code: ArrayVec<u8, MOST_ACCESSES>,
    /// What it read and wrote, in that order.
    pub accesses: ArrayVec<DataAccess, MOST_ACCESSES>,
}

impl Model for Executed {
    ghost use Rattle.movie_machine.specs.Instructions.{ExecutedData};

    ghost Value = { ExecutedData };

    ghost view = { λ e. record {
      line = e.line;
      cycle = e.cycle;
      registers = e.cpu;
      banks = e.banks.items;
      code = e.code.items;
      accesses = e.accesses.items;
    } };
}
