//! Instructions of a frame, one by one.
use arrayvec::ArrayVec;
use mos_cpu::Cpu;
use std::marker::Model;
use vcs_machine::DataAccess;

/// Most accesses of a kind for which there is room. An instruction has three at most.
pub const MOST_ACCESSES: usize = 8;

/// An instruction: the console as it was before it began, and the accesses that it then made.
#[derive(Drop)]
pub struct Executed {
    /// The scanline of the frame, counted from 0.
    pub line: u16,
    /// The cycle of that line, 0 to 75.
    pub cycle: u8,
    pub cpu: Cpu,
    /// The bank bytes of the cartridge.
    pub banks: [u8; 3],
    /// The bytes of the instruction that were fetched, its opcode first.
    pub code: ArrayVec<u8, MOST_ACCESSES>,
    /// What it read and wrote, pulled and pushed, in that order.
    pub accesses: ArrayVec<DataAccess, MOST_ACCESSES>,
}

impl Model for Executed {
    ghost use Rattle.chip_machine.specs.Instructions.{ExecutedData};

    ghost Value = { ExecutedData };

    ghost view = { λ e. record {
      line = e.line;
      cycle = e.cycle;
      registers = e.cpu;
      banks = e.banks;
      code = e.code.items;
      accesses = e.accesses.items;
    } };
}
