//! Instructions of a frame, one by one.
use arrayvec::ArrayVec;
use mos_cpu::Cpu;
use std::marker::Model;

/// Most data accesses for which there is room. An instruction has three at most.
pub const MOST_ACCESSES: usize = 8;

/// A data access: the byte that was read from an address of 16 bits, or written there.
#[derive(Clone, Copy, Debug, Default, PartialEq, Eq)]
pub struct DataAccess {
    pub is_write: bool,
    pub address: u16,
    pub byte: u8,
}

/// An instruction as it was before it began, with the data accesses that it then made.
#[derive(Drop)]
pub struct Executed {
    /// The scanline of the frame, counted from 0.
    pub line: u16,
    /// The cycle of that line, 0 to 75.
    pub cycle: u8,
    pub cpu: Cpu,
    /// The selected bank of the cartridge.
    pub bank: u8,
    pub opcode: u8,
    /// The two bytes after the opcode. One that isn't the instruction's may be 0 instead.
    pub low: u8,
    pub high: u8,
    /// In their order.
    pub accesses: ArrayVec<DataAccess, MOST_ACCESSES>,
}

impl Model for Executed {
    ghost use Rattle.vcs_machine.specs.Instructions.{ExecutedData};

    ghost Value = { ExecutedData };

    ghost view = { λ e. record {
      line = e.line;
      cycle = e.cycle;
      registers = e.cpu;
      bank = e.bank;
      opcode = e.opcode;
      low = e.low;
      high = e.high;
      accesses = e.accesses.items;
    } };
}
