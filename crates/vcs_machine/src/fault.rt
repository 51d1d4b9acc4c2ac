//! Why a frame did not end.
ghost use Rattle.std.specs.Prelude.{◌≡◌, ◌↔◌, IsTrue};

use crate::hexadecimal::{HexByte, HexWord};
use mos_cpu::CpuFault;
use std::fmt;
use thiserror::Error;

/// Why a frame did not end. It is shown as the program prints it, as in `bad opcode 02 at F010`.
#[derive(Clone, Copy, Debug, PartialEq, Eq, Error)]
pub enum FaultKind {
    /// The byte at a 16-bit address is no documented opcode.
    BadOpcode { opcode: u8, at: u16 },
    /// A byte of an instruction or a vector is at a register of the TIA or the RIOT.
    FetchOutside { at: u16 },
    /// The frame has taken 24,320 cycles, which are 320 scanlines, and has not ended.
    Overlong,
}

impl fmt::Display for FaultKind {
    ghost use Rattle.std.specs.Prelude.{Some};
    ghost use Rattle.vcs_machine.specs.Faults.{fault_text};

    ghost output = { λ kind. Some (fault_text kind) };

    fn fmt<W: fmt::Write>(&self, f: &mut fmt::Formatter<W>) -> fmt::Result {
        match *self {
            FaultKind::BadOpcode { opcode, at } => write!(
                f,
                "bad opcode {} at {}",
                HexByte(opcode),
                HexWord(at)
            ),
            FaultKind::FetchOutside { at } => write!(f, "fetch outside at {}", HexWord(at)),
            FaultKind::Overlong => write!(f, "overlong"),
        }
    }
}

impl FaultKind {
    /// Whether both are the same.
    pub fn equals(self, other: FaultKind) -> bool
        ensures { IsTrue result ↔ (self ≡ other) }
    {
        match (self, other) {
            (
                FaultKind::BadOpcode { opcode, at },
                FaultKind::BadOpcode {
                    opcode: other_opcode,
                    at: other_at,
                },
            ) => { opcode == other_opcode && at == other_at }
            (FaultKind::FetchOutside { at }, FaultKind::FetchOutside { at: other_at }) => at
                == other_at,
            (FaultKind::Overlong, FaultKind::Overlong) => true,
            _ => false,
        }
    }
}

impl From<CpuFault> for FaultKind {
    ghost use Rattle.vcs_machine.specs.Faults.{kind_of};

    ghost from_gives = { λ fault kind. kind ≡ kind_of fault };

    fn from(fault: CpuFault) -> FaultKind {
        match fault {
            CpuFault::BadOpcode { opcode, at } => FaultKind::BadOpcode { opcode, at },
            CpuFault::FetchOutside { at } => FaultKind::FetchOutside { at },
        }
    }
}

/// Why a frame did not end, and after how many of its cycles it stopped.
#[derive(Clone, Copy, Debug, PartialEq, Eq)]
pub struct Halt {
    pub kind: FaultKind,
    pub cycles: u32,
}
