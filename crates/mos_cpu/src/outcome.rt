//! A value and a status that running instructions make.

use crate::arithmetic::Alu;
use crate::running_status::RunningStatus;
use std::marker::Model;

/// A value and the status that comes with it, as those of an `Alu`.
#[derive(Drop)]
pub struct Outcome {
    pub value: u8,
    pub status: RunningStatus,
}

impl Model for Outcome {
    ghost use Rattle.mos_cpu.specs.declared.arithmetic.Alu.{Alu};

    ghost Value = { Alu };

    ghost view = { λ o. record { value = o.value; p = o.status } };
}

impl Outcome {
    ghost use Rattle.std.specs.Prelude.{◌≡◌};

    #[inline(always)]
    pub const fn of(alu: &Alu) -> Self
        ensures { result ≡ alu.now }
    {
        Self {
            value: alu.value,
            status: RunningStatus::of(alu.p),
        }
    }

    /// The outcome with its status as a byte.
    #[inline(always)]
    pub const fn alu(&self) -> Alu
        ensures { result ≡ self.now }
    {
        Alu {
            value: self.value,
            p: self.status.byte(),
        }
    }
}
