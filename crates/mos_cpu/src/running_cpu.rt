//! The registers of a processor that runs.

use crate::outcome::Outcome;
use crate::registers::Cpu;
use crate::running_status::RunningStatus;
use crate::status::Flag;
use std::marker::Model;

/// The same registers as those of a `Cpu`, with P kept as it changes fastest. A caller with a loop
/// over instructions makes one of a `Cpu` before it, and a `Cpu` of it behind it.
#[derive(Drop)]
pub struct RunningCpu {
    pub(crate) a: u8,
    pub(crate) x: u8,
    pub(crate) y: u8,
    pub(crate) s: u8,
    pub(crate) status: RunningStatus,
    pub(crate) pc: u16,
}

impl Model for RunningCpu {
    ghost use Rattle.mos_cpu.specs.Registers.{Registers, IsStatus};

    ghost Value = { Registers };

    ghost view = { λ c. record { a = c.a; x = c.x; y = c.y; s = c.s; p = c.status; pc = c.pc } };

    ghost invariant = { λ c. IsStatus c.status };
}

impl RunningCpu {
    ghost use Rattle.std.specs.Prelude.{◌≡◌, true};
    ghost use Rattle.mos_cpu.specs.Effects.{with_a, with_x, with_y, with_p, with_pc};
    ghost use Rattle.mos_cpu.specs.Private.RunningStatus.{is_apart};
    ghost use Rattle.mos_cpu.specs.Registers.{IsStatus};
    ghost use Rattle.mos_cpu.specs.Status.{put_flag};

    /// The registers of a processor.
    #[inline(always)]
    pub fn of(cpu: &Cpu) -> Self
        ensures { result ≡ cpu.now }
    {
        Self {
            a: cpu.a,
            x: cpu.x,
            y: cpu.y,
            s: cpu.s,
            status: RunningStatus::of(cpu.p),
            pc: cpu.pc,
        }
    }

    /// The registers with P as a byte.
    #[inline(always)]
    pub fn registers(&self) -> Cpu
        ensures { result ≡ self.now }
    {
        Cpu {
            a: self.a,
            x: self.x,
            y: self.y,
            s: self.s,
            p: self.status.byte(),
            pc: self.pc,
        }
    }

    /// Takes A and the status of an outcome.
    #[inline(always)]
    pub(crate) fn set_a(&mut self, outcome: Outcome)
        requires { IsStatus outcome.p }
        ensures { self.new ≡ with_a self.old outcome }
    {
        self.a = outcome.value;
        self.status = outcome.status;
    }

    /// Takes X and the status of an outcome.
    #[inline(always)]
    pub(crate) fn set_x(&mut self, outcome: Outcome)
        requires { IsStatus outcome.p }
        ensures { self.new ≡ with_x self.old outcome }
    {
        self.x = outcome.value;
        self.status = outcome.status;
    }

    /// Takes Y and the status of an outcome.
    #[inline(always)]
    pub(crate) fn set_y(&mut self, outcome: Outcome)
        requires { IsStatus outcome.p }
        ensures { self.new ≡ with_y self.old outcome }
    {
        self.y = outcome.value;
        self.status = outcome.status;
    }

    /// Takes the status of an outcome alone.
    #[inline(always)]
    pub(crate) fn set_status_of(&mut self, outcome: Outcome)
        requires { IsStatus outcome.p }
        ensures { self.new ≡ with_p self.old outcome.p }
    {
        self.status = outcome.status;
    }

    #[inline(always)]
    pub(crate) fn set_status(&mut self, status: RunningStatus)
        requires { IsStatus status }
        ensures { self.new ≡ with_p self.old status }
    {
        self.status = status;
    }

    /// Sets or clears a flag other than N and Z.
    #[inline(always)]
    pub(crate) fn put_flag(&mut self, flag: Flag, on: bool)
        requires { is_apart flag ≡ true }
        ensures { self.new ≡ with_p self.old (put_flag flag on self.old.p) }
    {
        let status = self.status.with_flag(flag, on);
        self.status = status;
    }

    #[inline(always)]
    pub(crate) fn set_s(&mut self, s: u8)
        ensures { self.new ≡ record self.old { s = s } }
    {
        self.s = s;
    }

    #[inline(always)]
    pub(crate) fn set_pc(&mut self, pc: u16)
        ensures { self.new ≡ with_pc self.old pc }
    {
        self.pc = pc;
    }
}
