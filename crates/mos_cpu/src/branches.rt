//! Branches, each a type of its own.

ghost use Rattle.std.specs.Prelude.{◌≡◌, false, refl};
ghost use Rattle.mos_cpu.specs.Accesses.{is_taken};
ghost use Rattle.mos_cpu.specs.declared.operation.Operation.{Operation};
ghost use Rattle.mos_cpu.specs.Private.OpcodeRuns.{IsBranch, IsRow, IsLow, IsOpcodeRun};

use crate::addressing::branch_by;
use crate::bus::Bus;
use crate::mode::Mode;
use crate::operation::Operation;
use crate::running_cpu::RunningCpu;
use crate::running_status::RunningStatus;
use crate::status::Flag;

/// A branch.
pub trait Conditional {
    ghost operation: { Operation };

    /// Whether it is taken at a status.
    fn is_taken(status: &RunningStatus) -> bool
        ensures { result ≡ is_taken operation status.now };

    ghost goes: { IsBranch operation };
}

pub struct Bcc;

impl Conditional for Bcc {
    ghost operation = { Operation.Bcc };

    ghost goes = { record { untouched = λ _ _ _. refl; plain = refl; goes = λ _ _ _. refl } };

    #[inline(always)]
    fn is_taken(status: &RunningStatus) -> bool {
        !status.has(Flag::Carry)
    }
}

pub struct Bcs;

impl Conditional for Bcs {
    ghost operation = { Operation.Bcs };

    ghost goes = { record { untouched = λ _ _ _. refl; plain = refl; goes = λ _ _ _. refl } };

    #[inline(always)]
    fn is_taken(status: &RunningStatus) -> bool {
        status.has(Flag::Carry)
    }
}

pub struct Beq;

impl Conditional for Beq {
    ghost operation = { Operation.Beq };

    ghost goes = { record { untouched = λ _ _ _. refl; plain = refl; goes = λ _ _ _. refl } };

    #[inline(always)]
    fn is_taken(status: &RunningStatus) -> bool {
        status.has(Flag::Zero)
    }
}

pub struct Bmi;

impl Conditional for Bmi {
    ghost operation = { Operation.Bmi };

    ghost goes = { record { untouched = λ _ _ _. refl; plain = refl; goes = λ _ _ _. refl } };

    #[inline(always)]
    fn is_taken(status: &RunningStatus) -> bool {
        status.has(Flag::Negative)
    }
}

pub struct Bne;

impl Conditional for Bne {
    ghost operation = { Operation.Bne };

    ghost goes = { record { untouched = λ _ _ _. refl; plain = refl; goes = λ _ _ _. refl } };

    #[inline(always)]
    fn is_taken(status: &RunningStatus) -> bool {
        !status.has(Flag::Zero)
    }
}

pub struct Bpl;

impl Conditional for Bpl {
    ghost operation = { Operation.Bpl };

    ghost goes = { record { untouched = λ _ _ _. refl; plain = refl; goes = λ _ _ _. refl } };

    #[inline(always)]
    fn is_taken(status: &RunningStatus) -> bool {
        !status.has(Flag::Negative)
    }
}

pub struct Bvc;

impl Conditional for Bvc {
    ghost operation = { Operation.Bvc };

    ghost goes = { record { untouched = λ _ _ _. refl; plain = refl; goes = λ _ _ _. refl } };

    #[inline(always)]
    fn is_taken(status: &RunningStatus) -> bool {
        !status.has(Flag::Overflow)
    }
}

pub struct Bvs;

impl Conditional for Bvs {
    ghost operation = { Operation.Bvs };

    ghost goes = { record { untouched = λ _ _ _. refl; plain = refl; goes = λ _ _ _. refl } };

    #[inline(always)]
    fn is_taken(status: &RunningStatus) -> bool {
        status.has(Flag::Overflow)
    }
}

/// A branch by the byte after the opcode. If it is taken it has one cycle more, and if its
/// target is on another page than the next instruction, two.
pub fn branch<O: Conditional, B: Bus>(cpu: &mut RunningCpu, bus: &mut B, low: u8) -> Option<u8>
    requires row { IsRow B.meaning (B.state bus.old) cpu.old O.operation Mode.Relative 2 false }
    requires low { IsLow B.meaning (B.state bus.old) cpu.old low }
    ensures { IsOpcodeRun B.meaning cpu.old (B.state bus.old) result cpu.new (B.state bus.new) }
{
    let next = cpu.pc.wrapping_add(2);
    if !O::is_taken(&cpu.status) {
        cpu.set_pc(next);
        bus.pass(2);
        return Some(2);
    }
    let target = branch_by(next, low);
    cpu.set_pc(target.address);
    if target.crossed {
        bus.pass(4);
        Some(4)
    } else {
        bus.pass(3);
        Some(3)
    }
}
