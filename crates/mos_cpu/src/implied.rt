//! Operations on registers alone, each a type of its own.

ghost use Rattle.std.specs.Prelude.{◌≡◌, [], false, refl};
ghost use Rattle.mos_cpu.specs.Effects.{effect};
ghost use Rattle.mos_cpu.specs.Operands.{Register};
ghost use Rattle.mos_cpu.specs.declared.operation.Operation.{Operation};
ghost use Rattle.mos_cpu.specs.Private.OpcodeRuns.{IsImplied, IsRow, IsOpcodeRun};

use crate::arithmetic::{dec, inc, load};
use crate::bus::Bus;
use crate::mode::Mode;
use crate::operation::Operation;
use crate::running_cpu::RunningCpu;
use crate::status::Flag;

/// An operation on registers alone.
pub trait ImpliedOperation {
    ghost operation: { Operation };

    /// What it does to the registers.
    fn act(cpu: &mut RunningCpu)
        ensures { cpu.new ≡ effect operation Register cpu.old [] };

    ghost implied: { IsImplied operation };
}

pub struct Clc;

impl ImpliedOperation for Clc {
    ghost operation = { Operation.Clc };

    ghost implied = { record { used = refl; plain = refl } };

    #[inline(always)]
    fn act(cpu: &mut RunningCpu) {
        cpu.put_flag(Flag::Carry, false);
    }
}

pub struct Cld;

impl ImpliedOperation for Cld {
    ghost operation = { Operation.Cld };

    ghost implied = { record { used = refl; plain = refl } };

    #[inline(always)]
    fn act(cpu: &mut RunningCpu) {
        cpu.put_flag(Flag::Decimal, false);
    }
}

pub struct Cli;

impl ImpliedOperation for Cli {
    ghost operation = { Operation.Cli };

    ghost implied = { record { used = refl; plain = refl } };

    #[inline(always)]
    fn act(cpu: &mut RunningCpu) {
        cpu.put_flag(Flag::Interrupt, false);
    }
}

pub struct Clv;

impl ImpliedOperation for Clv {
    ghost operation = { Operation.Clv };

    ghost implied = { record { used = refl; plain = refl } };

    #[inline(always)]
    fn act(cpu: &mut RunningCpu) {
        cpu.put_flag(Flag::Overflow, false);
    }
}

pub struct Dex;

impl ImpliedOperation for Dex {
    ghost operation = { Operation.Dex };

    ghost implied = { record { used = refl; plain = refl } };

    #[inline(always)]
    fn act(cpu: &mut RunningCpu) {
        let outcome = dec(cpu.x, &cpu.status);
        cpu.set_x(outcome);
    }
}

pub struct Dey;

impl ImpliedOperation for Dey {
    ghost operation = { Operation.Dey };

    ghost implied = { record { used = refl; plain = refl } };

    #[inline(always)]
    fn act(cpu: &mut RunningCpu) {
        let outcome = dec(cpu.y, &cpu.status);
        cpu.set_y(outcome);
    }
}

pub struct Inx;

impl ImpliedOperation for Inx {
    ghost operation = { Operation.Inx };

    ghost implied = { record { used = refl; plain = refl } };

    #[inline(always)]
    fn act(cpu: &mut RunningCpu) {
        let outcome = inc(cpu.x, &cpu.status);
        cpu.set_x(outcome);
    }
}

pub struct Iny;

impl ImpliedOperation for Iny {
    ghost operation = { Operation.Iny };

    ghost implied = { record { used = refl; plain = refl } };

    #[inline(always)]
    fn act(cpu: &mut RunningCpu) {
        let outcome = inc(cpu.y, &cpu.status);
        cpu.set_y(outcome);
    }
}

pub struct Nop;

impl ImpliedOperation for Nop {
    ghost operation = { Operation.Nop };

    ghost implied = { record { used = refl; plain = refl } };

    #[inline(always)]
    fn act(cpu: &mut RunningCpu) {}
}

pub struct Sec;

impl ImpliedOperation for Sec {
    ghost operation = { Operation.Sec };

    ghost implied = { record { used = refl; plain = refl } };

    #[inline(always)]
    fn act(cpu: &mut RunningCpu) {
        cpu.put_flag(Flag::Carry, true);
    }
}

pub struct Sed;

impl ImpliedOperation for Sed {
    ghost operation = { Operation.Sed };

    ghost implied = { record { used = refl; plain = refl } };

    #[inline(always)]
    fn act(cpu: &mut RunningCpu) {
        cpu.put_flag(Flag::Decimal, true);
    }
}

pub struct Sei;

impl ImpliedOperation for Sei {
    ghost operation = { Operation.Sei };

    ghost implied = { record { used = refl; plain = refl } };

    #[inline(always)]
    fn act(cpu: &mut RunningCpu) {
        cpu.put_flag(Flag::Interrupt, true);
    }
}

pub struct Tax;

impl ImpliedOperation for Tax {
    ghost operation = { Operation.Tax };

    ghost implied = { record { used = refl; plain = refl } };

    #[inline(always)]
    fn act(cpu: &mut RunningCpu) {
        let outcome = load(cpu.a, &cpu.status);
        cpu.set_x(outcome);
    }
}

pub struct Tay;

impl ImpliedOperation for Tay {
    ghost operation = { Operation.Tay };

    ghost implied = { record { used = refl; plain = refl } };

    #[inline(always)]
    fn act(cpu: &mut RunningCpu) {
        let outcome = load(cpu.a, &cpu.status);
        cpu.set_y(outcome);
    }
}

pub struct Tsx;

impl ImpliedOperation for Tsx {
    ghost operation = { Operation.Tsx };

    ghost implied = { record { used = refl; plain = refl } };

    #[inline(always)]
    fn act(cpu: &mut RunningCpu) {
        let outcome = load(cpu.s, &cpu.status);
        cpu.set_x(outcome);
    }
}

pub struct Txa;

impl ImpliedOperation for Txa {
    ghost operation = { Operation.Txa };

    ghost implied = { record { used = refl; plain = refl } };

    #[inline(always)]
    fn act(cpu: &mut RunningCpu) {
        let outcome = load(cpu.x, &cpu.status);
        cpu.set_a(outcome);
    }
}

pub struct Txs;

impl ImpliedOperation for Txs {
    ghost operation = { Operation.Txs };

    ghost implied = { record { used = refl; plain = refl } };

    #[inline(always)]
    fn act(cpu: &mut RunningCpu) {
        cpu.set_s(cpu.x);
    }
}

pub struct Tya;

impl ImpliedOperation for Tya {
    ghost operation = { Operation.Tya };

    ghost implied = { record { used = refl; plain = refl } };

    #[inline(always)]
    fn act(cpu: &mut RunningCpu) {
        let outcome = load(cpu.y, &cpu.status);
        cpu.set_a(outcome);
    }
}

/// An operation on registers, whose opcode is the whole instruction.
pub fn implied<O: ImpliedOperation, B: Bus>(cpu: &mut RunningCpu, bus: &mut B) -> Option<u8>
    requires { IsRow B.meaning (B.state bus.old) cpu.old O.operation Mode.Implied 2 false }
    ensures { IsOpcodeRun B.meaning cpu.old (B.state bus.old) result cpu.new (B.state bus.new) }
{
    cpu.set_pc(cpu.pc.wrapping_add(1));
    O::act(cpu);
    bus.pass(2);
    Some(2)
}
