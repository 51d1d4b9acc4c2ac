//! Operations that read a byte, each a type of its own.

ghost use Rattle.std.specs.Prelude.{◌≡◌, ◌+◌, [], false, refl};
ghost use Rattle.mos_cpu.specs.Effects.{effect};
ghost use Rattle.mos_cpu.specs.Operands.{Value};
ghost use Rattle.mos_cpu.specs.declared.operation.Operation.{Operation};
ghost use Rattle.mos_cpu.specs.Private.OpcodeRuns.{IsReader, IsRow, IsLow, IsOpcodeRun};

use crate::addressing::Target;
use crate::arithmetic::{and, bit, compare, eor, load, ora};
use crate::bus::Bus;
use crate::memory_modes::PlaceMode;
use crate::mode::Mode;
use crate::operation::Operation;
use crate::running_cpu::RunningCpu;
use crate::sums::{adc, sbc};

/// An operation that reads a byte.
pub trait Reader {
    ghost operation: { Operation };

    /// What it does to the registers with a byte.
    fn take(cpu: &mut RunningCpu, m: u8)
        ensures { cpu.new ≡ effect operation (Value m) cpu.old [] };

    ghost reads: { IsReader operation };
}

pub struct Adc;

impl Reader for Adc {
    ghost operation = { Operation.Adc };

    ghost reads = { record { used = refl; plain = refl; same = λ _ _ _ _. refl } };

    #[inline(always)]
    fn take(cpu: &mut RunningCpu, m: u8) {
        let outcome = adc(cpu.a, m, &cpu.status);
        cpu.set_a(outcome);
    }
}

pub struct And;

impl Reader for And {
    ghost operation = { Operation.And };

    ghost reads = { record { used = refl; plain = refl; same = λ _ _ _ _. refl } };

    #[inline(always)]
    fn take(cpu: &mut RunningCpu, m: u8) {
        let outcome = and(cpu.a, m, &cpu.status);
        cpu.set_a(outcome);
    }
}

pub struct Bit;

impl Reader for Bit {
    ghost operation = { Operation.Bit };

    ghost reads = { record { used = refl; plain = refl; same = λ _ _ _ _. refl } };

    #[inline(always)]
    fn take(cpu: &mut RunningCpu, m: u8) {
        let outcome = bit(cpu.a, m, &cpu.status);
        cpu.set_status_of(outcome);
    }
}

pub struct Cmp;

impl Reader for Cmp {
    ghost operation = { Operation.Cmp };

    ghost reads = { record { used = refl; plain = refl; same = λ _ _ _ _. refl } };

    #[inline(always)]
    fn take(cpu: &mut RunningCpu, m: u8) {
        let outcome = compare(cpu.a, m, &cpu.status);
        cpu.set_status_of(outcome);
    }
}

pub struct Cpx;

impl Reader for Cpx {
    ghost operation = { Operation.Cpx };

    ghost reads = { record { used = refl; plain = refl; same = λ _ _ _ _. refl } };

    #[inline(always)]
    fn take(cpu: &mut RunningCpu, m: u8) {
        let outcome = compare(cpu.x, m, &cpu.status);
        cpu.set_status_of(outcome);
    }
}

pub struct Cpy;

impl Reader for Cpy {
    ghost operation = { Operation.Cpy };

    ghost reads = { record { used = refl; plain = refl; same = λ _ _ _ _. refl } };

    #[inline(always)]
    fn take(cpu: &mut RunningCpu, m: u8) {
        let outcome = compare(cpu.y, m, &cpu.status);
        cpu.set_status_of(outcome);
    }
}

pub struct Eor;

impl Reader for Eor {
    ghost operation = { Operation.Eor };

    ghost reads = { record { used = refl; plain = refl; same = λ _ _ _ _. refl } };

    #[inline(always)]
    fn take(cpu: &mut RunningCpu, m: u8) {
        let outcome = eor(cpu.a, m, &cpu.status);
        cpu.set_a(outcome);
    }
}

pub struct Lda;

impl Reader for Lda {
    ghost operation = { Operation.Lda };

    ghost reads = { record { used = refl; plain = refl; same = λ _ _ _ _. refl } };

    #[inline(always)]
    fn take(cpu: &mut RunningCpu, m: u8) {
        let outcome = load(m, &cpu.status);
        cpu.set_a(outcome);
    }
}

pub struct Ldx;

impl Reader for Ldx {
    ghost operation = { Operation.Ldx };

    ghost reads = { record { used = refl; plain = refl; same = λ _ _ _ _. refl } };

    #[inline(always)]
    fn take(cpu: &mut RunningCpu, m: u8) {
        let outcome = load(m, &cpu.status);
        cpu.set_x(outcome);
    }
}

pub struct Ldy;

impl Reader for Ldy {
    ghost operation = { Operation.Ldy };

    ghost reads = { record { used = refl; plain = refl; same = λ _ _ _ _. refl } };

    #[inline(always)]
    fn take(cpu: &mut RunningCpu, m: u8) {
        let outcome = load(m, &cpu.status);
        cpu.set_y(outcome);
    }
}

pub struct Ora;

impl Reader for Ora {
    ghost operation = { Operation.Ora };

    ghost reads = { record { used = refl; plain = refl; same = λ _ _ _ _. refl } };

    #[inline(always)]
    fn take(cpu: &mut RunningCpu, m: u8) {
        let outcome = ora(cpu.a, m, &cpu.status);
        cpu.set_a(outcome);
    }
}

pub struct Sbc;

impl Reader for Sbc {
    ghost operation = { Operation.Sbc };

    ghost reads = { record { used = refl; plain = refl; same = λ _ _ _ _. refl } };

    #[inline(always)]
    fn take(cpu: &mut RunningCpu, m: u8) {
        let outcome = sbc(cpu.a, m, &cpu.status);
        cpu.set_a(outcome);
    }
}

/// An operation with the byte of a place, which is read in the last cycle.
pub fn read<O: Reader, M: PlaceMode, B: Bus>(
    cpu: &mut RunningCpu,
    bus: &mut B,
    low: u8,
) -> Option<u8>
    requires row { IsRow B.meaning (B.state bus.old) cpu.old O.operation M.mode M.CYCLES M.INDEXED }
    requires low { IsLow B.meaning (B.state bus.old) cpu.old low }
    ensures { IsOpcodeRun B.meaning cpu.old (B.state bus.old) result cpu.new (B.state bus.new) }
{
    let Target {
        address,
        crossed,
        next,
    } = M::target(cpu, bus, low)?;
    let cycles = M::CYCLES + u8::from(M::INDEXED & crossed);
    cpu.set_pc(next);
    bus.pass(cycles);
    let m = bus.read(address);
    bus.pass(0);
    O::take(cpu, m);
    Some(cycles)
}

/// An operation with the byte after the opcode.
pub fn value<O: Reader, B: Bus>(cpu: &mut RunningCpu, bus: &mut B, low: u8) -> Option<u8>
    requires row { IsRow B.meaning (B.state bus.old) cpu.old O.operation Mode.Immediate 2 false }
    requires low { IsLow B.meaning (B.state bus.old) cpu.old low }
    ensures { IsOpcodeRun B.meaning cpu.old (B.state bus.old) result cpu.new (B.state bus.new) }
{
    cpu.set_pc(cpu.pc.wrapping_add(2));
    O::take(cpu, low);
    bus.pass(2);
    Some(2)
}
