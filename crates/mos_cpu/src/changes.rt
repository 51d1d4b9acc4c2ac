//! Operations that change a byte, each a type of its own.

ghost use Rattle.std.specs.Prelude.{◌≡◌, ◌+◌, ◌/◌, ◌%◌, false, refl, if◌then◌else◌};
ghost use Rattle.mos_cpu.specs.Effects.{changed_of};
ghost use Rattle.mos_cpu.specs.declared.operation.Operation.{Operation};
ghost use Rattle.mos_cpu.specs.Private.OpcodeRuns.{IsChanger, IsRow, IsLow, IsOpcodeRun};

use crate::arithmetic::{dec, inc};
use crate::bus::Bus;
use crate::memory_modes::PlaceMode;
use crate::mode::Mode;
use crate::operation::Operation;
use crate::outcome::Outcome;
use crate::running_cpu::RunningCpu;
use crate::running_status::RunningStatus;
use crate::shifts::{asl, lsr, rol, ror};

/// An operation that changes a byte.
pub trait Changer {
    ghost operation: { Operation };

    /// What it makes of a byte.
    fn change(m: u8, status: &RunningStatus) -> Outcome
        ensures result { result ≡ changed_of operation m status.now }
        ensures status { result.p / 16 % 4 ≡ status.now / 16 % 4 };

    ghost changes: { IsChanger operation };
}

pub struct Asl;

impl Changer for Asl {
    ghost operation = { Operation.Asl };

    ghost changes = { record { used = refl; plain = refl; in_memory = λ _ _ _ _. refl; in_a = λ _ _. refl } };

    #[inline(always)]
    fn change(m: u8, status: &RunningStatus) -> Outcome {
        asl(m, status)
    }
}

pub struct Dec;

impl Changer for Dec {
    ghost operation = { Operation.Dec };

    ghost changes = { record { used = refl; plain = refl; in_memory = λ _ _ _ _. refl; in_a = λ _ _. refl } };

    #[inline(always)]
    fn change(m: u8, status: &RunningStatus) -> Outcome {
        dec(m, status)
    }
}

pub struct Inc;

impl Changer for Inc {
    ghost operation = { Operation.Inc };

    ghost changes = { record { used = refl; plain = refl; in_memory = λ _ _ _ _. refl; in_a = λ _ _. refl } };

    #[inline(always)]
    fn change(m: u8, status: &RunningStatus) -> Outcome {
        inc(m, status)
    }
}

pub struct Lsr;

impl Changer for Lsr {
    ghost operation = { Operation.Lsr };

    ghost changes = { record { used = refl; plain = refl; in_memory = λ _ _ _ _. refl; in_a = λ _ _. refl } };

    #[inline(always)]
    fn change(m: u8, status: &RunningStatus) -> Outcome {
        lsr(m, status)
    }
}

pub struct Rol;

impl Changer for Rol {
    ghost operation = { Operation.Rol };

    ghost changes = { record { used = refl; plain = refl; in_memory = λ _ _ _ _. refl; in_a = λ _ _. refl } };

    #[inline(always)]
    fn change(m: u8, status: &RunningStatus) -> Outcome {
        rol(m, status)
    }
}

pub struct Ror;

impl Changer for Ror {
    ghost operation = { Operation.Ror };

    ghost changes = { record { used = refl; plain = refl; in_memory = λ _ _ _ _. refl; in_a = λ _ _. refl } };

    #[inline(always)]
    fn change(m: u8, status: &RunningStatus) -> Outcome {
        ror(m, status)
    }
}

/// The byte of a place is read, written back, and written as the operation makes it, in the last
/// three cycles.
pub fn change<O: Changer, M: PlaceMode, B: Bus>(
    cpu: &mut RunningCpu,
    bus: &mut B,
    low: u8,
) -> Option<u8>
    requires row { IsRow B.meaning (B.state bus.old) cpu.old O.operation M.mode (M.CYCLES + 2 + (if M.INDEXED then 1 else 0)) false }
    requires low { IsLow B.meaning (B.state bus.old) cpu.old low }
    ensures { IsOpcodeRun B.meaning cpu.old (B.state bus.old) result cpu.new (B.state bus.new) }
{
    let target = M::target(cpu, bus, low)?;
    let reading = M::CYCLES + u8::from(M::INDEXED);
    cpu.set_pc(target.next);
    bus.pass(reading);
    let byte = bus.read(target.address);
    bus.pass(1);
    bus.write(target.address, byte);
    bus.pass(1);
    let outcome = O::change(byte, &cpu.status);
    bus.write(target.address, outcome.value);
    bus.pass(0);
    cpu.set_status_of(outcome);
    Some(reading + 2)
}

/// A is changed.
pub fn change_a<O: Changer, B: Bus>(cpu: &mut RunningCpu, bus: &mut B) -> Option<u8>
    requires { IsRow B.meaning (B.state bus.old) cpu.old O.operation Mode.Accumulator 2 false }
    ensures { IsOpcodeRun B.meaning cpu.old (B.state bus.old) result cpu.new (B.state bus.new) }
{
    cpu.set_pc(cpu.pc.wrapping_add(1));
    let outcome = O::change(cpu.a, &cpu.status);
    cpu.set_a(outcome);
    bus.pass(2);
    Some(2)
}
