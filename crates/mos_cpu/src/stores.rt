//! Operations that store a register, each a type of its own.

ghost use Rattle.std.specs.Prelude.{◌≡◌, ◌+◌, false, refl, if◌then◌else◌};
ghost use Rattle.mos_cpu.specs.Accesses.{stored_byte, RegisterA, RegisterX, RegisterY};
ghost use Rattle.mos_cpu.specs.declared.operation.Operation.{Operation};
ghost use Rattle.mos_cpu.specs.Private.OpcodeRuns.{IsStorer, IsRow, IsLow, IsOpcodeRun};

use crate::addressing::Target;
use crate::bus::Bus;
use crate::memory_modes::PlaceMode;
use crate::operation::Operation;
use crate::running_cpu::RunningCpu;

/// An operation that stores a register.
pub trait Storer {
    ghost use Rattle.mos_cpu.specs.Accesses.{StoredByte};

    ghost operation: { Operation };

    ghost what: { StoredByte };

    /// The byte that it stores.
    fn value(cpu: &RunningCpu) -> u8
        ensures { result ≡ stored_byte what cpu.now };

    ghost stores: { IsStorer operation what };
}

pub struct Sta;

impl Storer for Sta {
    ghost operation = { Operation.Sta };

    ghost what = { RegisterA };

    ghost stores = { record { used = refl; plain = refl; idle = λ _ _ _. refl } };

    #[inline(always)]
    fn value(cpu: &RunningCpu) -> u8 {
        cpu.a
    }
}

pub struct Stx;

impl Storer for Stx {
    ghost operation = { Operation.Stx };

    ghost what = { RegisterX };

    ghost stores = { record { used = refl; plain = refl; idle = λ _ _ _. refl } };

    #[inline(always)]
    fn value(cpu: &RunningCpu) -> u8 {
        cpu.x
    }
}

pub struct Sty;

impl Storer for Sty {
    ghost operation = { Operation.Sty };

    ghost what = { RegisterY };

    ghost stores = { record { used = refl; plain = refl; idle = λ _ _ _. refl } };

    #[inline(always)]
    fn value(cpu: &RunningCpu) -> u8 {
        cpu.y
    }
}

/// A byte is stored at a place in the last cycle.
pub fn store<O: Storer, M: PlaceMode, B: Bus>(
    cpu: &mut RunningCpu,
    bus: &mut B,
    low: u8,
) -> Option<u8>
    requires row { IsRow B.meaning (B.state bus.old) cpu.old O.operation M.mode (M.CYCLES + (if M.INDEXED then 1 else 0)) false }
    requires low { IsLow B.meaning (B.state bus.old) cpu.old low }
    ensures { IsOpcodeRun B.meaning cpu.old (B.state bus.old) result cpu.new (B.state bus.new) }
{
    let target = M::target(cpu, bus, low)?;
    let cycles = M::CYCLES + u8::from(M::INDEXED);
    let stored = O::value(cpu);
    cpu.set_pc(target.next);
    bus.pass(cycles);
    bus.write(target.address, stored);
    bus.pass(0);
    Some(cycles)
}
