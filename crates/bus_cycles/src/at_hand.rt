//! Instructions whose bytes are at hand.

ghost use Rattle.std.specs.Prelude.{◌≡◌, IfSome};
ghost use Rattle.bus_cycles.specs.Private.AtHand.{IsShort, begun, byte_read, ended};
ghost use Rattle.bus_cycles.specs.Private.Steps.{IsStepOf};

use crate::bus::{CycleBus, Purpose};
use crate::class::Class;
use crate::finding::finish_branch;
use crate::held::execute_here;
use crate::near::NearBus;
use mos_cpu::{Row, RunningCpu, row};

/// An instruction of a class, and the byte after its opcode.
#[derive(Clone, Copy)]
pub struct ShortInstruction {
    pub class: Class,
    pub row: Row,
    pub opcode: u8,
    pub low: u8,
}

/// The instruction at an address, if it is of a class and its bytes are at hand.
#[inline(always)]
pub(crate) fn short_at<B: CycleBus>(bus: &B, at: u16) -> Option<ShortInstruction>
    ensures { IfSome result (λ short. IsShort B.meaning (B.state bus.now) at short) }
{
    let (opcode, low) = bus.at_hand(at)?;
    let row = row(opcode)?;
    let class = Class::of(row);
    if class == Class::Other {
        return None;
    }
    Some(ShortInstruction {
        class,
        row,
        opcode,
        low,
    })
}

/// The cycles up to the last that reads, and what it reads of page zero, if it does.
#[inline(always)]
fn begin<B: CycleBus>(bus: &mut B, at: u16, short: ShortInstruction) -> u8
    requires { IsShort B.meaning (B.state bus.old) at short }
    ensures byte { result ≡ byte_read B.meaning (B.state bus.old) at short.low short.class }
    ensures bus { B.state bus.new ≡ begun B.meaning (B.state bus.old) at short.low short.class }
{
    match short.class {
        Class::Implied | Class::Accumulator => {
            bus.read_two(at, short.low, Purpose::Discarded);
            0
        }
        Class::ZeroPageRead => {
            bus.read_two(at, short.low, Purpose::Code);
            bus.read(short.low as u16, Purpose::Data)
        }
        _ => {
            bus.read_two(at, short.low, Purpose::Code);
            0
        }
    }
}

/// The cycles after those: a branch finds its target, and a store writes.
#[inline(always)]
fn end<B: CycleBus>(
    bus: &mut B,
    at: u16,
    short: ShortInstruction,
    target: u16,
    cycles: u8,
    written: u8,
)
    ensures { B.state bus.new ≡ ended B.meaning (B.state bus.old) at short.low target cycles written short.class }
{
    if short.class == Class::Branch {
        finish_branch(bus, at.wrapping_add(2), target, cycles);
    } else if short.class == Class::ZeroPageStore {
        bus.write(short.low as u16, written);
    }
}

/// Executes such an instruction, if it isn't one of the class that finds its operand in memory, and
/// answers its cycles.
#[inline(always)]
pub(crate) fn step_at_hand<B: CycleBus>(
    cpu: &mut RunningCpu,
    bus: &mut B,
    short: ShortInstruction,
) -> u8
    requires short { IsShort B.meaning (B.state bus.old) cpu.old.pc short }
    requires class { short.class ≡ Class.MemoryRead → ⊥ }
    ensures { IsStepOf B.meaning cpu.old (B.state bus.old) result cpu.new (B.state bus.new) }
{
    let start = cpu.registers();
    let byte = begin(bus, start.pc, short);
    let mut held = NearBus::<B>::of(start.pc, short.opcode, short.low, byte);
    let cycles = execute_here(cpu, &mut held);
    let after = cpu.registers();
    end(bus, start.pc, short, after.pc, cycles, held.last());
    cycles
}
