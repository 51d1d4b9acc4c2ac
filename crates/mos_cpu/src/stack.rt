//! Jumps, and operations of the stack, which is page 1.

ghost use Rattle.std.specs.Prelude.{◌≡◌, ◌+◌, false};
ghost use Rattle.mos_cpu.specs.Registers.{after_pushes, after_pulls};
ghost use Rattle.mos_cpu.specs.Private.OpcodeRuns.{IsRow, IsLow, IsOpcodeRun};

use crate::addressing::{next_in_page, word_after};
use crate::arithmetic::load;
use crate::bus::Bus;
use crate::mode::Mode;
use crate::operation::Operation;
use crate::running_cpu::RunningCpu;
use crate::running_status::RunningStatus;
use crate::status::{Flag, pulled_status, pushed_status};

/// Where the n-th push goes, counted from 0.
#[inline(always)]
fn pushed_at(s: u8, n: u8) -> u16
    ensures { result ≡ 256 + after_pushes s n }
{
    0x100 + s.wrapping_sub(n) as u16
}

/// Where the n-th pull comes from, counted from 1.
#[inline(always)]
fn pulled_at(s: u8, n: u8) -> u16
    ensures { result ≡ 256 + after_pulls s n }
{
    0x100 + s.wrapping_add(n) as u16
}

/// JMP to the address after the opcode.
#[tactic(auto, using(crate::proofs::OpcodeRunLemmas::outside))]
pub fn jmp<B: Bus>(cpu: &mut RunningCpu, bus: &mut B, low: u8) -> Option<u8>
    requires row { IsRow B.meaning (B.state bus.old) cpu.old Operation.Jmp Mode.Absolute 3 false }
    requires low { IsLow B.meaning (B.state bus.old) cpu.old low }
    ensures { IsOpcodeRun B.meaning cpu.old (B.state bus.old) result cpu.new (B.state bus.new) }
{
    let target = word_after(cpu, bus, low)?;
    cpu.set_pc(target);
    bus.pass(3);
    Some(3)
}

/// JSR: pushes the address of its last byte, high byte first, and jumps.
#[tactic(auto, using(crate::proofs::OpcodeRunLemmas::outside))]
pub fn jsr<B: Bus>(cpu: &mut RunningCpu, bus: &mut B, low: u8) -> Option<u8>
    requires row { IsRow B.meaning (B.state bus.old) cpu.old Operation.Jsr Mode.Absolute 6 false }
    requires low { IsLow B.meaning (B.state bus.old) cpu.old low }
    ensures { IsOpcodeRun B.meaning cpu.old (B.state bus.old) result cpu.new (B.state bus.new) }
{
    let target = word_after(cpu, bus, low)?;
    let [return_low, return_high] = cpu.pc.wrapping_add(2).to_le_bytes();
    bus.pass(4);
    bus.write(pushed_at(cpu.s, 0), return_high);
    bus.pass(1);
    bus.write(pushed_at(cpu.s, 1), return_low);
    bus.pass(1);
    cpu.set_s(cpu.s.wrapping_sub(2));
    cpu.set_pc(target);
    Some(6)
}

/// RTS: pulls an address, and goes to the one after it.
pub fn rts<B: Bus>(cpu: &mut RunningCpu, bus: &mut B) -> Option<u8>
    requires { IsRow B.meaning (B.state bus.old) cpu.old Operation.Rts Mode.Implied 6 false }
    ensures { IsOpcodeRun B.meaning cpu.old (B.state bus.old) result cpu.new (B.state bus.new) }
{
    bus.pass(4);
    let low = bus.read(pulled_at(cpu.s, 1));
    bus.pass(1);
    let high = bus.read(pulled_at(cpu.s, 2));
    bus.pass(1);
    cpu.set_s(cpu.s.wrapping_add(2));
    cpu.set_pc(u16::from_le_bytes([low, high]).wrapping_add(1));
    Some(6)
}

/// PHA: pushes A.
pub fn pha<B: Bus>(cpu: &mut RunningCpu, bus: &mut B) -> Option<u8>
    requires { IsRow B.meaning (B.state bus.old) cpu.old Operation.Pha Mode.Implied 3 false }
    ensures { IsOpcodeRun B.meaning cpu.old (B.state bus.old) result cpu.new (B.state bus.new) }
{
    bus.pass(3);
    bus.write(pushed_at(cpu.s, 0), cpu.a);
    bus.pass(0);
    cpu.set_s(cpu.s.wrapping_sub(1));
    cpu.set_pc(cpu.pc.wrapping_add(1));
    Some(3)
}

/// PLA: pulls A, with N and Z.
pub fn pla<B: Bus>(cpu: &mut RunningCpu, bus: &mut B) -> Option<u8>
    requires { IsRow B.meaning (B.state bus.old) cpu.old Operation.Pla Mode.Implied 4 false }
    ensures { IsOpcodeRun B.meaning cpu.old (B.state bus.old) result cpu.new (B.state bus.new) }
{
    bus.pass(4);
    let byte = bus.read(pulled_at(cpu.s, 1));
    bus.pass(0);
    cpu.set_s(cpu.s.wrapping_add(1));
    let outcome = load(byte, &cpu.status);
    cpu.set_a(outcome);
    cpu.set_pc(cpu.pc.wrapping_add(1));
    Some(4)
}

/// PHP: pushes the status, with bits 5 and 4 set.
pub fn php<B: Bus>(cpu: &mut RunningCpu, bus: &mut B) -> Option<u8>
    requires { IsRow B.meaning (B.state bus.old) cpu.old Operation.Php Mode.Implied 3 false }
    ensures { IsOpcodeRun B.meaning cpu.old (B.state bus.old) result cpu.new (B.state bus.new) }
{
    bus.pass(3);
    bus.write(pushed_at(cpu.s, 0), pushed_status(cpu.status.byte()));
    bus.pass(0);
    cpu.set_s(cpu.s.wrapping_sub(1));
    cpu.set_pc(cpu.pc.wrapping_add(1));
    Some(3)
}

/// PLP: pulls the status.
pub fn plp<B: Bus>(cpu: &mut RunningCpu, bus: &mut B) -> Option<u8>
    requires { IsRow B.meaning (B.state bus.old) cpu.old Operation.Plp Mode.Implied 4 false }
    ensures { IsOpcodeRun B.meaning cpu.old (B.state bus.old) result cpu.new (B.state bus.new) }
{
    bus.pass(4);
    let byte = bus.read(pulled_at(cpu.s, 1));
    bus.pass(0);
    cpu.set_s(cpu.s.wrapping_add(1));
    cpu.set_status(RunningStatus::of(pulled_status(byte)));
    cpu.set_pc(cpu.pc.wrapping_add(1));
    Some(4)
}

/// RTI: pulls the status and an address, and goes there.
pub fn rti<B: Bus>(cpu: &mut RunningCpu, bus: &mut B) -> Option<u8>
    requires { IsRow B.meaning (B.state bus.old) cpu.old Operation.Rti Mode.Implied 6 false }
    ensures { IsOpcodeRun B.meaning cpu.old (B.state bus.old) result cpu.new (B.state bus.new) }
{
    bus.pass(4);
    let status = bus.read(pulled_at(cpu.s, 1));
    bus.pass(1);
    let low = bus.read(pulled_at(cpu.s, 2));
    bus.pass(1);
    let high = bus.read(pulled_at(cpu.s, 3));
    bus.pass(0);
    cpu.set_s(cpu.s.wrapping_add(3));
    cpu.set_status(RunningStatus::of(pulled_status(status)));
    cpu.set_pc(u16::from_le_bytes([low, high]));
    Some(6)
}

/// BRK: pushes the address two bytes on and the status, sets I, and goes where the vector says.
pub fn brk<B: Bus>(cpu: &mut RunningCpu, bus: &mut B) -> Option<u8>
    requires { IsRow B.meaning (B.state bus.old) cpu.old Operation.Brk Mode.Implied 7 false }
    ensures { IsOpcodeRun B.meaning cpu.old (B.state bus.old) result cpu.new (B.state bus.new) }
{
    let low = bus.peek(0xFFFE)?;
    let high = bus.peek(0xFFFF)?;
    let [return_low, return_high] = cpu.pc.wrapping_add(2).to_le_bytes();
    bus.pass(3);
    bus.write(pushed_at(cpu.s, 0), return_high);
    bus.pass(1);
    bus.write(pushed_at(cpu.s, 1), return_low);
    bus.pass(1);
    bus.write(pushed_at(cpu.s, 2), pushed_status(cpu.status.byte()));
    bus.pass(2);
    cpu.set_s(cpu.s.wrapping_sub(3));
    cpu.put_flag(Flag::Interrupt, true);
    cpu.set_pc(u16::from_le_bytes([low, high]));
    Some(7)
}

/// JMP to the address that stands at the one after the opcode.
#[tactic(auto, using(crate::proofs::OpcodeRunLemmas::outside))]
pub fn jmp_indirect<B: Bus>(cpu: &mut RunningCpu, bus: &mut B, low: u8) -> Option<u8>
    requires row { IsRow B.meaning (B.state bus.old) cpu.old Operation.Jmp Mode.Indirect 5 false }
    requires low { IsLow B.meaning (B.state bus.old) cpu.old low }
    ensures { IsOpcodeRun B.meaning cpu.old (B.state bus.old) result cpu.new (B.state bus.new) }
{
    let at = word_after(cpu, bus, low)?;
    let target_low = bus.peek(at)?;
    let target_high = bus.peek(next_in_page(at))?;
    cpu.set_pc(u16::from_le_bytes([target_low, target_high]));
    bus.pass(5);
    Some(5)
}
