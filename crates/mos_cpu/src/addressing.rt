//! Where the operand of an instruction is.

ghost use Rattle.std.specs.Prelude.{◌≡◌, ◌+◌, ◌*◌, ◌/◌, ◌%◌, false, IfSome, IfNone, IsErr, Ok};
ghost use Rattle.mos_cpu.specs.Operands.{Place, operand_word, pointer_at, indexed_place};
ghost use Rattle.mos_cpu.specs.Operands.{branch_target, next_in_page_of};
ghost use Rattle.mos_cpu.specs.Private.OpcodeRuns.{IsLow};

use crate::bus::Bus;
use crate::running_cpu::RunningCpu;

/// The pointer at a place in page zero, where it wraps.
#[inline(always)]
pub fn pointer<B: Bus>(bus: &B, at: u8) -> u16
    ensures { result ≡ pointer_at B.meaning (B.state bus.now) at }
{
    u16::from_le_bytes([bus.peek_zero(at), bus.peek_zero(at.wrapping_add(1))])
}

/// The next address of the same page, or its first one after its last.
#[tactic(auto, using(crate::proofs::OperandLemmas::page_next))]
#[inline(always)]
pub fn next_in_page(at: u16) -> u16
    ensures { result ≡ next_in_page_of at }
{
    at & 0xFF00 | at.wrapping_add(1) & 0xFF
}

/// A place that an instruction names, and the address of the next instruction.
#[derive(Clone, Copy)]
pub struct Target {
    pub address: u16,
    pub crossed: bool,
    pub next: u16,
}

/// The number of the two bytes after the opcode. None if the second isn't there.
#[inline(always)]
pub fn word_after<B: Bus>(cpu: &RunningCpu, bus: &B, low: u8) -> Option<u16>
    requires { IsLow B.meaning (B.state bus.now) cpu.now low }
    ensures some { IfSome result (λ word. operand_word B.meaning (B.state bus.now) cpu.now ≡ Ok word) }
    ensures none { IfNone result (IsErr (operand_word B.meaning (B.state bus.now) cpu.now)) }
{
    let high = bus.peek(cpu.pc.wrapping_add(2))?;
    Some(u16::from_le_bytes([low, high]))
}

/// A place with an index added.
#[inline(always)]
pub fn offset_by(base: u16, index: u16, next: u16) -> Target
    ensures place { Place result.address result.crossed ≡ indexed_place base index }
    ensures next { result.next ≡ next }
{
    let address = base.wrapping_add(index);
    Target {
        address,
        crossed: base >> 8 != address >> 8,
        next,
    }
}

/// A place that was reached with no index.
#[inline(always)]
pub fn direct(address: u16, next: u16) -> Target
    ensures { result ≡ record { address = address; crossed = false; next = next } }
{
    Target {
        address,
        crossed: false,
        next,
    }
}

/// The target of a branch from the next instruction's address.
#[inline(always)]
pub fn branch_by(next: u16, offset: u8) -> Target
    ensures place { Place result.address result.crossed ≡ branch_target next offset }
    ensures next { result.next ≡ next }
{
    let index = if offset >= 0x80 {
        0xFF00 + offset as u16
    } else {
        offset as u16
    };
    offset_by(next, index, next)
}
