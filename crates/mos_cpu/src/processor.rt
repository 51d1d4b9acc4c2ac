//! One instruction.

ghost use Rattle.std.specs.Prelude.{◌≡◌, ℕ, ◌≤◌, ◌+◌, ◌%◌, true, Some, None, IfSome, IfNone, IfOk, OnErr};
ghost use Rattle.std.specs.Prelude.{Err, IsErr};
ghost use Rattle.mos_cpu.specs.Buses.{IsClock};
ghost use Rattle.mos_cpu.specs.Execution.{step_of};
ghost use Rattle.mos_cpu.specs.Operands.{instruction_word, instruction_at};
ghost use Rattle.mos_cpu.specs.Private.OpcodeRuns.{IsLow, IsOpcodeRun, has_low, row_here, undocumented, fault_by};

use crate::addressing::next_in_page;
use crate::branches::{Bcc, Bcs, Beq, Bmi, Bne, Bpl, Bvc, Bvs, branch};
use crate::bus::Bus;
use crate::changes::{Asl, Dec, Inc, Lsr, Rol, Ror, change, change_a};
use crate::fault::CpuFault;
use crate::implied::{
    Clc, Cld, Cli, Clv, Dex, Dey, Inx, Iny, Nop, Sec, Sed, Sei, Tax, Tay, Tsx, Txa, Txs, Tya,
    implied,
};
use crate::memory_modes::{
    Absolute, AbsoluteX, AbsoluteY, IndirectX, IndirectY, ZeroPage, ZeroPageX, ZeroPageY,
};
use crate::opcode_table::row;
use crate::operation::Operation;
use crate::reads::{Adc, And, Bit, Cmp, Cpx, Cpy, Eor, Lda, Ldx, Ldy, Ora, Sbc, read, value};
use crate::registers::Cpu;
use crate::running_cpu::RunningCpu;
use crate::stack::{brk, jmp, jmp_indirect, jsr, pha, php, pla, plp, rti, rts};
use crate::stores::{Sta, Stx, Sty, store};

/// Whether an opcode is one with a byte after it. Of opcodes that aren't documented it says
/// nothing.
fn has_low(opcode: u8) -> bool
    ensures { result ≡ has_low opcode }
{
    !(opcode % 16 == 8 || opcode % 16 == 10 || opcode == 0 || opcode == 0x40 || opcode == 0x60)
}

/// The byte after an opcode. None if it isn't there, and 0 if it need not be.
///
/// The processor comes by its value, so that the loop of a frame can keep its registers out of
/// memory.
#[cold]
#[inline(never)]
fn low_byte<B: Bus>(cpu: Cpu, bus: &B, opcode: u8) -> Option<u8>
    ensures some { IfSome result (λ low. has_low opcode ≡ true → IsLow B.meaning (B.state bus.now) cpu low) }
    ensures none { IfNone result (has_low opcode ≡ true) }
    ensures nowhere { IfNone result (B.meaning.peeked (B.state bus.now) ((cpu.pc + 1) % 65536) ≡ None) }
{
    match bus.peek(cpu.pc.wrapping_add(1)) {
        Some(low) => Some(low),
        None => { if has_low(opcode) { None } else { Some(0) } }
    }
}

/// The instruction of this opcode, which is at the program counter, with the byte after it. None,
/// with nothing done, if it has a fault.
#[inline(always)]
fn run_bytes<B: Bus>(cpu: &mut RunningCpu, bus: &mut B, opcode: u8, low: u8) -> Option<u8>
    requires opcode { B.meaning.peeked (B.state bus.old) cpu.old.pc ≡ Some opcode }
    requires low { has_low opcode ≡ true → IsLow B.meaning (B.state bus.old) cpu.old low }
    ensures { IsOpcodeRun B.meaning cpu.old (B.state bus.old) result cpu.new (B.state bus.new) }
{
    match opcode {
        0x69 => value::<Adc, B>(cpu, bus, low),
        0x65 => read::<Adc, ZeroPage, B>(cpu, bus, low),
        0x75 => read::<Adc, ZeroPageX, B>(cpu, bus, low),
        0x6D => read::<Adc, Absolute, B>(cpu, bus, low),
        0x7D => read::<Adc, AbsoluteX, B>(cpu, bus, low),
        0x79 => read::<Adc, AbsoluteY, B>(cpu, bus, low),
        0x61 => read::<Adc, IndirectX, B>(cpu, bus, low),
        0x71 => read::<Adc, IndirectY, B>(cpu, bus, low),
        0x29 => value::<And, B>(cpu, bus, low),
        0x25 => read::<And, ZeroPage, B>(cpu, bus, low),
        0x35 => read::<And, ZeroPageX, B>(cpu, bus, low),
        0x2D => read::<And, Absolute, B>(cpu, bus, low),
        0x3D => read::<And, AbsoluteX, B>(cpu, bus, low),
        0x39 => read::<And, AbsoluteY, B>(cpu, bus, low),
        0x21 => read::<And, IndirectX, B>(cpu, bus, low),
        0x31 => read::<And, IndirectY, B>(cpu, bus, low),
        0xC9 => value::<Cmp, B>(cpu, bus, low),
        0xC5 => read::<Cmp, ZeroPage, B>(cpu, bus, low),
        0xD5 => read::<Cmp, ZeroPageX, B>(cpu, bus, low),
        0xCD => read::<Cmp, Absolute, B>(cpu, bus, low),
        0xDD => read::<Cmp, AbsoluteX, B>(cpu, bus, low),
        0xD9 => read::<Cmp, AbsoluteY, B>(cpu, bus, low),
        0xC1 => read::<Cmp, IndirectX, B>(cpu, bus, low),
        0xD1 => read::<Cmp, IndirectY, B>(cpu, bus, low),
        0x49 => value::<Eor, B>(cpu, bus, low),
        0x45 => read::<Eor, ZeroPage, B>(cpu, bus, low),
        0x55 => read::<Eor, ZeroPageX, B>(cpu, bus, low),
        0x4D => read::<Eor, Absolute, B>(cpu, bus, low),
        0x5D => read::<Eor, AbsoluteX, B>(cpu, bus, low),
        0x59 => read::<Eor, AbsoluteY, B>(cpu, bus, low),
        0x41 => read::<Eor, IndirectX, B>(cpu, bus, low),
        0x51 => read::<Eor, IndirectY, B>(cpu, bus, low),
        0xA9 => value::<Lda, B>(cpu, bus, low),
        0xA5 => read::<Lda, ZeroPage, B>(cpu, bus, low),
        0xB5 => read::<Lda, ZeroPageX, B>(cpu, bus, low),
        0xAD => read::<Lda, Absolute, B>(cpu, bus, low),
        0xBD => read::<Lda, AbsoluteX, B>(cpu, bus, low),
        0xB9 => read::<Lda, AbsoluteY, B>(cpu, bus, low),
        0xA1 => read::<Lda, IndirectX, B>(cpu, bus, low),
        0xB1 => read::<Lda, IndirectY, B>(cpu, bus, low),
        0x09 => value::<Ora, B>(cpu, bus, low),
        0x05 => read::<Ora, ZeroPage, B>(cpu, bus, low),
        0x15 => read::<Ora, ZeroPageX, B>(cpu, bus, low),
        0x0D => read::<Ora, Absolute, B>(cpu, bus, low),
        0x1D => read::<Ora, AbsoluteX, B>(cpu, bus, low),
        0x19 => read::<Ora, AbsoluteY, B>(cpu, bus, low),
        0x01 => read::<Ora, IndirectX, B>(cpu, bus, low),
        0x11 => read::<Ora, IndirectY, B>(cpu, bus, low),
        0xE9 => value::<Sbc, B>(cpu, bus, low),
        0xE5 => read::<Sbc, ZeroPage, B>(cpu, bus, low),
        0xF5 => read::<Sbc, ZeroPageX, B>(cpu, bus, low),
        0xED => read::<Sbc, Absolute, B>(cpu, bus, low),
        0xFD => read::<Sbc, AbsoluteX, B>(cpu, bus, low),
        0xF9 => read::<Sbc, AbsoluteY, B>(cpu, bus, low),
        0xE1 => read::<Sbc, IndirectX, B>(cpu, bus, low),
        0xF1 => read::<Sbc, IndirectY, B>(cpu, bus, low),
        0x85 => store::<Sta, ZeroPage, B>(cpu, bus, low),
        0x95 => store::<Sta, ZeroPageX, B>(cpu, bus, low),
        0x8D => store::<Sta, Absolute, B>(cpu, bus, low),
        0x9D => store::<Sta, AbsoluteX, B>(cpu, bus, low),
        0x99 => store::<Sta, AbsoluteY, B>(cpu, bus, low),
        0x81 => store::<Sta, IndirectX, B>(cpu, bus, low),
        0x91 => store::<Sta, IndirectY, B>(cpu, bus, low),
        0x0A => change_a::<Asl, B>(cpu, bus),
        0x06 => change::<Asl, ZeroPage, B>(cpu, bus, low),
        0x16 => change::<Asl, ZeroPageX, B>(cpu, bus, low),
        0x0E => change::<Asl, Absolute, B>(cpu, bus, low),
        0x1E => change::<Asl, AbsoluteX, B>(cpu, bus, low),
        0x4A => change_a::<Lsr, B>(cpu, bus),
        0x46 => change::<Lsr, ZeroPage, B>(cpu, bus, low),
        0x56 => change::<Lsr, ZeroPageX, B>(cpu, bus, low),
        0x4E => change::<Lsr, Absolute, B>(cpu, bus, low),
        0x5E => change::<Lsr, AbsoluteX, B>(cpu, bus, low),
        0x2A => change_a::<Rol, B>(cpu, bus),
        0x26 => change::<Rol, ZeroPage, B>(cpu, bus, low),
        0x36 => change::<Rol, ZeroPageX, B>(cpu, bus, low),
        0x2E => change::<Rol, Absolute, B>(cpu, bus, low),
        0x3E => change::<Rol, AbsoluteX, B>(cpu, bus, low),
        0x6A => change_a::<Ror, B>(cpu, bus),
        0x66 => change::<Ror, ZeroPage, B>(cpu, bus, low),
        0x76 => change::<Ror, ZeroPageX, B>(cpu, bus, low),
        0x6E => change::<Ror, Absolute, B>(cpu, bus, low),
        0x7E => change::<Ror, AbsoluteX, B>(cpu, bus, low),
        0xC6 => change::<Dec, ZeroPage, B>(cpu, bus, low),
        0xD6 => change::<Dec, ZeroPageX, B>(cpu, bus, low),
        0xCE => change::<Dec, Absolute, B>(cpu, bus, low),
        0xDE => change::<Dec, AbsoluteX, B>(cpu, bus, low),
        0xE6 => change::<Inc, ZeroPage, B>(cpu, bus, low),
        0xF6 => change::<Inc, ZeroPageX, B>(cpu, bus, low),
        0xEE => change::<Inc, Absolute, B>(cpu, bus, low),
        0xFE => change::<Inc, AbsoluteX, B>(cpu, bus, low),
        0xA2 => value::<Ldx, B>(cpu, bus, low),
        0xA6 => read::<Ldx, ZeroPage, B>(cpu, bus, low),
        0xB6 => read::<Ldx, ZeroPageY, B>(cpu, bus, low),
        0xAE => read::<Ldx, Absolute, B>(cpu, bus, low),
        0xBE => read::<Ldx, AbsoluteY, B>(cpu, bus, low),
        0xA0 => value::<Ldy, B>(cpu, bus, low),
        0xA4 => read::<Ldy, ZeroPage, B>(cpu, bus, low),
        0xB4 => read::<Ldy, ZeroPageX, B>(cpu, bus, low),
        0xAC => read::<Ldy, Absolute, B>(cpu, bus, low),
        0xBC => read::<Ldy, AbsoluteX, B>(cpu, bus, low),
        0x86 => store::<Stx, ZeroPage, B>(cpu, bus, low),
        0x96 => store::<Stx, ZeroPageY, B>(cpu, bus, low),
        0x8E => store::<Stx, Absolute, B>(cpu, bus, low),
        0x84 => store::<Sty, ZeroPage, B>(cpu, bus, low),
        0x94 => store::<Sty, ZeroPageX, B>(cpu, bus, low),
        0x8C => store::<Sty, Absolute, B>(cpu, bus, low),
        0xE0 => value::<Cpx, B>(cpu, bus, low),
        0xE4 => read::<Cpx, ZeroPage, B>(cpu, bus, low),
        0xEC => read::<Cpx, Absolute, B>(cpu, bus, low),
        0xC0 => value::<Cpy, B>(cpu, bus, low),
        0xC4 => read::<Cpy, ZeroPage, B>(cpu, bus, low),
        0xCC => read::<Cpy, Absolute, B>(cpu, bus, low),
        0x24 => read::<Bit, ZeroPage, B>(cpu, bus, low),
        0x2C => read::<Bit, Absolute, B>(cpu, bus, low),
        0x4C => jmp(cpu, bus, low),
        0x6C => jmp_indirect(cpu, bus, low),
        0x20 => jsr(cpu, bus, low),
        0x60 => rts(cpu, bus),
        0x40 => rti(cpu, bus),
        0x00 => brk(cpu, bus),
        0x48 => pha(cpu, bus),
        0x08 => php(cpu, bus),
        0x68 => pla(cpu, bus),
        0x28 => plp(cpu, bus),
        0x10 => branch::<Bpl, B>(cpu, bus, low),
        0x30 => branch::<Bmi, B>(cpu, bus, low),
        0x50 => branch::<Bvc, B>(cpu, bus, low),
        0x70 => branch::<Bvs, B>(cpu, bus, low),
        0x90 => branch::<Bcc, B>(cpu, bus, low),
        0xB0 => branch::<Bcs, B>(cpu, bus, low),
        0xD0 => branch::<Bne, B>(cpu, bus, low),
        0xF0 => branch::<Beq, B>(cpu, bus, low),
        0x18 => implied::<Clc, B>(cpu, bus),
        0x38 => implied::<Sec, B>(cpu, bus),
        0x58 => implied::<Cli, B>(cpu, bus),
        0x78 => implied::<Sei, B>(cpu, bus),
        0xB8 => implied::<Clv, B>(cpu, bus),
        0xD8 => implied::<Cld, B>(cpu, bus),
        0xF8 => implied::<Sed, B>(cpu, bus),
        0xAA => implied::<Tax, B>(cpu, bus),
        0x8A => implied::<Txa, B>(cpu, bus),
        0xA8 => implied::<Tay, B>(cpu, bus),
        0x98 => implied::<Tya, B>(cpu, bus),
        0xBA => implied::<Tsx, B>(cpu, bus),
        0x9A => implied::<Txs, B>(cpu, bus),
        0xE8 => implied::<Inx, B>(cpu, bus),
        0xCA => implied::<Dex, B>(cpu, bus),
        0xC8 => implied::<Iny, B>(cpu, bus),
        0x88 => implied::<Dey, B>(cpu, bus),
        0xEA => implied::<Nop, B>(cpu, bus),
        _ => None,
    }
}

/// The instruction at the program counter, by its opcode. None, with nothing done, if it has a
/// fault.
#[inline(always)]
fn run_opcode<B: Bus>(cpu: &mut RunningCpu, bus: &mut B) -> Option<u8>
    ensures { IsOpcodeRun B.meaning cpu.old (B.state bus.old) result cpu.new (B.state bus.new) }
{
    let opcode = bus.peek(cpu.pc)?;
    let low = match bus.peek_after(cpu.pc) {
        Some(low) => low,
        None => low_byte(cpu.registers(), bus, opcode)?,
    };
    run_bytes(cpu, bus, opcode, low)
}

/// The opcode at the program counter, if it is there and isn't documented.
#[cold]
#[inline(never)]
fn bad_opcode<B: Bus>(cpu: Cpu, bus: &B) -> Option<u8>
    ensures { result ≡ undocumented (row_here B.meaning (B.state bus.now) cpu) }
{
    let opcode = bus.peek(cpu.pc)?;
    match row(opcode) {
        Some(_) => None,
        None => Some(opcode),
    }
}

/// The first of two addresses where no byte is. One of them is such, so the second isn't looked at.
#[inline(always)]
fn first_outside<B: Bus>(bus: &B, low: u16, high: u16) -> u16
    requires { IsErr (instruction_word B.meaning (B.state bus.now) low high) }
    ensures { instruction_word B.meaning (B.state bus.now) low high ≡ Err (CpuFault.FetchOutside result) }
{
    match bus.peek(low) {
        Some(_) => high,
        None => low,
    }
}

/// The address that the fault of the instruction at the program counter names. There is a fault, so
/// the first byte that isn't there is one of the instruction's, whatever its mode. After two bytes
/// that are there only the indirect mode looks at more.
#[cold]
#[inline(never)]
fn fault_address<B: Bus>(cpu: Cpu, bus: &B) -> u16
    requires { IsErr (instruction_at B.meaning (B.state bus.now) cpu) }
    ensures { instruction_at B.meaning (B.state bus.now) cpu
        ≡ Err (fault_by (undocumented (row_here B.meaning (B.state bus.now) cpu)) result) }
{
    let Some(opcode) = bus.peek(cpu.pc) else {
        return cpu.pc;
    };
    let Some(row) = row(opcode) else {
        return cpu.pc;
    };
    if row.operation == Operation::Brk {
        return first_outside(bus, 0xFFFE, 0xFFFF);
    }
    let first = cpu.pc.wrapping_add(1);
    let Some(low) = bus.peek(first) else {
        return first;
    };
    let second = cpu.pc.wrapping_add(2);
    let Some(high) = bus.peek(second) else {
        return second;
    };
    let pointer = u16::from_le_bytes([low, high]);
    first_outside(bus, pointer, next_in_page(pointer))
}

/// The fault of the instruction at the program counter, which has one. Its parts are found by two
/// calls that answer in registers: one that answers in memory would have the loop of a frame clear
/// that memory for each instruction.
#[inline(always)]
fn fault<B: Bus>(cpu: Cpu, bus: &B) -> CpuFault
    requires { IsErr (instruction_at B.meaning (B.state bus.now) cpu) }
    ensures { instruction_at B.meaning (B.state bus.now) cpu ≡ Err result }
{
    let at = fault_address(cpu, bus);
    match bad_opcode(cpu, bus) {
        Some(opcode) => CpuFault::BadOpcode { opcode, at },
        None => CpuFault::FetchOutside { at },
    }
}

/// Executes the instruction at the program counter, and answers its cycles, 2 to 7, without any
/// waiting that the bus asks for.
///
/// The bytes of the instruction are looked at before it does anything, so a fault changes nothing.
/// Each access is made when exactly the cycles up to its own have passed (`law_of_access_times`).
#[inline(always)]
pub fn step<B: Bus>(cpu: &mut Cpu, bus: &mut B) -> Result<u8, CpuFault>
    ensures answer { result ≡ (step_of B.meaning cpu.old (B.state bus.old)).answer }
    ensures registers { cpu.new ≡ (step_of B.meaning cpu.old (B.state bus.old)).registers }
    ensures bus { B.state bus.new ≡ (step_of B.meaning cpu.old (B.state bus.old)).bus }

    ensures fault_cpu { OnErr result (cpu.new ≡ cpu.old) }
    ensures fault_bus { OnErr result (B.state bus.new ≡ B.state bus.old) }

    ensures least { IfOk result (λ cycles. 2 ≤ cycles) }
    ensures most { IfOk result (λ cycles. cycles ≤ 7) }
    ensures clock { (advance : ℕ → ℕ → ℕ) (clock : B.State → ℕ) → IsClock B.meaning advance clock →
        let start = clock (B.state bus.old) in
        IfOk result (λ cycles. clock (B.state bus.new) ≡ advance start cycles) }
{
    let mut running = RunningCpu::of(cpu);
    let answer = step_running(&mut running, bus);
    *cpu = running.registers();
    answer
}

/// The same as `step`, for a caller with a loop over instructions.
#[inline(always)]
pub fn step_running<B: Bus>(cpu: &mut RunningCpu, bus: &mut B) -> Result<u8, CpuFault>
    ensures answer { result ≡ (step_of B.meaning cpu.old (B.state bus.old)).answer }
    ensures registers { cpu.new ≡ (step_of B.meaning cpu.old (B.state bus.old)).registers }
    ensures bus { B.state bus.new ≡ (step_of B.meaning cpu.old (B.state bus.old)).bus }

    ensures fault_cpu { OnErr result (cpu.new ≡ cpu.old) }
    ensures fault_bus { OnErr result (B.state bus.new ≡ B.state bus.old) }

    ensures least { IfOk result (λ cycles. 2 ≤ cycles) }
    ensures most { IfOk result (λ cycles. cycles ≤ 7) }
    ensures clock { (advance : ℕ → ℕ → ℕ) (clock : B.State → ℕ) → IsClock B.meaning advance clock →
        let start = clock (B.state bus.old) in
        IfOk result (λ cycles. clock (B.state bus.new) ≡ advance start cycles) }
{
    match run_opcode(cpu, bus) {
        Some(cycles) => Ok(cycles),
        None => Err(fault(cpu.registers(), bus)),
    }
}
