//! One instruction, a cycle at a time.

ghost use Rattle.std.specs.Prelude.{◌≡◌, ◌≤◌, true, Some, IfOk, OnErr};
ghost use Rattle.mos_cpu.specs.Opcodes.{row_of};
ghost use Rattle.bus_cycles.specs.Execution.{step_of};
ghost use Rattle.bus_cycles.specs.Private.AtHand.{IsShort};
ghost use Rattle.bus_cycles.specs.Private.Classes.{class_of};
ghost use Rattle.bus_cycles.specs.Private.Found.{IsRun};
ghost use Rattle.bus_cycles.specs.Private.Kinds.{kind_of};

use crate::at_hand::{ShortInstruction, short_at, step_at_hand};
use crate::bus::{CycleBus, Purpose};
use crate::class::Class;
use crate::finding::{discard, fetch, find, find_none, finish_branch, pulled_at, pushed_at};
use crate::held::{HeldBus, HeldBytes, execute};
use crate::kind::Kind;
use mos_cpu::{Cpu, CpuFault, Mode, Row, RunningCpu, row};
use std::mem;

/// An operation with the byte after the opcode.
fn value<B: CycleBus>(
    cpu: &mut RunningCpu,
    bus: &mut B,
    opcode: u8,
    row: Row,
) -> Result<u8, CpuFault>
    requires known { row_of opcode ≡ Some row }
    requires kind { kind_of row.operation ≡ Kind.Read }
    requires mode { row.mode ≡ Mode.Immediate }
    ensures { IsRun B.meaning cpu.old (B.state bus.old) opcode row result cpu.new (B.state bus.new) }
{
    let start = cpu.registers();
    let mut held = HeldBytes::of(start.pc, opcode);
    held.low = fetch(bus, start.pc.wrapping_add(1))?;
    Ok(execute(cpu, &mut HeldBus::of(held, 0, 0, 0)))
}

/// An operation that reads a place in memory.
#[inline(always)]
fn read<B: CycleBus>(
    cpu: &mut RunningCpu,
    bus: &mut B,
    opcode: u8,
    row: Row,
) -> Result<u8, CpuFault>
    requires known { row_of opcode ≡ Some row }
    requires kind { kind_of row.operation ≡ Kind.Read }
    requires mode { row.mode ≡ Mode.Immediate → ⊥ }
    ensures { IsRun B.meaning cpu.old (B.state bus.old) opcode row result cpu.new (B.state bus.new) }
{
    let start = cpu.registers();
    let found = find(bus, &start, opcode, row, false)?;
    let byte = bus.read(found.address, Purpose::Data);
    let mut held = HeldBus::of(found.held, byte, 0, 0);
    Ok(execute(cpu, &mut held))
}

/// An operation that stores a register.
fn store<B: CycleBus>(
    cpu: &mut RunningCpu,
    bus: &mut B,
    opcode: u8,
    row: Row,
) -> Result<u8, CpuFault>
    requires known { row_of opcode ≡ Some row }
    requires kind { kind_of row.operation ≡ Kind.Store }
    ensures { IsRun B.meaning cpu.old (B.state bus.old) opcode row result cpu.new (B.state bus.new) }
{
    let start = cpu.registers();
    let found = find(bus, &start, opcode, row, true)?;
    let mut held = HeldBus::of(found.held, 0, 0, 0);
    let cycles = execute(cpu, &mut held);
    bus.write(found.address, held.last);
    Ok(cycles)
}

/// An operation that changes A.
fn change_a<B: CycleBus>(cpu: &mut RunningCpu, bus: &mut B, opcode: u8, row: Row) -> u8
    requires known { row_of opcode ≡ Some row }
    requires kind { kind_of row.operation ≡ Kind.Change }
    requires mode { row.mode ≡ Mode.Accumulator }
    ensures { IsRun B.meaning cpu.old (B.state bus.old) opcode row (Ok result) cpu.new (B.state bus.new) }
{
    let start = cpu.registers();
    let held = find_none(bus, &start, opcode);
    execute(cpu, &mut HeldBus::of(held, 0, 0, 0))
}

/// An operation that changes a place in memory.
fn change<B: CycleBus>(
    cpu: &mut RunningCpu,
    bus: &mut B,
    opcode: u8,
    row: Row,
) -> Result<u8, CpuFault>
    requires known { row_of opcode ≡ Some row }
    requires kind { kind_of row.operation ≡ Kind.Change }
    requires mode { row.mode ≡ Mode.Accumulator → ⊥ }
    ensures { IsRun B.meaning cpu.old (B.state bus.old) opcode row result cpu.new (B.state bus.new) }
{
    let start = cpu.registers();
    let found = find(bus, &start, opcode, row, true)?;
    let byte = bus.read(found.address, Purpose::Data);
    let mut held = HeldBus::of(found.held, byte, 0, 0);
    let cycles = execute(cpu, &mut held);
    bus.write(found.address, held.before);
    bus.write(found.address, held.last);
    Ok(cycles)
}

/// A branch.
fn branch<B: CycleBus>(
    cpu: &mut RunningCpu,
    bus: &mut B,
    opcode: u8,
    row: Row,
) -> Result<u8, CpuFault>
    requires known { row_of opcode ≡ Some row }
    requires kind { kind_of row.operation ≡ Kind.Branch }
    ensures { IsRun B.meaning cpu.old (B.state bus.old) opcode row result cpu.new (B.state bus.new) }
{
    let start = cpu.registers();
    let mut held = HeldBytes::of(start.pc, opcode);
    held.low = fetch(bus, start.pc.wrapping_add(1))?;
    let cycles = execute(cpu, &mut HeldBus::of(held, 0, 0, 0));
    let after = cpu.registers();
    finish_branch(bus, start.pc.wrapping_add(2), after.pc, cycles);
    Ok(cycles)
}

/// An operation on registers alone.
fn implied<B: CycleBus>(cpu: &mut RunningCpu, bus: &mut B, opcode: u8, row: Row) -> u8
    requires known { row_of opcode ≡ Some row }
    requires kind { kind_of row.operation ≡ Kind.Implied }
    ensures { IsRun B.meaning cpu.old (B.state bus.old) opcode row (Ok result) cpu.new (B.state bus.new) }
{
    let start = cpu.registers();
    let held = find_none(bus, &start, opcode);
    execute(cpu, &mut HeldBus::of(held, 0, 0, 0))
}

/// PHA and PHP.
fn push<B: CycleBus>(cpu: &mut RunningCpu, bus: &mut B, opcode: u8, row: Row) -> u8
    requires known { row_of opcode ≡ Some row }
    requires kind { kind_of row.operation ≡ Kind.Push }
    ensures { IsRun B.meaning cpu.old (B.state bus.old) opcode row (Ok result) cpu.new (B.state bus.new) }
{
    let start = cpu.registers();
    let held = find_none(bus, &start, opcode);
    let mut held = HeldBus::of(held, 0, 0, 0);
    let cycles = execute(cpu, &mut held);
    bus.write(pushed_at(start.s, 0), held.last);
    cycles
}

/// PLA and PLP.
fn pull<B: CycleBus>(cpu: &mut RunningCpu, bus: &mut B, opcode: u8, row: Row) -> u8
    requires known { row_of opcode ≡ Some row }
    requires kind { kind_of row.operation ≡ Kind.Pull }
    ensures { IsRun B.meaning cpu.old (B.state bus.old) opcode row (Ok result) cpu.new (B.state bus.new) }
{
    let start = cpu.registers();
    let held = find_none(bus, &start, opcode);
    discard(bus, pulled_at(start.s, 0));
    let byte = bus.read(pulled_at(start.s, 1), Purpose::Data);
    execute(cpu, &mut HeldBus::of(held, byte, 0, 0))
}

/// RTS. The address that it pulls is read, and the one after it is where the program goes on.
fn rts<B: CycleBus>(cpu: &mut RunningCpu, bus: &mut B, opcode: u8, row: Row) -> u8
    requires known { row_of opcode ≡ Some row }
    requires kind { kind_of row.operation ≡ Kind.Rts }
    ensures { IsRun B.meaning cpu.old (B.state bus.old) opcode row (Ok result) cpu.new (B.state bus.new) }
{
    let start = cpu.registers();
    let held = find_none(bus, &start, opcode);
    discard(bus, pulled_at(start.s, 0));
    let low = bus.read(pulled_at(start.s, 1), Purpose::Data);
    let high = bus.read(pulled_at(start.s, 2), Purpose::Data);
    discard(bus, u16::from_le_bytes([low, high]));
    execute(cpu, &mut HeldBus::of(held, low, high, 0))
}

fn rti<B: CycleBus>(cpu: &mut RunningCpu, bus: &mut B, opcode: u8, row: Row) -> u8
    requires known { row_of opcode ≡ Some row }
    requires kind { kind_of row.operation ≡ Kind.Rti }
    ensures { IsRun B.meaning cpu.old (B.state bus.old) opcode row (Ok result) cpu.new (B.state bus.new) }
{
    let start = cpu.registers();
    let held = find_none(bus, &start, opcode);
    discard(bus, pulled_at(start.s, 0));
    let status = bus.read(pulled_at(start.s, 1), Purpose::Data);
    let low = bus.read(pulled_at(start.s, 2), Purpose::Data);
    let high = bus.read(pulled_at(start.s, 3), Purpose::Data);
    execute(cpu, &mut HeldBus::of(held, status, low, high))
}

fn jmp<B: CycleBus>(cpu: &mut RunningCpu, bus: &mut B, opcode: u8, row: Row) -> Result<u8, CpuFault>
    requires known { row_of opcode ≡ Some row }
    requires kind { kind_of row.operation ≡ Kind.Jmp }
    ensures { IsRun B.meaning cpu.old (B.state bus.old) opcode row result cpu.new (B.state bus.new) }
{
    let start = cpu.registers();
    let found = find(bus, &start, opcode, row, true)?;
    *cpu = RunningCpu::of(&Cpu {
        pc: found.address,
        ..start
    });
    Ok(row.cycles)
}

/// JSR. The high byte of where it goes is fetched after the pushes.
fn jsr<B: CycleBus>(cpu: &mut RunningCpu, bus: &mut B, opcode: u8, row: Row) -> Result<u8, CpuFault>
    requires known { row_of opcode ≡ Some row }
    requires kind { kind_of row.operation ≡ Kind.Jsr }
    ensures { IsRun B.meaning cpu.old (B.state bus.old) opcode row result cpu.new (B.state bus.new) }
{
    let start = cpu.registers();
    let low = fetch(bus, start.pc.wrapping_add(1))?;
    let last = start.pc.wrapping_add(2);
    let [return_low, return_high] = last.to_le_bytes();
    discard(bus, pushed_at(start.s, 0));
    bus.write(pushed_at(start.s, 0), return_high);
    bus.write(pushed_at(start.s, 1), return_low);
    let high = fetch(bus, last)?;
    *cpu = RunningCpu::of(&Cpu {
        pc: u16::from_le_bytes([low, high]),
        s: start.s.wrapping_sub(2),
        ..start
    });
    Ok(6)
}

/// BRK. The interrupt vector is read after the pushes.
fn brk<B: CycleBus>(cpu: &mut RunningCpu, bus: &mut B, opcode: u8, row: Row) -> u8
    requires known { row_of opcode ≡ Some row }
    requires kind { kind_of row.operation ≡ Kind.Brk }
    ensures { IsRun B.meaning cpu.old (B.state bus.old) opcode row (Ok result) cpu.new (B.state bus.new) }
{
    let start = cpu.registers();
    let [return_low, return_high] = start.pc.wrapping_add(2).to_le_bytes();
    discard(bus, start.pc.wrapping_add(1));
    bus.write(pushed_at(start.s, 0), return_high);
    bus.write(pushed_at(start.s, 1), return_low);
    bus.write(pushed_at(start.s, 2), start.p | 0x30);
    let low = bus.read(0xFFFE, Purpose::Pointer);
    let high = bus.read(0xFFFF, Purpose::Pointer);
    *cpu = RunningCpu::of(&Cpu {
        pc: u16::from_le_bytes([low, high]),
        s: start.s.wrapping_sub(3),
        p: start.p & !0x04 | 0x04,
        ..start
    });
    7
}

/// An instruction whose opcode was fetched.
fn run<B: CycleBus>(cpu: &mut RunningCpu, bus: &mut B, opcode: u8, row: Row) -> Result<u8, CpuFault>
    requires { row_of opcode ≡ Some row }
    ensures { IsRun B.meaning cpu.old (B.state bus.old) opcode row result cpu.new (B.state bus.new) }
{
    match Kind::of(row.operation) {
        Kind::Read => match row.mode {
            Mode::Immediate => value(cpu, bus, opcode, row),
            _ => read(cpu, bus, opcode, row),
        },
        Kind::Store => store(cpu, bus, opcode, row),
        Kind::Change => match row.mode {
            Mode::Accumulator => Ok(change_a(cpu, bus, opcode, row)),
            _ => change(cpu, bus, opcode, row),
        },
        Kind::Branch => branch(cpu, bus, opcode, row),
        Kind::Implied => Ok(implied(cpu, bus, opcode, row)),
        Kind::Push => Ok(push(cpu, bus, opcode, row)),
        Kind::Pull => Ok(pull(cpu, bus, opcode, row)),
        Kind::Jmp => jmp(cpu, bus, opcode, row),
        Kind::Jsr => jsr(cpu, bus, opcode, row),
        Kind::Rts => Ok(rts(cpu, bus, opcode, row)),
        Kind::Rti => Ok(rti(cpu, bus, opcode, row)),
        Kind::Brk => Ok(brk(cpu, bus, opcode, row)),
    }
}

/// The instruction at the program counter, a cycle at a time.
#[cold]
#[inline(never)]
fn step_by_cycles<B: CycleBus>(cpu: &mut RunningCpu, bus: &mut B) -> Result<u8, CpuFault>
    ensures answer { result ≡ (step_of B.meaning cpu.old (B.state bus.old)).answer }
    ensures registers { cpu.new ≡ (step_of B.meaning cpu.old (B.state bus.old)).registers }
    ensures bus { B.state bus.new ≡ (step_of B.meaning cpu.old (B.state bus.old)).bus }
{
    let start = cpu.registers();
    let opcode = fetch(bus, start.pc)?;
    match row(opcode) {
        Some(row) => run(cpu, bus, opcode, row),
        None => Err(CpuFault::BadOpcode {
            opcode,
            at: start.pc,
        }),
    }
}

/// An operation that reads a place in memory, and whose opcode is at hand.
#[cold]
#[inline(never)]
fn read_at_hand<B: CycleBus>(
    cpu: &mut RunningCpu,
    bus: &mut B,
    opcode: u8,
    row: Row,
) -> Result<u8, CpuFault>
    requires known { row_of opcode ≡ Some row }
    requires class { class_of row ≡ Class.MemoryRead }
    requires holds { B.meaning.holds_code (B.state bus.old) cpu.old.pc ≡ true }
    requires opcode { opcode ≡ B.meaning.read_value (B.state bus.old) cpu.old.pc }
    ensures answer { result ≡ (step_of B.meaning cpu.old (B.state bus.old)).answer }
    ensures registers { cpu.new ≡ (step_of B.meaning cpu.old (B.state bus.old)).registers }
    ensures bus { B.state bus.new ≡ (step_of B.meaning cpu.old (B.state bus.old)).bus }
{
    let start = cpu.registers();
    let _ = bus.read(start.pc, Purpose::Code);
    read(cpu, bus, opcode, row)
}

/// Registers in the place of those that a call has taken.
#[inline(always)]
fn no_registers() -> RunningCpu {
    RunningCpu::of(&Cpu {
        a: 0,
        x: 0,
        y: 0,
        s: 0,
        p: 0,
        pc: 0,
    })
}

/// The same for a loop that keeps the registers out of memory: they are in it only for this call.
#[inline(always)]
fn read_apart<B: CycleBus>(
    cpu: &mut RunningCpu,
    bus: &mut B,
    short: ShortInstruction,
) -> Result<u8, CpuFault>
    requires short { IsShort B.meaning (B.state bus.old) cpu.old.pc short }
    requires class { short.class ≡ Class.MemoryRead }
    ensures answer { result ≡ (step_of B.meaning cpu.old (B.state bus.old)).answer }
    ensures registers { cpu.new ≡ (step_of B.meaning cpu.old (B.state bus.old)).registers }
    ensures bus { B.state bus.new ≡ (step_of B.meaning cpu.old (B.state bus.old)).bus }
{
    let mut apart = mem::replace(cpu, no_registers());
    let answer = read_at_hand(&mut apart, bus, short.opcode, short.row);
    *cpu = apart;
    answer
}

/// An instruction by its cycles, for a loop that keeps the registers out of memory: they are in it only for this call.
#[inline(always)]
fn step_apart<B: CycleBus>(cpu: &mut RunningCpu, bus: &mut B) -> Result<u8, CpuFault>
    ensures answer { result ≡ (step_of B.meaning cpu.old (B.state bus.old)).answer }
    ensures registers { cpu.new ≡ (step_of B.meaning cpu.old (B.state bus.old)).registers }
    ensures bus { B.state bus.new ≡ (step_of B.meaning cpu.old (B.state bus.old)).bus }
{
    let mut apart = mem::replace(cpu, no_registers());
    let answer = step_by_cycles(&mut apart, bus);
    *cpu = apart;
    answer
}

/// Executes the instruction at the program counter, and answers its cycles, 2 to 7. Each is one
/// access of the bus.
///
/// A byte of the program that can't be fetched is a fault in its own cycle. The accesses before it
/// were made then, and the registers are as they were.
pub fn step<B: CycleBus>(cpu: &mut Cpu, bus: &mut B) -> Result<u8, CpuFault>
    ensures answer { result ≡ (step_of B.meaning cpu.old (B.state bus.old)).answer }
    ensures registers { cpu.new ≡ (step_of B.meaning cpu.old (B.state bus.old)).registers }
    ensures bus { B.state bus.new ≡ (step_of B.meaning cpu.old (B.state bus.old)).bus }
{
    let mut running = RunningCpu::of(cpu);
    let answer = step_running(&mut running, bus);
    *cpu = running.registers();
    answer
}

/// The same as `step`, for a caller with a loop over instructions.
#[inline(always)]
pub fn step_running<B: CycleBus>(cpu: &mut RunningCpu, bus: &mut B) -> Result<u8, CpuFault>
    ensures answer { result ≡ (step_of B.meaning cpu.old (B.state bus.old)).answer }
    ensures registers { cpu.new ≡ (step_of B.meaning cpu.old (B.state bus.old)).registers }
    ensures bus { B.state bus.new ≡ (step_of B.meaning cpu.old (B.state bus.old)).bus }
{
    match short_at(bus, cpu.registers().pc) {
        Some(short) => {
            if short.class == Class::MemoryRead {
                read_apart(cpu, bus, short)
            } else {
                Ok(step_at_hand(cpu, bus, short))
            }
        }
        None => step_apart(cpu, bus),
    }
}
