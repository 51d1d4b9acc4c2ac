//! The cycles that find where the operand of an instruction is.

ghost use Rattle.std.specs.Prelude.{◌≡◌, ◌+◌, ◌/◌, ◌%◌, true, [], ◌∷◌, not, ◌==◌, ◌||◌, false, if◌then◌else◌};
ghost use Rattle.mos_cpu.specs.Operands.{takes_vector, next_in_page_of};
ghost use Rattle.mos_cpu.specs.Registers.{after_pushes, after_pulls};
ghost use Rattle.bus_cycles.specs.Addresses.{in_page_of};
ghost use Rattle.bus_cycles.specs.Private.Fetches.{IsFetch};
ghost use Rattle.bus_cycles.specs.Private.Found.{IsSearch, is_found};
ghost use Rattle.bus_cycles.specs.Private.Held.{opcode_held};

use crate::bus::{CycleBus, Purpose};
use crate::held::HeldBytes;
use mos_cpu::{Cpu, CpuFault, Mode, Row};

/// An instruction's bytes, and where its operand is.
#[derive(Clone, Copy)]
pub struct Found {
    pub held: HeldBytes,
    pub address: u16,
}

/// The stack's address after n pushes.
#[inline(always)]
pub(crate) fn pushed_at(s: u8, n: u8) -> u16
    ensures { result ≡ 256 + after_pushes s n }
{
    0x100 + s.wrapping_sub(n) as u16
}

/// The stack's address after n pulls.
#[inline(always)]
pub(crate) fn pulled_at(s: u8, n: u8) -> u16
    ensures { result ≡ 256 + after_pulls s n }
{
    0x100 + s.wrapping_add(n) as u16
}

/// An address in the page of another one.
#[inline(always)]
pub(crate) fn in_page(base: u16, address: u16) -> u16
    ensures { result ≡ in_page_of base address }
{
    base / 256 * 256 + address % 256
}

/// A cycle that fetches a byte of the program.
#[inline(always)]
pub(crate) fn fetch<B: CycleBus>(bus: &mut B, at: u16) -> Result<u8, CpuFault>
    ensures { IsFetch B.meaning (B.state bus.old) at result (B.state bus.new) }
{
    if bus.holds_code(at) {
        Ok(bus.read(at, Purpose::Code))
    } else {
        Err(CpuFault::FetchOutside { at })
    }
}

/// A cycle whose byte is thrown away.
#[inline(always)]
pub(crate) fn discard<B: CycleBus>(bus: &mut B, at: u16)
    ensures { B.state bus.new ≡ B.meaning.after_read (B.state bus.old) Purpose.Discarded at }
{
    let _ = bus.read(at, Purpose::Discarded);
}

/// The cycles of a branch after its second, by how many it takes in all. The next instruction's
/// first byte is read, and then the target before its page is right.
#[inline(always)]
pub(crate) fn finish_branch<B: CycleBus>(bus: &mut B, next: u16, target: u16, cycles: u8)
    ensures { let near = B.meaning.after_read (B.state bus.old) Purpose.Discarded next in
        B.state bus.new ≡ (if cycles == 2 then B.state bus.old else (if cycles == 3 then near
        else B.meaning.after_read near Purpose.Discarded (in_page_of next target))) }
{
    if cycles == 2 {
        return;
    }
    discard(bus, next);
    if cycles != 3 {
        discard(bus, in_page(next, target));
    }
}

/// The second byte of a pointer is in the page of the first.
#[inline(always)]
fn next_in_page(at: u16) -> u16
    ensures { result ≡ next_in_page_of at }
{
    in_page(at, at.wrapping_add(1))
}

/// Two cycles that read a pointer.
#[inline(always)]
fn read_pointer<B: CycleBus>(bus: &mut B, at: u16) -> [u8; 2]
    ensures bytes { let between = B.meaning.after_read (B.state bus.old) Purpose.Pointer at in
        result ≡ B.meaning.read_value (B.state bus.old) at ∷ B.meaning.read_value between (next_in_page_of at) ∷ [] }
    ensures bus { B.state bus.new
        ≡ B.meaning.after_read (B.meaning.after_read (B.state bus.old) Purpose.Pointer at) Purpose.Pointer (next_in_page_of at) }
{
    let low = bus.read(at, Purpose::Pointer);
    let high = bus.read(next_in_page(at), Purpose::Pointer);
    [low, high]
}

/// The address with an index added. Before the carry another one may be read.
#[inline(always)]
fn indexed<B: CycleBus>(bus: &mut B, base: u16, index: u8, always: bool) -> u16
    ensures value { result ≡ (base + index) % 65536 }
    ensures bus { B.state bus.new ≡ (if always || not (base / 256 == result / 256)
        then B.meaning.after_read (B.state bus.old) Purpose.Discarded (in_page_of base result) else B.state bus.old) }
{
    let address = base.wrapping_add(index as u16);
    if always || base >> 8 != address >> 8 {
        discard(bus, in_page(base, address));
    }
    address
}

/// An instruction of one byte: the byte after it is thrown away.
pub(crate) fn find_none<B: CycleBus>(bus: &mut B, cpu: &Cpu, opcode: u8) -> HeldBytes
    ensures held { result ≡ opcode_held cpu.now.pc opcode }
    ensures bus { B.state bus.new ≡ B.meaning.after_read (B.state bus.old) Purpose.Discarded ((cpu.now.pc + 1) % 65536) }
{
    discard(bus, cpu.pc.wrapping_add(1));
    HeldBytes::of(cpu.pc, opcode)
}

#[inline(always)]
fn find_zero_page<B: CycleBus>(
    bus: &mut B,
    cpu: &Cpu,
    opcode: u8,
    row: Row,
    always: bool,
) -> Result<Found, CpuFault>
    requires mode { row.mode ≡ Mode.ZeroPage }
    requires plain { takes_vector row.operation ≡ false }
    ensures { IsSearch B.meaning row cpu.now (B.state bus.old) opcode always result (B.state bus.new) }
{
    let mut held = HeldBytes::of(cpu.pc, opcode);
    held.low = fetch(bus, cpu.pc.wrapping_add(1))?;
    Ok(Found {
        held,
        address: held.low as u16,
    })
}

#[inline(always)]
fn find_zero_page_x<B: CycleBus>(
    bus: &mut B,
    cpu: &Cpu,
    opcode: u8,
    row: Row,
    always: bool,
) -> Result<Found, CpuFault>
    requires mode { row.mode ≡ Mode.ZeroPageX }
    requires plain { takes_vector row.operation ≡ false }
    ensures { IsSearch B.meaning row cpu.now (B.state bus.old) opcode always result (B.state bus.new) }
{
    let mut held = HeldBytes::of(cpu.pc, opcode);
    held.low = fetch(bus, cpu.pc.wrapping_add(1))?;
    discard(bus, held.low as u16);
    Ok(Found {
        held,
        address: held.low.wrapping_add(cpu.x) as u16,
    })
}

#[inline(always)]
fn find_zero_page_y<B: CycleBus>(
    bus: &mut B,
    cpu: &Cpu,
    opcode: u8,
    row: Row,
    always: bool,
) -> Result<Found, CpuFault>
    requires mode { row.mode ≡ Mode.ZeroPageY }
    requires plain { takes_vector row.operation ≡ false }
    ensures { IsSearch B.meaning row cpu.now (B.state bus.old) opcode always result (B.state bus.new) }
{
    let mut held = HeldBytes::of(cpu.pc, opcode);
    held.low = fetch(bus, cpu.pc.wrapping_add(1))?;
    discard(bus, held.low as u16);
    Ok(Found {
        held,
        address: held.low.wrapping_add(cpu.y) as u16,
    })
}

#[inline(always)]
fn find_absolute<B: CycleBus>(
    bus: &mut B,
    cpu: &Cpu,
    opcode: u8,
    row: Row,
    always: bool,
) -> Result<Found, CpuFault>
    requires mode { row.mode ≡ Mode.Absolute }
    requires plain { takes_vector row.operation ≡ false }
    ensures { IsSearch B.meaning row cpu.now (B.state bus.old) opcode always result (B.state bus.new) }
{
    let mut held = HeldBytes::of(cpu.pc, opcode);
    held.low = fetch(bus, cpu.pc.wrapping_add(1))?;
    held.high = fetch(bus, cpu.pc.wrapping_add(2))?;
    Ok(Found {
        held,
        address: u16::from_le_bytes([held.low, held.high]),
    })
}

#[inline(always)]
fn find_absolute_x<B: CycleBus>(
    bus: &mut B,
    cpu: &Cpu,
    opcode: u8,
    row: Row,
    always: bool,
) -> Result<Found, CpuFault>
    requires mode { row.mode ≡ Mode.AbsoluteX }
    requires plain { takes_vector row.operation ≡ false }
    ensures { IsSearch B.meaning row cpu.now (B.state bus.old) opcode always result (B.state bus.new) }
{
    let mut held = HeldBytes::of(cpu.pc, opcode);
    held.low = fetch(bus, cpu.pc.wrapping_add(1))?;
    held.high = fetch(bus, cpu.pc.wrapping_add(2))?;
    let base = u16::from_le_bytes([held.low, held.high]);
    let address = indexed(bus, base, cpu.x, always);
    Ok(Found { held, address })
}

#[inline(always)]
fn find_absolute_y<B: CycleBus>(
    bus: &mut B,
    cpu: &Cpu,
    opcode: u8,
    row: Row,
    always: bool,
) -> Result<Found, CpuFault>
    requires mode { row.mode ≡ Mode.AbsoluteY }
    requires plain { takes_vector row.operation ≡ false }
    ensures { IsSearch B.meaning row cpu.now (B.state bus.old) opcode always result (B.state bus.new) }
{
    let mut held = HeldBytes::of(cpu.pc, opcode);
    held.low = fetch(bus, cpu.pc.wrapping_add(1))?;
    held.high = fetch(bus, cpu.pc.wrapping_add(2))?;
    let base = u16::from_le_bytes([held.low, held.high]);
    let address = indexed(bus, base, cpu.y, always);
    Ok(Found { held, address })
}

#[inline(always)]
fn find_indirect<B: CycleBus>(
    bus: &mut B,
    cpu: &Cpu,
    opcode: u8,
    row: Row,
    always: bool,
) -> Result<Found, CpuFault>
    requires mode { row.mode ≡ Mode.Indirect }
    requires plain { takes_vector row.operation ≡ false }
    ensures { IsSearch B.meaning row cpu.now (B.state bus.old) opcode always result (B.state bus.new) }
{
    let mut held = HeldBytes::of(cpu.pc, opcode);
    held.low = fetch(bus, cpu.pc.wrapping_add(1))?;
    held.high = fetch(bus, cpu.pc.wrapping_add(2))?;
    let place = u16::from_le_bytes([held.low, held.high]);
    let [low, high] = read_pointer(bus, place);
    held.pointer_low = low;
    held.pointer_high = high;
    Ok(Found {
        held,
        address: u16::from_le_bytes([low, high]),
    })
}

#[inline(always)]
fn find_indirect_x<B: CycleBus>(
    bus: &mut B,
    cpu: &Cpu,
    opcode: u8,
    row: Row,
    always: bool,
) -> Result<Found, CpuFault>
    requires mode { row.mode ≡ Mode.IndirectX }
    requires plain { takes_vector row.operation ≡ false }
    ensures { IsSearch B.meaning row cpu.now (B.state bus.old) opcode always result (B.state bus.new) }
{
    let mut held = HeldBytes::of(cpu.pc, opcode);
    held.low = fetch(bus, cpu.pc.wrapping_add(1))?;
    discard(bus, held.low as u16);
    held.place = held.low.wrapping_add(cpu.x);
    let [low, high] = read_pointer(bus, held.place as u16);
    held.pointer_low = low;
    held.pointer_high = high;
    Ok(Found {
        held,
        address: u16::from_le_bytes([low, high]),
    })
}

#[inline(always)]
fn find_indirect_y<B: CycleBus>(
    bus: &mut B,
    cpu: &Cpu,
    opcode: u8,
    row: Row,
    always: bool,
) -> Result<Found, CpuFault>
    requires mode { row.mode ≡ Mode.IndirectY }
    requires plain { takes_vector row.operation ≡ false }
    ensures { IsSearch B.meaning row cpu.now (B.state bus.old) opcode always result (B.state bus.new) }
{
    let mut held = HeldBytes::of(cpu.pc, opcode);
    held.low = fetch(bus, cpu.pc.wrapping_add(1))?;
    held.place = held.low;
    let [low, high] = read_pointer(bus, held.low as u16);
    held.pointer_low = low;
    held.pointer_high = high;
    let base = u16::from_le_bytes([low, high]);
    let address = indexed(bus, base, cpu.y, always);
    Ok(Found { held, address })
}

/// The cycles that find where the operand of a mode is. With `always` an index is added without a
/// carry first whether that was right or not.
#[inline(always)]
pub(crate) fn find<B: CycleBus>(
    bus: &mut B,
    cpu: &Cpu,
    opcode: u8,
    row: Row,
    always: bool,
) -> Result<Found, CpuFault>
    requires place { is_found row.mode ≡ true }
    requires plain { takes_vector row.operation ≡ false }
    ensures { IsSearch B.meaning row cpu.now (B.state bus.old) opcode always result (B.state bus.new) }
{
    match row.mode {
        Mode::ZeroPageX => find_zero_page_x(bus, cpu, opcode, row, always),
        Mode::ZeroPageY => find_zero_page_y(bus, cpu, opcode, row, always),
        Mode::Absolute => find_absolute(bus, cpu, opcode, row, always),
        Mode::AbsoluteX => find_absolute_x(bus, cpu, opcode, row, always),
        Mode::AbsoluteY => find_absolute_y(bus, cpu, opcode, row, always),
        Mode::Indirect => find_indirect(bus, cpu, opcode, row, always),
        Mode::IndirectX => find_indirect_x(bus, cpu, opcode, row, always),
        Mode::IndirectY => find_indirect_y(bus, cpu, opcode, row, always),
        _ => find_zero_page(bus, cpu, opcode, row, always),
    }
}
