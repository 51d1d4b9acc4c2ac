//! Addressing modes that name a place in memory, each a type of its own.

ghost use Rattle.std.specs.Prelude.{◌≤◌, ℕ, Bool, false, true};
ghost use Rattle.mos_cpu.specs.Private.OpcodeRuns.{IsLow, IsNamed};
ghost use Rattle.std.proofs.Common.{rules};
ghost use Rattle.mos_cpu.specs.declared.mode.Mode.{Mode};

use crate::addressing::{Target, direct, offset_by, pointer, word_after};
use crate::bus::Bus;
use crate::mode::Mode;
use crate::running_cpu::RunningCpu;

/// An addressing mode that names a place.
///
/// `CYCLES` are those of an instruction that reads the place and crosses no page. `INDEXED` is true
/// if indexing may cross one.
pub trait PlaceMode {
    const CYCLES: u8;

    const INDEXED: bool;

    ghost CYCLES: { ℕ };

    ghost INDEXED: { Bool };

    ghost mode: { Mode };

    /// The place by the byte after the opcode. None if a byte of the instruction isn't there.
    fn target<B: Bus>(cpu: &RunningCpu, bus: &B, low: u8) -> Option<Target>
        requires { IsLow B.meaning (B.state bus.now) cpu.now low }
        ensures { IsNamed B.meaning (B.state bus.now) cpu.now mode result };

    ghost short: { CYCLES ≤ 6 };
}

pub struct ZeroPage;

impl PlaceMode for ZeroPage {
    const CYCLES: u8 = 3;

    const INDEXED: bool = false;

    ghost CYCLES = { 3 };

    ghost INDEXED = { false };

    ghost mode = { Mode.ZeroPage };

    ghost short = { Prim.search rules };

    #[inline(always)]
    fn target<B: Bus>(cpu: &RunningCpu, _bus: &B, low: u8) -> Option<Target> {
        Some(direct(low as u16, cpu.pc.wrapping_add(2)))
    }
}

pub struct ZeroPageX;

impl PlaceMode for ZeroPageX {
    const CYCLES: u8 = 4;

    const INDEXED: bool = false;

    ghost CYCLES = { 4 };

    ghost INDEXED = { false };

    ghost mode = { Mode.ZeroPageX };

    ghost short = { Prim.search rules };

    #[inline(always)]
    fn target<B: Bus>(cpu: &RunningCpu, _bus: &B, low: u8) -> Option<Target> {
        Some(direct(low.wrapping_add(cpu.x) as u16, cpu.pc.wrapping_add(2)))
    }
}

pub struct ZeroPageY;

impl PlaceMode for ZeroPageY {
    const CYCLES: u8 = 4;

    const INDEXED: bool = false;

    ghost CYCLES = { 4 };

    ghost INDEXED = { false };

    ghost mode = { Mode.ZeroPageY };

    ghost short = { Prim.search rules };

    #[inline(always)]
    fn target<B: Bus>(cpu: &RunningCpu, _bus: &B, low: u8) -> Option<Target> {
        Some(direct(low.wrapping_add(cpu.y) as u16, cpu.pc.wrapping_add(2)))
    }
}

pub struct Absolute;

impl PlaceMode for Absolute {
    const CYCLES: u8 = 4;

    const INDEXED: bool = false;

    ghost CYCLES = { 4 };

    ghost INDEXED = { false };

    ghost mode = { Mode.Absolute };

    ghost short = { Prim.search rules };

    #[inline(always)]
    fn target<B: Bus>(cpu: &RunningCpu, bus: &B, low: u8) -> Option<Target> {
        let address = word_after(cpu, bus, low)?;
        Some(direct(address, cpu.pc.wrapping_add(3)))
    }
}

pub struct AbsoluteX;

impl PlaceMode for AbsoluteX {
    const CYCLES: u8 = 4;

    const INDEXED: bool = true;

    ghost CYCLES = { 4 };

    ghost INDEXED = { true };

    ghost mode = { Mode.AbsoluteX };

    ghost short = { Prim.search rules };

    #[inline(always)]
    fn target<B: Bus>(cpu: &RunningCpu, bus: &B, low: u8) -> Option<Target> {
        let base = word_after(cpu, bus, low)?;
        Some(offset_by(base, cpu.x as u16, cpu.pc.wrapping_add(3)))
    }
}

pub struct AbsoluteY;

impl PlaceMode for AbsoluteY {
    const CYCLES: u8 = 4;

    const INDEXED: bool = true;

    ghost CYCLES = { 4 };

    ghost INDEXED = { true };

    ghost mode = { Mode.AbsoluteY };

    ghost short = { Prim.search rules };

    #[inline(always)]
    fn target<B: Bus>(cpu: &RunningCpu, bus: &B, low: u8) -> Option<Target> {
        let base = word_after(cpu, bus, low)?;
        Some(offset_by(base, cpu.y as u16, cpu.pc.wrapping_add(3)))
    }
}

pub struct IndirectX;

impl PlaceMode for IndirectX {
    const CYCLES: u8 = 6;

    const INDEXED: bool = false;

    ghost CYCLES = { 6 };

    ghost INDEXED = { false };

    ghost mode = { Mode.IndirectX };

    ghost short = { Prim.search rules };

    #[inline(always)]
    fn target<B: Bus>(cpu: &RunningCpu, bus: &B, low: u8) -> Option<Target> {
        let at = low.wrapping_add(cpu.x);
        Some(direct(pointer(bus, at), cpu.pc.wrapping_add(2)))
    }
}

pub struct IndirectY;

impl PlaceMode for IndirectY {
    const CYCLES: u8 = 5;

    const INDEXED: bool = true;

    ghost CYCLES = { 5 };

    ghost INDEXED = { true };

    ghost mode = { Mode.IndirectY };

    ghost short = { Prim.search rules };

    #[inline(always)]
    fn target<B: Bus>(cpu: &RunningCpu, bus: &B, low: u8) -> Option<Target> {
        let base = pointer(bus, low);
        Some(offset_by(base, cpu.y as u16, cpu.pc.wrapping_add(2)))
    }
}
