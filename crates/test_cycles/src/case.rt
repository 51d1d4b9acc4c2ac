//! Cases of bus cycles.

use crate::access::{Access, address, byte};
use crate::log_bus::LogBus;
use arrayvec::ArrayVec;
use bus_cycles::step;
use mos_cpu::{Cpu, CpuFault};

/// What is at addresses that a case doesn't name.
const UNNAMED: u8 = 0xA5;

/// Whether each line of a text is a comment.
pub(crate) fn is_comment(text: &str) -> bool {
    text.lines().all(|line| line.starts_with('#'))
}

/// Puts a register that a word names, as `PC=F003`. None where it names none.
#[tactic(auto, using(mos_cpu::proofs::StatusLemmas::pulls))]
fn put_register(cpu: &mut Cpu, word: &str) -> Option<()> {
    let (name, value) = word.split_once('=')?;
    match name {
        "PC" => cpu.pc = address(value)?,
        "A" => cpu.a = byte(value)?,
        "X" => cpu.x = byte(value)?,
        "Y" => cpu.y = byte(value)?,
        "S" => cpu.s = byte(value)?,
        "P" => cpu.p = byte(value)? & 0xCF,
        _ => return None,
    }
    Some(())
}

/// The registers, with those that words name. None where a word names none.
fn with_registers(mut cpu: Cpu, words: &str) -> Option<Cpu> {
    for word in words.split_whitespace() {
        put_register(&mut cpu, word)?;
    }
    Some(cpu)
}

/// The bus of bytes that words name, as `F000=AD`, or `0280=none` where none can be fetched. None
/// where a word names none.
fn bus_of(words: &str) -> Option<LogBus> {
    let mut bus = LogBus {
        memory: [UNNAMED; 65536],
        outside: None,
        accesses: ArrayVec::new(),
    };
    for word in words.split_whitespace() {
        let (place, value) = word.split_once('=')?;
        let place = address(place)?;
        if value == "none" {
            bus.outside = Some(place);
        } else {
            bus.memory[place as usize] = byte(value)?;
        }
    }
    Some(bus)
}

/// The accesses of a line, or none where it is "none". None where a text is no access.
fn accesses_of(line: &str) -> Option<ArrayVec<Access, 8>> {
    let mut accesses = ArrayVec::new();
    if line == "none" {
        return Some(accesses);
    }
    for text in line.split(';') {
        accesses.try_push(Access::parse(text.trim())?).ok()?;
    }
    Some(accesses)
}

/// The fault that a line names. None where it names none.
fn fault_of(line: &str) -> Option<CpuFault> {
    let (what, place) = line.split_once(" at ")?;
    let at = address(place)?;
    if what == "outside" {
        return Some(CpuFault::FetchOutside { at });
    }
    let opcode = byte(what)?;
    Some(CpuFault::BadOpcode { opcode, at })
}

/// Whether a step answers what a line says: a fault, or so many cycles with these registers.
fn is_answer(
    before: Cpu,
    after: Cpu,
    answer: Result<u8, CpuFault>,
    cycles: usize,
    line: &str,
) -> Option<bool> {
    match answer {
        Ok(n) => Some(n as usize == cycles && after == with_registers(before, line)?),
        Err(fault) => Some(after == before && fault == fault_of(line)?),
    }
}

/// Whether an instruction makes these accesses, and leaves what its last line says. None where the
/// lines aren't those of a case.
fn is_executed(start: &str, accesses: &str, end: &str) -> Option<bool> {
    let (registers, bytes) = start.split_once(" | ")?;
    let power_on = Cpu {
        a: 0,
        x: 0,
        y: 0,
        s: 0xFF,
        p: 0,
        pc: 0xF000,
    };
    let before = with_registers(power_on, registers)?;
    let mut bus = bus_of(bytes)?;
    let expected = accesses_of(accesses)?;
    let mut cpu = before;
    let answer = step(&mut cpu, &mut bus);
    let is_answered = is_answer(before, cpu, answer, expected.len(), end)?;
    Some(is_answered && bus.accesses.as_slice() == expected.as_slice())
}

/// Whether a case is met. Its first line names a source.
pub(crate) fn is_met(case: &str) -> bool {
    let mut lines = case.lines();
    let Some(title) = lines.next() else {
        return false;
    };
    let Some(start) = lines.next() else {
        return false;
    };
    let Some(accesses) = lines.next() else {
        return false;
    };
    let Some(end) = lines.next() else {
        return false;
    };
    title.contains(" | ") && is_executed(start, accesses, end) == Some(true)
}
