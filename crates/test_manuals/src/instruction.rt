//! One instruction, and what another processor left of it.

use crate::event::Event;
use crate::log_bus::LogBus;
use arrayvec::ArrayVec;
use mos_cpu::{Cpu, step};
use std::str::SplitWhitespace;

/// What is at addresses that an instruction doesn't use. It isn't 0, which some of the named bytes
/// are.
const UNUSED: u8 = 0xA5;

/// An instruction with what it finds, and what another processor left.
#[derive(Drop)]
pub(crate) struct Instruction {
    before: Cpu,
    bytes: ArrayVec<(u16, u8), 8>,
    after: Cpu,
    cycles: u8,
    accesses: ArrayVec<Event, 8>,
}

impl Instruction {
    /// The instruction of a line; none where the line is no instruction.
    pub(crate) fn parse(line: &str) -> Option<Instruction> {
        let mut parts = line.split('|');
        let before = parts.next()?;
        let bytes = parts.next()?;
        let after = parts.next()?;
        let accesses = parts.next()?;
        let mut words = after.split_whitespace();
        let after = registers(&mut words)?;
        let cycles = words.next()?.parse().ok()?;
        let mut words = before.split_whitespace();
        let _opcode = words.next()?;
        Some(Instruction {
            before: registers(&mut words)?,
            bytes: named_bytes(bytes)?,
            after,
            cycles,
            accesses: timed_accesses(accesses)?,
        })
    }

    /// Whether the processor leaves the same registers in as many cycles, and makes the same data
    /// accesses in theirs.
    pub(crate) fn is_met(&self) -> bool {
        let mut bus = self.bus();
        let mut cpu = self.before;
        let answer = step(&mut cpu, &mut bus);
        answer == Ok(self.cycles)
            && bus.clock == self.cycles as u32
            && cpu == self.after
            && bus.events.as_slice() == self.accesses.as_slice()
    }

    /// A memory that holds its bytes.
    fn bus(&self) -> LogBus {
        let mut memory = [UNUSED; 65536];
        for (address, value) in self.bytes.iter() {
            memory[*address as usize] = *value;
        }
        LogBus {
            memory,
            clock: 0,
            events: ArrayVec::new(),
        }
    }
}

/// The registers PC, A, X, Y, S and P of six words.
fn registers(words: &mut SplitWhitespace) -> Option<Cpu> {
    let pc = u16::from_str_radix(words.next()?, 16).ok()?;
    let a = byte(words.next()?)?;
    let x = byte(words.next()?)?;
    let y = byte(words.next()?)?;
    let s = byte(words.next()?)?;
    let p = byte(words.next()?)?;
    if p / 16 % 4 != 0 {
        return None;
    }
    Some(Cpu { a, x, y, s, p, pc })
}

fn byte(word: &str) -> Option<u8> {
    u8::from_str_radix(word, 16).ok()
}

/// An address and its byte, as `00FF=2A`.
fn named_byte(word: &str) -> Option<(u16, u8)> {
    let (address, value) = word.split_once('=')?;
    Some((u16::from_str_radix(address, 16).ok()?, byte(value)?))
}

fn named_bytes(text: &str) -> Option<ArrayVec<(u16, u8), 8>> {
    let mut bytes = ArrayVec::new();
    for word in text.split_whitespace() {
        bytes.try_push(named_byte(word)?).ok()?;
    }
    Some(bytes)
}

/// The data access of a word, with its cycle counted from 1: `3:00FF` is a read, and `4:00FF=2A` a
/// write.
fn timed_access(word: &str) -> Option<Event> {
    let (cycle, rest) = word.split_once(':')?;
    let cycle = cycle.parse().ok()?;
    if rest.contains('=') {
        let (address, value) = named_byte(rest)?;
        return Some(Event::Write(cycle, address, value));
    }
    Some(Event::Read(cycle, u16::from_str_radix(rest, 16).ok()?))
}

fn timed_accesses(text: &str) -> Option<ArrayVec<Event, 8>> {
    let mut accesses = ArrayVec::new();
    for word in text.split_whitespace() {
        accesses.try_push(timed_access(word)?).ok()?;
    }
    Some(accesses)
}
