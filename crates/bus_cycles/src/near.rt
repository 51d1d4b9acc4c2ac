//! The bytes of a short instruction, near the processor's step.

ghost use Rattle.std.specs.Prelude.{◌≡◌};
ghost use Rattle.bus_cycles.specs.Private.Held.{held_meaning, held_bus, opcode_held};

use mos_cpu::Bus;
use std::marker::{Model, PhantomData};

/// A `HeldBus` of an instruction of two bytes at most, which reads one byte at most.
///
/// The step of `mos_cpu` on it is a copy of its own for each bus that it stands beside. A loop with one call
/// of it then has all of it in its place, and keeps these bytes and the registers out of memory.
#[derive(Drop)]
pub struct NearBus<B> {
    at: u16,
    opcode: u8,
    low: u8,
    /// What the instruction reads.
    first: u8,
    /// What it wrote last, and before that.
    last: u8,
    before: u8,
    beside: PhantomData<B>,
}

impl<B> Model for NearBus<B> {
    ghost use Rattle.bus_cycles.specs.declared.held.HeldBus.{HeldBus};
    ghost use Rattle.bus_cycles.specs.Private.Held.{near_held};

    ghost Value = { HeldBus };

    ghost view = { λ n. near_held n.at n.opcode n.low n.first n.last n.before };
}

impl<B> NearBus<B> {
    /// The bytes of an instruction that has read this one.
    #[inline(always)]
    pub(crate) fn of(at: u16, opcode: u8, low: u8, first: u8) -> Self
        ensures { result ≡ held_bus (record (opcode_held at opcode) { low = low }) first 0 0 }
    {
        NearBus {
            at,
            opcode,
            low,
            first,
            last: 0,
            before: 0,
            beside: PhantomData,
        }
    }

    /// What it wrote last.
    #[inline(always)]
    pub(crate) fn last(&self) -> u8
        ensures { result ≡ self.now.last }
    {
        self.last
    }
}

impl<B> Bus for NearBus<B> {
    ghost use Rattle.bus_cycles.specs.declared.held.HeldBus.{HeldBus};

    ghost State = { HeldBus };

    ghost state = { λ bus. bus };

    ghost meaning = { held_meaning };

    #[inline(always)]
    fn pass(&mut self, _cycles: u8) {}

    #[inline(always)]
    fn read(&mut self, _address: u16) -> u8 {
        let byte = self.first;
        self.first = 0;
        byte
    }

    #[inline(always)]
    fn write(&mut self, _address: u16, value: u8) {
        self.before = self.last;
        self.last = value;
    }

    #[inline(always)]
    fn peek(&self, address: u16) -> Option<u8> {
        Some(if address == self.at {
            self.opcode
        } else if address == self.at.wrapping_add(1) {
            self.low
        } else {
            0
        })
    }

    #[inline(always)]
    fn peek_after(&self, address: u16) -> Option<u8> {
        if address == self.at {
            Some(self.low)
        } else {
            None
        }
    }

    #[inline(always)]
    fn peek_zero(&self, _address: u8) -> u8 {
        // (the proof then knows that no pointer is held)
        let _ = &self.at;
        0
    }
}
