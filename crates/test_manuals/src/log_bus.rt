//! A bus that keeps a log.

use crate::event::Event;
use arrayvec::ArrayVec;
use mos_cpu::Bus;

/// A memory of 65,536 bytes, from each of which an instruction may be fetched, the cycles that
/// passed modulo 2^32, and the first eight data accesses.
#[derive(Drop)]
pub(crate) struct LogBus {
    pub memory: [u8; 65536],
    pub clock: u32,
    pub events: ArrayVec<Event, 8>,
}

impl Bus for LogBus {
    ghost use Rattle.test_manuals.specs.Trace.{Trace, trace_meaning};

    ghost State = { Trace };

    ghost state = { λ b. record { memory = b.memory; clock = b.clock; events = b.events.items } };

    ghost meaning = { trace_meaning };

    fn pass(&mut self, cycles: u8) {
        let before = self.clock;
        self.clock = before.wrapping_add(cycles as u32);
    }

    fn read(&mut self, address: u16) -> u8 {
        let _ = self.events.try_push(Event::Read(self.clock, address));
        self.memory[address as usize]
    }

    fn write(&mut self, address: u16, value: u8) {
        let _ = self
            .events
            .try_push(Event::Write(self.clock, address, value));
        self.memory[address as usize] = value;
    }

    fn peek(&self, address: u16) -> Option<u8> {
        Some(self.memory[address as usize])
    }

    fn peek_zero(&self, address: u8) -> u8 {
        self.memory[address as usize]
    }
}
