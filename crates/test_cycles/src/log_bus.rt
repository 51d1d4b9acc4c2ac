//! A bus that keeps a log.

use crate::access::{Access, What};
use arrayvec::ArrayVec;
use bus_cycles::{CycleBus, Purpose};

/// A memory, one address from which no byte of the program can be fetched, and the first eight
/// accesses.
#[derive(Drop)]
pub(crate) struct LogBus {
    pub memory: [u8; 65536],
    pub outside: Option<u16>,
    pub accesses: ArrayVec<Access, 8>,
}

impl CycleBus for LogBus {
    ghost use Rattle.test_cycles.specs.Trace.{Trace, trace_meaning};

    ghost State = { Trace };

    ghost state = { λ b. record { memory = b.memory; outside = b.outside; accesses = b.accesses.items } };

    ghost meaning = { trace_meaning };

    fn holds_code(&self, address: u16) -> bool {
        self.outside != Some(address)
    }

    fn read(&mut self, address: u16, purpose: Purpose) -> u8 {
        let byte = self.memory[address as usize];
        let what = match purpose {
            Purpose::Code => What::Fetch,
            Purpose::Pointer => What::Pointer,
            Purpose::Data => What::Read,
            Purpose::Discarded => What::Discard,
        };
        let _ = self.accesses.try_push(Access {
            what,
            address,
            byte,
        });
        byte
    }

    fn write(&mut self, address: u16, value: u8) {
        let _ = self.accesses.try_push(Access {
            what: What::Write,
            address,
            byte: value,
        });
        self.memory[address as usize] = value;
    }
}
