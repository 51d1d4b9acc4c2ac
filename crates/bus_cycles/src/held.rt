//! The bytes of an instruction, at hand for the step of `mos_cpu`.

ghost use Rattle.std.specs.Prelude.{◌≡◌, IsOk};
ghost use Rattle.mos_cpu.specs.Execution.{step_of};
ghost use Rattle.mos_cpu.specs.Operands.{instruction_at};
ghost use Rattle.bus_cycles.specs.Private.Held.{held_meaning, held_bus, opcode_held, IsGuideStep};

use crate::near::NearBus;
use mos_cpu::{Bus, RunningCpu};

/// The bytes of an instruction, and of its pointer.
#[derive(Clone, Copy)]
pub struct HeldBytes {
    /// Where the opcode is.
    pub at: u16,
    pub opcode: u8,
    /// The bytes after it, if there are such.
    pub low: u8,
    pub high: u8,
    /// Where a pointer in page zero is, and its bytes.
    pub place: u8,
    pub pointer_low: u8,
    pub pointer_high: u8,
}

impl HeldBytes {
    /// An opcode that was fetched, and nothing else yet.
    #[inline(always)]
    pub(crate) fn of(at: u16, opcode: u8) -> HeldBytes
        ensures { result ≡ opcode_held at opcode }
    {
        HeldBytes {
            at,
            opcode,
            low: 0,
            high: 0,
            place: 0,
            pointer_low: 0,
            pointer_high: 0,
        }
    }
}

/// A bus on which nothing happens: the step of `mos_cpu` finds on it what the cycles of an
/// instruction have read, and leaves on it what they are to write.
#[derive(Clone, Copy)]
pub struct HeldBus {
    pub held: HeldBytes,
    /// What the instruction reads or pulls, in its order.
    pub first: u8,
    pub second: u8,
    pub third: u8,
    /// What it wrote last, and before that.
    pub last: u8,
    pub before: u8,
}

impl HeldBus {
    /// The bytes of an instruction that has read these.
    #[inline(always)]
    pub(crate) fn of(held: HeldBytes, first: u8, second: u8, third: u8) -> HeldBus
        ensures { result ≡ held_bus held first second third }
    {
        HeldBus {
            held,
            first,
            second,
            third,
            last: 0,
            before: 0,
        }
    }
}

impl Bus for HeldBus {
    ghost use Rattle.bus_cycles.specs.declared.held.HeldBus.{HeldBus};

    ghost State = { HeldBus };

    ghost state = { λ bus. bus };

    ghost meaning = { held_meaning };

    #[inline(always)]
    fn pass(&mut self, _cycles: u8) {}

    #[inline(always)]
    fn read(&mut self, _address: u16) -> u8 {
        let byte = self.first;
        self.first = self.second;
        self.second = self.third;
        byte
    }

    #[inline(always)]
    fn write(&mut self, _address: u16, value: u8) {
        self.before = self.last;
        self.last = value;
    }

    #[inline(always)]
    fn peek(&self, address: u16) -> Option<u8> {
        Some(if address == self.held.at {
            self.held.opcode
        } else if address == self.held.at.wrapping_add(1) {
            self.held.low
        } else {
            self.held.high
        })
    }

    #[inline(always)]
    fn peek_after(&self, address: u16) -> Option<u8> {
        if address == self.held.at {
            Some(self.held.low)
        } else {
            None
        }
    }

    #[inline(always)]
    fn peek_zero(&self, address: u8) -> u8 {
        if address == self.held.place {
            self.held.pointer_low
        } else {
            self.held.pointer_high
        }
    }
}

/// Executes an instruction by its bytes, in the place of the call.
#[inline(always)]
pub(crate) fn execute_here<B>(cpu: &mut RunningCpu, bus: &mut NearBus<B>) -> u8
    requires { IsOk (instruction_at held_meaning bus.old cpu.old) }
    ensures { IsGuideStep cpu.old bus.old result cpu.new bus.new }
{
    match mos_cpu::step_running(cpu, bus) {
        Ok(cycles) => cycles,
        Err(_) => 0,
    }
}

/// The same in a function of its own, for callers that seldom do.
#[inline(never)]
pub(crate) fn execute(cpu: &mut RunningCpu, bus: &mut HeldBus) -> u8
    requires { IsOk (instruction_at held_meaning bus.old cpu.old) }
    ensures { IsGuideStep cpu.old bus.old result cpu.new bus.new }
{
    match mos_cpu::step_running(cpu, bus) {
        Ok(cycles) => cycles,
        Err(_) => 0,
    }
}
