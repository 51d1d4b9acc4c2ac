//! A console whose processor's data accesses are listed.
use crate::console::Console;
use crate::executed::{DataAccess, MOST_ACCESSES};
use arrayvec::ArrayVec;
use mos_cpu::Bus;
use tia_core::Paint;

/// A sink that keeps nothing. It is a type of its own, beside `NoPaint`, so that a stepped frame
/// shares no function with the loop of a frame: those that are called once are compiled into it.
#[derive(Clone, Copy)]
pub struct NoPixels;

impl Paint for NoPixels {
    ghost drawn = { λ s _ _ _. s };

    fn put(&mut self, _line: u16, _x: u8, _colour: u8) {}

    fn keeps(&self) -> bool {
        false
    }
}

/// A console that draws nothing, and the data accesses that were made on it.
#[derive(Drop)]
pub struct Logged<'a> {
    pub console: Console<'a, NoPixels>,
    pub accesses: ArrayVec<DataAccess, MOST_ACCESSES>,
}

impl<'a> Bus for Logged<'a> {
    ghost use Rattle.vcs_machine.specs.Consoles.{meaning_of};
    ghost use Rattle.vcs_machine.specs.Instructions.{Undrawn, with_pixel_lost};
    ghost use Rattle.vcs_machine.specs.Private.Logged.{Logged as LoggedOf, logging};

    ghost State = { LoggedOf Undrawn };

    ghost state = { λ l. record { bus = l.console; accesses = l.accesses.items } };

    ghost meaning = { logging (meaning_of with_pixel_lost) };

    #[tactic(auto, unfolding(crate::specs::Private::Logged::logging))]
    fn pass(&mut self, cycles: u8) {
        self.console.pass(cycles);
    }

    #[tactic(auto, unfolding(crate::specs::Private::Logged::logging))]
    fn read(&mut self, address: u16) -> u8 {
        let byte = self.console.read(address);
        let _ = self.accesses.try_push(DataAccess {
            is_write: false,
            address,
            byte,
        });
        byte
    }

    #[tactic(auto, unfolding(crate::specs::Private::Logged::logging))]
    fn write(&mut self, address: u16, value: u8) {
        self.console.write(address, value);
        let _ = self.accesses.try_push(DataAccess {
            is_write: true,
            address,
            byte: value,
        });
    }

    #[tactic(auto, unfolding(crate::specs::Private::Logged::logging))]
    fn peek(&self, address: u16) -> Option<u8> {
        self.console.peek(address)
    }

    #[tactic(auto, unfolding(crate::specs::Private::Logged::logging))]
    fn peek_zero(&self, address: u8) -> u8 {
        self.console.peek_zero(address)
    }
}
