//! A console whose processor's accesses are listed.
ghost use Rattle.std.specs.Prelude.{◌≡◌};
ghost use Rattle.chip_machine.specs.Instructions.{with_item, with_read};

use crate::console::Console;
use crate::executed::MOST_ACCESSES;
use arrayvec::ArrayVec;
use bus_cycles::{CycleBus, Purpose};
use tia_core::NoPaint;
use vcs_machine::DataAccess;

/// A console that draws nothing, and the accesses that were made on it.
#[derive(Drop)]
pub struct Logged<'a> {
    pub console: Console<'a, NoPaint>,
    /// The bytes of the program that were fetched.
    pub code: ArrayVec<u8, MOST_ACCESSES>,
    pub accesses: ArrayVec<DataAccess, MOST_ACCESSES>,
}

impl<'a> Logged<'a> {
    /// Lists a byte of the program.
    fn list_code(&mut self, byte: u8)
        ensures code { self.new.code.items ≡ with_item self.old.code.items byte }
        ensures console { self.new.console ≡ self.old.console }
        ensures accesses { self.new.accesses.items ≡ self.old.accesses.items }
    {
        let _ = self.code.try_push(byte);
    }

    /// Lists what was read or written.
    fn list(&mut self, access: DataAccess)
        ensures accesses { self.new.accesses.items ≡ with_item self.old.accesses.items access }
        ensures console { self.new.console ≡ self.old.console }
        ensures code { self.new.code.items ≡ self.old.code.items }
    {
        let _ = self.accesses.try_push(access);
    }
}

impl<'a> CycleBus for Logged<'a> {
    ghost use Rattle.chip_machine.specs.Consoles.{Console as ConsoleOf, meaning_of};
    ghost use Rattle.chip_machine.specs.Instructions.{Listed, listing};
    ghost use Rattle.tia_core.specs.declared.paint.NoPaint.{NoPaint};

    ghost State = { Listed (ConsoleOf NoPaint) };

    ghost state = { λ l. record { bus = l.console; code = l.code.items; accesses = l.accesses.items } };

    ghost meaning = { listing (meaning_of (λ s _ _ _. s)) };

    #[tactic(auto, unfolding(crate::specs::Instructions::listing))]
    fn holds_code(&self, address: u16) -> bool {
        self.console.holds_code(address)
    }

    #[tactic(auto, unfolding(crate::specs::Instructions::listing))]
    fn read(&mut self, address: u16, purpose: Purpose) -> u8 {
        let byte = self.console.read(address, purpose);
        match purpose {
            Purpose::Code => self.list_code(byte),
            Purpose::Data => self.list(DataAccess {
                is_write: false,
                address,
                byte,
            }),
            Purpose::Pointer | Purpose::Discarded => {}
        }
        byte
    }

    #[tactic(auto, unfolding(crate::specs::Instructions::listing))]
    fn write(&mut self, address: u16, value: u8) {
        self.console.write(address, value);
        self.list(DataAccess {
            is_write: true,
            address,
            byte: value,
        });
    }
}
