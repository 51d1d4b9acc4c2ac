//! A cartridge whose case is under way.

use crate::step::Step;
use cart_board::{Board, Cart, MappedCart};
use std::alloc::{AllocError, Global};

/// A cartridge in a console, and the last byte on the bus.
#[derive(Drop)]
pub(crate) struct Trial<'a> {
    alloc: Global,
    board: &'static Board,
    cart: &'a Cart,
    mapped: MappedCart<'a>,
    bus: u8,
}

impl<'a> Trial<'a> {
    /// A cartridge as a console is switched on.
    pub(crate) fn power_on(alloc: Global, cart: &'a Cart) -> Result<Trial<'a>, AllocError> {
        Ok(Trial {
            alloc,
            board: cart.board(),
            cart,
            mapped: MappedCart::power_on(alloc, cart)?,
            bus: 0,
        })
    }

    /// Takes a step. Whether all is as the step says.
    pub(crate) fn take(&mut self, step: Step) -> Result<bool, AllocError> {
        let is_met = match step {
            Step::Read(address, value) => self.read(address, value),
            Step::Write(address, value) => {
                self.write(address, value);
                true
            }
            Step::Banks(banks) => self.mapped.banks() == banks,
            Step::Ram(offset, value) => self.mapped.ram().get(offset) == Some(&value),
            Step::Lawful(banks, is_lawful) => self.takes(banks)? == is_lawful,
            Step::Record(length) => self.has_record(length),
        };
        Ok(is_met)
    }

    /// Whether so many bytes spell the bank bytes that the board has, and its RAM.
    fn has_record(&self, length: usize) -> bool {
        let banks = self.mapped.banks();
        let spelled = self.board.bank_bytes(&banks).len();
        self.board.record_length() == length
            && spelled.saturating_add(self.mapped.ram().len()) == length
    }

    /// Whether the cartridge can have these bank bytes.
    fn takes(&self, banks: [u8; 3]) -> Result<bool, AllocError> {
        let ram = vec![in self.alloc; 0; self.board.ram as usize]?;
        Ok(MappedCart::new(self.cart, banks, ram).is_ok())
    }

    /// Reads an address. Whether the cartridge gives this byte, also to a look before; where the
    /// address isn't its own, the chip there does.
    fn read(&mut self, address: u16, value: u8) -> bool {
        self.mapped.select(address, None);
        let (seen, found) = if address / 4096 % 2 == 1 {
            (
                self.mapped.peek(address, self.bus),
                self.mapped.read(address, self.bus),
            )
        } else {
            (value, value)
        };
        self.mapped.select_by_byte(address, found);
        self.bus = found;
        seen == value && found == value
    }

    fn write(&mut self, address: u16, value: u8) {
        self.mapped.select(address, Some(value));
        if address / 4096 % 2 == 1 {
            self.mapped.write(address, value);
        }
        self.mapped.select_by_byte(address, value);
        self.bus = value;
    }
}
