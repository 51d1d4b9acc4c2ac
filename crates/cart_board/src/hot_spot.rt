//! Hot spots: the addresses that select banks.
ghost use Rattle.std.specs.Prelude.{◌≡◌};
ghost use Rattle.cart_board.specs.Access.{is_at, bank_selected};
ghost use Rattle.cart_board.specs.Private.Kept.{is_high};

use crate::bank::BankByte;

/// The first of the last 32 addresses of a cartridge, of 13 lines.
pub(crate) const FIRST_HIGH: u16 = 0x1FE0;

/// What an access to a hot spot selects.
#[derive(Clone, Copy, Debug, PartialEq, Eq)]
pub enum Selects {
    /// The bank of this number.
    Bank(u8),
    /// The bank after the selected one, and after the last one the first.
    Next,
    /// The bank of the byte that is written, modulo the number of banks. A read selects nothing.
    Written,
}

impl Selects {
    /// The bank after an access, which writes a byte or else reads.
    pub(crate) fn bank(self, last: u8, bank: u8, written: Option<u8>) -> u8
        ensures { result ≡ bank_selected self last bank written }
    {
        match self {
            Selects::Bank(number) => number,
            Selects::Next => ((bank as u16 + 1) % (last as u16 + 1)) as u8,
            Selects::Written => match written {
                Some(byte) => (byte as u16 % (last as u16 + 1)) as u8,
                None => bank,
            },
        }
    }
}

/// Addresses that select a bank: those whose lines `mask` have this value.
#[derive(Clone, Copy, Debug, PartialEq, Eq)]
pub struct HotSpot {
    pub mask: u16,
    pub value: u16,
    /// The bank byte that changes.
    pub byte: BankByte,
    pub selects: Selects,
}

impl HotSpot {
    /// Whether an address is one of them.
    pub(crate) fn is_at(&self, address: u16) -> bool
        ensures { result ≡ is_at address self.now }
    {
        address & self.mask == self.value
    }

    /// Whether it is one address of the last 32.
    pub(crate) fn is_high(&self) -> bool
        ensures { result ≡ is_high self.now }
    {
        self.mask == 0x1FFF && self.value >= FIRST_HIGH
    }
}
