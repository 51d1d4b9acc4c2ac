//! What addresses of a cartridge lead to.
ghost use Rattle.std.specs.Prelude.{◌≡◌, ◌<◌, ◌^◌, length};
ghost use Rattle.cart_board.specs.Access.{start_of, offset_of, holds, is_in};

use crate::bank::BankByte;

/// What an address leads to.
#[derive(Clone, Copy, Debug, PartialEq, Eq)]
pub enum Kind {
    Rom,
    /// RAM for reading.
    ReadPort,
    /// RAM for writing.
    WritePort,
}

/// A byte of the ROM or the RAM, by its place there.
#[derive(Clone, Copy, Debug, PartialEq, Eq)]
pub struct Target {
    pub kind: Kind,
    pub offset: usize,
}

/// Where a slice of the ROM or the RAM begins.
#[derive(Clone, Copy, Debug, PartialEq, Eq)]
pub enum Start {
    At(u16),
    /// At the bank that a bank byte selects, where bank 0 begins here and each is as long as the
    /// slice.
    Bank(u16, BankByte),
    /// As long before the end of the cartridge as the slice is.
    Last,
}

/// A slice of the ROM or the RAM. Its length is a power of two, one more than `mask`, so that the
/// lines `mask` of an address find a byte in it.
#[derive(Clone, Copy, Debug, PartialEq, Eq)]
pub struct Slice {
    pub start: Start,
    pub mask: u16,
}

impl Slice {
    /// Where it begins, in a cartridge of so many bytes.
    pub(crate) fn start(&self, bytes: usize, banks: &[u8; 3]) -> usize
        ensures value { result ≡ start_of self.now bytes banks.now }
        ensures range { bytes < 2 ^ 63 → result < 2 ^ 63 }
    {
        let length = self.mask as usize + 1;
        match self.start {
            Start::At(start) => start as usize,
            Start::Bank(first, byte) => first as usize + length * banks[byte.index()] as usize,
            Start::Last => bytes.saturating_sub(length),
        }
    }

    /// The place of an address's byte in it, in a cartridge of so many bytes.
    pub(crate) fn offset(&self, bytes: usize, banks: &[u8; 3], address: u16) -> usize
        requires { bytes < 2 ^ 63 }
        ensures { result ≡ offset_of self.now bytes banks.now address }
    {
        self.start(bytes, banks) + (address & self.mask) as usize
    }
}

/// While what is selected a window is open.
#[derive(Clone, Copy, Debug, PartialEq, Eq)]
pub enum When {
    Always,
    /// While this bank byte is this number.
    Bank(BankByte, u8),
}

impl When {
    /// Whether it is open while these banks are selected.
    pub(crate) fn holds(&self, banks: &[u8; 3]) -> bool
        ensures { result ≡ holds self.now banks.now }
    {
        match self {
            When::Always => true,
            When::Bank(byte, number) => banks[byte.index()] == *number,
        }
    }
}

/// A window of a cartridge's 4096 addresses, and what they lead to while it is open.
#[derive(Clone, Copy, Debug, PartialEq, Eq)]
pub struct Window {
    /// Its first and its last address, 0 to 4095.
    pub first: u16,
    pub last: u16,
    pub when: When,
    pub kind: Kind,
    pub slice: Slice,
}

impl Window {
    /// Whether an address is in it while these banks are selected.
    pub(crate) fn has(&self, address: u16, banks: &[u8; 3]) -> bool
        ensures { result ≡ is_in address banks.now self.now }
    {
        let place = address % 4096;
        self.first <= place && place <= self.last && self.when.holds(banks)
    }
}
