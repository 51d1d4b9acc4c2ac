//! Bank bytes.
ghost use Rattle.std.specs.Prelude.{◌≡◌, ◌<◌};
ghost use Rattle.cart_board.specs.Board.{index_of, last_number};

/// The bytes of one bank where the number of banks follows from the cartridge's length.
const SLICE_LENGTH: usize = 2048;

/// One of the numbers that say what a board has selected. Boards have up to three.
#[derive(Clone, Copy, Debug, PartialEq, Eq)]
pub enum BankByte {
    First,
    Second,
    Third,
}

impl BankByte {
    /// Its place among the three.
    pub fn index(self) -> usize
        ensures value { result ≡ index_of self }
        ensures range { result < 3 }
    {
        match self {
            BankByte::First => 0,
            BankByte::Second => 1,
            BankByte::Third => 2,
        }
    }
}

/// The last bank that a bank byte can select. The first one is 0.
#[derive(Clone, Copy, Debug, PartialEq, Eq)]
pub enum LastBank {
    Number(u8),
    /// That of the cartridge's last 2048 bytes, at most 255.
    ByLength,
}

impl LastBank {
    /// Its number, of a cartridge of so many bytes.
    pub(crate) fn number(self, bytes: usize) -> u8
        ensures { result ≡ last_number self bytes }
    {
        match self {
            LastBank::Number(number) => number,
            LastBank::ByLength => (bytes / SLICE_LENGTH).saturating_sub(1).min(255) as u8,
        }
    }
}

/// What a bank byte can be, and what it is when a console is switched on.
#[derive(Clone, Copy, Debug, PartialEq, Eq)]
pub struct BankNumbers {
    pub last: LastBank,
    pub power_on: u8,
}
