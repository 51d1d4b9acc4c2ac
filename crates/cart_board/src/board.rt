//! A board: how the bytes of a cartridge are wired.
ghost use Rattle.std.specs.Prelude.{ℕ, ◌≡◌, ◌==◌, ◌<◌, ◌≤◌, ◌%◌, IfSome, bytes_eq, find, length, map, option_map, slice_get, take};
ghost use Rattle.std.specs.List.{list_all};
ghost use Rattle.cart_board.specs.Board.{row_of, index_of, has_length, last_bank};
ghost use Rattle.cart_board.specs.Access.{banks_selected, banks_of_byte, is_at, is_in};
ghost use Rattle.cart_board.specs.Boards.{boards, IsBoard};
ghost use Rattle.cart_board.specs.Private.Kept.{IsPlainAt, is_high};
ghost use Rattle.cart_board.specs.Record.{record_length, bank_in, banks_in};
ghost use Rattle.cart_board.specs.CartState.{bank_at_power_on, banks_at_power_on};

use crate::bank::{BankByte, BankNumbers};
use crate::boards::BOARDS;
use crate::hot_spot::{FIRST_HIGH, HotSpot};
use crate::window::{Slice, Window};

/// A board, as a row of the table `BOARDS`.
#[derive(Clone, Copy, Debug)]
pub struct Board {
    /// The number that stands for it in a movie.
    pub code: u8,
    pub name: &'static str,
    /// How many bytes its cartridges can have.
    pub lengths: &'static [usize],
    /// Its bank bytes, up to three.
    pub banks: &'static [BankNumbers],
    /// The addresses that select a bank.
    pub hot_spots: &'static [HotSpot],
    /// The address after which the byte of the next access selects.
    pub trigger: Option<u16>,
    /// How many bytes of RAM it has.
    pub ram: u16,
    /// What some of its addresses lead to. The first window that an address is in counts.
    pub windows: &'static [Window],
    /// The ROM that its other addresses lead to.
    pub rest: Slice,
}

impl Board {
    /// All boards, in the order of their codes, which begin with 0.
    pub fn all() -> &'static [Board]
        ensures { map row_of result.now ≡ boards }
    {
        &BOARDS
    }

    /// The board of a code.
    pub(crate) fn of_code(code: u8) -> Option<&'static Board>
        ensures row { option_map (λ board. row_of board.now) result ≡ find (λ row. row.code == code) boards }
        ensures known { IfSome result (λ board. IsBoard (row_of board.now)) }
    {
        Board::all().iter().find(|board| board.code == code)
    }

    /// The board of a name.
    pub(crate) fn of_name(name: &str) -> Option<&'static Board>
        ensures row { option_map (λ board. row_of board.now) result ≡ find (λ row. bytes_eq row.name name.now) boards }
        ensures known { IfSome result (λ board. IsBoard (row_of board.now)) }
    {
        Board::all().iter().find(|board| board.name == name)
    }

    /// Whether its cartridges can have so many bytes.
    pub fn has_length(&self, bytes: usize) -> bool
        ensures { result ≡ has_length (row_of self.now) bytes }
    {
        self.lengths.contains(&bytes)
    }

    /// How many bytes spell its bank bytes and its RAM.
    pub fn record_length(&self) -> usize
        ensures { result ≡ record_length (row_of self.now) }
    {
        self.banks.len() + self.ram as usize
    }

    /// A bank byte that such bytes spell, by its place among the three.
    fn bank_in(&self, spelled: &[u8], place: usize) -> u8
        ensures { result ≡ bank_in (row_of self.now) spelled.now place }
    {
        if place < self.banks.len() && place < spelled.len() {
            spelled[place]
        } else {
            0
        }
    }

    /// The bank bytes that such bytes spell. Those that the board hasn't are 0.
    pub fn banks_in(&self, spelled: &[u8]) -> [u8; 3]
        ensures { result ≡ banks_in (row_of self.now) spelled.now }
    {
        [
            self.bank_in(spelled, 0),
            self.bank_in(spelled, 1),
            self.bank_in(spelled, 2),
        ]
    }

    /// Those of three bank bytes that the board has.
    pub fn bank_bytes<'a>(&self, banks: &'a [u8; 3]) -> &'a [u8]
        ensures { result.now ≡ take (length (row_of self.now).banks) banks.now }
    {
        &banks[..self.banks.len().min(3)]
    }

    /// The last bank that a bank byte can select, of a cartridge of so many bytes; 0 of a bank byte
    /// that the board hasn't.
    pub fn last_bank(&self, bytes: usize, byte: BankByte) -> u8
        ensures { result ≡ last_bank (row_of self.now) bytes byte }
    {
        match self.banks.get(byte.index()) {
            Some(numbers) => numbers.last.number(bytes),
            None => 0,
        }
    }

    /// The bank of a bank byte as a console is switched on; 0 of one that the board hasn't.
    fn bank_at_power_on(&self, byte: BankByte) -> u8
        ensures { result ≡ bank_at_power_on (slice_get self.now.banks.now (index_of byte)) }
    {
        match self.banks.get(byte.index()) {
            Some(numbers) => numbers.power_on,
            None => 0,
        }
    }

    /// The bank bytes as a console is switched on.
    pub(crate) fn banks_at_power_on(&self) -> [u8; 3]
        ensures { result ≡ banks_at_power_on (row_of self.now) }
    {
        [
            self.bank_at_power_on(BankByte::First),
            self.bank_at_power_on(BankByte::Second),
            self.bank_at_power_on(BankByte::Third),
        ]
    }

    /// The hot spot at an address.
    fn hot_spot_at(&self, address: u16) -> Option<HotSpot>
        ensures { result ≡ find (is_at address) self.now.hot_spots.now }
    {
        self.hot_spots
            .iter()
            .find(|spot| spot.is_at(address))
            .copied()
    }

    /// Whether each hot spot is one of the last 32 addresses.
    fn has_high_hot_spots(&self) -> bool
        ensures { result ≡ list_all is_high self.now.hot_spots.now }
    {
        self.hot_spots.iter().all(|spot| spot.is_high())
    }

    /// Accesses to addresses below this one, of 13 lines, select nothing, and are in no window; 0 of a
    /// board of which that isn't known.
    pub(crate) fn plain_to(&self) -> u16
        ensures plain { (at : ℕ) → at % 8192 < result → IsPlainAt (row_of self.now) at }
        ensures most { result ≤ 8192 }
    {
        if self.trigger.is_none() && self.windows.is_empty() && self.has_high_hot_spots() {
            FIRST_HIGH
        } else {
            0
        }
    }

    /// Selects what an access to an address selects before its byte is taken. A write has the byte.
    pub(crate) fn select(
        &self,
        bytes: usize,
        banks: &mut [u8; 3],
        address: u16,
        written: Option<u8>,
    )
        ensures { banks.new ≡ banks_selected (row_of self.now) bytes banks.old address written }
    {
        if let Some(spot) = self.hot_spot_at(address) {
            let index = spot.byte.index();
            let last = self.last_bank(bytes, spot.byte);
            banks[index] = spot.selects.bank(last, banks[index], written);
        }
    }

    /// Selects what the byte of an access selects, once it is on the bus.
    pub(crate) fn select_by_byte(&self, banks: &mut [u8; 3], address: u16, byte: u8)
        ensures { banks.new ≡ banks_of_byte self.now.trigger banks.old address byte }
    {
        let Some(trigger) = self.trigger else {
            return;
        };
        if banks[1] == 1 {
            banks[0] = u8::from(byte & 0x20 == 0);
        }
        banks[1] = u8::from(address % 8192 == trigger);
    }

    /// The window that an address is in.
    pub(crate) fn window_at(&self, banks: &[u8; 3], address: u16) -> Option<Window>
        ensures { result ≡ find (is_in address banks.now) self.now.windows.now }
    {
        self.windows
            .iter()
            .find(|window| window.has(address, banks))
            .copied()
    }
}
