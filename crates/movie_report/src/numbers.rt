//! The numbers of a state record.
ghost use Rattle.std.specs.Prelude.{◌≡◌, ◌<◌, length, map, slice_index_or};
ghost use Rattle.cart_board.specs.Board.{row_of};
ghost use Rattle.cart_board.specs.Known.{known_row};
ghost use Rattle.cart_board.specs.Record.{record_length};
ghost use Rattle.movie_report.specs.Private.Places.{data_of, no_place, shown, state_number_at};
ghost use Rattle.movie_report.specs.Numbers.{cart_names, chip_names, guide_names, state_names};

use cart_board::KnownBoard;
use movie_file::{
    BANK_NUMBERS, CHIP_RIOT_NUMBERS, CHIP_TIA_NUMBERS, PROCESSOR_NUMBERS, RIOT_NUMBERS,
    RecordNumber, TIA_NUMBERS,
};
use std::fmt;
use vcs_machine::HexByte;

/// How many numbers the processor has.
const OF_PROCESSOR: usize = PROCESSOR_NUMBERS.len();

/// The bytes of memory, whose first has address 80 (hexadecimal).
const MEMORY: usize = 128;

/// The place of the first number after the memory.
const OTHERS_AT: usize = OF_PROCESSOR + MEMORY;

/// How many numbers the RIOT has after its memory, and the TIA, by the guide's rules.
const OF_RIOT: usize = RIOT_NUMBERS.len();

const OF_TIA: usize = TIA_NUMBERS.len();

/// The same by the chip's rules.
const OF_CHIP_RIOT: usize = CHIP_RIOT_NUMBERS.len();

const OF_CHIP_TIA: usize = CHIP_TIA_NUMBERS.len();

/// A number of a state record. It is shown by its name.
#[derive(Clone, Copy)]
pub(crate) enum Number {
    /// One of a table.
    Named(RecordNumber),
    /// The byte of the RIOT's memory at an address.
    Memory(u8),
    /// A bank byte, by its place where there are several.
    OneBank(usize),
    /// The byte of the cartridge's RAM at an offset.
    CartMemory(u16),
}

impl Number {
    /// One of a table, by its place there.
    fn of(table: &[RecordNumber], place: usize) -> Number
        requires { place < length table.now }
        ensures { shown result ≡ slice_index_or (map data_of table.now) place no_place }
    {
        Number::Named(table[place])
    }

    /// How many bytes of a record it has.
    pub(crate) fn len(self) -> usize
        ensures { result ≡ (shown self).length }
    {
        match self {
            Number::Named(number) => number.length,
            Number::Memory(_) | Number::OneBank(_) | Number::CartMemory(_) => 1,
        }
    }
}

impl fmt::Display for Number {
    ghost use Rattle.std.specs.Prelude.{Some};
    ghost use Rattle.movie_report.specs.Private.Places.{shown};

    ghost output = { λ n. Some (shown n).name };

    fn fmt<W: fmt::Write>(&self, f: &mut fmt::Formatter<W>) -> fmt::Result {
        match *self {
            Number::Named(number) => write!(f, "{}", number.name),
            Number::Memory(address) => write!(f, "memory {}", HexByte(address)),
            Number::OneBank(place) => write!(f, "bank {place}"),
            Number::CartMemory(offset) => {
                let [high, low] = offset.to_be_bytes();
                write!(f, "cartridge memory {high:X}{}", HexByte(low))
            }
        }
    }
}

/// A number of a board's bank bytes and RAM, counted from the first of them.
#[tactic(auto, using(crate::proofs::NumberLemmas::cart_places))]
fn cart_number(known: KnownBoard, place: usize) -> Number
    requires { place < record_length (row_of known.board.now) }
    ensures { shown result ≡ slice_index_or (cart_names (row_of known.board.now)) place no_place }
{
    let banks = known.board.banks.len();
    if place >= banks {
        Number::CartMemory((place - banks) as u16)
    } else if banks == 1 {
        Number::Named(BANK_NUMBERS[0])
    } else {
        Number::OneBank(place)
    }
}

/// A number after the memory by the guide's rules, counted from the first of them.
#[tactic(auto, using(crate::proofs::NumberLemmas::guide_places))]
fn guide_number(place: usize) -> Number
    requires { place < length guide_names }
    ensures { shown result ≡ slice_index_or guide_names place no_place }
{
    if place < OF_RIOT {
        Number::of(&RIOT_NUMBERS, place)
    } else if place < OF_RIOT + OF_TIA {
        Number::of(&TIA_NUMBERS, place - OF_RIOT)
    } else {
        Number::of(&BANK_NUMBERS, place - OF_RIOT - OF_TIA)
    }
}

/// A number after the memory by the chip's rules, counted from the first of them.
#[tactic(auto, using(crate::proofs::NumberLemmas::chip_places))]
fn chip_number(known: KnownBoard, place: usize) -> Number
    requires { place < length (chip_names (row_of known.board.now)) }
    ensures { shown result ≡ slice_index_or (chip_names (row_of known.board.now)) place no_place }
{
    if place < OF_CHIP_RIOT {
        Number::of(&CHIP_RIOT_NUMBERS, place)
    } else if place < OF_CHIP_RIOT + OF_CHIP_TIA {
        Number::of(&CHIP_TIA_NUMBERS, place - OF_CHIP_RIOT)
    } else {
        cart_number(known, place - OF_CHIP_RIOT - OF_CHIP_TIA)
    }
}

/// How many numbers a record has, by the board of the cartridge if it is on one.
#[tactic(auto, using(crate::proofs::NumberLemmas::number_counts))]
pub(crate) fn number_count(board: Option<KnownBoard>) -> usize
    ensures { result ≡ length (state_names (known_row board)) }
{
    let others = match board {
        None => OF_RIOT + OF_TIA + BANK_NUMBERS.len(),
        Some(known) => OF_CHIP_RIOT + OF_CHIP_TIA + known.board.record_length(),
    };
    OTHERS_AT + others
}

/// The number at a place of such a record.
#[tactic(auto, using(crate::proofs::NumberLemmas::number_places))]
pub(crate) fn number_at(board: Option<KnownBoard>, place: usize) -> Number
    requires { place < length (state_names (known_row board)) }
    ensures { shown result ≡ state_number_at (known_row board) place }
{
    if place < OF_PROCESSOR {
        return Number::of(&PROCESSOR_NUMBERS, place);
    }
    if place < OTHERS_AT {
        return Number::Memory(0x80 + (place - OF_PROCESSOR) as u8);
    }
    match board {
        None => guide_number(place - OTHERS_AT),
        Some(known) => chip_number(known, place - OTHERS_AT),
    }
}
