//! Which number of a state record breaks its condition.
ghost use Rattle.std.specs.Prelude.{IfSome};
ghost use Rattle.movie_hints.specs.Hints.{TellsState};

use crate::fit_rules::broken_fit;
use crate::hint::Hint;
use crate::mismatch::{Expected, Field, Found};
use crate::places::{Places, byte_at, two_at};
use cart_board::{BankByte, Board};
use movie_file::{
    BANK_BYTES_AT, BANK_NUMBERS, BANK_NUMBERS_AT, CHIP_RIOT_NUMBERS, CHIP_RIOT_NUMBERS_AT,
    CHIP_TIA_NUMBERS, CHIP_TIA_NUMBERS_AT, PROCESSOR_NUMBERS, RIOT_NUMBERS, RIOT_NUMBERS_AT,
    RecordNumber, TIA_NUMBERS, TIA_NUMBERS_AT, record_length,
};
use riot_map::Cart;

/// What a number of a table says that breaks its condition. The first begins at this place of a file.
fn broken_in(numbers: &[RecordNumber], bytes: &[u8], at: usize) -> Option<Hint>
    ensures { IfSome result (TellsState bytes.now) }
{
    let mut at = at;
    for number in numbers.iter().copied() {
        let found = byte_at(bytes, at);
        if found & number.mask != found {
            let expected = Expected::NoBitOutside { mask: number.mask };
            let found = Found::Bits(found);
            return Some(Hint::of_field(Field::Named(number.name), at, expected, found));
        }
        if found > number.most {
            let expected = Expected::AtMost { most: number.most };
            let found = Found::Byte(found);
            return Some(Hint::of_field(Field::Named(number.name), at, expected, found));
        }
        at = at.saturating_add(number.length);
    }
    None
}

/// Whether the records of a version have the bank.
fn has_bank(version: u16) -> bool {
    record_length(version, None) > BANK_NUMBERS_AT
}

/// What a number says that breaks a condition of its own, in the record at this place of a file.
fn broken_alone(bytes: &[u8], at: usize, version: u16) -> Option<Hint>
    ensures { IfSome result (TellsState bytes.now) }
{
    if let Some(hint) = broken_in(&PROCESSOR_NUMBERS, bytes, at) {
        return Some(hint);
    }
    if let Some(hint) = broken_in(&RIOT_NUMBERS, bytes, at.saturating_add(RIOT_NUMBERS_AT)) {
        return Some(hint);
    }
    if let Some(hint) = broken_in(&TIA_NUMBERS, bytes, at.saturating_add(TIA_NUMBERS_AT)) {
        return Some(hint);
    }
    if !has_bank(version) {
        return None;
    }
    broken_in(&BANK_NUMBERS, bytes, at.saturating_add(BANK_NUMBERS_AT))
}

/// The cycles of an interval of the timer, by its code.
fn interval_of(code: u8) -> u16 {
    match code {
        0 => 1,
        1 => 8,
        2 => 64,
        _ => 1024,
    }
}

/// What the timer's part, at this place of a file, says if it isn't 1 up to the most that it may be.
fn broken_part(bytes: &[u8], at: usize, most: u16) -> Option<Hint>
    ensures { IfSome result (TellsState bytes.now) }
{
    let found = two_at(bytes, at);
    if found == 0 || found > most {
        let expected = Expected::OneTo { most };
        let found = Found::TwoBytes(found);
        Some(Hint::of_field(Field::Named("timer part"), at, expected, found))
    } else {
        None
    }
}

/// What the timer's part says if it is not in its interval, by the guide's rules.
fn broken_timer(bytes: &[u8], at: usize) -> Option<Hint>
    ensures { IfSome result (TellsState bytes.now) }
{
    let most = if byte_at(bytes, at.saturating_add(RIOT_NUMBERS_AT + 8)) == 1 {
        1
    } else {
        interval_of(byte_at(bytes, at.saturating_add(RIOT_NUMBERS_AT + 7)))
    };
    broken_part(bytes, at.saturating_add(RIOT_NUMBERS_AT + 5), most)
}

/// What the latches of the buttons, at this place of a file, say if none may be set.
fn broken_latches(bytes: &[u8], blank: u8, at: usize) -> Option<Hint>
    ensures { IfSome result (TellsState bytes.now) }
{
    let found = byte_at(bytes, at);
    if found != 0 && blank & 0x40 == 0 {
        let field = Field::Named("button latches");
        Some(Hint::of_field(field, at, Expected::NoLatches, Found::Byte(found)))
    } else {
        None
    }
}

/// What the bank of a cartridge without banks says if it isn't 0 and the record has it.
fn broken_bank(bytes: &[u8], at: usize, places: Places) -> Option<Hint>
    ensures { IfSome result (TellsState bytes.now) }
{
    let at = at.saturating_add(BANK_NUMBERS_AT);
    let found = byte_at(bytes, at);
    if found != 0 && has_bank(places.version) && !Cart::is_banked(places.cartridge as usize) {
        let field = Field::Named("bank");
        Some(Hint::of_field(field, at, Expected::OneBank, Found::Byte(found)))
    } else {
        None
    }
}

/// The same by the guide's rules.
fn broken_by_guide(bytes: &[u8], at: usize, places: Places) -> Option<Hint>
    ensures { IfSome result (TellsState bytes.now) }
{
    if let Some(hint) = broken_alone(bytes, at, places.version) {
        return Some(hint);
    }
    if let Some(hint) = broken_timer(bytes, at) {
        return Some(hint);
    }
    let tia = at.saturating_add(TIA_NUMBERS_AT);
    let blank = byte_at(bytes, tia.saturating_add(1));
    if let Some(hint) = broken_latches(bytes, blank, tia.saturating_add(39)) {
        return Some(hint);
    }
    broken_bank(bytes, at, places)
}

// ---- by the chip's rules

/// What a number says that breaks a condition of its own, but for a bank byte.
fn broken_chip_number(bytes: &[u8], at: usize) -> Option<Hint>
    ensures { IfSome result (TellsState bytes.now) }
{
    if let Some(hint) = broken_in(&PROCESSOR_NUMBERS, bytes, at) {
        return Some(hint);
    }
    if let Some(hint) = broken_in(
        &CHIP_RIOT_NUMBERS,
        bytes,
        at.saturating_add(CHIP_RIOT_NUMBERS_AT),
    ) {
        return Some(hint);
    }
    broken_in(
        &CHIP_TIA_NUMBERS,
        bytes,
        at.saturating_add(CHIP_TIA_NUMBERS_AT),
    )
}

/// The name of a bank byte of a board.
fn bank_name(board: &'static Board, byte: BankByte) -> &'static str {
    if board.banks.len() == 1 {
        return "bank";
    }
    match byte {
        BankByte::First => "bank 0",
        BankByte::Second => "bank 1",
        BankByte::Third => "bank 2",
    }
}

/// What a bank byte, the first one's place of a file being this, says if it is no bank of the
/// cartridge.
fn broken_bank_byte(
    bytes: &[u8],
    at: usize,
    places: Places,
    board: &'static Board,
    byte: BankByte,
) -> Option<Hint>
    ensures { IfSome result (TellsState bytes.now) }
{
    let place = byte.index();
    if place >= board.banks.len() {
        return None;
    }
    let most = board.last_bank(places.cartridge as usize, byte);
    let at = at.saturating_add(place);
    let found = byte_at(bytes, at);
    if found > most {
        let field = Field::Named(bank_name(board, byte));
        let expected = Expected::AtMost { most };
        Some(Hint::of_field(field, at, expected, Found::Byte(found)))
    } else {
        None
    }
}

/// What one of the bank bytes says if it is no bank of the cartridge.
fn broken_bank_bytes(bytes: &[u8], at: usize, places: Places, board: &'static Board) -> Option<Hint>
    ensures { IfSome result (TellsState bytes.now) }
{
    let at = at.saturating_add(BANK_BYTES_AT);
    if let Some(hint) = broken_bank_byte(bytes, at, places, board, BankByte::First) {
        return Some(hint);
    }
    if let Some(hint) = broken_bank_byte(bytes, at, places, board, BankByte::Second) {
        return Some(hint);
    }
    broken_bank_byte(bytes, at, places, board, BankByte::Third)
}

/// The same by the chip's rules.
fn broken_by_chip(bytes: &[u8], at: usize, places: Places, board: &'static Board) -> Option<Hint>
    ensures { IfSome result (TellsState bytes.now) }
{
    if let Some(hint) = broken_chip_number(bytes, at) {
        return Some(hint);
    }
    let riot = at.saturating_add(CHIP_RIOT_NUMBERS_AT);
    let most = interval_of(byte_at(bytes, riot.saturating_add(7)));
    if let Some(hint) = broken_part(bytes, riot.saturating_add(5), most) {
        return Some(hint);
    }
    let tia = at.saturating_add(CHIP_TIA_NUMBERS_AT);
    let blank = byte_at(bytes, tia.saturating_add(1));
    if let Some(hint) = broken_latches(bytes, blank, tia.saturating_add(54)) {
        return Some(hint);
    }
    if let Some(hint) = broken_fit(bytes, at) {
        return Some(hint);
    }
    broken_bank_bytes(bytes, at, places, board)
}

/// What a number says that breaks its condition, in the record at this place of a file: the first of
/// those that have one of their own, else one of the others.
pub(crate) fn broken_number(bytes: &[u8], at: usize, places: Places) -> Option<Hint>
    ensures { IfSome result (TellsState bytes.now) }
{
    match places.board {
        None => broken_by_guide(bytes, at, places),
        Some(known) => broken_by_chip(bytes, at, places, known.board),
    }
}
