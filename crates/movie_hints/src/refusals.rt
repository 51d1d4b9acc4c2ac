//! What is wrong with refused bytes.
ghost use Rattle.std.specs.Prelude.{◌≡◌, ◌+◌, ◌<◌, ◌^◌, ◌⊎◌, ℕ, IfSome, None};
ghost use Rattle.movie_file.specs.declared.error.MovieError.TheVariants as errors;
ghost use Rattle.movie_hints.specs.Hints.{Explains, TellsBeginning, TellsInput, TellsLength, TellsLook};
ghost use Rattle.movie_hints.specs.Hints.{TellsMistake, TellsState, extra_of};

use crate::hint::Hint;
use crate::lengths::is_some_length;
use crate::look::Look;
use crate::mismatch::{Expected, Field, Found};
use crate::places::{BOARD_AT, Places, byte_at, four_at, length_place, two_at};
use crate::plain_text::is_text;
use crate::state_rules::broken_number;
use movie_file::{MOST_CHECKPOINTS, MovieError, has_wide_length, header_length, most_frames};

/// What a file looks like that doesn't begin as a movie does.
fn without_magic(bytes: &[u8]) -> Hint
    ensures { TellsBeginning bytes.now result }
{
    if let Some(look) = Look::of(bytes) {
        Hint::Looks(look)
    } else if is_text(bytes) {
        Hint::Text
    } else if is_some_length(bytes.len()) {
        Hint::LooksLikeCartridge
    } else {
        let found = Found::Mark(four_at(bytes, 0));
        Hint::of_field(Field::Magic, 0, Expected::Magic, found)
    }
}

/// How many bytes a file lacks, or has after the movie.
fn wrong_length(bytes: &[u8]) -> Hint
    ensures { TellsLength bytes.now result }
{
    let length = bytes.len();
    let places = Places::of(bytes);
    let header = header_length(places.version);
    if length < header {
        return Hint::InHeader { length, header };
    }
    let said = places.end();
    if length < said {
        Hint::Missing {
            missing: said - length,
            said,
            length,
        }
    } else {
        Hint::Extra {
            extra: length - said,
            said,
            length,
        }
    }
}

/// What is wrong with a file that is too short, be it for a header.
fn too_short(bytes: &[u8]) -> Hint
    ensures { TellsLook bytes.now result ⊎ TellsLength bytes.now result }
{
    match Look::of(bytes) {
        Some(look) => Hint::Looks(look),
        None => wrong_length(bytes),
    }
}

/// Which version a header has that is none.
fn wrong_version(bytes: &[u8]) -> Hint
    ensures { TellsMistake bytes.now errors.BadVersion result }
{
    let found = Found::TwoBytes(two_at(bytes, 4));
    Hint::of_field(Field::Version, 4, Expected::Version, found)
}

/// Which code of a board a header has that is none.
fn wrong_board(bytes: &[u8]) -> Hint
    ensures { TellsMistake bytes.now errors.BadBoard result }
{
    let found = Found::Byte(byte_at(bytes, BOARD_AT));
    Hint::of_field(Field::Board, BOARD_AT, Expected::Board, found)
}

/// Which length of a cartridge a header has that is none.
fn wrong_cartridge(bytes: &[u8]) -> Hint
    ensures { TellsMistake bytes.now errors.BadCartSize result }
{
    let places = Places::of(bytes);
    let at = length_place(places.version);
    let expected = match places.board {
        None => Expected::CartridgeLength,
        Some(known) => Expected::LengthOn {
            board: known.board.name,
            lengths: known.board.lengths,
        },
    };
    let found = if has_wide_length(places.version) {
        Found::FourBytes(places.cartridge)
    } else {
        Found::TwoBytes(two_at(bytes, at))
    };
    Hint::of_field(Field::CartridgeLength, at, expected, found)
}

/// Which of the counts of a header is wrong.
fn wrong_count(bytes: &[u8]) -> Hint
    ensures { TellsMistake bytes.now errors.BadCounts result }
{
    let places = Places::of(bytes);
    let end = header_length(places.version);
    let most = most_frames(places.version);
    let found = places.frames;
    if 1 <= found && found <= most && places.checkpoints > MOST_CHECKPOINTS {
        let found = Found::TwoBytes(places.checkpoints);
        Hint::of_field(Field::Checkpoints, end - 2, Expected::Checkpoints, found)
    } else {
        let expected = Expected::Frames { most };
        Hint::of_field(Field::Frames, end - 6, expected, Found::FourBytes(found))
    }
}

/// What is wrong in the start state (0), or in that of a checkpoint, from 1.
fn wrong_state(bytes: &[u8], number: u16) -> Option<Hint>
    ensures { IfSome result (TellsState bytes.now) }
{
    let places = Places::of(bytes);
    let at = match number.checked_sub(1) {
        None => places.start(),
        Some(before) => places.checkpoint(before).saturating_add(4),
    };
    broken_number(bytes, at, places)
}

/// Which byte of the input of a frame is wrong, counted from 1.
pub(crate) fn wrong_input(bytes: &[u8], first: usize) -> Hint
    ensures { first + 2 < 2 ^ 64 → TellsInput bytes.now first result }
{
    let switches = first.saturating_add(1);
    let found = byte_at(bytes, switches);
    if found & 0x34 != 0x34 {
        let field = Field::Named("switches");
        return Hint::of_field(field, switches, Expected::SetBits, Found::Bits(found));
    }
    let buttons = first.saturating_add(2);
    let found = Found::Bits(byte_at(bytes, buttons));
    let field = Field::Named("buttons");
    Hint::of_field(field, buttons, Expected::ButtonBits, found)
}

/// What is wrong with the frame of a checkpoint, counted from 1.
fn wrong_order(bytes: &[u8], number: u16) -> Hint
    ensures { TellsMistake bytes.now (errors.BadOrder number) result }
{
    let places = Places::of(bytes);
    let before = match number.checked_sub(2) {
        None => 0,
        Some(previous) => four_at(bytes, places.checkpoint(previous)),
    };
    let at = places.checkpoint(number.saturating_sub(1));
    let expected = Expected::FrameAfter {
        before,
        last: places.frames,
    };
    let found = Found::FourBytes(four_at(bytes, at));
    Hint::of_field(Field::FrameNumber, at, expected, found)
}

/// What is wrong with the bytes of a movie that is refused so, but for what follows the movie.
fn mistake_of(bytes: &[u8], error: MovieError) -> Option<Hint>
    ensures some { IfSome result (TellsMistake bytes.now error) }
    ensures none { result ≡ None → (k : ℕ) × (error ≡ errors.BadState k) }
{
    let places = Places::of(bytes);
    match error {
        MovieError::Short => Some(too_short(bytes)),
        MovieError::Trailing => Some(wrong_length(bytes)),
        MovieError::BadMagic => Some(without_magic(bytes)),
        MovieError::BadVersion => Some(wrong_version(bytes)),
        MovieError::BadBoard => Some(wrong_board(bytes)),
        MovieError::BadCartSize => Some(wrong_cartridge(bytes)),
        MovieError::BadCounts => Some(wrong_count(bytes)),
        MovieError::BadState(number) => wrong_state(bytes, number),
        MovieError::BadInput(number) => {
            let first = places.input(number.saturating_sub(1));
            Some(wrong_input(bytes, first))
        }
        MovieError::BadOrder(number) => Some(wrong_order(bytes, number)),
    }
}

/// By how many bytes a file is longer than its header says, where the refusal lets that be known.
fn extra_of(bytes: &[u8], error: MovieError) -> usize
    ensures { result ≡ extra_of bytes.now error }
{
    match error {
        MovieError::BadMagic | MovieError::BadVersion | MovieError::BadBoard => 0,
        _ => bytes.len().saturating_sub(Places::of(bytes).end()),
    }
}

/// What is wrong with the bytes of a movie that is refused so.
pub fn hint_of(bytes: &[u8], error: MovieError) -> Option<Hint>
    ensures { Explains bytes.now error result }
{
    match mistake_of(bytes, error) {
        Some(mistake) => Some(mistake.with_extra(extra_of(bytes, error))),
        None => None,
    }
}
