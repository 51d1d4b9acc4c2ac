//! What is wrong with a ROM or with inputs that are refused.
ghost use Rattle.std.specs.Prelude.{◌≡◌, ◌<◌, ◌≤◌, ℕ, find, true, None, IfNone, IfSome};
ghost use Rattle.cart_board.specs.Known.{known_row};
ghost use Rattle.std.specs.NonZero.{non_zero_u32_get};
ghost use Rattle.movie_hints.specs.Hints.{LooksLikeNothing, TellsInputs, TellsOther, TellsRom, TellsTexts, TellsTriples};
ghost use Rattle.movie_file.specs.Format.{most_checkpoints};
ghost use Rattle.movie_hints.specs.Counts.{AreFew, IsCountsHint, checkpoints_of};
ghost use Rattle.movie_hints.specs.Looks.{is_like, looks};

use crate::hint::Hint;
use crate::lengths::is_some_length;
use crate::look::Look;
use crate::plain_text::{is_text, is_utf16};
use crate::refusals::wrong_input;
use cart_board::KnownBoard;
use input_text::read_text;
use movie_file::{MOST_CHECKPOINTS, MOST_FRAMES, MovieError};
use std::alloc::Global;
use std::num::NonZeroU32;

/// What the bytes of a ROM or of inputs look like that are none.
pub(crate) fn look_of(bytes: &[u8]) -> Option<Hint>
    ensures some { IfSome result (TellsOther bytes.now) }
    ensures none { IfNone result (find (is_like bytes.now) looks ≡ None) }
{
    if bytes.starts_with(b"A26M") {
        return Some(Hint::LooksLikeMovie);
    }
    match Look::of(bytes) {
        Some(look) => Some(Hint::Looks(look)),
        None => None,
    }
}

/// What inputs as bytes look like that are a text, and nothing else that is known.
fn text_of(alloc: Global, bytes: &[u8]) -> Option<Hint>
    ensures { LooksLikeNothing bytes.now → IfSome result (TellsTexts bytes.now) }
{
    if !bytes.is_empty() && read_text(alloc, bytes).is_ok() {
        return Some(Hint::LooksLikeText);
    }
    if is_utf16(bytes) {
        return Some(Hint::Utf16);
    }
    if is_text(bytes) {
        return Some(Hint::Text);
    }
    None
}

/// What is wrong with inputs as bytes that are refused so.
fn hint_of_triples(bytes: &[u8], error: MovieError) -> Option<Hint>
    ensures { IfSome result (TellsTriples bytes.now error) }
{
    let length = bytes.len();
    match error {
        MovieError::Short if is_some_length(length) => Some(Hint::Exchanged),
        MovieError::Short => Some(Hint::OddLength {
            extra: length % 3,
            length,
        }),
        MovieError::BadInput(number) => {
            let before = number.saturating_sub(1) as usize;
            Some(wrong_input(bytes, before.saturating_mul(3)))
        }
        _ => None,
    }
}

/// What is wrong with the bytes of inputs that are refused so.
pub fn hint_of_inputs(alloc: Global, bytes: &[u8], error: MovieError) -> Option<Hint>
    ensures { IfSome result (TellsInputs bytes.now error) }
{
    if let Some(hint) = look_of(bytes) {
        return Some(hint);
    }
    if let Some(hint) = text_of(alloc, bytes) {
        return Some(hint);
    }
    hint_of_triples(bytes, error)
}

/// What is wrong with the bytes of a ROM that is no cartridge, on this board or on none.
pub fn hint_of_rom(bytes: &[u8], board: Option<KnownBoard>) -> Hint
    ensures { TellsRom (known_row board) bytes.now result }
{
    match (look_of(bytes), board) {
        (Some(hint), _) => hint,
        (None, None) => Hint::NoCartridge(bytes.len()),
        (None, Some(known)) => Hint::NoCartridgeOn {
            length: bytes.len(),
            board: known.board.name,
            lengths: known.board.lengths,
        },
    }
}

/// How many checkpoints a movie would have.
fn checkpoints_of(frames: u64, every: NonZeroU32, to_the_end: bool) -> u64
    ensures { result ≡ checkpoints_of frames (non_zero_u32_get every) to_the_end }
{
    let every = u64::from(every.get());
    if to_the_end {
        frames.div_ceil(every)
    } else {
        frames / every
    }
}

/// The least number of frames between checkpoints with which these are a movie's, with one after the
/// last frame too.
fn least_to_the_end(frames: u64) -> u64
    requires { most_checkpoints < frames }
    ensures least { AreFew frames result true }
    ensures others { (other : ℕ) → 1 ≤ other → AreFew frames other true → result ≤ other }
{
    frames.div_ceil(u64::from(MOST_CHECKPOINTS))
}

/// The same with one there or without.
fn least_every(frames: u64, to_the_end: bool) -> u64
    requires { most_checkpoints < frames }
    ensures least { AreFew frames result to_the_end }
    ensures others { (other : ℕ) → 1 ≤ other → AreFew frames other to_the_end → result ≤ other }
{
    if to_the_end {
        least_to_the_end(frames)
    } else {
        frames / (u64::from(MOST_CHECKPOINTS) + 1) + 1
    }
}

/// What keeps so many frames, with a checkpoint after every so many, and to the end after the last one
/// too, from being a movie.
pub fn hint_of_counts(frames: u64, every: NonZeroU32, to_the_end: bool) -> Option<Hint>
    ensures { IsCountsHint frames (non_zero_u32_get every) to_the_end result }
{
    let checkpoints = checkpoints_of(frames, every, to_the_end);
    if frames == 0 {
        Some(Hint::NoFrames)
    } else if frames > MOST_FRAMES as u64 {
        Some(Hint::ManyFrames { frames })
    } else if checkpoints > u64::from(MOST_CHECKPOINTS) {
        Some(Hint::ManyCheckpoints {
            checkpoints,
            every: least_every(frames, to_the_end),
        })
    } else {
        None
    }
}
