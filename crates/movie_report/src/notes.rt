//! What a judge is to mind.
ghost use Rattle.std.specs.Prelude.{◌≡◌, IfOk, length, string_bytes};
ghost use Rattle.cart_board.specs.Known.{known_row};
ghost use Rattle.movie_machine.specs.Carts.{board_of};
ghost use Rattle.movie_report.specs.CheckpointFacts.{last_of};
ghost use Rattle.movie_report.specs.Notes.{claim_notes, note_text, note_texts, notes_of, notes_text};
ghost use Rattle.movie_report.specs.Notes.{start_notes};
ghost use Rattle.movie_report.specs.Numbers.{bytes_in, state_names};

use crate::differences::{difference_count, without_comma};
use cart_board::KnownBoard;
use movie_file::Movie;
use replay_plan::Notation;
use std::alloc::{AllocError, Global};

/// A note as a line, or as an element of an array after those before it.
fn note(alloc: Global, notation: Notation, note: &str) -> Result<String, AllocError>
    ensures { IfOk result (λ text. string_bytes text ≡ note_text notation note.now) }
{
    match notation {
        Notation::Lines => format!(in alloc; "note: {note}\n"),
        Notation::Json => format!(in alloc; ",\"{note}\""),
    }
}

/// Whether the movie starts at power-on, by the records of its start state and of power-on.
fn start_note(
    alloc: Global,
    notation: Notation,
    board: Option<KnownBoard>,
    start: &[u8],
    power_on: &[u8],
) -> Result<String, AllocError>
    requires start { length start.now ≡ bytes_in (state_names (known_row board)) }
    requires power_on { length power_on.now ≡ bytes_in (state_names (known_row board)) }
    ensures { IfOk result (λ text. string_bytes text ≡ note_texts notation
        (start_notes (known_row board) start.now power_on.now)) }
{
    if start == power_on {
        return Ok(String::new(alloc));
    }
    let count = difference_count(board, start, power_on);
    let text = format!(in alloc; "not power-on: {count} numbers differ")?;
    note(alloc, notation, &text)
}

/// Which frames no claim covers.
fn claim_note(alloc: Global, notation: Notation, movie: &Movie) -> Result<String, AllocError>
    ensures { IfOk result (λ text. string_bytes text
        ≡ note_texts notation (claim_notes (length movie.now.inputs) (last_of movie.now.checkpoints))) }
{
    let frames = movie.frames();
    let count = movie.checkpoints();
    if count == 0 {
        return note(alloc, notation, "no checkpoint");
    }
    let rest = frames - movie.checkpoint(count).frame;
    if rest == 0 {
        return Ok(String::new(alloc));
    }
    let text = format!(in alloc; "{rest} frames after the last checkpoint")?;
    note(alloc, notation, &text)
}

/// The notes of a movie, with the records of its start state and of power-on.
pub(crate) fn notes(
    alloc: Global,
    notation: Notation,
    movie: &Movie,
    start: &[u8],
    power_on: &[u8],
) -> Result<String, AllocError>
    requires start { length start.now ≡ bytes_in (state_names (board_of movie.now.cartridge)) }
    requires power_on { length power_on.now ≡ bytes_in (state_names (board_of movie.now.cartridge)) }
    ensures { IfOk result (λ text. string_bytes text ≡ notes_text notation (notes_of movie.now start.now power_on.now)) }
{
    let board = movie.cart().board();
    let start = start_note(alloc, notation, board, start, power_on)?;
    let claim = claim_note(alloc, notation, movie)?;
    let texts = format!(in alloc; "{start}{claim}")?;
    match notation {
        Notation::Lines => Ok(texts),
        Notation::Json => {
            let elements = without_comma(&texts);
            format!(in alloc; ",\"notes\":[{elements}]")
        }
    }
}
