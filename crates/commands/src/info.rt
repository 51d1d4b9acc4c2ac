//! What is in a movie.
ghost use Rattle.std.specs.Prelude.{◌≡◌, IfOk, string_bytes};
ghost use Rattle.commands.specs.Info.{board_text, information_in, movie_line, object_text};
ghost use Rattle.movie_machine.specs.Carts.{board_of};

use crate::answer::Answer;
use crate::line::{Contents, Counts};
use crate::status::Status;
use movie_file::Movie;
use movie_machine::Cart;
use replay_plan::Notation;
use std::alloc::{AllocError, Global};

/// The board of a cartridge, if it is on one.
fn board_text(alloc: Global, notation: Notation, cart: &Cart) -> Result<String, AllocError>
    ensures { IfOk result (λ text. string_bytes text ≡ board_text notation (board_of cart.now)) }
{
    match (notation, cart.board()) {
        (_, None) => Ok(String::new(alloc)),
        (Notation::Lines, Some(known)) => format!(in alloc; "board {}, ", known.board.name),
        (Notation::Json, Some(known)) => format!(in alloc; ",\"board\":\"{}\"", known.board.name),
    }
}

/// What a movie holds, as a line.
fn movie_line(alloc: Global, movie: &Movie) -> Result<String, AllocError>
    ensures { IfOk result (λ text. string_bytes text ≡ movie_line movie.now) }
{
    let version = movie.version();
    let board = board_text(alloc, Notation::Lines, movie.cart())?;
    let counts = Counts(movie.frames(), movie.checkpoints());
    let contents = Contents(movie.cart().len(), counts);
    format!(in alloc; "movie: version {version}, {board}{contents}\n")
}

/// The same as an object of JSON.
fn movie_object(alloc: Global, movie: &Movie) -> Result<String, AllocError>
    ensures { IfOk result (λ text. string_bytes text ≡ object_text movie.now) }
{
    let version = movie.version();
    let board = board_text(alloc, Notation::Json, movie.cart())?;
    let cartridge = movie.cart().len();
    let frames = movie.frames();
    let checkpoints = movie.checkpoints();
    format!(in alloc;
        "{{\"version\":{version}{board},\"cartridge\":{cartridge},\"frames\":{frames},\"checkpoints\":{checkpoints}}}\n"
    )
}

/// What a movie holds: a line, or an object of JSON. The movie is not replayed.
pub(crate) fn info(alloc: Global, notation: Notation, movie: &Movie) -> Result<Answer, AllocError>
    ensures { IfOk result (λ answer. answer ≡ information_in notation movie.now) }
{
    let text = match notation {
        Notation::Lines => movie_line(alloc, movie)?,
        Notation::Json => movie_object(alloc, movie)?,
    };
    Ok(Answer::of_text(alloc, Status::Done, text))
}
