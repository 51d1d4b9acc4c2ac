//! What a movie's checkpoints claim.
ghost use Rattle.std.specs.Prelude.{◌≡◌, ◌<◌, IfOk, IsTrue, length, string_bytes};
ghost use Rattle.cart_board.specs.Known.{known_row};
ghost use Rattle.movie_machine.specs.States.{is_of};
ghost use Rattle.movie_report.specs.Claims.{claimed_text, claims_text, value_text, values_text};
ghost use Rattle.movie_report.specs.Numbers.{bytes_in, state_names};
ghost use Rattle.movie_report.specs.Private.Places.{shown};

use crate::differences::without_comma;
use crate::numbers::{Number, number_at, number_count};
use cart_board::KnownBoard;
use hex::encode_upper;
use movie_file::{Checkpoint, Movie, state_record};
use movie_machine::Cart;
use replay_plan::Notation;
use std::alloc::{AllocError, Global};

/// A number of a record and its bytes.
fn value(
    alloc: Global,
    notation: Notation,
    number: Number,
    bytes: &[u8],
) -> Result<String, AllocError>
    ensures { IfOk result (λ text. string_bytes text ≡ value_text notation
        (record { name = (shown number).name; bytes = bytes.now })) }
{
    let digits = encode_upper(alloc, bytes)?;
    match notation {
        Notation::Lines => format!(in alloc; "{number}: {digits}\n"),
        Notation::Json => format!(in alloc; ",\"{number}\":\"{digits}\""),
    }
}

/// The numbers of a record, in its order, by the board of its cartridge.
#[tactic(auto, using(crate::proofs::ClaimLemmas::value_by_value))]
fn values(
    alloc: Global,
    notation: Notation,
    board: Option<KnownBoard>,
    bytes: &[u8],
) -> Result<String, AllocError>
    requires whole { length bytes.now ≡ bytes_in (state_names (known_row board)) }
    ensures { IfOk result (λ text. string_bytes text
        ≡ values_text notation (known_row board) bytes.now) }
{
    let mut text = String::new(alloc);
    let mut at = 0;
    for place in 0..number_count(board) {
        let number = number_at(board, place);
        let end = at + number.len();
        prove!(end <= bytes.len());
        let piece = value(alloc, notation, number, &bytes[at..end])?;
        text.push_str(&piece)?;
        at = end;
    }
    Ok(text)
}

/// The checkpoint of this number, in a movie with this cartridge.
#[tactic(auto, using(crate::proofs::NumberLemmas::record_bytes))]
fn claimed(
    alloc: Global,
    notation: Notation,
    cart: &Cart,
    number: u16,
    checkpoint: &Checkpoint,
) -> Result<String, AllocError>
    requires cartridge { IsTrue (is_of cart.now checkpoint.now.state) }
    ensures { IfOk result (λ text. string_bytes text ≡ claimed_text notation cart.now number checkpoint.now) }
{
    let frame = checkpoint.frame;
    let record = state_record(alloc, cart, &checkpoint.state)?;
    let values = values(alloc, notation, cart.board(), &record)?;
    match notation {
        Notation::Lines => format!(in alloc; "checkpoint {number}: frame {frame}\n{values}"),
        Notation::Json => {
            let members = without_comma(&values);
            format!(in alloc;
                "{{\"checkpoint\":{number},\"frame\":{frame},\"claimed\":{{{members}}}}}\n"
            )
        }
    }
}

/// What each checkpoint of a movie claims: after which frame it stands, and each number of the state
/// by its name, as lines, or an object of JSON on a line of its own. The movie is not replayed.
#[tactic(auto, using(crate::proofs::ClaimLemmas::claim_by_claim, movie_file::proofs::StateLemmas::claim_of))]
pub fn claims(alloc: Global, notation: Notation, movie: &Movie) -> Result<String, AllocError>
    ensures { IfOk result (λ text. string_bytes text ≡ claims_text notation movie.now.cartridge 0 movie.now.checkpoints) }
{
    let cart = movie.cart();
    let mut text = String::new(alloc);
    for index in 0..movie.checkpoints() {
        let claim = movie.checkpoint(index + 1);
        let claimed = claimed(alloc, notation, cart, index + 1, claim)?;
        text.push_str(&claimed)?;
    }
    Ok(text)
}
