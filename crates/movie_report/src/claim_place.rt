//! After which frame of its run a movie is in a claimed state.
ghost use Rattle.std.specs.Prelude.{◌≡◌, ◌<◌, IfOk, IsTrue, OnErr, Some, string_bytes};
ghost use Rattle.movie_machine.specs.Carts.{ram_length};
ghost use Rattle.movie_machine.specs.States.{is_of};
ghost use Rattle.movie_report.specs.ClaimPlace.{first_frame_in, frame_fact};

use crate::notation::NumberFact;
use movie_file::{Movie, Progress, Work, have_one_record};
use movie_machine::State;
use refused::Refused;
use replay_plan::Notation;
use run_cursor::Cursor;
use std::alloc::{AllocError, Global};

/// The first frame, counted from 1, after which the run is in a state, if there is one.
#[tactic(auto, using(crate::proofs::ClaimPlaceLemmas::frame_by_frame))]
fn first_frame_in<P: Progress>(
    alloc: Global,
    movie: &Movie,
    state: &State,
    progress: &P,
) -> Result<Option<u32>, AllocError>
    requires { IsTrue (is_of movie.now.cartridge state.now) }
    ensures frame { IfOk result (λ frame. frame ≡ first_frame_in movie.now state.now) }
    ensures memory { OnErr result (0 < ram_length movie.now.cartridge) }
{
    let mut cursor = Cursor::at_start(alloc, movie)?;
    for before in 0..movie.frames() {
        match cursor.advance(alloc) {
            Ok(()) => progress.advance(),
            Err(Refused::Of(_)) => return Ok(None),
            Err(Refused::NoMemory) => return Err(AllocError),
        }
        if have_one_record(movie.cart(), state, cursor.state()) {
            return Ok(Some(before + 1));
        }
    }
    Ok(None)
}

/// The fact, if there is such a frame.
pub(crate) fn frame_fact(
    alloc: Global,
    notation: Notation,
    frame: Option<u32>,
) -> Result<String, AllocError>
    ensures { IfOk result (λ text. string_bytes text ≡ frame_fact notation frame) }
{
    let Some(frame) = frame else {
        return Ok(String::new(alloc));
    };
    let before = "claimed state: the run's after frame ";
    let fact = NumberFact(notation, "claimed_state_after", before, frame, "");
    format!(in alloc; "{fact}")
}

/// After which frame of its run a movie is in this state, which it claims. The movie is replayed for
/// that, on the calling thread, as a work of its own.
pub(crate) fn claim_place<P: Progress>(
    alloc: Global,
    movie: &Movie,
    claimed: &State,
    progress: &P,
) -> Result<Option<u32>, AllocError>
    requires { IsTrue (is_of movie.now.cartridge claimed.now) }
    ensures frame { IfOk result (λ frame. frame ≡ first_frame_in movie.now claimed.now) }
    ensures memory { OnErr result (0 < ram_length movie.now.cartridge) }
{
    progress.begin(Work::Frames(movie.frames()));
    let frame = first_frame_in(alloc, movie, claimed, progress);
    progress.end();
    frame
}
