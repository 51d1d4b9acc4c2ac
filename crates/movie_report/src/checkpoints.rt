//! The facts of a movie's checkpoints.
ghost use Rattle.std.specs.Prelude.{◌≡◌, IfOk, string_bytes};
ghost use Rattle.movie_report.specs.CheckpointFacts.{checkpoints_text, gaps_from, largest, rest_text};

use crate::notation::NumberFact;
use movie_file::Movie;
use replay_plan::Notation;
use std::alloc::{AllocError, Global};

/// The largest number of frames from the start or a checkpoint to the next checkpoint.
#[tactic(auto, using(crate::proofs::ListLemmas::what_is_left))]
fn largest_gap(movie: &Movie) -> u32
    ensures { result ≡ largest (gaps_from 0 movie.now.checkpoints) }
{
    let mut gap: u32 = 0;
    let mut last = 0;
    for index in 0..movie.checkpoints() {
        let frame = movie.checkpoint(index + 1).frame;
        gap = gap.max(frame - last);
        last = frame;
    }
    gap
}

/// How many frames come after the last checkpoint.
fn rest(alloc: Global, notation: Notation, frames: u32) -> Result<String, AllocError>
    ensures { IfOk result (λ text. string_bytes text ≡ rest_text notation frames) }
{
    let (name, before) = ("after_last_checkpoint", "after the last checkpoint: ");
    format!(in alloc; "{}", NumberFact(notation, name, before, frames, " frames"))
}

/// How many checkpoints there are, and where they stand.
pub(crate) fn checkpoint_facts(
    alloc: Global,
    notation: Notation,
    movie: &Movie,
) -> Result<String, AllocError>
    ensures { IfOk result (λ text. string_bytes text ≡ checkpoints_text notation movie.now) }
{
    let frames = movie.frames();
    let count = movie.checkpoints();
    let counted = NumberFact(
        notation,
        "checkpoints",
        "checkpoints: ",
        u32::from(count),
        "",
    );
    if count == 0 {
        let rest = rest(alloc, notation, frames)?;
        return format!(in alloc; "{counted}{rest}");
    }
    let first = movie.checkpoint(1).frame;
    let last = movie.checkpoint(count).frame;
    let gap = largest_gap(movie);
    let rest = rest(alloc, notation, frames - last)?;
    format!(in alloc;
        "{counted}{}{}{}{rest}",
        NumberFact(
            notation,
            "first_checkpoint",
            "first checkpoint: frame ",
            first,
            ""
        ),
        NumberFact(
            notation,
            "last_checkpoint",
            "last checkpoint: frame ",
            last,
            ""
        ),
        NumberFact(notation, "largest_gap", "largest gap: ", gap, " frames")
    )
}
