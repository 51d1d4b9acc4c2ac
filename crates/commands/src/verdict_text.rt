//! What is written of a verdict.
ghost use Rattle.std.specs.Prelude.{◌≡◌, IfOk, string_bytes};
ghost use Rattle.commands.specs.Verify.{verdict_object, verdict_text};

use crate::line::Line;
use movie_file::Movie;
use movie_report::verdict_head;
use replay_plan::Notation;
use replay_segments::Verdict;
use std::alloc::{AllocError, Global};

/// The object of a movie with this verdict, with its end.
fn verdict_object(alloc: Global, movie: &Movie, verdict: &Verdict) -> Result<String, AllocError>
    ensures { IfOk result (λ text. string_bytes text ≡ verdict_object movie.now verdict.now) }
{
    let head = verdict_head(alloc, verdict)?;
    match verdict {
        Verdict::Genuine { .. } => {
            let frames = movie.frames();
            let checkpoints = movie.checkpoints();
            format!(in alloc; "{head},\"frames\":{frames},\"checkpoints\":{checkpoints}}}\n")
        }
        _ => format!(in alloc; "{head}}}\n"),
    }
}

/// The line or the object of a movie with this verdict, with its end.
pub(crate) fn verdict_text(
    alloc: Global,
    notation: Notation,
    movie: &Movie,
    verdict: &Verdict,
) -> Result<String, AllocError>
    ensures { IfOk result (λ text. string_bytes text ≡ verdict_text notation movie.now verdict.now) }
{
    match notation {
        Notation::Lines => Line::of_verdict(movie, verdict).text(alloc),
        Notation::Json => verdict_object(alloc, movie, verdict),
    }
}
