//! The states that a movie claims.
ghost use Rattle.std.specs.Prelude.{◌≡◌, IfOk};
ghost use Rattle.commands.specs.Claims.{claims_in};

use crate::answer::Answer;
use crate::status::Status;
use movie_file::Movie;
use replay_plan::Notation;
use std::alloc::{AllocError, Global};

/// What each checkpoint claims: lines, or an object of JSON for each. The movie is not replayed.
pub(crate) fn claims(alloc: Global, notation: Notation, movie: &Movie) -> Result<Answer, AllocError>
    ensures { IfOk result (λ answer. answer ≡ claims_in notation movie.now) }
{
    let text = movie_report::claims(alloc, notation, movie)?;
    Ok(Answer::of_text(alloc, Status::Done, text))
}
