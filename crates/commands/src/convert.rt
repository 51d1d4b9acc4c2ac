//! The same movie in version 2.
ghost use Rattle.std.specs.Prelude.{◌≡◌, IfOk};
ghost use Rattle.commands.specs.Convert.{conversion_of, conversion_refused};

use crate::answer::Answer;
use crate::line::Line;
use crate::remark::{Remark, WhichInput};
use movie_file::{ConvertError, Movie};
use movie_hints::Hint;
use std::alloc::{AllocError, Global};

/// That a movie has version 2 already, or version 3.
fn refused(alloc: Global, movie: &Movie, line: Line) -> Result<Answer, AllocError>
    ensures { IfOk result (λ answer. answer ≡ conversion_refused line movie.now) }
{
    let hint = Hint::Holds {
        version: movie.version(),
        frames: movie.frames(),
    };
    let answer = Answer::of_line(alloc, line)?;
    Ok(answer.with_remark(Some(Remark::of(WhichInput::First, hint))))
}

/// A movie in version 2, or that it has that version already, or version 3.
pub(crate) fn convert(alloc: Global, movie: Movie) -> Result<Answer, AllocError>
    ensures { IfOk result (λ answer. answer ≡ conversion_of movie) }
{
    match movie_file::convert(movie) {
        Ok(movie) => {
            let frames = movie.frames();
            let checkpoints = movie.checkpoints();
            let line = Line::Converted {
                frames,
                checkpoints,
            };
            Answer::of_movie(alloc, &movie, line)
        }
        Err(ConvertError::AlreadyTwo(movie)) => refused(alloc, &movie, Line::AlreadyTwo),
        Err(ConvertError::AlreadyThree(movie)) => refused(alloc, &movie, Line::AlreadyThree),
    }
}
