//! A movie of some frames of a movie.
ghost use Rattle.std.specs.Prelude.{◌≡◌, IfOk};
ghost use Rattle.std.specs.NonZero.{non_zero_u32_get};
ghost use Rattle.commands.specs.Answers.{movie_answer};
ghost use Rattle.commands.specs.declared.line.Line.TheVariants.{Cut};
ghost use Rattle.commands.specs.Cut.{Cuts, IsCutHint};

use crate::answer::Answer;
use crate::asked_frames::frames_asked;
use crate::cut_movie::cut_movie;
use crate::line::Line;
use crate::refusal::counts_refusal;
use crate::remark::WhichInput;
use movie_file::{Movie, Progress, do_counts_fit};
use movie_hints::{Hint, hint_of_counts};
use std::alloc::{AllocError, Global};
use std::num::NonZeroU32;

/// What is written of a cut.
fn of_cut(alloc: Global, cut: &Movie) -> Result<Answer, AllocError>
    ensures { IfOk result (λ answer. answer ≡ movie_answer Cut cut.now) }
{
    let frames = cut.frames();
    let checkpoints = cut.checkpoints();
    let line = Line::Cut {
        frames,
        checkpoints,
    };
    Answer::of_movie(alloc, cut, line)
}

/// What keeps these frames of a movie from being cut.
fn hint_of_part(movie: &Movie, first: NonZeroU32, count: u32, every: NonZeroU32) -> Option<Hint>
    ensures { IsCutHint movie.now (non_zero_u32_get first) count (non_zero_u32_get every) result }
{
    let frames = movie.frames();
    if frames < first.get() {
        return Some(Hint::HasFrames { frames });
    }
    hint_of_counts(u64::from(frames_asked(movie, first, count)), every, false)
}

/// A movie of its own of `count` frames from `first` on, as many as the movie has, with a checkpoint
/// after each `every` of them; or why none is made.
///
/// What the movie claims is not looked at. Counts that are refused, and a frame up to the last one of
/// the cut that faults, are a line and a status without a movie.
pub(crate) fn cut<P: Progress>(
    alloc: Global,
    movie: &Movie,
    first: NonZeroU32,
    count: u32,
    every: NonZeroU32,
    progress: &P,
) -> Result<Answer, AllocError>
    ensures { IfOk result (Cuts movie.now (non_zero_u32_get first) count (non_zero_u32_get every)) }
{
    let interval = every.get();
    if !do_counts_fit(frames_asked(movie, first, count) as usize, interval) {
        let hint = hint_of_part(movie, first, count, every);
        return counts_refusal(alloc, WhichInput::First, hint);
    }
    match cut_movie(alloc, movie, first, count, interval, progress)? {
        Ok(cut) => of_cut(alloc, &cut),
        Err(fault) => {
            let line = Line::Fault {
                frame: fault.frame,
                kind: fault.kind,
            };
            Answer::of_line(alloc, line)
        }
    }
}
