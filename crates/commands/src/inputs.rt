//! The inputs of a movie as text.
ghost use Rattle.std.specs.Prelude.{◌≡◌, IfOk};
ghost use Rattle.std.specs.NonZero.{non_zero_u32_get};
ghost use Rattle.commands.specs.AskedFrames.{inputs_asked};
ghost use Rattle.commands.specs.Inputs.{Lists};

use crate::answer::Answer;
use crate::asked_frames::frames_asked;
use crate::remark::no_frame;
use crate::status::Status;
use command_line::Listing;
use input_text::{write_numbered, write_text};
use movie_file::Movie;
use std::alloc::{AllocError, Global};
use std::num::NonZeroU32;
use vcs_machine::Input;

/// The inputs of `count` frames from `first` on, as many as the movie has.
fn inputs_asked(movie: &Movie, first: NonZeroU32, count: u32) -> &[Input]
    ensures { result.now ≡ inputs_asked movie.now (non_zero_u32_get first) count }
{
    let frames = frames_asked(movie, first, count) as usize;
    if frames == 0 {
        return &[];
    }
    let from = (first.get() - 1) as usize;
    &movie.inputs()[from..from + frames]
}

/// The inputs of the frames that are asked for, as many as the movie has, as text: each line with the
/// number of its first frame, or as `make` reads it. The movie is not replayed.
pub(crate) fn inputs(alloc: Global, movie: &Movie, listing: Listing) -> Result<Answer, AllocError>
    ensures { IfOk result (Lists movie.now listing) }
{
    let first = listing.first;
    let inputs = inputs_asked(movie, first, listing.count);
    let text = if listing.numbers {
        write_numbered(alloc, first, inputs)?
    } else {
        write_text(alloc, inputs)?
    };
    Ok(Answer::of_text(alloc, Status::Done, text).with_remark(no_frame(movie, first)))
}
