//! What is to be said of an input beside the answer.
ghost use Rattle.std.specs.Prelude.{◌≡◌};
ghost use Rattle.std.specs.NonZero.{non_zero_u32_get};
ghost use Rattle.commands.specs.Remarks.{Tells, no_frame};

use crate::bad_text::BadText;
use movie_file::{Movie, MovieError};
use movie_hints::{Hint, TextHint, hint_of_inputs, hint_of_text};
use std::alloc::Global;
use std::num::NonZeroU32;

/// An input of a command, in the order in which they are read.
#[derive(Clone, Copy, Debug, PartialEq, Eq)]
pub enum WhichInput {
    First,
    Second,
}

/// What is known of an input.
#[derive(Drop)]
pub enum Cause {
    /// What is wrong with it, or what it holds.
    Known(Hint),
    /// The same of a ROM that is no cartridge.
    NoCartridge(Hint),
    /// Its bytes are no inputs, for this reason.
    NoInputs { bytes: Vec<u8>, error: MovieError },
    /// It is a text of inputs with a bad line.
    BadLine(BadText),
}

/// What is to be said of an input where reasons are wanted: why it is refused, how many frames a movie
/// has that has none of those that were asked for, or how a text is stored that was read otherwise than
/// it was meant.
#[derive(Drop)]
pub struct Remark {
    pub input: WhichInput,
    pub cause: Cause,
}

impl Remark {
    ghost use Rattle.commands.specs.Remarks.{known_of};

    /// That this is known of an input.
    pub(crate) fn of(input: WhichInput, hint: Hint) -> Remark
        ensures { result ≡ known_of input hint }
    {
        Remark {
            input,
            cause: Cause::Known(hint),
        }
    }

    /// What is said. Of a refused input as bytes, or as text, it is found out now: it is nothing where
    /// memory is refused, or nothing is known.
    pub fn hint(&self, alloc: Global) -> Option<TextHint<'_>>
        ensures { Tells self.now.cause result }
    {
        match &self.cause {
            Cause::Known(hint) | Cause::NoCartridge(hint) => Some(TextHint::Whole(*hint)),
            Cause::NoInputs { bytes, error } => {
                let hint = hint_of_inputs(alloc, bytes, *error)?;
                Some(TextHint::Whole(hint))
            }
            Cause::BadLine(bad) => hint_of_text(alloc, &bad.text, bad.number),
        }
    }
}

/// How many frames a movie has, if it has none from this one on, counted from 1.
pub(crate) fn no_frame(movie: &Movie, first: NonZeroU32) -> Option<Remark>
    ensures { result ≡ no_frame movie.now (non_zero_u32_get first) }
{
    let frames = movie.frames();
    if frames < first.get() {
        return Some(Remark::of(WhichInput::First, Hint::HasFrames { frames }));
    }
    None
}
