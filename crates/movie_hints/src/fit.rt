//! How a number of a state by the chip's rules has to fit those beside it.

use std::fmt;

/// What was expected of a number of a state by the chip's rules, as others beside it are what they are.
#[derive(Clone, Copy, Debug)]
pub enum Fit {
    /// No bit of a player's copy that isn't drawn yet.
    NoBit,
    /// No change of a player's width that is that of NUSIZ.
    NoChange,
    /// A change of one that isn't.
    Change,
    NotMirrored,
    NoPlayfieldBit,
    NoPulses,
    /// No longer blank.
    NotLonger,
    /// No own size of a missile's copy that isn't drawn yet.
    NoOwnSize,
    /// Nothing seen.
    NotSeen,
}

impl fmt::Display for Fit {
    ghost use Rattle.std.specs.Prelude.{Some};
    ghost use Rattle.movie_hints.specs.HintTexts.{fit_text};

    ghost output = { λ fit. Some (fit_text fit) };

    fn fmt<W: fmt::Write>(&self, f: &mut fmt::Formatter<W>) -> fmt::Result {
        match *self {
            Fit::NoBit => write!(f, "0, as its copy is below 7"),
            Fit::NoChange => write!(f, "0, as the width is NUSIZ's"),
            Fit::Change => write!(f, "1 to 5, as the width isn't NUSIZ's"),
            Fit::NotMirrored => write!(f, "0, as the line cycle isn't 50 to 74"),
            Fit::NoPlayfieldBit => {
                write!(f, "0, as the line cycle is below 23 or a multiple of 4")
            }
            Fit::NoPulses => write!(f, "0, as nothing moves"),
            Fit::NotLonger => write!(f, "0, as the line cycle is 0 or 26 to 74"),
            Fit::NoOwnSize => write!(f, "0, as its copy is below 5"),
            Fit::NotSeen => write!(f, "0, as the line cycle is 23 or more and longer isn't 1"),
        }
    }
}
