//! Refusals.
ghost use Rattle.std.specs.Prelude.{◌≡◌};
ghost use Rattle.refused.specs.declared.Refused.TheVariants.{Of};

use refused::Refused;
use std::fmt;
use thiserror::Error;
use vcs_machine::FaultKind;

/// Why bytes are no movie, or no inputs: the first refusal in the order of reading.
///
/// It is shown as the program prints it, as in `BadState 2`.
#[derive(Clone, Copy, Debug, PartialEq, Eq, Error)]
pub enum MovieError {
    /// The file ends in its header, or is shorter than its header says.
    Short,
    /// The first four bytes aren't `A26M`.
    BadMagic,
    /// There is no such version.
    BadVersion,
    /// No board has this code.
    BadBoard,
    /// No cartridge of the version, or of its board, has this length.
    BadCartSize,
    /// No frame or too many, or too many checkpoints.
    BadCounts,
    /// The start state (0), or the state of a checkpoint (from 1), is no state, or has a bank that
    /// the cartridge doesn't have.
    BadState(u16),
    /// The input of this number, from 1, has a bit set that no input has. A list of inputs may have
    /// any length.
    BadInput(u64),
    /// The checkpoint of this number, from 1, isn't after the one before it, or is after the end.
    BadOrder(u16),
    /// Bytes follow the movie.
    Trailing,
}

impl fmt::Display for MovieError {
    ghost use Rattle.std.specs.Prelude.{Some};
    ghost use Rattle.movie_file.specs.MovieError.{refusal_text};

    ghost output = { λ e. Some (refusal_text e) };

    fn fmt<W: fmt::Write>(&self, f: &mut fmt::Formatter<W>) -> fmt::Result {
        match *self {
            MovieError::Short => write!(f, "Short"),
            MovieError::BadMagic => write!(f, "BadMagic"),
            MovieError::BadVersion => write!(f, "BadVersion"),
            MovieError::BadBoard => write!(f, "BadBoard"),
            MovieError::BadCartSize => write!(f, "BadCartSize"),
            MovieError::BadCounts => write!(f, "BadCounts"),
            MovieError::BadState(k) => write!(f, "BadState {k}"),
            MovieError::BadInput(k) => write!(f, "BadInput {k}"),
            MovieError::BadOrder(k) => write!(f, "BadOrder {k}"),
            MovieError::Trailing => write!(f, "Trailing"),
        }
    }
}

impl From<MovieError> for Refused<MovieError> {
    ghost from_gives = { λ error e. e ≡ Of error };

    fn from(error: MovieError) -> Refused<MovieError> {
        Refused::Of(error)
    }
}

/// Why no movie was made.
#[derive(Clone, Copy, Debug, PartialEq, Eq)]
pub enum MakeError {
    /// The frame of this number, from 1, faults.
    Fault { frame: u32, kind: FaultKind },
    /// No frame or too many, a checkpoint after each 0 frames, or too many checkpoints.
    BadCounts,
}
