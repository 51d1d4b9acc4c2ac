//! Why a call is not right.

use command_line::LineFault;
use commands::RunError;
use movie_file::{MakeError, MovieError};
use refused::Refused;
use replay_plan::BadKeep;
use replay_segments::{BadCuts, Missing};
use std::alloc::{AllocError, AllocFailed};
use thiserror::Error;
use verify_pool::NoThread;

/// Why a call is not right, or not with a growth of its own refused.
#[derive(Clone, Copy, Debug, Error)]
pub(crate) enum CallFailure {
    /// It failed with an error that nothing in its arguments calls for.
    #[error("{0}")]
    Run(RunError),
    /// It gave another value, wrote what it shouldn't, or failed as if its arguments were bad.
    #[error("wrong")]
    Wrong,
    /// It is right, and a gate of its own met the refused growth after the last one of the call's
    /// that could be refused.
    #[error("right, in fewer growths")]
    Fewer,
}

/// Right where it holds.
pub(crate) fn right(holds: bool) -> Result<(), CallFailure> {
    if holds {
        Ok(())
    } else {
        Err(CallFailure::Wrong)
    }
}

/// A growth was refused.
pub(crate) const OUT_OF_MEMORY: CallFailure = CallFailure::Run(RunError::NoMemory);

impl From<AllocError> for CallFailure {
    fn from(_refused: AllocError) -> CallFailure {
        OUT_OF_MEMORY
    }
}

impl<T: Drop> From<AllocFailed<T>> for CallFailure {
    fn from(_refused: AllocFailed<T>) -> CallFailure {
        OUT_OF_MEMORY
    }
}

impl From<LineFault> for CallFailure {
    fn from(_fault: LineFault) -> CallFailure {
        CallFailure::Wrong
    }
}

impl<E: Into<CallFailure>> From<Refused<E>> for CallFailure {
    fn from(error: Refused<E>) -> CallFailure {
        match error {
            Refused::NoMemory => OUT_OF_MEMORY,
            Refused::Of(error) => error.into(),
        }
    }
}

impl From<MovieError> for CallFailure {
    fn from(_bad: MovieError) -> CallFailure {
        CallFailure::Wrong
    }
}

impl From<MakeError> for CallFailure {
    fn from(_bad: MakeError) -> CallFailure {
        CallFailure::Wrong
    }
}

impl From<Missing> for CallFailure {
    fn from(_missing: Missing) -> CallFailure {
        CallFailure::Wrong
    }
}

impl From<NoThread> for CallFailure {
    fn from(_refused: NoThread) -> CallFailure {
        CallFailure::Run(RunError::NoThread)
    }
}

impl From<BadKeep> for CallFailure {
    fn from(_bad: BadKeep) -> CallFailure {
        CallFailure::Wrong
    }
}

impl From<BadCuts> for CallFailure {
    fn from(_bad: BadCuts) -> CallFailure {
        CallFailure::Wrong
    }
}
