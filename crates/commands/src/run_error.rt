//! Why a run did not reach its end.
ghost use Rattle.std.specs.Prelude.{◌≡◌};

use picture_file::WriteFault;
use std::alloc::AllocError;
use thiserror::Error;

/// Why a run did not reach its end, as the program prints it after `error: `.
#[derive(Clone, Copy, Debug, PartialEq, Eq, Error)]
pub enum RunError {
    /// A read answered an error.
    #[error("read failed")]
    ReadFault,
    /// An input has more than 16,777,216 bytes.
    #[error("file too long")]
    TooLong,
    /// An allocation was refused.
    #[error("out of memory")]
    NoMemory,
    /// The start of a thread was refused.
    #[error("no thread")]
    NoThread,
    /// A write answered an error, or took nothing.
    #[error("write failed")]
    WriteFault,
}

impl From<AllocError> for RunError {
    ghost use Rattle.commands.specs.declared.run_error.RunError.TheVariants.{NoMemory};

    ghost from_gives = { λ _ e. e ≡ NoMemory };

    fn from(_refused: AllocError) -> RunError {
        RunError::NoMemory
    }
}

impl From<WriteFault> for RunError {
    ghost use Rattle.commands.specs.declared.run_error.RunError.TheVariants.{WriteFault};

    ghost from_gives = { λ _ e. e ≡ WriteFault };

    fn from(_fault: WriteFault) -> RunError {
        RunError::WriteFault
    }
}
