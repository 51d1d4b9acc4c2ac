//! Why a command did not reach its end.
ghost use Rattle.std.specs.Prelude.{◌≡◌, ◌↔◌, true};
ghost use Rattle.vcs_check.specs.Failures.{IsForOutput, file_error_of};
ghost use Rattle.vcs_check.specs.Private.FileErrors.{IsUntold, by_input, by_output};

use commands::RunError;
use named_files::FileError;
use thiserror::Error;

/// Why a command did not reach its end, as the program prints it after `error: `.
#[derive(Clone, Copy, Debug, Error)]
pub(crate) enum Failure<'a> {
    /// A file can't be opened or created, or an output is one of the inputs.
    #[error("cannot open")]
    Open(FileError<'a>),
    /// A run did not reach its end; by which file, if that is known.
    #[error("{0}")]
    Run(RunError, Option<FileError<'a>>),
}

impl<'a> Failure<'a> {
    /// The file that failed, and why, if that is known.
    pub(crate) fn file_error(&self) -> Option<FileError<'a>>
        ensures { result ≡ file_error_of self.now }
    {
        match *self {
            Failure::Open(file_error) => Some(file_error),
            Failure::Run(_, file_error) => file_error,
        }
    }

    /// Whether nobody is to be told of it.
    pub(crate) fn is_untold(&self) -> bool
        ensures { (result ≡ true) ↔ IsUntold self.now }
    {
        match self.file_error() {
            Some(file_error) => file_error.is_untold(),
            None => false,
        }
    }

    /// Whether standard output is to be told of it, if it tells of errors.
    pub(crate) fn is_for_output(&self) -> bool
        ensures { (result ≡ true) ↔ IsForOutput self.now }
    {
        match self.file_error() {
            Some(file_error) => file_error.is_for_output(),
            None => true,
        }
    }

    /// The same, by the error of an input if a read failed and no error of a file is known.
    pub(crate) fn by_input(self, file_error: Option<FileError<'a>>) -> Failure<'a>
        ensures { result ≡ by_input self.entry file_error.entry }
    {
        match self {
            Failure::Run(error @ (RunError::ReadFault | RunError::TooLong), None) => {
                Failure::Run(error, file_error)
            }
            failure => failure,
        }
    }

    /// The same, by the error of an output if a write failed and no error of a file is known.
    pub(crate) fn by_output(self, file_error: Option<FileError<'a>>) -> Failure<'a>
        ensures { result ≡ by_output self.entry file_error.entry }
    {
        match self {
            Failure::Run(RunError::WriteFault, None) => Failure::Run(
                RunError::WriteFault,
                file_error,
            ),
            failure => failure,
        }
    }
}

impl<'a> From<FileError<'a>> for Failure<'a> {
    ghost use Rattle.vcs_check.specs.declared.failure.Failure.TheVariants.{Open};

    ghost from_gives = { λ file_error failure. failure ≡ Open file_error };

    fn from(file_error: FileError<'a>) -> Failure<'a> {
        Failure::Open(file_error)
    }
}
