//! Which file a failure is about, and why.
ghost use Rattle.std.specs.Prelude.{◌≡◌, ◌↔◌, true};
ghost use Rattle.named_files.specs.FileErrors.{IsAbout, IsForOutput, IsUntold};

use std::fmt;
use std::io::{self, ErrorKind};
use terminal_text::Shown;
use thiserror::Error;

/// Why a file failed, as the program prints it after the file's name.
#[derive(Clone, Copy, Debug, Error)]
pub enum Reason {
    /// The system's.
    #[error("{0}")]
    System(io::Error),
    /// The system's, as the file beside it was copied, whose name ends with this digit.
    #[error("{0}; the file beside it that ends with .part{1} has all of it")]
    NotCopied(io::Error, char),
    #[error("longer than 16,777,216 bytes")]
    TooLong,
    #[error("is also an input of this command")]
    IsInput,
    /// Of standard output, which gets no text then.
    #[error("is also an input of this command")]
    OutputIsInput,
    /// Of standard error, which gets no text then. Nor does standard output, which may be that input too.
    #[error("is also an input of this command")]
    ErrorIsInput,
    #[error("is also standard output or standard error")]
    IsOutput,
    /// Of standard output.
    #[error("is also standard error")]
    IsStandardError,
    /// Of standard output.
    #[error("is a terminal")]
    IsTerminal,
    /// As the names of the files beside it are taken, which end with these digits.
    #[error("the files beside it that end with .part1 to .part9 are in the way")]
    NoFreeName,
    #[error("takes no more bytes")]
    TookNothing,
}

impl From<io::Error> for Reason {
    ghost use Rattle.named_files.specs.declared.file_error.Reason.TheVariants.{System};

    ghost from_gives = { λ error reason. reason ≡ System error };

    fn from(error: io::Error) -> Reason {
        Reason::System(error)
    }
}

/// A file, by the name that the command line has of it, and why it failed.
#[derive(Clone, Copy, Debug)]
pub struct FileError<'a> {
    file: &'a str,
    reason: Reason,
}

impl<'a> FileError<'a> {
    pub fn new(file: &'a str, reason: Reason) -> FileError<'a>
        ensures { IsAbout file.now reason result }
    {
        FileError { file, reason }
    }

    /// The name of the file.
    pub fn file(&self) -> &'a str
        ensures { result.now ≡ self.now.file.now }
    {
        self.file
    }

    /// Why it failed.
    pub fn reason(&self) -> Reason
        ensures { result ≡ self.now.reason }
    {
        self.reason
    }

    /// Whether nobody is to be told of it.
    pub fn is_untold(&self) -> bool
        ensures { (result ≡ true) ↔ IsUntold self.now.reason }
    {
        match self.reason {
            Reason::System(error) => error.kind() == ErrorKind::BrokenPipe,
            Reason::ErrorIsInput => true,
            _ => false,
        }
    }

    /// Whether standard output is to be told of it, if it tells of errors.
    pub fn is_for_output(&self) -> bool
        ensures { (result ≡ true) ↔ IsForOutput self.now.reason }
    {
        match self.reason {
            Reason::OutputIsInput => false,
            _ => !self.is_untold(),
        }
    }
}

impl fmt::Display for FileError<'_> {
    fn fmt<W: fmt::Write>(&self, f: &mut fmt::Formatter<W>) -> fmt::Result {
        let file = Shown::name(self.file);
        let reason = self.reason;
        match reason {
            Reason::IsTerminal => write!(f, "{file} {reason}"),
            _ if self.file.is_empty() => write!(f, "'': {reason}"),
            _ => write!(f, "{file}: {reason}"),
        }
    }
}
