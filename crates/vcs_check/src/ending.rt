//! How the program ends if no command came to a status.
ghost use Rattle.std.specs.Prelude.{◌≡◌, ◌↔◌, true};
ghost use Rattle.std.specs.Process.{exit_status};
ghost use Rattle.vcs_check.specs.Endings.{IsReported, exit_code};
ghost use Rattle.vcs_check.specs.Private.FileErrors.{IsSilent};

use crate::failure::Failure;
use crate::reasons::write_reason;
use command_line::LineFault;
use commands::RunError;
use named_files::{FileError, Quota, Reason, STANDARD_OUTPUT, sync_standard_output};
use refused::Refused;
use std::io::{self, Eprint, Print};
use std::process::ExitCode;
use std::rt::Files;
use thiserror::Error;

/// The exit status of arguments that are no command.
const USAGE: u8 = 4;

/// The exit status of a command that did not reach its end.
const FAILED: u8 = 5;

/// How the program ends if no command came to a status, with what it prints then.
#[derive(Debug, Drop, Error)]
pub(crate) enum Ending<'a> {
    /// The arguments ask for help, or for the version, which is the text.
    #[error("{text}")]
    Help { text: String },
    /// The arguments are no command; the text says why.
    #[error("{text}")]
    Usage { text: String },
    #[error("error: a word is not UTF-8\n")]
    NotUtf8,
    /// Both inputs are called `-`.
    #[error("error: - is standard input, which is read once: name a file for one of both inputs\n")]
    Twice,
    #[error("error: {0}\n")]
    Failed(Failure<'a>),
}

/// The system's number of the error that a file would be too large.
const TOO_LARGE: i32 = 27;

/// The ending of a text that standard output did not take, for this reason.
pub(crate) fn not_written(error: io::Error) -> Ending<'static>
    ensures { exit_code result ≡ 5 }
{
    let file_error = FileError::new(STANDARD_OUTPUT, Reason::System(error));
    Ending::Failed(Failure::Run(RunError::WriteFault, Some(file_error)))
}

/// Prints a text on standard output, if its file has room, and waits until the disk has it.
fn print_whole<R: Files + Print>(rt: &R, text: &str) -> io::Result<()> {
    if !Quota::of_standard_output(rt).has_room(text) {
        return Err(io::Error::from_raw_os_error(TOO_LARGE));
    }
    print!(rt; "{text}")?;
    sync_standard_output(rt)
}

impl Ending<'_> {
    /// The program's exit status.
    fn code(&self) -> u8
        ensures { result ≡ exit_code self.now }
    {
        match self {
            Ending::Help { .. } => 0,
            Ending::Usage { .. } | Ending::NotUtf8 | Ending::Twice => USAGE,
            Ending::Failed(_) => FAILED,
        }
    }

    /// Says the reason: a file's error, or how a file can be named.
    fn explain<R: Files + Eprint>(&self, rt: &R) {
        match self {
            Ending::NotUtf8 => {
                write_reason(
                    rt,
                    "a file of any name can be standard input, as in verify - < FILE",
                );
            }
            Ending::Failed(failure) => {
                if let Some(file_error) = failure.file_error() {
                    write_reason(rt, file_error);
                }
            }
            _ => {}
        }
    }

    /// Whether nobody is to be told of it: a reader has gone away, or standard error is an input.
    fn is_silent(&self) -> bool
        ensures { (result ≡ true) ↔ IsSilent self.now }
    {
        match self {
            Ending::Failed(failure) => failure.is_untold(),
            _ => false,
        }
    }

    /// Prints it on standard error, if its file has room for it, and the reason if reasons are wanted.
    fn say<R: Files + Eprint>(&self, rt: &R, explain: bool) {
        if Quota::of_standard_error(rt).has_room(self) {
            let _printed = eprint!(rt; "{self}");
        }
        if explain {
            self.explain(rt);
        }
    }

    /// Prints it, help on standard output and all else on standard error, and answers the exit
    /// status. If reasons are wanted it may have a second line. A text for which a file has no room
    /// isn't begun. Nothing is printed of what nobody is to be told.
    pub(crate) fn report<R: Files + Print + Eprint>(self, rt: &R, explain: bool) -> ExitCode
        ensures { IsReported self.entry (exit_status result) }
    {
        let ending = match self {
            Ending::Help { text } => match print_whole(rt, text.as_str()) {
                Ok(()) => return ExitCode::SUCCESS,
                Err(error) => not_written(error),
            },
            other => other,
        };
        if !ending.is_silent() {
            ending.say(rt, explain);
        }
        ExitCode::from(ending.code())
    }
}

impl From<io::Error> for Ending<'_> {
    ghost use Rattle.std.specs.IoError.{error_kind};
    ghost use Rattle.vcs_check.specs.Endings.{of_kind};

    ghost from_gives = { λ error ending. ending ≡ of_kind (error_kind error) };

    /// Of an error that reading the arguments gave.
    fn from(error: io::Error) -> Self {
        match error.kind() {
            io::ErrorKind::OutOfMemory => Ending::Failed(Failure::Run(RunError::NoMemory, None)),
            _ => Ending::NotUtf8,
        }
    }
}

impl From<Refused<LineFault>> for Ending<'_> {
    ghost use Rattle.vcs_check.specs.Endings.{of_refused};

    ghost from_gives = { λ refused ending. ending ≡ of_refused refused };

    fn from(refused: Refused<LineFault>) -> Self {
        match refused {
            Refused::NoMemory => Ending::Failed(Failure::Run(RunError::NoMemory, None)),
            Refused::Of(LineFault::Help { text }) => Ending::Help { text },
            Refused::Of(LineFault::Usage { text, .. }) => Ending::Usage { text },
        }
    }
}
