//! What commands answer and write, without memory of their own.

use crate::call_failure::{CallFailure, right};
use crate::gate::Counting;
use arrayvec::ArrayVec;
use command_line::{Command, CommandLine, parse_line};
use commands::{Request, RunError, Status, run_command};
use replay_plan::Workers;
use std::alloc::Global;
use std::io::{self, Read};
use std::sync::Wait;
use std::thread::Threads;

/// The room for a text.
pub(crate) type Text = ArrayVec<u8, 4096>;

/// The room for a file.
pub(crate) type File = ArrayVec<u8, 5120>;

/// What a command answered, and what it wrote.
#[derive(Drop)]
pub(crate) struct Answer {
    pub status: Result<Status, RunError>,
    pub text: Text,
    pub file: File,
    /// Whether each work that began has ended, as the gate was told.
    pub has_ended: bool,
}

/// The command line of these words, of which the first is the program's name.
fn line_of(alloc: Global, words: &str) -> Result<CommandLine, CallFailure> {
    let mut all = Vec::new(alloc);
    // A growth that `collect` is refused it asks for once more.
    for word in words.split(' ') {
        all.push(word)?;
    }
    Ok(parse_line(alloc, &all)?)
}

/// The answer to these words over this input. The second input is empty, and the names of files aren't
/// used.
pub(crate) fn answer_to<T: Threads + Wait + Sync + AllocGlobal, R: Read>(
    rt: &T,
    words: &str,
    input: &mut R,
) -> Result<Answer, CallFailure> {
    answer_with(rt, words, input, &mut io::empty())
}

/// The answer to these words over both inputs.
pub(crate) fn answer_with<T: Threads + Wait + Sync + AllocGlobal, R: Read, S: Read>(
    rt: &T,
    words: &str,
    input: &mut R,
    inputs: &mut S,
) -> Result<Answer, CallFailure> {
    let line = line_of(rt.alloc(), words)?;
    Ok(answer_of(rt, &line, input, inputs))
}

/// The answer to a command over this input. No memory is taken for words, so that the growths of the
/// command can be counted.
pub(crate) fn answer_to_command<T: Threads + Wait + Sync + AllocGlobal, R: Read>(
    rt: &T,
    command: Command,
    workers: Workers,
    input: &mut R,
) -> Answer {
    let line = CommandLine {
        workers,
        ..CommandLine::of(command, String::new(rt.alloc()))
    };
    answer_of(rt, &line, input, &mut io::empty())
}

/// The answer to a command line over both inputs.
fn answer_of<T: Threads + Wait + Sync + AllocGlobal, R: Read, S: Read>(
    rt: &T,
    line: &CommandLine,
    input: &mut R,
    inputs: &mut S,
) -> Answer {
    let mut text = Text::new();
    let mut file = File::new();
    let gate = Counting::new();
    let request = Request {
        rt,
        line,
        gate: &gate,
    };
    let end = run_command(&request, input, inputs, &mut text, &mut file);
    Answer {
        status: end.map(|end| end.status),
        text,
        file,
        has_ended: gate.has_ended_as_begun(),
    }
}

impl Answer {
    /// Right where the status and what was written are wanted. But for a failed write, nothing may
    /// be written before an error.
    pub(crate) fn is(&self, status: Status, text: &[u8], file: &[u8]) -> Result<(), CallFailure> {
        self.judged(
            status,
            self.text.as_slice() == text && self.file.as_slice() == file,
            self.text.is_empty() && self.file.is_empty(),
        )
    }

    /// The same where some of the text's lines may be written before an error, each whole.
    pub(crate) fn is_in_lines(&self, status: Status, text: &[u8]) -> Result<(), CallFailure> {
        let written = self.text.as_slice();
        self.judged(
            status,
            written == text && self.file.is_empty(),
            text.starts_with(written) && (written.is_empty() || written.ends_with(b"\n")),
        )
    }

    /// Right where the status is wanted, and what was written. But for a failed write, an error is
    /// wrong after what may not be written before it. A work that has not ended is always wrong.
    pub(crate) fn judged(
        &self,
        status: Status,
        is_wanted: bool,
        is_beginning: bool,
    ) -> Result<(), CallFailure> {
        if !self.has_ended {
            return Err(CallFailure::Wrong);
        }
        match self.status {
            Ok(found) => right(found == status && is_wanted),
            Err(error) if is_beginning || error == RunError::WriteFault => {
                Err(CallFailure::Run(error))
            }
            Err(_) => Err(CallFailure::Wrong),
        }
    }
}
