//! What commands answer over readers and writers.

use crate::devices::FailingWriter;
use crate::expectation::expect_equal;
use command_line::{CommandLine, parse_line};
use commands::{NoGate, Request, RunError, Status, run_command};
use std::alloc::Global;
use std::io::{self, Read};
use std::process::Abort;
use std::sync::Wait;
use std::test::Fail;
use std::thread::Threads;

/// What a command answered, and what its writers took.
#[derive(Drop)]
pub(crate) struct Answer {
    pub status: Result<Status, RunError>,
    pub text: Vec<u8>,
    pub file: Vec<u8>,
}

/// The command line of these words, of which the first is the program's name. The names of files aren't
/// used.
pub(crate) fn line_of(alloc: Global, words: &str) -> Result<CommandLine, Fail> {
    let words: Vec<&str> = words.split(' ').collect(alloc)?;
    Ok(parse_line(alloc, &words)?)
}

/// The answer to a command with a second input, whose text's writer and whose file's writer take so
/// many bytes each.
pub(crate) fn answer_over<T: Threads + Wait + Sync + AllocGlobal, R: Read, S: Read>(
    rt: &T,
    line: &CommandLine,
    input: &mut R,
    inputs: &mut S,
    text: usize,
    file: usize,
) -> Answer {
    let mut text = FailingWriter::new(rt.alloc(), text);
    let mut file = FailingWriter::new(rt.alloc(), file);
    let gate = &NoGate;
    let request = Request { rt, line, gate };
    let end = run_command(&request, input, inputs, &mut text, &mut file);
    Answer {
        status: end.map(|end| end.status),
        text: text.taken,
        file: file.taken,
    }
}

/// The answer to a command whose text's writer and whose file's writer take so many bytes each. Its
/// second input is empty.
pub(crate) fn answer_into<T: Threads + Wait + Sync + AllocGlobal, R: Read>(
    rt: &T,
    line: &CommandLine,
    input: &mut R,
    text: usize,
    file: usize,
) -> Answer {
    answer_over(rt, line, input, &mut io::empty(), text, file)
}

/// The answer to a command with a second input whose writers take all.
pub(crate) fn answer_with<T: Threads + Wait + Sync + AllocGlobal, R: Read, S: Read>(
    rt: &T,
    line: &CommandLine,
    input: &mut R,
    inputs: &mut S,
) -> Answer {
    answer_over(rt, line, input, inputs, usize::MAX, usize::MAX)
}

/// The answer to a command whose writers take all.
pub(crate) fn answer_to<T: Threads + Wait + Sync + AllocGlobal, R: Read>(
    rt: &T,
    line: &CommandLine,
    input: &mut R,
) -> Answer {
    answer_into(rt, line, input, usize::MAX, usize::MAX)
}

/// Ends the test unless the command failed with this error before it wrote anything.
pub(crate) fn expect_nothing(rt: &impl Abort, answer: &Answer, error: RunError) {
    expect_equal(rt, answer.status, Err(error));
    assert!(rt; answer.text.is_empty() && answer.file.is_empty());
}

/// Ends the test unless a write failed after so many bytes of what was wanted.
pub(crate) fn expect_beginning(
    rt: &impl Abort,
    status: Result<Status, RunError>,
    taken: &[u8],
    wanted: &[u8],
    count: usize,
) {
    expect_equal(rt, status, Err(RunError::WriteFault));
    expect_equal(rt, taken.len(), count);
    assert!(rt; wanted.starts_with(taken));
}
