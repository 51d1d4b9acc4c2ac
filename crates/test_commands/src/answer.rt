//! What the program answers to a command line.

use crate::case::Case;
use crate::named_bytes::malformed;
use command_line::{CommandLine, LineFault, parse_line};
use commands::{Conclusion, NoGate, Request, RunError, Status, run_command};
use refused::Refused;
use std::alloc::{AllocError, Global};
use std::sync::Wait;
use std::thread::Threads;
use std::{fmt, io};

/// The status of words that are no command.
const NO_COMMAND: u8 = 4;

/// The status of a command that came to no end.
const FAILED: u8 = 5;

/// An exit status, and what was written: a text, in which `\n` stands for a line feed, and a file.
#[derive(Drop)]
pub(crate) struct Answer {
    pub status: u8,
    pub text: String,
    pub file: Vec<u8>,
}

impl fmt::Display for Answer {
    fn fmt<W: fmt::Write>(&self, f: &mut fmt::Formatter<W>) -> fmt::Result {
        let length = self.file.len();
        write!(f, "{} | {} | {length} bytes", self.status, self.text)
    }
}

/// The command line of words.
fn line_of(alloc: Global, words: &str) -> Result<CommandLine, Refused<LineFault>> {
    let mut all = Vec::new(alloc);
    all.push("vcs_check")?;
    for word in words.split_whitespace() {
        all.push(word)?;
    }
    parse_line(alloc, &all)
}

/// What is said of words that are no command, or ask for help.
fn answer_of_fault(alloc: Global, fault: LineFault) -> Result<Answer, AllocError> {
    let (status, text) = match fault {
        LineFault::Usage { text, .. } => (NO_COMMAND, text),
        LineFault::Help { text } => (Status::Done.code(), text),
    };
    Ok(Answer {
        status,
        text: text.replace(alloc, "\n", "\\n")?,
        file: Vec::new(alloc),
    })
}

/// What is to be said of an input, as a line without the input's name, or nothing.
fn reason_of(alloc: Global, end: &Conclusion) -> Result<String, AllocError> {
    let Some(remark) = &end.remark else {
        return Ok(String::new(alloc));
    };
    match remark.hint(alloc) {
        Some(hint) => format!(in alloc; "{hint}\n"),
        None => Ok(String::new(alloc)),
    }
}

/// What standard error gets after a command: its error, or where that is asked for what is to be said of
/// an input.
fn remark_of(
    alloc: Global,
    line: &CommandLine,
    answer: &Result<Conclusion, RunError>,
) -> Result<String, AllocError> {
    match answer {
        Err(error) => format!(in alloc; "error: {error}\n"),
        Ok(end) if line.explain => reason_of(alloc, end),
        Ok(_) => Ok(String::new(alloc)),
    }
}

/// The answer to a case whose words are this command line.
fn answer_to_line<R: Threads + Wait + Sync + AllocGlobal>(
    rt: &R,
    line: &CommandLine,
    case: &Case<'_>,
) -> io::Result<Answer> {
    let alloc = rt.alloc();
    let mut text = Vec::new(alloc);
    let mut file = Vec::new(alloc);
    let gate = &NoGate;
    let answer = run_command(
        &Request { rt, line, gate },
        &mut case.first.as_slice(),
        &mut case.second.as_slice(),
        &mut text,
        &mut file,
    );
    let remark = remark_of(alloc, line, &answer)?;
    text.extend_from_slice(remark.as_bytes())?;
    let text = str::from_utf8(&text).map_err(|_| malformed())?;
    Ok(Answer {
        status: answer.map_or(FAILED, |end| end.status.code()),
        text: text.replace(alloc, "\n", "\\n")?,
        file,
    })
}

/// The answer to a case.
pub(crate) fn answer_to<R: Threads + Wait + Sync + AllocGlobal>(
    rt: &R,
    case: &Case<'_>,
) -> io::Result<Answer> {
    match line_of(rt.alloc(), case.words) {
        Ok(line) => answer_to_line(rt, &line, case),
        Err(Refused::NoMemory) => Err(io::Error::from(AllocError)),
        Err(Refused::Of(fault)) => Ok(answer_of_fault(rt.alloc(), fault)?),
    }
}
