//! What is told after an answer where reasons are wanted: why something was refused, and what no
//! checkpoint claims.

use crate::answered::Answered;
use crate::command_files::{STANDARD, takes_file};
use crate::reasons::write_reason;
use cart_board::KnownBoard;
use command_line::{Command, CommandLine, NamedBoard};
use commands::{Cause, Remark, Status, WhichInput, read_all};
use movie_file::is_length;
use movie_hints::{Hint, TextHint, hint_of_claims};
use named_files::STANDARD_INPUT;
use std::alloc::Global;
use std::io::Eprint;
use std::rt::Files;
use std::{fmt, fs};
use terminal_text::Shown;

/// A file, and what is to be said of it.
#[derive(Drop)]
struct Told<'a> {
    name: &'a str,
    hint: TextHint<'a>,
}

impl fmt::Display for Told<'_> {
    fn fmt<W: fmt::Write>(&self, f: &mut fmt::Formatter<W>) -> fmt::Result {
        write!(f, "{}: {}", Shown::name(self.name), self.hint)
    }
}

/// The same as text, if there is memory for it.
fn text_of(alloc: Global, name: &str, hint: TextHint<'_>) -> Option<String> {
    let told = Told { name, hint };
    format!(in alloc; "{told}").ok()
}

/// The path of an input.
fn path_of(input: &str) -> &str {
    if input == STANDARD {
        "/dev/stdin"
    } else {
        input
    }
}

/// What an input is called in messages.
fn name_of(input: &str) -> &str {
    if input == STANDARD {
        STANDARD_INPUT
    } else {
        input
    }
}

/// The board for which a ROM is read, if a command names one.
fn board_of(line: &CommandLine) -> Option<KnownBoard> {
    match &line.command {
        Command::Make { board, .. } => NamedBoard::known_of(*board),
        _ => None,
    }
}

/// Whether an input has as many bytes as a cartridge, on this board or on none.
fn is_cartridge<R: Files>(rt: &R, board: Option<KnownBoard>, input: &str) -> bool {
    match fs::metadata(rt, path_of(input)) {
        Ok(metadata) => is_length(board, metadata.len() as usize),
        Err(_) => false,
    }
}

/// What is to be said of an input, if anything is known and there is memory for it; of a ROM that is
/// none, and comes first, that the inputs are one, if they are.
pub(crate) fn reason_of<R: Files + AllocGlobal>(
    rt: &R,
    line: &CommandLine,
    remark: &Remark,
) -> Option<String> {
    let alloc = rt.alloc();
    let second = line.second.as_deref().unwrap_or("");
    match (remark.input, &remark.cause) {
        (WhichInput::First, Cause::NoCartridge(_)) if is_cartridge(rt, board_of(line), second) => {
            text_of(alloc, name_of(second), TextHint::Whole(Hint::Exchanged))
        }
        (WhichInput::First, _) => text_of(alloc, name_of(&line.input), remark.hint(alloc)?),
        (WhichInput::Second, _) => text_of(alloc, name_of(second), remark.hint(alloc)?),
    }
}

/// What a file holds, if it is a regular file, which can be read again.
fn read_again<R: Files + AllocGlobal>(rt: &R, path: &str) -> Option<Vec<u8>> {
    let Ok(metadata) = fs::metadata(rt, path) else {
        return None;
    };
    if !metadata.is_file() {
        return None;
    }
    let Ok(mut file) = fs::open(rt, path) else {
        return None;
    };
    read_all(rt.alloc(), &mut file).ok()
}

/// Says which frames at the end of a movie that was written no checkpoint follows, if any.
fn tell_of_output<R: Files + AllocGlobal + Eprint>(rt: &R, line: &CommandLine) {
    let every = match line.command {
        Command::Make { making, .. } if !making.to_the_end => making.every,
        Command::Cut { every, .. } => every,
        _ => return,
    };
    if takes_file(line) {
        return;
    }
    let Some(output) = line.output.as_deref() else {
        return;
    };
    let Some(bytes) = read_again(rt, output) else {
        return;
    };
    if let Some(hint) = hint_of_claims(&bytes, every) {
        let hint = TextHint::Whole(hint);
        write_reason(rt, Told { name: output, hint });
    }
}

/// Says what is to be said of an input, and which frames of a movie that was written no checkpoint
/// follows.
pub(crate) fn tell_hints<R: Files + AllocGlobal + Eprint>(
    rt: &R,
    line: &CommandLine,
    answered: &Answered,
) {
    if let Some(reason) = &answered.reason {
        write_reason(rt, reason.as_str());
    }
    if answered.status == Status::Done {
        tell_of_output(rt, line);
    }
}
