//! Prints what the words of a command line ask for: of each line of standard input, whose words stand
//! one blank apart, so that options and their ranges can be laid beside the page of commands.
//!
//! It stands apart from `test_commands`, since it needs no movie: only a change of the command line
//! proves it again.
#![tactic(auto)]

use command_line::{CommandLine, LineFault, parse_line};
use refused::Refused;
use std::alloc::{AllocError, Global};
use std::io::{self, Print};

/// The command line of these words, of which the first is the program's name.
fn line_of(alloc: Global, words: &str) -> Result<CommandLine, Refused<LineFault>> {
    let words: Vec<&str> = words.split(' ').collect(alloc)?;
    parse_line(alloc, &words)
}

/// What the answer is where there is no command.
fn name_of(refused: &Refused<LineFault>) -> &'static str {
    match refused {
        Refused::Of(LineFault::Usage { text, .. }) if text.starts_with("error") => "usage",
        Refused::Of(LineFault::Usage { .. }) => "usage that names no error",
        Refused::Of(LineFault::Help { .. }) => "help",
        Refused::NoMemory => "out of memory",
    }
}

/// Whether a word of a text of `Debug` is the value of a field that is false.
fn is_false(word: &str) -> bool {
    word == "false" || word == "false,"
}

/// What a command line asks for, without its fields that are false: of a new one only those lines tell
/// that ask for it.
fn told(alloc: Global, line: &CommandLine) -> Result<String, AllocError> {
    let text = format!(in alloc; "{line:?}")?;
    let words: Vec<&str> = text.split_whitespace().collect(alloc)?;
    let mut told = String::new(alloc);
    for at in 0..words.len() {
        let is_name = at + 1 < words.len() && is_false(words[at + 1]);
        if !is_name && !is_false(words[at]) {
            told.push(' ')?;
            told.push_str(words[at])?;
        }
    }
    Ok(told)
}

/// Prints the command line of these words.
fn tell(rt: &impl Print, alloc: Global, words: &str) -> io::Result<()> {
    match line_of(alloc, words) {
        Ok(line) => println!(rt; "{words}:{}", told(alloc, &line)?),
        Err(refused) => println!(rt; "{words}: {}", name_of(&refused)),
    }
}

fn main(rt: HostRuntime) -> io::Result<()> {
    for line in rt.lines(rt.alloc()) {
        tell(&rt, rt.alloc(), &line?)?;
    }
    Ok(())
}
