//! Does what command lines ask for, over bytes in place of files, and compares what they write with
//! what pages, manuals and other tools say. It is a program of its own, and no tests, so that the
//! cases are data that can be laid beside a page, and so that a case costs no proof.
//!
//! Its arguments are names of files of cases. Lines of these that are empty or begin with `#` say
//! nothing. The others are:
//!
//! - `NAME = BYTES`, which names bytes for later lines of the file;
//! - `WORDS | FIRST | SECOND | STATUS | TEXT` or the same with ` | FILE` at its end, which is a case.
//!
//! WORDS follow `vcs_check` in a command line; what they call files doesn't matter. FIRST and SECOND
//! are the bytes of the files that it reads. STATUS is its exit status, and TEXT what it writes, in
//! which `\n` is a line feed and ` .. ` is any text, once or twice; at an end of TEXT that mark has
//! no blank outside. With `--explain` the reason of a refused file follows, without the file's name.
//! FILE are the bytes of the file that it writes.
//!
//! BYTES are items with blanks between them: hexadecimal digits, `'text'` with `\n`, `\r`, `\t`,
//! `\'` and `\\`, or `@NAME`. `*COUNT` behind an item repeats it.
#![tactic(auto)]

mod answer;
mod case;
mod named_bytes;
mod quoted;

use answer::answer_to;
use case::Case;
use named_bytes::NamedBytes;
use std::io::{self, Print};
use std::sync::Wait;
use std::thread::Threads;
use std::{env, fs};

/// How many cases were tried, and how many differ.
#[derive(Clone, Copy)]
struct Count {
    tried: u64,
    different: u64,
}

impl Count {
    fn add(&mut self, is_met: bool) {
        self.tried = self.tried.saturating_add(1);
        if !is_met {
            self.different = self.different.saturating_add(1);
        }
    }
}

/// Tries the case of a line, and prints what differs. Whether it is met.
fn try_case<R: Threads + Wait + Sync + AllocGlobal + Print>(
    rt: &R,
    names: &NamedBytes<'_>,
    line: &str,
) -> io::Result<bool> {
    let Ok(case) = Case::parse(names, line) else {
        println!(rt; "no case: {line}")?;
        return Ok(false);
    };
    let answer = answer_to(rt, &case)?;
    let is_met = case.is_met_by(rt.alloc(), &answer)?;
    if !is_met {
        println!(rt; "differs: {line}\nfound: {answer}")?;
        if let Some(place) = case.place_of_difference(&answer.file) {
            println!(rt; "file: differs from byte {place} on")?;
        }
    }
    Ok(is_met)
}

/// Tries the cases of a text.
fn try_cases<R: Threads + Wait + Sync + AllocGlobal + Print>(
    rt: &R,
    text: &str,
) -> io::Result<Count> {
    let mut names = NamedBytes::none(rt.alloc());
    let mut count = Count {
        tried: 0,
        different: 0,
    };
    for line in text.lines() {
        if line.is_empty() || line.starts_with('#') || names.take(line)? {
            continue;
        }
        count.add(try_case(rt, &names, line)?);
    }
    Ok(count)
}

fn main(rt: HostRuntime) -> io::Result<()> {
    for name in env::args(&rt)?.skip(1) {
        let text = fs::read_to_string(&rt, &name)?;
        let Count { tried, different } = try_cases(&rt, &text)?;
        println!(rt; "{tried} cases of {name}, {different} differ")?;
    }
    Ok(())
}
