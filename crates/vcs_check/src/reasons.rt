//! The second line on standard error, which says why.
ghost use Rattle.std.specs.Prelude.{◌≡◌, ◌↔◌, codes, position, string_bytes, true};
ghost use Rattle.std.specs.List.{before_first};
ghost use Rattle.std.specs.Str.{bytes_eq};
ghost use Rattle.vcs_check.specs.Reasons.{HasExplain};

use named_files::Quota;
use std::env::{Env, FillError};
use std::fmt;
use std::io::Eprint;
use std::rt::Files;

/// A text and a line feed.
#[derive(Drop)]
struct Line<D> {
    text: D,
}

impl<D: fmt::Display> fmt::Display for Line<D> {
    fn fmt<W: fmt::Write>(&self, f: &mut fmt::Formatter<W>) -> fmt::Result {
        writeln!(f, "{}", self.text)
    }
}

/// Writes a line on standard error, if its file has room. That it isn't taken changes nothing.
pub(crate) fn write_reason<R: Files + Eprint, D: fmt::Display + Drop>(rt: &R, text: D) {
    let line = Line { text };
    if Quota::of_standard_error(rt).has_room(&line) {
        let _printed = eprint!(rt; "{line}");
    }
}

/// Whether `--explain` is among the arguments of the program, of which one is no text.
pub(crate) fn is_explained<R: Env>(rt: &R) -> bool {
    let mut room = [0u8; 16];
    for number in 1..usize::MAX {
        match rt.arg(number, &mut room) {
            Ok(length) => {
                let word = room.get(..length).unwrap_or(&[]);
                if word == b"--explain".as_slice() {
                    return true;
                }
                if word == b"--".as_slice() {
                    return false;
                }
            }
            Err(FillError::TooLong) => {}
            Err(FillError::NotPresent) => return false,
        }
    }
    false
}

/// The place of the word after which no word is an option.
fn end_of_options(words: &[String]) -> Option<usize>
    ensures { result ≡ position (λ word. bytes_eq (string_bytes word) (codes "--")) words.now }
{
    words.iter().position(|word| word.as_str() == "--")
}

/// The words among which options are.
fn options_of(words: &[String]) -> &[String]
    ensures { result.now ≡ before_first (λ word. bytes_eq (string_bytes word) (codes "--")) words.now }
{
    match end_of_options(words) {
        Some(end) => &words[..end],
        None => words,
    }
}

/// Whether `--explain` is among the words of a command line, be they a command or not.
pub(crate) fn has_explain(words: &[String]) -> bool
    ensures { (result ≡ true) ↔ HasExplain words.now }
{
    options_of(words)
        .iter()
        .any(|word| word.as_str() == "--explain")
}
