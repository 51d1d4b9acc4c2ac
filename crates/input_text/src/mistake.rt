//! Why a line of a text can't be read.
ghost use Rattle.std.specs.Prelude.{◌≡◌, ◌-◌, find, is_some, not, option_map, slice_get};
ghost use Rattle.input_text.specs.Mistakes.{IsMistake};
ghost use Rattle.input_text.specs.Texts.{name_of};
ghost use Rattle.input_text.specs.Words.{lines_of, words_in, words_of};

use crate::reading::{count_in, name_in};
use crate::words::{first_line, first_word, without_comment};

/// What is wrong with a line that is the first bad one of a text.
#[derive(Clone, Copy, Debug)]
pub enum Mistake<'a> {
    /// Its first word is no number of frames.
    NoCount(&'a [u8]),
    /// This is the first of its other words that is no name.
    NoName(&'a [u8]),
    /// It can be read, and with it there are more frames than a movie has.
    TooManyFrames,
}

/// A line of a text, by its number from 1, or `None` after the last one.
pub fn line_at(text: &[u8], number: u64) -> Option<&[u8]>
    ensures { option_map (λ line. line.now) result ≡ slice_get (lines_of text.now) (number - 1) }
{
    let mut rest = Some(text);
    let mut before = number.saturating_sub(1);
    while let Some(left) = rest {
        let (line, after) = first_line(left);
        if before == 0 {
            return Some(line);
        }
        before -= 1;
        rest = after;
    }
    None
}

/// The first word that is no name.
fn first_unnamed(bytes: &[u8]) -> Option<&[u8]>
    ensures { option_map (λ word. word.now) result
        ≡ find (λ word. not (is_some (name_of word))) (words_in bytes.now) }
{
    let mut rest = bytes;
    while let Some((word, after)) = first_word(rest) {
        if name_in(word).is_none() {
            return Some(word);
        }
        rest = after;
    }
    None
}

/// What is wrong with a line, which is the first bad one of its text.
pub fn mistake_in(line: &[u8]) -> Mistake<'_>
    ensures { IsMistake (words_of line.now) result }
{
    let Some((word, rest)) = first_word(without_comment(line)) else {
        return Mistake::TooManyFrames;
    };
    if count_in(word).is_none() {
        return Mistake::NoCount(word);
    }
    match first_unnamed(rest) {
        Some(word) => Mistake::NoName(word),
        None => Mistake::TooManyFrames,
    }
}
