//! Reading inputs that are written as text.
ghost use Rattle.std.specs.Prelude.{◌≡◌, ◌≢◌, ◌+◌, ℕ, List, min, is_some, IfOk, IfSome, Ok, Err};
ghost use Rattle.std.specs.List.{list_all, filter_map};
ghost use Rattle.input_text.specs.Names.{input_with};
ghost use Rattle.input_text.specs.Texts.{is_count, number_of, name_of, is_readable, frames_of};
ghost use Rattle.input_text.specs.Texts.{input_of, inputs_in, SaysFrames};
ghost use Rattle.input_text.specs.Words.{words_in, words_of};

use crate::held::{hold, idle};
use crate::name::{NAMES, Name};
use crate::stretch::Stretch;
use crate::words::{first_line, first_word, without_comment};
use movie_file::MOST_FRAMES;
use refused::Refused;
use std::alloc::Global;
use vcs_machine::Input;

/// One frame more than a movie has at most.
const TOO_MANY: u64 = MOST_FRAMES as u64 + 1;

/// How many frames a word says. Each number above the most counts as `TOO_MANY`.
pub(crate) fn count_in(word: &[u8]) -> Option<u64>
    ensures readable { is_some result ≡ is_count word.now }
    ensures value { IfSome result (λ count. count ≡ min (number_of word.now) TOO_MANY) }
{
    let mut count: u64 = 0;
    for byte in word {
        if !byte.is_ascii_digit() {
            return None;
        }
        count = (10 * count + (*byte - b'0') as u64).min(TOO_MANY);
    }
    if count == 0 { None } else { Some(count) }
}

/// The name that a word is.
pub(crate) fn name_in(word: &[u8]) -> Option<Name>
    ensures { result ≡ name_of word.now }
{
    NAMES
        .iter()
        .find(|name| name.named_bit().word.as_bytes() == word)
        .copied()
}

/// The input in which is held what words name, if all of them are names.
fn input_in(bytes: &[u8]) -> Option<Input>
    ensures readable { is_some result
        ≡ list_all (λ word. is_some (name_of word)) (words_in bytes.now) }
    ensures value { IfSome result (λ input.
        input ≡ input_with (filter_map name_of (words_in bytes.now))) }
{
    let mut input = idle();
    let mut rest = bytes;
    while let Some((word, after)) = first_word(rest) {
        input = hold(input, name_in(word)?);
        rest = after;
    }
    Some(input)
}

/// The frames of a line: none if it has no words. Each number above the most counts as `TOO_MANY`.
fn stretch_in(line: &[u8]) -> Option<Stretch>
    ensures readable { is_some result ≡ is_readable (words_of line.now) }
    ensures count { IfSome result (λ s.
        s.count ≡ min (frames_of (words_of line.now)) TOO_MANY) }
    ensures input { IfSome result (λ s. s.input ≡ input_of (words_of line.now)) }
{
    match first_word(without_comment(line)) {
        None => Some(Stretch {
            count: 0,
            input: idle(),
        }),
        Some((word, rest)) => Some(Stretch {
            count: count_in(word)?,
            input: input_in(rest)?,
        }),
    }
}

/// The first line of a text that can't be read, or with which there are more frames than a movie has.
#[derive(Clone, Copy, Debug, PartialEq, Eq)]
pub struct BadLine {
    /// Its number, from 1.
    pub number: u64,
}

/// The inputs that a text says, at most 262,143. No memory is taken for the first bad line; `NoMemory`
/// comes if an allocation was refused for a line before it.
pub fn read_text(alloc: Global, text: &[u8]) -> Result<Vec<Input>, Refused<BadLine>>
    ensures found { IfOk result (λ inputs. inputs_in text.now ≡ Ok inputs.items) }
    ensures bad { (number : ℕ) → result ≡ Err (Refused.Of (record { number = number }))
        → inputs_in text.now ≡ Err number }
    ensures memory { result ≡ Err Refused.NoMemory → SaysFrames text.now }
{
    let mut inputs = Vec::new(alloc);
    let mut rest = Some(text);
    let mut number: u64 = 0;
    while let Some(left) = rest {
        let (line, after) = first_line(left);
        number += 1;
        let free = MOST_FRAMES as u64 - inputs.len() as u64;
        match stretch_in(line) {
            Some(stretch) if stretch.count <= free => {
                inputs.resize(inputs.len() + stretch.count as usize, stretch.input)?;
            }
            _ => return Err(Refused::Of(BadLine { number })),
        }
        rest = after;
    }
    Ok(inputs)
}
