//! What is wrong with inputs as text that are refused.
ghost use Rattle.std.specs.Prelude.{◌≡◌, IfSome, Err};
ghost use Rattle.input_text.specs.Texts.{inputs_in};
ghost use Rattle.movie_hints.specs.Hints.{IsTrueOfText, TellsStorage, TellsWhole};

use crate::hint::Hint;
use crate::inputs::look_of;
use crate::lengths::is_some_length;
use crate::plain_text::{is_frame_number, is_text, is_utf16};
use crate::word::Word;
use input_text::{Mistake, line_at, meant_by, mistake_in};
use movie_file::read_inputs;
use std::alloc::Global;
use thiserror::Error;

/// What is wrong with a text of inputs, or with the first of its lines that is bad, by its number
/// from 1.
#[derive(Clone, Copy, Debug, Error)]
pub enum TextHint<'a> {
    #[error("{0}")]
    Whole(Hint),
    #[error("line {line}: '{word}' is no number of frames from 1 to 262143")]
    NoCount {
        line: u64,
        word: Word<'a>,
    },
    #[error("line {line}: '{word}' is the number of a frame, as inputs --numbers prints it: leave it out")]
    FrameNumber {
        line: u64,
        word: Word<'a>,
    },
    #[error("line {line}: '{word}' is no word of an input")]
    NoName {
        line: u64,
        word: Word<'a>,
    },
    #[error("line {line}: '{word}' is no word of an input; did you mean '{name}'?")]
    Meant {
        line: u64,
        word: Word<'a>,
        name: &'static str,
    },
    #[error("line {line}: more than 262143 frames")]
    TooManyFrames {
        line: u64,
    },
}

/// How a text is stored that can't be read so, or is read otherwise than it was meant.
pub fn hint_of_storage(bytes: &[u8]) -> Option<Hint>
    ensures { IfSome result (TellsStorage bytes.now) }
{
    if bytes.starts_with(&[0xEF, 0xBB, 0xBF]) {
        Some(Hint::ByteOrderMark)
    } else if bytes.starts_with(&[0xFF, 0xFE])
        || bytes.starts_with(&[0xFE, 0xFF])
        || is_utf16(bytes)
    {
        Some(Hint::Utf16)
    } else if bytes.contains(&b'\r') && !bytes.contains(&b'\n') {
        Some(Hint::CarriageReturns)
    } else {
        None
    }
}

/// What is wrong with a text as a whole.
fn hint_of_whole(alloc: Global, bytes: &[u8]) -> Option<Hint>
    ensures { IfSome result (TellsWhole bytes.now) }
{
    if let Some(hint) = look_of(bytes) {
        return Some(hint);
    }
    if read_inputs(alloc, bytes).is_ok() {
        return Some(Hint::LooksLikeBytes);
    }
    if is_some_length(bytes.len()) && !is_text(bytes) {
        return Some(Hint::Exchanged);
    }
    hint_of_storage(bytes)
}

/// What is wrong with the line of this number, the first bad one of a text.
fn hint_of_line(text: &[u8], number: u64) -> Option<TextHint<'_>>
    requires { inputs_in text.now ≡ Err number }
    ensures { IfSome result (IsTrueOfText text.now) }
{
    let line = line_at(text, number)?;
    match mistake_in(line) {
        Mistake::NoCount(word) if is_frame_number(word) => Some(TextHint::FrameNumber {
            line: number,
            word: Word { bytes: word },
        }),
        Mistake::NoCount(word) => Some(TextHint::NoCount {
            line: number,
            word: Word { bytes: word },
        }),
        Mistake::NoName(word) => match meant_by(word) {
            Some(name) => Some(TextHint::Meant {
                line: number,
                word: Word { bytes: word },
                name,
            }),
            None => Some(TextHint::NoName {
                line: number,
                word: Word { bytes: word },
            }),
        },
        Mistake::TooManyFrames => Some(TextHint::TooManyFrames { line: number }),
    }
}

/// What is wrong with inputs as text that are refused, since the line of this number, from 1, is the
/// first bad one.
pub fn hint_of_text(alloc: Global, text: &[u8], number: u64) -> Option<TextHint<'_>>
    requires { inputs_in text.now ≡ Err number }
    ensures { IfSome result (IsTrueOfText text.now) }
{
    match hint_of_whole(alloc, text) {
        Some(hint) => Some(TextHint::Whole(hint)),
        None => hint_of_line(text, number),
    }
}
