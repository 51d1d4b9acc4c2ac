//! The steps of a case, as its lines say them.

use crate::number::Number;

/// What is done with a console, or found in it.
#[derive(Clone, Copy)]
pub(crate) enum Step<'a> {
    /// A byte of the state's record, by its offset, becomes this one.
    Put(usize, u8),
    /// The record with a byte at an offset set to this one is a state's, or isn't.
    Lawful(usize, u8, bool),
    /// A frame with this input ends.
    Frame([u8; 3]),
    /// A frame ends with this fault.
    Fault(&'a str),
    /// A number of the state is this one.
    Is(Number, u16),
    /// The last frame took so many cycles.
    Cycles(u32),
    /// Its picture has so many rows.
    Rows(u16),
    /// A pixel of a row of its picture has this colour.
    Pixel(u16, u8, u8),
    /// So many bytes spell the state.
    Record(usize),
}

/// A byte of two hexadecimal digits.
pub(crate) fn byte(word: &str) -> Option<u8> {
    u8::from_str_radix(word, 16).ok()
}

fn decimal(word: &str) -> Option<u32> {
    word.parse().ok()
}

/// A place in the record and a byte, as `206 02`.
fn placed_byte(text: &str) -> Option<(usize, u8)> {
    let (offset, value) = text.split_once(' ')?;
    Some((decimal(offset)? as usize, byte(value)?))
}

/// Three bytes, as `FF 3F 00`.
fn input(text: &str) -> Option<[u8; 3]> {
    let (swcha, rest) = text.split_once(' ')?;
    let (swchb, buttons) = rest.split_once(' ')?;
    Some([byte(swcha)?, byte(swchb)?, byte(buttons)?])
}

/// A pixel as `3 159 1E`.
fn pixel(text: &str) -> Option<(u16, u8, u8)> {
    let (row, rest) = text.split_once(' ')?;
    let (x, colour) = rest.split_once(' ')?;
    Some((row.parse().ok()?, x.parse().ok()?, byte(colour)?))
}

impl<'a> Step<'a> {
    /// The step of a text; none where it is no step.
    pub(crate) fn parse(text: &'a str) -> Option<Step<'a>> {
        let (verb, rest) = text.split_once(' ')?;
        match verb {
            "put" => {
                let (offset, value) = placed_byte(rest)?;
                Some(Step::Put(offset, value))
            }
            "lawful" => {
                let (offset, value) = placed_byte(rest)?;
                Some(Step::Lawful(offset, value, true))
            }
            "unlawful" => {
                let (offset, value) = placed_byte(rest)?;
                Some(Step::Lawful(offset, value, false))
            }
            "frame" => Some(Step::Frame(input(rest)?)),
            "fault" => Some(Step::Fault(rest)),
            "cycles" => Some(Step::Cycles(decimal(rest)?)),
            "rows" => Some(Step::Rows(rest.parse().ok()?)),
            "pixel" => {
                let (row, x, colour) = pixel(rest)?;
                Some(Step::Pixel(row, x, colour))
            }
            "record" => Some(Step::Record(decimal(rest)? as usize)),
            "is" => {
                let (name, value) = rest.split_once(' ')?;
                let value = u16::from_str_radix(value, 16).ok()?;
                Some(Step::Is(Number::named(name)?, value))
            }
            _ => None,
        }
    }

    /// Whether the step can find something else than it says.
    pub(crate) fn is_check(&self) -> bool {
        !matches!(self, Step::Put(..) | Step::Frame(..))
    }
}
