//! The steps of a case, as its lines say them.

use crate::registers::number_of;
use crate::row::{Row, parse_row};

/// What is done with a TIA, or found in it.
#[derive(Clone, Copy)]
pub(crate) enum Step {
    /// A write of a byte to a register, and the cycle after it.
    Set(u8, u8),
    /// A write of a byte to a register.
    Write(u8, u8),
    /// A read of a register, with a byte on the bus, gives a byte.
    Read(u8, u8, u8),
    /// So many colour clocks pass.
    Clocks(u16),
    /// Clocks pass until one of a line comes next.
    To(u16, u8),
    /// The clock of a line that comes next is this one.
    Beam(u16, u8),
    /// A line is drawn to its end, and its pixels are these.
    Row(u16, Row),
    /// Each button is pressed or not.
    Fire(bool, bool),
    /// A record says all of the TIA, or it doesn't.
    Record(bool),
}

impl Step {
    /// The step of a text; none where it is no step.
    pub(crate) fn parse(text: &str) -> Option<Step> {
        let (verb, rest) = text.split_once(' ')?;
        match verb {
            "set" => {
                let (number, value) = write(rest)?;
                Some(Step::Set(number, value))
            }
            "write" => {
                let (number, value) = write(rest)?;
                Some(Step::Write(number, value))
            }
            "read" => read(rest),
            "clocks" => Some(Step::Clocks(count(rest)?)),
            "to" => {
                let (line, clock) = beam(rest)?;
                Some(Step::To(line, clock))
            }
            "beam" => {
                let (line, clock) = beam(rest)?;
                Some(Step::Beam(line, clock))
            }
            "row" => {
                let (line, pixels) = rest.split_once(' ')?;
                Some(Step::Row(count(line)?, parse_row(pixels)?))
            }
            "fire" => fire(rest),
            "record" => record(rest),
            _ => None,
        }
    }

    /// Whether the step can find something else than it says.
    pub(crate) fn is_check(&self) -> bool {
        matches!(
            self,
            Step::Read(..) | Step::Beam(..) | Step::Row(..) | Step::Record(..)
        )
    }
}

/// A byte of two hexadecimal digits.
pub(crate) fn byte(word: &str) -> Option<u8> {
    u8::from_str_radix(word, 16).ok()
}

/// A pixel or colour clock of a line.
pub(crate) fn place(word: &str) -> Option<u8> {
    word.parse().ok()
}

fn count(word: &str) -> Option<u16> {
    word.parse().ok()
}

fn write(text: &str) -> Option<(u8, u8)> {
    let (number, value) = text.split_once(' ')?;
    Some((number_of(number)?, byte(value)?))
}

fn beam(text: &str) -> Option<(u16, u8)> {
    let (line, clock) = text.split_once(' ')?;
    Some((count(line)?, place(clock)?))
}

/// A read as `CXM0P bus 30 gives B0`.
fn read(text: &str) -> Option<Step> {
    let (number, rest) = text.split_once(" bus ")?;
    let (bus, value) = rest.split_once(" gives ")?;
    Some(Step::Read(number_of(number)?, byte(bus)?, byte(value)?))
}

fn fire(text: &str) -> Option<Step> {
    match text {
        "none" => Some(Step::Fire(false, false)),
        "0" => Some(Step::Fire(true, false)),
        "1" => Some(Step::Fire(false, true)),
        "both" => Some(Step::Fire(true, true)),
        _ => None,
    }
}

fn record(text: &str) -> Option<Step> {
    match text {
        "whole" => Some(Step::Record(true)),
        "lacking" => Some(Step::Record(false)),
        _ => None,
    }
}
