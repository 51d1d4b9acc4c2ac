//! The steps of a case, as its lines say them.

use crate::registers::address_of;
use crate::row::{Row, parse_row};
use tia_core::Effect;

/// One of the objects that have a position.
#[derive(Clone, Copy)]
pub(crate) enum Object {
    Player0,
    Player1,
    Missile0,
    Missile1,
    Ball,
}

/// What is done with a console, or found in it.
#[derive(Clone, Copy)]
pub(crate) enum Step {
    /// A write of a byte to an address, and what it asks of the processor.
    Write(u16, u8, Effect),
    /// A read of an address gives a byte.
    Read(u16, u8),
    /// So many colour clocks pass for the TIA.
    Clocks(u16),
    /// So many cycles pass for the RIOT.
    Cycles(u16),
    /// The line is drawn to its end, and its pixels are these.
    Row(Row),
    /// The next colour clock of the line is this one.
    Beam(u8),
    /// An object is put to a pixel.
    Put(Object, u8),
    /// An object stands at a pixel.
    At(Object, u8),
    /// Each button is pressed or not.
    Fire(bool, bool),
    /// A frame begins.
    Frame,
    /// The pins of both ports.
    Pins(u8, u8),
}

impl Step {
    /// The step of a text; none where it is no step.
    pub(crate) fn parse(text: &str) -> Option<Step> {
        let (verb, rest) = text.split_once(' ').unwrap_or((text, ""));
        match verb {
            "write" => write(rest),
            "read" => read(rest),
            "clocks" => Some(Step::Clocks(count(rest)?)),
            "cycles" => Some(Step::Cycles(count(rest)?)),
            "row" => Some(Step::Row(parse_row(rest)?)),
            "beam" => Some(Step::Beam(place(rest)?)),
            "put" => {
                let (object, pixel) = object_and_pixel(rest)?;
                Some(Step::Put(object, pixel))
            }
            "at" => {
                let (object, pixel) = object_and_pixel(rest)?;
                Some(Step::At(object, pixel))
            }
            "fire" => fire(rest),
            "frame" if rest.is_empty() => Some(Step::Frame),
            "pins" => pins(rest),
            _ => None,
        }
    }

    /// Whether the step can find something else than it says.
    pub(crate) fn is_check(&self) -> bool {
        match self {
            Step::Write(_, _, effect) => *effect != Effect::Nothing,
            Step::Read(..) | Step::Row(_) | Step::Beam(_) | Step::At(..) => true,
            _ => false,
        }
    }
}

/// A byte of two hexadecimal digits.
pub(crate) fn byte(word: &str) -> Option<u8> {
    u8::from_str_radix(word, 16).ok()
}

/// A pixel or colour clock of a line.
pub(crate) fn place(word: &str) -> Option<u8> {
    word.parse().ok()
}

fn count(word: &str) -> Option<u16> {
    word.parse().ok()
}

/// A write as `COLUBK 1E`, `WSYNC 00 waits` or `VSYNC 00 ends the frame`.
fn write(text: &str) -> Option<Step> {
    let (address, rest) = text.split_once(' ')?;
    let (value, effect) = rest.split_once(' ').unwrap_or((rest, ""));
    let effect = match effect {
        "" => Effect::Nothing,
        "waits" => Effect::Sync,
        "ends the frame" => Effect::FrameEnd,
        _ => return None,
    };
    Some(Step::Write(address_of(address)?, byte(value)?, effect))
}

fn read(text: &str) -> Option<Step> {
    let (address, value) = text.split_once(' ')?;
    Some(Step::Read(address_of(address)?, byte(value)?))
}

fn object_and_pixel(text: &str) -> Option<(Object, u8)> {
    let (object, pixel) = text.split_once(' ')?;
    let object = match object {
        "P0" => Object::Player0,
        "P1" => Object::Player1,
        "M0" => Object::Missile0,
        "M1" => Object::Missile1,
        "BL" => Object::Ball,
        _ => return None,
    };
    Some((object, place(pixel)?))
}

fn fire(text: &str) -> Option<Step> {
    match text {
        "none" => Some(Step::Fire(false, false)),
        "0" => Some(Step::Fire(true, false)),
        "1" => Some(Step::Fire(false, true)),
        "both" => Some(Step::Fire(true, true)),
        _ => None,
    }
}

fn pins(text: &str) -> Option<Step> {
    let (a, b) = text.split_once(' ')?;
    Some(Step::Pins(byte(a)?, byte(b)?))
}
