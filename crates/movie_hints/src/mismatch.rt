//! A field of a file that is not what was expected.
ghost use Rattle.std.specs.Fmt.{WritesOnOk};
ghost use Rattle.movie_hints.specs.HintTexts.{lengths_text};

use crate::fit::Fit;
use std::fmt;
use vcs_machine::{HexByte, HexWord};

/// Which field of a file.
#[derive(Clone, Copy, Debug)]
pub enum Field {
    Magic,
    Version,
    Board,
    CartridgeLength,
    Frames,
    Checkpoints,
    /// The frame of a checkpoint.
    FrameNumber,
    /// A field of an input or of a state record, by its name, which has no quotation mark, backslash
    /// or control character.
    Named(&'static str),
}

/// What was expected of a field.
#[derive(Clone, Copy, Debug)]
pub enum Expected {
    Magic,
    Version,
    Board,
    CartridgeLength,
    /// One of the lengths of a cartridge on a board.
    LengthOn {
        board: &'static str,
        lengths: &'static [usize],
    },
    Frames {
        most: u32,
    },
    Checkpoints,
    NoBitOutside {
        mask: u8,
    },
    AtMost {
        most: u8,
    },
    OneTo {
        most: u16,
    },
    NoLatches,
    OneBank,
    Fit(Fit),
    /// The bits of the switches that are always set.
    SetBits,
    /// No bit but those of the two buttons.
    ButtonBits,
    FrameAfter {
        before: u32,
        last: u32,
    },
}

/// What a field is: a number of one, two or four bytes, or the bits of one or four.
#[derive(Clone, Copy, Debug)]
pub enum Found {
    Byte(u8),
    TwoBytes(u16),
    FourBytes(u32),
    Bits(u8),
    Mark(u32),
}

/// A field that is not what was expected, and the byte where it begins, counted from 0.
#[derive(Clone, Copy, Debug)]
pub struct Mismatch {
    pub field: Field,
    pub byte: usize,
    pub expected: Expected,
    pub found: Found,
    /// By how many bytes the file is longer than its header says; 0 if it isn't, or if that isn't known.
    pub extra: usize,
}

impl fmt::Display for Field {
    ghost use Rattle.std.specs.Prelude.{Some};
    ghost use Rattle.movie_hints.specs.HintTexts.{field_text};

    ghost output = { λ field. Some (field_text field) };

    fn fmt<W: fmt::Write>(&self, f: &mut fmt::Formatter<W>) -> fmt::Result {
        match *self {
            Field::Magic => write!(f, "magic"),
            Field::Version => write!(f, "version"),
            Field::Board => write!(f, "board"),
            Field::CartridgeLength => write!(f, "cartridge length"),
            Field::Frames => write!(f, "frames"),
            Field::Checkpoints => write!(f, "checkpoints"),
            Field::FrameNumber => write!(f, "frame number"),
            Field::Named(name) => write!(f, "{name}"),
        }
    }
}

/// Writes some lengths, with "or" before the last.
pub(crate) fn write_lengths<W: fmt::Write>(
    f: &mut fmt::Formatter<W>,
    lengths: &[usize],
) -> fmt::Result
    ensures { WritesOnOk W.write_str_gives f.old result (lengths_text lengths.now) f.new }
{
    let count = lengths.len();
    for i in 0..count {
        let before = if i == 0 {
            ""
        } else if i + 1 < count {
            ", "
        } else {
            " or "
        };
        write!(f, "{before}{}", lengths[i])?;
    }
    Ok(())
}

impl fmt::Display for Expected {
    ghost use Rattle.std.specs.Prelude.{Some};
    ghost use Rattle.movie_hints.specs.HintTexts.{expected_text};

    ghost output = { λ expected. Some (expected_text expected) };

    fn fmt<W: fmt::Write>(&self, f: &mut fmt::Formatter<W>) -> fmt::Result {
        match *self {
            Expected::Magic => write!(f, "4132364D"),
            Expected::Version => write!(f, "version 1, 2 or 3"),
            Expected::Board => write!(f, "the code of a board, 0 to 17"),
            Expected::CartridgeLength => write!(
                f,
                "a cartridge of 2048 or 4096 bytes, in version 2 also 8192"
            ),
            Expected::LengthOn { board, lengths } => {
                write!(f, "a cartridge of board {board}, of ")?;
                write_lengths(f, lengths)?;
                write!(f, " bytes")
            }
            Expected::Frames { most } => write!(f, "1 to {most} frames"),
            Expected::Checkpoints => write!(f, "at most 4095 checkpoints"),
            Expected::NoBitOutside { mask } => write!(f, "no bit outside of {}", HexByte(mask)),
            Expected::AtMost { most } => write!(f, "at most {most}"),
            Expected::OneTo { most } => write!(f, "1 to {most}"),
            Expected::NoLatches => write!(f, "0, as VBLANK has no bit 6"),
            Expected::OneBank => write!(f, "0, as the cartridge has one bank"),
            Expected::Fit(fit) => write!(f, "{fit}"),
            Expected::SetBits => write!(f, "bits 2, 4 and 5"),
            Expected::ButtonBits => write!(f, "no bit outside of 03"),
            Expected::FrameAfter { before, last } => {
                write!(f, "a frame after {before} and up to {last}")
            }
        }
    }
}

impl fmt::Display for Found {
    ghost use Rattle.std.specs.Prelude.{Some};
    ghost use Rattle.movie_hints.specs.HintTexts.{found_text};

    ghost output = { λ found. Some (found_text found) };

    fn fmt<W: fmt::Write>(&self, f: &mut fmt::Formatter<W>) -> fmt::Result {
        match *self {
            Found::Byte(found) => write!(f, "{found}"),
            Found::TwoBytes(found) => write!(f, "{found}"),
            Found::FourBytes(found) => write!(f, "{found}"),
            Found::Bits(found) => write!(f, "{}", HexByte(found)),
            Found::Mark(found) => {
                let high = HexWord((found / 0x1_0000) as u16);
                let low = HexWord((found % 0x1_0000) as u16);
                write!(f, "{high}{low}")
            }
        }
    }
}

/// The field and its byte: fields of a header and the frame of a checkpoint go by the byte alone.
#[derive(Clone, Copy)]
struct Place(Field, usize);

impl fmt::Display for Place {
    ghost use Rattle.std.specs.Prelude.{Some};
    ghost use Rattle.movie_hints.specs.HintTexts.{place_text};

    ghost output = { λ place. Some (place_text place.0 place.1) };

    fn fmt<W: fmt::Write>(&self, f: &mut fmt::Formatter<W>) -> fmt::Result {
        let Place(field, byte) = *self;
        match field {
            Field::Named(name) => write!(f, "{name} at byte {byte}"),
            _ => write!(f, "byte {byte}"),
        }
    }
}

/// By how many bytes a file is longer than its header says, if it is.
#[derive(Clone, Copy)]
struct Extra(usize);

impl fmt::Display for Extra {
    ghost use Rattle.std.specs.Prelude.{Some};
    ghost use Rattle.movie_hints.specs.HintTexts.{extra_text};

    ghost output = { λ extra. Some (extra_text extra.0) };

    fn fmt<W: fmt::Write>(&self, f: &mut fmt::Formatter<W>) -> fmt::Result {
        let extra = self.0;
        if extra == 0 {
            return Ok(());
        }
        write!(f, "; the file is {extra} bytes longer than its header says")
    }
}

impl fmt::Display for Mismatch {
    ghost use Rattle.std.specs.Prelude.{Some};
    ghost use Rattle.movie_hints.specs.HintTexts.{mismatch_text};

    ghost output = { λ mismatch. Some (mismatch_text mismatch) };

    fn fmt<W: fmt::Write>(&self, f: &mut fmt::Formatter<W>) -> fmt::Result {
        let Mismatch {
            field,
            byte,
            expected,
            found,
            extra,
        } = *self;
        let place = Place(field, byte);
        let extra = Extra(extra);
        write!(f, "{place}: expected {expected}, found {found}{extra}")
    }
}
