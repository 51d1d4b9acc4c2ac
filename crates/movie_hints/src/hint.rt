//! What is wrong with bytes.
ghost use Rattle.std.specs.Prelude.{◌≡◌};

use crate::look::Look;
use crate::mismatch::{Expected, Field, Found, Mismatch, write_lengths};
use std::fmt;
use thiserror::Error;

/// What was expected of bytes and what they are, or what they look like. Places are counted from 0.
#[derive(Clone, Copy, Debug, Error)]
pub enum Hint {
    /// A file is too short for a header, which has so many bytes.
    InHeader {
        length: usize,
        header: usize,
    },
    Missing {
        missing: usize,
        said: usize,
        length: usize,
    },
    Extra {
        extra: usize,
        said: usize,
        length: usize,
    },
    Mismatch(Mismatch),
    Looks(Look),
    Text,
    LooksLikeCartridge,
    LooksLikeMovie,
    /// No cartridge has so many bytes.
    NoCartridge(usize),
    /// No cartridge on this board has.
    NoCartridgeOn {
        length: usize,
        board: &'static str,
        lengths: &'static [usize],
    },
    /// A ROM and inputs are exchanged, or a ROM is given as inputs, too.
    Exchanged,
    LooksLikeText,
    LooksLikeBytes,
    ByteOrderMark,
    Utf16,
    CarriageReturns,
    /// The bytes of inputs are so many more than a multiple of 3.
    OddLength {
        extra: usize,
        length: usize,
    },
    NoFrames,
    ManyFrames {
        frames: u64,
    },
    ManyCheckpoints {
        checkpoints: u64,
        every: u64,
    },
    HasFrames {
        frames: u32,
    },
    Holds {
        version: u16,
        frames: u32,
    },
    Unclaimed {
        first: u32,
        last: u32,
    },
}

impl Hint {
    ghost use Rattle.movie_hints.specs.Hints.{with_extra};

    /// A field that is not what was expected, and the byte where it begins.
    pub(crate) fn of_field(field: Field, byte: usize, expected: Expected, found: Found) -> Hint
        ensures { result ≡ Hint.Mismatch (record { field = field; byte = byte; expected = expected; found = found; extra = 0 }) }
    {
        Hint::Mismatch(Mismatch {
            field,
            byte,
            expected,
            found,
            extra: 0,
        })
    }

    /// The same of a field, with by how many bytes the file is longer than its header says.
    pub(crate) fn with_extra(self, extra: usize) -> Hint
        ensures { result ≡ with_extra extra self }
    {
        match self {
            Hint::Mismatch(mismatch) => Hint::Mismatch(Mismatch { extra, ..mismatch }),
            hint => hint,
        }
    }
}

impl fmt::Display for Hint {
    ghost use Rattle.std.specs.Prelude.{Some};
    ghost use Rattle.movie_hints.specs.HintTexts.{hint_text};

    ghost output = { λ hint. Some (hint_text hint) };

    fn fmt<W: fmt::Write>(&self, f: &mut fmt::Formatter<W>) -> fmt::Result {
        match *self {
            Hint::InHeader { length, header } => {
                write!(f, "has {length} bytes, and a header has {header}")
            }
            Hint::Missing {
                missing,
                said,
                length,
            } => write!(
                f,
                "{missing} bytes too few: its header says {said}, and it has {length}"
            ),
            Hint::Extra {
                extra,
                said,
                length,
            } => write!(
                f,
                "{extra} bytes too many: its header says {said}, and it has {length}"
            ),
            Hint::Mismatch(mismatch) => write!(f, "{mismatch}"),
            Hint::Looks(look) => write!(f, "looks like {look}"),
            Hint::Text => write!(f, "looks like text"),
            Hint::LooksLikeCartridge => {
                write!(f, "looks like a cartridge, of which make makes a movie")
            }
            Hint::LooksLikeMovie => write!(f, "looks like a movie"),
            Hint::NoCartridge(length) => {
                write!(
                    f,
                    "has {length} bytes, and by the guide's rules a cartridge has 2048, 4096 or 8192"
                )
            }
            Hint::NoCartridgeOn {
                length,
                board,
                lengths,
            } => {
                write!(
                    f,
                    "has {length} bytes, and a cartridge of board {board} has "
                )?;
                write_lengths(f, lengths)
            }
            Hint::Exchanged => write!(
                f,
                "has as many bytes as a cartridge, which comes first: make ROM INPUTS"
            ),
            Hint::LooksLikeText => write!(f, "looks like text, which is read with --text"),
            Hint::LooksLikeBytes => write!(f, "looks like bytes, which are read without --text"),
            Hint::ByteOrderMark => {
                write!(f, "begins with a byte order mark: save it without one")
            }
            Hint::Utf16 => write!(f, "looks like UTF-16: save it as UTF-8"),
            Hint::CarriageReturns => write!(
                f,
                "has carriage returns alone as line ends: save it with line feeds"
            ),
            Hint::OddLength { extra, length } => {
                write!(
                    f,
                    "{extra} bytes too many: has {length}, and an input has 3"
                )
            }
            Hint::NoFrames => write!(f, "no frames"),
            Hint::ManyFrames { frames } => write!(f, "{frames} frames, at most 262143"),
            Hint::ManyCheckpoints { checkpoints, every } => write!(
                f,
                "{checkpoints} checkpoints, at most 4095: --every {every} or more"
            ),
            Hint::HasFrames { frames } => write!(f, "has {frames} frames"),
            Hint::Holds { version, frames } => {
                write!(f, "has version {version} and {frames} frames")
            }
            Hint::Unclaimed { first, last } => {
                write!(f, "no checkpoint after frames {first} to {last}")
            }
        }
    }
}
