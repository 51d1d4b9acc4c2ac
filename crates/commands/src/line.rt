//! The lines that commands write.
ghost use Rattle.std.specs.Prelude.{◌≡◌, IfOk, string_bytes};
ghost use Rattle.commands.specs.Lines.{line_bytes, status_of};
ghost use Rattle.commands.specs.Verify.{verdict_line};

use crate::status::Status;
use frame_text::FrameLength;
use movie_file::{Movie, MovieError};
use replay_segments::Verdict;
use std::alloc::{AllocError, Global};
use std::fmt;
use vcs_machine::FaultKind;

/// A line of output, without its end.
#[derive(Clone, Copy)]
pub enum Line {
    Genuine { frames: u32, checkpoints: u16 },
    FalseCheckpoint { number: u16, frame: u32 },
    Fault { frame: u32, kind: FaultKind },
    Refused(MovieError),
    /// The line of this number, from 1, is the first of a text of inputs that can't be read, or
    /// with which there are too many frames.
    BadLine(u64),
    Made { frames: u32, checkpoints: u16 },
    Converted { frames: u32, checkpoints: u16 },
    /// A movie of version 2 is not converted.
    AlreadyTwo,
    /// Nor is one of version 3.
    AlreadyThree,
    /// A cartridge of so many bytes was written.
    Cartridge { bytes: u32 },
    Cut { frames: u32, checkpoints: u16 },
    /// The pictures of so many frames were written.
    Pictures { frames: u32 },
    /// How many cycles a frame took, and how many rows its picture has.
    Frame { frame: u32, cycles: u32, rows: u16 },
    /// The movie has fewer frames than this.
    NoFrame(u32),
}

/// How many frames and checkpoints a movie has, in words.
#[derive(Clone, Copy)]
pub(crate) struct Counts(pub u32, pub u16);

impl fmt::Display for Counts {
    ghost use Rattle.std.specs.Prelude.{Some};
    ghost use Rattle.commands.specs.Lines.{counts_text};

    ghost output = { λ c. Some (counts_text c.0 c.1) };

    fn fmt<W: fmt::Write>(&self, f: &mut fmt::Formatter<W>) -> fmt::Result {
        let Counts(frames, checkpoints) = *self;
        write!(f, "{frames} frames, {checkpoints} checkpoints")
    }
}

/// The bytes of a movie's cartridge and its counts, in words.
#[derive(Clone, Copy)]
pub(crate) struct Contents(pub u32, pub Counts);

impl fmt::Display for Contents {
    ghost use Rattle.std.specs.Prelude.{Some};
    ghost use Rattle.commands.specs.Lines.{contents_text};

    ghost output = { λ c. Some (contents_text c.0 c.1.0 c.1.1) };

    fn fmt<W: fmt::Write>(&self, f: &mut fmt::Formatter<W>) -> fmt::Result {
        let Contents(cartridge, counts) = *self;
        write!(f, "cartridge {cartridge}, {counts}")
    }
}

impl Line {
    /// Its text with its end.
    pub fn text(self, alloc: Global) -> Result<String, AllocError>
        ensures { IfOk result (λ text. string_bytes text ≡ line_bytes self) }
    {
        format!(in alloc; "{self}\n")
    }

    /// How a run ended whose last line this is.
    pub fn status(self) -> Status
        ensures { result ≡ status_of self }
    {
        match self {
            Line::FalseCheckpoint { .. } => Status::False,
            Line::Fault { .. } => Status::Fault,
            Line::Refused(_) | Line::BadLine(_) | Line::NoFrame(_) => Status::Refused,
            Line::AlreadyTwo | Line::AlreadyThree => Status::Refused,
            _ => Status::Done,
        }
    }

    /// The line of a movie with this verdict.
    pub(crate) fn of_verdict(movie: &Movie, verdict: &Verdict) -> Line
        ensures { result ≡ verdict_line movie.now verdict.now }
    {
        match *verdict {
            Verdict::Genuine { .. } => {
                let frames = movie.frames();
                let checkpoints = movie.checkpoints();
                Line::Genuine {
                    frames,
                    checkpoints,
                }
            }
            Verdict::FalseCheckpoint { number, frame } => Line::FalseCheckpoint { number, frame },
            Verdict::Fault { frame, kind } => Line::Fault { frame, kind },
        }
    }
}

impl fmt::Display for Line {
    ghost use Rattle.std.specs.Prelude.{Some};
    ghost use Rattle.commands.specs.Lines.{line_text};

    ghost output = { λ line. Some (line_text line) };

    fn fmt<W: fmt::Write>(&self, f: &mut fmt::Formatter<W>) -> fmt::Result {
        match *self {
            Line::Genuine {
                frames,
                checkpoints,
            } => write!(f, "genuine: {}", Counts(frames, checkpoints)),
            Line::FalseCheckpoint { number, frame } => {
                write!(f, "false checkpoint {number} at frame {frame}")
            }
            Line::Fault { frame, kind } => write!(f, "fault at frame {frame}: {kind}"),
            Line::Refused(error) => write!(f, "refused: {error}"),
            Line::BadLine(number) => write!(f, "refused: BadLine {number}"),
            Line::Made {
                frames,
                checkpoints,
            } => write!(f, "made: {}", Counts(frames, checkpoints)),
            Line::Converted {
                frames,
                checkpoints,
            } => write!(f, "converted: {}", Counts(frames, checkpoints)),
            Line::AlreadyTwo => write!(f, "refused: AlreadyTwo"),
            Line::AlreadyThree => write!(f, "refused: AlreadyThree"),
            Line::Cartridge { bytes } => write!(f, "cartridge: {bytes} bytes"),
            Line::Cut {
                frames,
                checkpoints,
            } => write!(f, "cut: {}", Counts(frames, checkpoints)),
            Line::Pictures { frames } => write!(f, "pictures: {frames} frames"),
            Line::Frame {
                frame,
                cycles,
                rows,
            } => write!(
                f,
                "{}",
                FrameLength {
                    frame,
                    cycles,
                    rows
                }
            ),
            Line::NoFrame(frame) => write!(f, "refused: NoFrame {frame}"),
        }
    }
}
