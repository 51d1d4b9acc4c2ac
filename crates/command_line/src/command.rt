//! What a command line asks for.
ghost use Rattle.std.specs.Prelude.{◌≡◌};

use crate::inputs::Listing;
use crate::make::Making;
use crate::named_board::NamedBoard;
use clap::error::ErrorKind;
use replay_plan::{Details, Expectations, InputForm, Keep, Notation, Workers};
use std::num::{NonZeroU16, NonZeroU32};

/// What is asked for. Each command but `Make` asks about a movie.
#[derive(Debug, Drop)]
pub enum Command {
    /// Judge it, and write the pictures of the frames that are kept.
    Verify {
        /// It is cut at every so many checkpoints.
        every: NonZeroU16,
        /// If no file takes pictures none is kept.
        keep: Keep,
    },
    /// Judge it, say facts about it, and whether it is what is expected.
    Report {
        /// What is expected beside a cartridge.
        expectations: Expectations,
    },
    /// Make a movie of a cartridge and the inputs of its frames.
    Make {
        /// The form of the inputs.
        form: InputForm,
        making: Making,
        /// The board of the cartridge, by which the movie has version 3.
        board: Option<NamedBoard>,
    },
    /// Say what it holds.
    Info,
    /// Print the states that it claims.
    Claims,
    /// Print the inputs of some of its frames as text.
    Inputs(Listing),
    /// Write its cartridge.
    Cartridge,
    /// Convert it to version 2.
    Convert,
    /// Say of some of its frames how long they were, and where its checkpoints are false.
    Frames {
        /// The first of the frames, counted from 1.
        first: NonZeroU32,
        /// How many they are; the movie may have fewer.
        count: u32,
        /// What else the line about each says.
        details: Details,
    },
    /// Write the pictures of some of its frames.
    Pictures {
        /// The first of the frames, counted from 1.
        first: NonZeroU32,
        /// How many they are; the movie may have fewer.
        count: u32,
    },
    /// Write some of its frames as a movie of its own.
    Cut {
        /// The first of the frames, counted from 1.
        first: NonZeroU32,
        /// How many they are; the movie may have fewer.
        count: u32,
        /// A checkpoint after every so many of them.
        every: NonZeroU32,
    },
    /// Print each instruction of one of its frames, whatever it claims.
    Trace {
        /// The frame, counted from 1.
        frame: NonZeroU32,
    },
}

/// How the answer of a command is written.
#[derive(Clone, Copy, Debug, PartialEq, Eq)]
pub enum Writing {
    /// What the file gets, if it gets anything, and then the text, once both are known.
    FileFirst,
    /// The text, and then the pictures that the file gets, once both are known.
    TextFirst,
    /// The text, while a run goes on.
    GradualText,
    /// The pictures that the file gets, while a run goes on, and then the text.
    GradualPictures,
}

impl Command {
    ghost use Rattle.command_line.specs.Writing.{writing_of};

    /// How its answer is written.
    pub fn writing(&self) -> Writing
        ensures { result ≡ writing_of self.now }
    {
        match self {
            Command::Verify { .. } => Writing::TextFirst,
            Command::Frames { .. } | Command::Trace { .. } => Writing::GradualText,
            Command::Pictures { .. } => Writing::GradualPictures,
            _ => Writing::FileFirst,
        }
    }
}

/// A command, and the files that it is about.
#[derive(Debug, Drop)]
pub struct CommandLine {
    pub command: Command,
    /// The movie; of `make` the cartridge.
    pub input: String,
    /// The inputs of `make`; the cartridge that a report expects, if one is named.
    pub second: Option<String>,
    /// The file that takes a movie that is made, a cartridge, or pictures.
    pub output: Option<String>,
    pub notation: Notation,
    /// How many threads judge the movie.
    pub workers: Workers,
    /// Whether reasons are written whatever standard error is. Else a terminal alone gets them.
    pub explain: bool,
}

impl CommandLine {
    ghost use Rattle.std.specs.Prelude.{None, false};
    ghost use Rattle.replay_plan.specs.declared.notation.Notation.TheVariants.{Lines};

    /// The command with this input alone. It writes lines, by one worker, and no reasons unasked.
    pub fn of(command: Command, input: String) -> CommandLine
        ensures command { result.command ≡ command }
        ensures input { result.input ≡ input }
        ensures second { result.second ≡ None }
        ensures output { result.output ≡ None }
        ensures notation { result.notation ≡ Lines }
        ensures workers { result.workers.number ≡ 1 }
        ensures explain { result.explain ≡ false }
    {
        CommandLine {
            command,
            input,
            second: None,
            output: None,
            notation: Notation::Lines,
            workers: Workers::ONE,
            explain: false,
        }
    }
}

/// Why there is no command.
#[derive(Debug, Drop)]
pub enum LineFault {
    /// The words are no command.
    Usage {
        /// The kind of mistake; `ValueValidation` where an address, a digest or a board is none, or
        /// addresses are too many.
        kind: ErrorKind,
        /// Why they are none.
        text: String,
    },
    /// The words ask for help, or for the version; the text is that.
    Help {
        text: String,
    },
}
