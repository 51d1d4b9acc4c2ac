//! The table of the commands and their arguments, with what help says of each: a command or an option
//! begins here. Of it `ci/command-table` prints the rows of the definitions, help, completions and pages.
ghost use Rattle.std.specs.Prelude.{◌≡◌, map};
ghost use Rattle.command_line.specs.Rows.{listed_of};
ghost use Rattle.command_line.specs.Table.{commands, is_command};

use replay_plan::{MOST_KEPT, MOST_WORKERS};

/// What an argument is.
#[derive(Clone, Copy)]
pub(crate) enum Kind {
    /// A word that stands by its place and has to be there.
    Operand,
    /// An option without a word.
    Switch,
    /// An option with a word.
    Word,
    /// The same if it has to be there.
    NeededWord,
    /// The same if it may be there more than once.
    RepeatedWord,
    /// An option with a number from `least` to `most`, and the text that stands for it if it isn't there.
    Number {
        least: u32,
        most: u32,
        default: &'static str,
    },
    /// The same if it has to be there.
    NeededNumber {
        least: u32,
        most: u32,
    },
}

/// An argument.
#[derive(Clone, Copy)]
pub(crate) struct Argument {
    pub(crate) name: &'static str,
    /// How help calls its word, if it has one.
    pub(crate) value: &'static str,
    pub(crate) kind: Kind,
    pub(crate) help: &'static str,
}

/// A command.
#[derive(Clone, Copy)]
pub(crate) struct Listed {
    pub(crate) name: &'static str,
    pub(crate) about: &'static str,
    /// In the order of help, but for the option that all commands have.
    pub(crate) arguments: &'static [Argument],
}

/// What help says of the program.
pub(crate) const ABOUT: &str = "Judge movies of the Atari 2600";

/// What help says at its end.
pub(crate) const MORE: &str = "Without arguments, vcs_check judges the movie on standard input.

Status:
  0  done: the movie is genuine, or the command did what it says
  1  a checkpoint of the movie is false
  2  a frame faults
  3  refused: the file is no movie, or no movie can be made
  4  the arguments are no command
  5  an error of files, memory or threads, printed on standard error
  6  report: the movie is genuine, but not as expected

Examples:
  vcs_check verify run.a26m --workers 4
  vcs_check verify run.a26m --first 90 --count 1 --pictures frame90.ppm
  gunzip < run.a26m.gz | vcs_check verify -
  vcs_check make game.rom play.txt --text --every 60 --out run.a26m";

/// The movie that a command is about.
const FILE: Argument = Argument {
    name: "file",
    value: "FILE",
    kind: Kind::Operand,
    help: "The movie; - is standard input",
};

/// How many workers judge it.
const WORKERS: Argument = Argument {
    name: "workers",
    value: "N",
    kind: Kind::Number {
        least: 1,
        most: MOST_WORKERS as u32,
        default: "1",
    },
    help: "How many threads replay the movie, 1 to 64",
};

/// At every so many checkpoints the movie is cut.
const CUTS: Argument = Argument {
    name: "every",
    value: "N",
    kind: Kind::Number {
        least: 1,
        most: 65535,
        default: "1",
    },
    help: "Cut the movie at every N-th checkpoint, 1 to 65535",
};

/// After every so many frames a movie that is made claims the state.
const CHECKPOINTS: Argument = Argument {
    name: "every",
    value: "N",
    kind: Kind::NeededNumber {
        least: 1,
        most: u32::MAX,
    },
    help: "Claim the state after every N frames, 1 to 4294967295",
};

/// The cartridge that a movie is expected to have.
const EXPECTED_ROM: Argument = Argument {
    name: "rom",
    value: "ROM",
    kind: Kind::Word,
    help: "Say whether the movie's cartridge is this file, and in which bytes it differs",
};

/// The first of the frames that a command takes, if it takes all of the movie unasked.
const FIRST: Argument = Argument {
    name: "first",
    value: "F",
    kind: Kind::Number {
        least: 1,
        most: u32::MAX,
        default: "1",
    },
    help: "The first frame, from 1",
};

/// How many frames it takes.
const ASKED: Argument = Argument {
    name: "count",
    value: "N",
    kind: Kind::Number {
        least: 0,
        most: u32::MAX,
        default: "4294967295",
    },
    help: "How many frames, as many as the movie has, 0 to 4294967295",
};

/// That JSON is written in place of lines, by a command that writes one answer.
const JSON: Argument = Argument {
    name: "json",
    value: "",
    kind: Kind::Switch,
    help: "Write one object of JSON in place of lines",
};

/// That reasons are wanted: an option of every command, and one that may stand before its name.
pub(crate) static EXPLAIN: Argument = Argument {
    name: "explain",
    value: "",
    kind: Kind::Switch,
    help: "Say why something is refused or fails, also where standard error is no terminal",
};

/// The commands, equal to the list of the definitions.
static COMMANDS: [Listed; 12] = [
    Listed {
        name: "verify",
        about: "Judge a movie: genuine, its first false checkpoint, or its fault",
        arguments: &[
            FILE,
            WORKERS,
            CUTS,
            Argument {
                name: "first",
                value: "N",
                kind: Kind::Number {
                    least: 1,
                    most: u32::MAX,
                    default: "1",
                },
                help: "The first frame whose picture is written, from 1; ignored without --pictures",
            },
            Argument {
                name: "count",
                value: "N",
                kind: Kind::Number {
                    least: 0,
                    most: MOST_KEPT,
                    default: "600",
                },
                help: "Of how many frames pictures are written, 0 to 600; ignored without --pictures",
            },
            Argument {
                name: "pictures",
                value: "FILE",
                kind: Kind::Word,
                help: "Write the pictures of a genuine movie to this file, as portable pixmaps (PPM); - is standard output",
            },
            JSON,
        ],
    },
    Listed {
        name: "report",
        about: "Judge a movie, and say what a judge asks next",
        arguments: &[
            FILE,
            WORKERS,
            EXPECTED_ROM,
            Argument {
                name: "sha256",
                value: "DIGEST",
                kind: Kind::Word,
                help: "Say whether the movie's cartridge has this SHA-256, 64 hexadecimal digits",
            },
            Argument {
                name: "power-on",
                value: "",
                kind: Kind::Switch,
                help: "Say whether the movie starts at power-on",
            },
            Argument {
                name: "to-the-end",
                value: "",
                kind: Kind::Switch,
                help: "Say whether a checkpoint stands after the movie's last frame",
            },
            JSON,
        ],
    },
    Listed {
        name: "make",
        about: "Make a movie of a cartridge and the inputs of its frames, from power-on",
        arguments: &[
            Argument {
                name: "rom",
                value: "ROM",
                kind: Kind::Operand,
                help: "The cartridge, of 2048, 4096 or 8192 bytes, or with --board as the board has; - is standard input",
            },
            Argument {
                name: "inputs",
                value: "INPUTS",
                kind: Kind::Operand,
                help: "Three bytes a frame: SWCHA, SWCHB, buttons; with --text lines of text; - is standard input",
            },
            Argument {
                name: "text",
                value: "",
                kind: Kind::Switch,
                help: "INPUTS is text: how many frames and what is held, a line for each stretch",
            },
            CHECKPOINTS,
            Argument {
                name: "to-the-end",
                value: "",
                kind: Kind::Switch,
                help: "Claim the state after the last frame too",
            },
            Argument {
                name: "to-the-fault",
                value: "",
                kind: Kind::Switch,
                help: "If a frame faults, make the movie that ends with it",
            },
            Argument {
                name: "board",
                value: "NAME",
                kind: Kind::Word,
                help: "Make a movie of version 3, by the chip's rules, of a cartridge on this board, as F8SC",
            },
            Argument {
                name: "out",
                value: "MOVIE",
                kind: Kind::NeededWord,
                help: "The movie that is made; - is standard output",
            },
        ],
    },
    Listed {
        name: "info",
        about: "Say what a movie holds",
        arguments: &[FILE, JSON],
    },
    Listed {
        name: "claims",
        about: "Print the state that each checkpoint of a movie claims",
        arguments: &[
            FILE,
            Argument {
                name: "json",
                value: "",
                kind: Kind::Switch,
                help: "Write an object of JSON for each checkpoint in place of lines",
            },
        ],
    },
    Listed {
        name: "inputs",
        about: "Print the inputs of a movie as text, which make --text reads",
        arguments: &[
            FILE,
            Argument {
                name: "numbers",
                value: "",
                kind: Kind::Switch,
                help: "Begin each line with the number of its first frame; make --text doesn't read it",
            },
            FIRST,
            ASKED,
        ],
    },
    Listed {
        name: "cartridge",
        about: "Write the cartridge of a movie",
        arguments: &[
            FILE,
            Argument {
                name: "out",
                value: "ROM",
                kind: Kind::NeededWord,
                help: "The cartridge, lowest address first, which is written; - is standard output",
            },
        ],
    },
    Listed {
        name: "convert",
        about: "Write a movie of version 1 again in version 2",
        arguments: &[
            Argument {
                name: "old",
                value: "OLD",
                kind: Kind::Operand,
                help: "The movie of version 1; - is standard input",
            },
            Argument {
                name: "new",
                value: "NEW",
                kind: Kind::Operand,
                help: "The movie in version 2, which is written; - is standard output",
            },
        ],
    },
    Listed {
        name: "frames",
        about: "Say how long frames were, and where checkpoints are false, line by line",
        arguments: &[
            FILE,
            FIRST,
            ASKED,
            Argument {
                name: "watch",
                value: "AA",
                kind: Kind::RepeatedWord,
                help: "Show the byte at address AA of the memory, 80 to FF or '$80' to '$FF'; at most 16 times",
            },
            Argument {
                name: "memory",
                value: "",
                kind: Kind::Switch,
                help: "Show all 128 bytes of the memory, those at 80 to FF",
            },
            Argument {
                name: "digests",
                value: "",
                kind: Kind::Switch,
                help: "Show the SHA-256 of the state's record and of the picture's file",
            },
            Argument {
                name: "json",
                value: "",
                kind: Kind::Switch,
                help: "Write an object of JSON in place of each line",
            },
        ],
    },
    Listed {
        name: "pictures",
        about: "Write the pictures of frames, whatever the movie claims",
        arguments: &[
            FILE,
            Argument {
                name: "out",
                value: "PPM",
                kind: Kind::NeededWord,
                help: "The pictures, which are written as portable pixmaps (PPM); - is standard output",
            },
            FIRST,
            ASKED,
        ],
    },
    Listed {
        name: "cut",
        about: "Write frames of a movie as a movie of its own",
        arguments: &[
            FILE,
            Argument {
                name: "every",
                value: "E",
                kind: Kind::NeededNumber {
                    least: 1,
                    most: u32::MAX,
                },
                help: "Claim the state after every E of the frames, 1 to 4294967295",
            },
            Argument {
                name: "out",
                value: "NEW",
                kind: Kind::NeededWord,
                help: "The movie of those frames, which is written; - is standard output",
            },
            FIRST,
            ASKED,
        ],
    },
    Listed {
        name: "trace",
        about: "Print each instruction of a frame, line by line",
        arguments: &[
            FILE,
            Argument {
                name: "frame",
                value: "K",
                kind: Kind::NeededNumber {
                    least: 1,
                    most: u32::MAX,
                },
                help: "The frame, 1 to 4294967295",
            },
        ],
    },
];

impl Listed {
    /// All commands, in the order of help.
    pub(crate) fn all() -> &'static [Listed]
        ensures { map listed_of result.now ≡ commands }
    {
        &COMMANDS
    }
}

/// Whether the table has a command of this name. `help` isn't one of them.
pub fn is_command(name: &str) -> bool
    ensures { result ≡ is_command name.now }
{
    Listed::all().iter().any(|listed| listed.name == name)
}
