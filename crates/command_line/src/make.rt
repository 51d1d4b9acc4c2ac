//! What `make` is asked for, of its arguments.
ghost use Rattle.std.specs.Prelude.{◌≡◌, ◌↔◌, IfErr, IfOk, Some, codes, string_bytes, true};
ghost use Rattle.clap.specs.Words.{first_of, found_of, one_of, rows_of};
ghost use Rattle.command_line.specs.Faults.{IsNoMaking, UnlessRefused, board_mistake};
ghost use Rattle.command_line.specs.Meanings.{IsLineAt, IsMaking, IsOn};
ghost use Rattle.command_line.specs.Named.{named_row};
ghost use Rattle.command_line.specs.Private.Numbers.{HasNumbers, IsNumberIn};
ghost use Rattle.command_line.specs.Table.{board_row, checkpoints_row, make_listed, text_row};
ghost use Rattle.replay_plan.specs.declared.input_form.InputForm.TheVariants.{Text};

use crate::command::{Command, CommandLine, LineFault};
use crate::line::{is_given, number_from_one, text_of};
use crate::named_board::NamedBoard;
use cart_board::{Board, KnownBoard};
use clap::ArgMatches;
use clap::error::ErrorKind;
use refused::Refused;
use replay_plan::InputForm;
use std::alloc::{AllocError, Global};
use std::num::NonZeroU32;

/// Of which frames a movie that is made claims the state, and whether it may end with a fault.
#[derive(Clone, Copy, Debug, PartialEq, Eq)]
pub struct Making {
    /// After every so many frames a checkpoint stands.
    pub every: NonZeroU32,
    /// Whether one stands after the last frame too.
    pub to_the_end: bool,
    /// Whether a run that faults makes a movie too: the one up to its fault, which its last frame has.
    pub to_the_fault: bool,
}

/// The form of the inputs: text if that is asked for, and else bytes.
fn form_of(matches: &ArgMatches<'_>) -> InputForm
    ensures { (result ≡ Text)
        ↔ (one_of text_row.name (rows_of (found_of matches.now)) ≡ Some (codes "true")) }
{
    if is_given(matches, "text") {
        InputForm::Text
    } else {
        InputForm::Bytes
    }
}

/// Of which frames a movie that is made claims the state, and whether it may end with a fault.
fn making_of(matches: &ArgMatches<'_>) -> Making
    requires { IsNumberIn 1 4294967295 (one_of checkpoints_row.name (rows_of (found_of matches.now))) }
    ensures { IsMaking (rows_of (found_of matches.now)) result }
{
    Making {
        every: number_from_one(matches, "every"),
        to_the_end: is_given(matches, "to-the-end"),
        to_the_fault: is_given(matches, "to-the-fault"),
    }
}

/// What is said of a word that names no board.
fn told_board(alloc: Global, word: &str) -> Result<String, AllocError>
    ensures { IfOk result (λ text. string_bytes text ≡ board_mistake word.now) }
{
    let mut names = String::new(alloc);
    for board in Board::all() {
        names.push_str(" ")?;
        names.push_str(board.name)?;
    }
    format!(in alloc; "error: invalid value '{word}' for '--board <NAME>': the boards are{names}\n")
}

/// The board of the cartridge, if one is asked for.
#[tactic(auto, using(crate::proofs::ClapGetters::word_read))]
fn board_of(
    alloc: Global,
    matches: &ArgMatches<'_>,
) -> Result<Option<NamedBoard>, Refused<LineFault>>
    ensures ok { IfOk result (λ board. IsOn (first_of board_row.name (rows_of (found_of matches.now)))
        (named_row board)) }
    ensures err { IfErr result (UnlessRefused (IsNoMaking (rows_of (found_of matches.now)))) }
{
    let Some(word) = matches.get_str("board") else {
        return Ok(None);
    };
    match KnownBoard::of_name(word) {
        Some(known) => Ok(Some(NamedBoard::of(known))),
        None => Err(Refused::Of(LineFault::Usage {
            kind: ErrorKind::ValueValidation,
            text: told_board(alloc, word)?,
        })),
    }
}

/// `make`, whose files are three.
pub(crate) fn make_of(
    alloc: Global,
    matches: &ArgMatches<'_>,
) -> Result<CommandLine, Refused<LineFault>>
    requires { HasNumbers make_listed (rows_of (found_of matches.now)) }
    ensures ok { IfOk result (IsLineAt (codes "make") (rows_of (found_of matches.now))) }
    ensures err { IfErr result (UnlessRefused (IsNoMaking (rows_of (found_of matches.now)))) }
{
    let command = Command::Make {
        form: form_of(matches),
        making: making_of(matches),
        board: board_of(alloc, matches)?,
    };
    let rom = text_of(alloc, matches, "rom")?;
    Ok(CommandLine {
        second: Some(text_of(alloc, matches, "inputs")?),
        output: Some(text_of(alloc, matches, "out")?),
        ..CommandLine::of(command, rom)
    })
}
