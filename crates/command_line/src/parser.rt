//! The commands of the program, as `clap` knows them.
ghost use Rattle.std.specs.Prelude.{IfOk};
ghost use Rattle.command_line.specs.Private.Numbers.{AreOrdered, IsOrdered};
ghost use Rattle.command_line.specs.Rows.{argument_of, listed_of};
ghost use Rattle.command_line.specs.Table.{IsApp, IsListed, IsRow, program_app};

use crate::arguments::{needed_number, needed_word, number, operand, repeated_word, switch, word};
use crate::table::{ABOUT, Argument, EXPLAIN, Kind, Listed, MORE};
use crate::version::{VERSION, VERSIONS};
use clap::{Arg, Command};
use std::alloc::{AllocError, Global};

/// The argument of a row.
fn argument<'a>(alloc: Global, row: &'static Argument) -> Arg<'a>
    requires { IsOrdered (argument_of row.now).kind }
    ensures { IsRow (argument_of row.now) result }
{
    let Argument {
        name,
        value,
        kind,
        help,
    } = *row;
    match kind {
        Kind::Operand => operand(alloc, name, value, help),
        Kind::Switch => switch(alloc, name, help),
        Kind::Word => word(alloc, name, value, help),
        Kind::NeededWord => needed_word(alloc, name, value, help),
        Kind::RepeatedWord => repeated_word(alloc, name, value, help),
        Kind::Number {
            least,
            most,
            default,
        } => number(alloc, name, value, least, most, default, help),
        Kind::NeededNumber { least, most } => {
            needed_number(alloc, name, value, least, most, help)
        }
    }
}

/// A command of the table, with the option that all have as its last one.
fn command<'a>(alloc: Global, listed: &'static Listed) -> Result<Command<'a>, AllocError>
    requires { AreOrdered (listed_of listed.now).arguments }
    ensures { IfOk result (IsListed (listed_of listed.now)) }
{
    let mut command = Command::new(alloc, listed.name).about(listed.about);
    let rows = listed.arguments;
    for row in rows {
        command = command.arg(argument(alloc, row))?;
    }
    command.arg(argument(alloc, &EXPLAIN))
}

/// The program with all of its commands. Without one it judges standard input.
pub(crate) fn program<'a>(alloc: Global) -> Result<Command<'a>, AllocError>
    ensures { IfOk result (IsApp program_app) }
{
    let bare = Command::new(alloc, "vcs_check")
        .version(VERSION)
        .long_version(VERSIONS)
        .about(ABOUT)
        .after_help(MORE);
    let mut program = bare.arg(argument(alloc, &EXPLAIN))?;
    let table = Listed::all();
    for listed in table {
        program = program.subcommand(command(alloc, listed)?)?;
    }
    Ok(program)
}
