//! An argument of each kind of the table, as `clap` knows it.
ghost use Rattle.std.specs.Prelude.{◌≤◌};
ghost use Rattle.command_line.specs.Table.{IsRow, needed_number, needed_word, number, operand, repeated_word};
ghost use Rattle.command_line.specs.Table.{switch, word};

use clap::{Arg, ArgAction, value_parser};
use std::alloc::Global;

/// A word that stands by its place and has to be there.
pub(crate) fn operand<'a>(alloc: Global, name: &'a str, value: &'a str, help: &'a str) -> Arg<'a>
    ensures { IsRow (record { name = name.entry.now; kind = operand }) result }
{
    Arg::new(alloc, name)
        .value_name(value)
        .required(true)
        .help(help)
}

/// An option without a word.
pub(crate) fn switch<'a>(alloc: Global, name: &'a str, help: &'a str) -> Arg<'a>
    ensures { IsRow (record { name = name.entry.now; kind = switch }) result }
{
    Arg::new(alloc, name)
        .long(name)
        .help(help)
        .action(ArgAction::SetTrue)
}

/// An option with a word.
pub(crate) fn word<'a>(alloc: Global, name: &'a str, value: &'a str, help: &'a str) -> Arg<'a>
    ensures { IsRow (record { name = name.entry.now; kind = word }) result }
{
    Arg::new(alloc, name)
        .long(name)
        .value_name(value)
        .help(help)
        .action(ArgAction::Set)
}

/// An option with a word that has to be there.
pub(crate) fn needed_word<'a>(
    alloc: Global,
    name: &'a str,
    value: &'a str,
    help: &'a str,
) -> Arg<'a>
    ensures { IsRow (record { name = name.entry.now; kind = needed_word }) result }
{
    word(alloc, name, value, help).required(true)
}

/// An option with a word that may be there more than once.
pub(crate) fn repeated_word<'a>(
    alloc: Global,
    name: &'a str,
    value: &'a str,
    help: &'a str,
) -> Arg<'a>
    ensures { IsRow (record { name = name.entry.now; kind = repeated_word }) result }
{
    word(alloc, name, value, help).action(ArgAction::Append)
}

/// An option with a number from `least` to `most` that has to be there.
pub(crate) fn needed_number<'a>(
    alloc: Global,
    name: &'a str,
    value: &'a str,
    least: u32,
    most: u32,
    help: &'a str,
) -> Arg<'a>
    requires { least ≤ most }
    ensures { IsRow (record { name = name.entry.now; kind = needed_number least most }) result }
{
    Arg::new(alloc, name)
        .long(name)
        .value_name(value)
        .help(help)
        .required(true)
        .value_parser(value_parser!(u32).range(i64::from(least)..=i64::from(most)))
}

/// An option with a number from `least` to `most`, and the text that stands for it if it isn't there.
pub(crate) fn number<'a>(
    alloc: Global,
    name: &'a str,
    value: &'a str,
    least: u32,
    most: u32,
    default: &'a str,
    help: &'a str,
) -> Arg<'a>
    requires { least ≤ most }
    ensures { IsRow (record { name = name.entry.now; kind = number least most default.entry.now }) result }
{
    needed_number(alloc, name, value, least, most, help)
        .required(false)
        .default_value(default)
}
