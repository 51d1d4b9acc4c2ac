//! What `inputs` is asked for, of its arguments.
ghost use Rattle.std.specs.Prelude.{IfOk, codes};
ghost use Rattle.clap.specs.Words.{found_of, rows_of};
ghost use Rattle.command_line.specs.Meanings.{AsksForInputs, IsLineAt};
ghost use Rattle.command_line.specs.Private.Numbers.{HasNumbers};
ghost use Rattle.command_line.specs.Table.{inputs_listed};

use crate::command::{Command, CommandLine};
use crate::line::{is_given, line_of_movie, number_at, number_from_one};
use clap::ArgMatches;
use std::alloc::{AllocError, Global};
use std::num::NonZeroU32;

/// Of which frames the inputs are printed, and how.
#[derive(Clone, Copy, Debug, PartialEq, Eq)]
pub struct Listing {
    /// The first of the frames, counted from 1.
    pub first: NonZeroU32,
    /// How many they are; the movie may have fewer.
    pub count: u32,
    /// Whether each line begins with the number of its first frame.
    pub numbers: bool,
}

/// Of which frames the inputs are printed, and how.
fn listing_of(matches: &ArgMatches<'_>) -> Listing
    requires { HasNumbers inputs_listed (rows_of (found_of matches.now)) }
    ensures { AsksForInputs (rows_of (found_of matches.now)) result }
{
    Listing {
        first: number_from_one(matches, "first"),
        count: number_at(matches, "count"),
        numbers: is_given(matches, "numbers"),
    }
}

/// `inputs`.
pub(crate) fn inputs_of(alloc: Global, matches: &ArgMatches<'_>) -> Result<CommandLine, AllocError>
    requires { HasNumbers inputs_listed (rows_of (found_of matches.now)) }
    ensures { IfOk result (IsLineAt (codes "inputs") (rows_of (found_of matches.now))) }
{
    let command = Command::Inputs(listing_of(matches));
    Ok(line_of_movie(alloc, matches, command)?)
}
