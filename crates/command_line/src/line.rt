//! From arguments to a command.
ghost use Rattle.std.specs.Prelude.{◌≡◌, ◌⊎◌, ◌↔◌, None, Some, false, true, [], map, codes, is_some, option_map, unwrap_or};
ghost use Rattle.std.specs.Prelude.{IfErr, IfOk, IfNone, IfSome, string_bytes};
ghost use Rattle.std.specs.NonZero.{non_zero_u16_get, non_zero_u32_get};
ghost use Rattle.clap.specs.Words.{fault_of as faults_at, found_of, kind_of, matches_of, rows_of, subcommand_of};
ghost use Rattle.clap.specs.Words.{first_of, one_of};
ghost use Rattle.command_line.specs.Faults.{HasBadValue, IsAnswerTo, IsRefusal, UnlessRefused};
ghost use Rattle.command_line.specs.Meanings.{AsksForReasons, IsGiven, IsLine, IsLineAt, IsNotation, IsPlain};
ghost use Rattle.command_line.specs.Meanings.{files_of, number_in, number_of, of_movie, word_of};
ghost use Rattle.command_line.specs.Private.Names.{IsUnlisted};
ghost use Rattle.command_line.specs.Private.Numbers.{HasNumbers, HasNumbersOf, IsNumberIn};
ghost use Rattle.command_line.specs.Private.Numbers.{Suits};
ghost use Rattle.command_line.specs.Table.{commands, program_app, verify_listed};
ghost use Rattle.command_line.specs.Table.{workers_row, cuts_row, first_row, count_row};
ghost use Rattle.command_line.specs.Table.{cut_listed, explain_row, out_row, pictures_listed, pictures_row, trace_listed};

use crate::command::{Command, CommandLine, LineFault};
use crate::frames::frames_of;
use crate::inputs::inputs_of;
use crate::make::make_of;
use crate::parser::program;
use crate::report::report_of;
use clap::ArgMatches;
use clap::error::ErrorKind;
use refused::Refused;
use replay_plan::{Keep, Notation, Workers};
use std::alloc::{AllocError, Global};
use std::convert::AsStr;
use std::num::{NonZeroU16, NonZeroU32};

/// The word of an argument, or the empty text.
#[tactic(auto, using(crate::proofs::ClapGetters::text_or, crate::proofs::ClapGetters::word_read))]
pub(crate) fn text_of(
    alloc: Global,
    matches: &ArgMatches<'_>,
    name: &str,
) -> Result<String, AllocError>
    ensures { IfOk result (λ text. string_bytes text
        ≡ unwrap_or (first_of name.now (rows_of (found_of matches.now))) (codes "")) }
{
    String::from_str(alloc, matches.get_str(name).unwrap_or(""))
}

/// The word of an option, if it is there.
#[tactic(auto, using(crate::proofs::ClapGetters::word_read))]
pub(crate) fn word_of(
    alloc: Global,
    matches: &ArgMatches<'_>,
    name: &str,
) -> Result<Option<String>, AllocError>
    ensures { IfOk result (λ word. option_map string_bytes word
        ≡ first_of name.now (rows_of (found_of matches.now))) }
{
    match matches.get_str(name) {
        Some(word) => Ok(Some(String::from_str(alloc, word)?)),
        None => Ok(None),
    }
}

/// The number of an argument, which `clap` has tried.
pub(crate) fn number_at(matches: &ArgMatches<'_>, name: &str) -> u32
    requires { IsNumberIn 0 4294967295 (one_of name.now (rows_of (found_of matches.now))) }
    ensures { option_map number_in (one_of name.now (rows_of (found_of matches.now))) ≡ Some result }
{
    let Some(number) = matches.get_one::<u32>(name) else {
        unreachable!()
    };
    number
}

/// The number of an argument that is at least 1.
#[tactic(auto, using(crate::proofs::ClapGetters::ranges))]
pub(crate) fn number_from_one(matches: &ArgMatches<'_>, name: &str) -> NonZeroU32
    requires { IsNumberIn 1 4294967295 (one_of name.now (rows_of (found_of matches.now))) }
    ensures { option_map number_in (one_of name.now (rows_of (found_of matches.now)))
        ≡ Some (non_zero_u32_get result) }
{
    let Some(number) = NonZeroU32::new(number_at(matches, name)) else {
        unreachable!()
    };
    number
}

/// The workers that are asked for.
#[tactic(auto, using(crate::proofs::ClapGetters::ranges))]
pub(crate) fn workers_of(matches: &ArgMatches<'_>) -> Workers
    requires { Suits workers_row.kind (one_of workers_row.name (rows_of (found_of matches.now))) }
    ensures { number_of workers_row (rows_of (found_of matches.now)) ≡ Some result.number }
{
    let Some(workers) = Workers::new(number_at(matches, "workers") as u8) else {
        unreachable!()
    };
    workers
}

/// Where `verify` cuts the movie.
#[tactic(auto, using(crate::proofs::ClapGetters::ranges))]
fn cuts_of(matches: &ArgMatches<'_>) -> NonZeroU16
    requires { Suits cuts_row.kind (one_of cuts_row.name (rows_of (found_of matches.now))) }
    ensures { number_of cuts_row (rows_of (found_of matches.now))
        ≡ Some (non_zero_u16_get result) }
{
    let Some(every) = NonZeroU16::new(number_at(matches, "every") as u16) else {
        unreachable!()
    };
    every
}

/// The pictures that are kept, which are none if no file takes them.
#[tactic(auto, using(crate::proofs::ClapGetters::ranges, crate::proofs::ClapGetters::word_read))]
fn keep_of(matches: &ArgMatches<'_>) -> Keep
    requires first { Suits first_row.kind (one_of first_row.name (rows_of (found_of matches.now))) }
    requires count { Suits count_row.kind (one_of count_row.name (rows_of (found_of matches.now))) }
    ensures first { number_of first_row (rows_of (found_of matches.now)) ≡ Some result.first }
    ensures count { is_some (first_of pictures_row.name (rows_of (found_of matches.now))) ≡ true
        → number_of count_row (rows_of (found_of matches.now)) ≡ Some result.count }
    ensures none { is_some (first_of pictures_row.name (rows_of (found_of matches.now))) ≡ false
        → result.count ≡ 0 }
{
    let wanted = number_at(matches, "count");
    let count = if matches.get_str("pictures").is_some() {
        wanted
    } else {
        0
    };
    match Keep::new(number_at(matches, "first"), count) {
        Ok(keep) => keep,
        Err(_) => unreachable!(),
    }
}

/// Whether an option without a word is there.
pub(crate) fn is_given(matches: &ArgMatches<'_>, name: &str) -> bool
    ensures { (result ≡ true) ↔ (one_of name.now (rows_of (found_of matches.now)) ≡ Some (codes "true")) }
{
    matches.get_one::<bool>(name).unwrap_or(false)
}

/// How facts are written: as JSON if that is asked for, and else as lines.
pub(crate) fn notation_of(matches: &ArgMatches<'_>) -> Notation
    ensures { IsNotation (rows_of (found_of matches.now)) result }
{
    if is_given(matches, "json") {
        Notation::Json
    } else {
        Notation::Lines
    }
}

/// The line of a command about a movie, which writes lines, and no file, by one worker.
pub(crate) fn line_of_movie(
    alloc: Global,
    matches: &ArgMatches<'_>,
    command: Command,
) -> Result<CommandLine, AllocError>
    ensures command { IfOk result (λ line. line.command ≡ command) }
    ensures files { IfOk result (λ line. files_of line ≡ of_movie (rows_of (found_of matches.now)) None) }
    ensures plain { IfOk result (λ line. IsPlain line.notation line.workers) }
{
    let movie = text_of(alloc, matches, "file")?;
    Ok(CommandLine::of(command, movie))
}

/// The same of a command that may write JSON.
pub(crate) fn line_of_facts(
    alloc: Global,
    matches: &ArgMatches<'_>,
    command: Command,
) -> Result<CommandLine, AllocError>
    ensures command { IfOk result (λ line. line.command ≡ command) }
    ensures files { IfOk result (λ line. files_of line ≡ of_movie (rows_of (found_of matches.now)) None) }
    ensures notation { IfOk result (λ line. IsNotation (rows_of (found_of matches.now)) line.notation) }
    ensures one { IfOk result (λ line. line.workers.number ≡ 1) }
{
    Ok(CommandLine {
        notation: notation_of(matches),
        ..line_of_movie(alloc, matches, command)?
    })
}

/// The same of a command that writes a file.
fn line_with_file(
    alloc: Global,
    matches: &ArgMatches<'_>,
    command: Command,
) -> Result<CommandLine, AllocError>
    ensures command { IfOk result (λ line. line.command ≡ command) }
    ensures files { IfOk result (λ line. files_of line ≡ of_movie (rows_of (found_of matches.now)) (Some (word_of out_row (rows_of (found_of matches.now))))) }
    ensures plain { IfOk result (λ line. IsPlain line.notation line.workers) }
{
    Ok(CommandLine {
        output: Some(text_of(alloc, matches, "out")?),
        ..line_of_movie(alloc, matches, command)?
    })
}

/// `verify`, which keeps pictures only if a file takes them.
fn verify_of(alloc: Global, matches: &ArgMatches<'_>) -> Result<CommandLine, AllocError>
    requires { HasNumbers verify_listed (rows_of (found_of matches.now)) }
    ensures { IfOk result (IsLineAt (codes "verify") (rows_of (found_of matches.now))) }
{
    let command = Command::Verify {
        every: cuts_of(matches),
        keep: keep_of(matches),
    };
    Ok(CommandLine {
        output: word_of(alloc, matches, "pictures")?,
        workers: workers_of(matches),
        ..line_of_facts(alloc, matches, command)?
    })
}

/// `info`.
fn info_of(alloc: Global, matches: &ArgMatches<'_>) -> Result<CommandLine, AllocError>
    ensures { IfOk result (IsLineAt (codes "info") (rows_of (found_of matches.now))) }
{
    Ok(line_of_facts(alloc, matches, Command::Info)?)
}

/// `claims`.
fn claims_of(alloc: Global, matches: &ArgMatches<'_>) -> Result<CommandLine, AllocError>
    ensures { IfOk result (IsLineAt (codes "claims") (rows_of (found_of matches.now))) }
{
    Ok(line_of_facts(alloc, matches, Command::Claims)?)
}

/// `cartridge`.
fn cartridge_of(alloc: Global, matches: &ArgMatches<'_>) -> Result<CommandLine, AllocError>
    ensures { IfOk result (IsLineAt (codes "cartridge") (rows_of (found_of matches.now))) }
{
    Ok(line_with_file(alloc, matches, Command::Cartridge)?)
}

/// `convert`.
fn convert_of(alloc: Global, matches: &ArgMatches<'_>) -> Result<CommandLine, AllocError>
    ensures { IfOk result (IsLineAt (codes "convert") (rows_of (found_of matches.now))) }
{
    let old = text_of(alloc, matches, "old")?;
    Ok(CommandLine {
        output: Some(text_of(alloc, matches, "new")?),
        ..CommandLine::of(Command::Convert, old)
    })
}

/// `pictures`.
fn pictures_of(alloc: Global, matches: &ArgMatches<'_>) -> Result<CommandLine, AllocError>
    requires { HasNumbers pictures_listed (rows_of (found_of matches.now)) }
    ensures { IfOk result (IsLineAt (codes "pictures") (rows_of (found_of matches.now))) }
{
    let command = Command::Pictures {
        first: number_from_one(matches, "first"),
        count: number_at(matches, "count"),
    };
    Ok(line_with_file(alloc, matches, command)?)
}

/// `cut`.
fn cut_of(alloc: Global, matches: &ArgMatches<'_>) -> Result<CommandLine, AllocError>
    requires { HasNumbers cut_listed (rows_of (found_of matches.now)) }
    ensures { IfOk result (IsLineAt (codes "cut") (rows_of (found_of matches.now))) }
{
    let command = Command::Cut {
        first: number_from_one(matches, "first"),
        count: number_at(matches, "count"),
        every: number_from_one(matches, "every"),
    };
    Ok(line_with_file(alloc, matches, command)?)
}

/// `trace`.
fn trace_of(alloc: Global, matches: &ArgMatches<'_>) -> Result<CommandLine, AllocError>
    requires { HasNumbers trace_listed (rows_of (found_of matches.now)) }
    ensures { IfOk result (IsLineAt (codes "trace") (rows_of (found_of matches.now))) }
{
    let command = Command::Trace {
        frame: number_from_one(matches, "frame"),
    };
    Ok(line_of_movie(alloc, matches, command)?)
}

/// What `clap` says of arguments that are no command, or that ask for help.
fn fault_of(alloc: Global, error: &clap::Error) -> Result<LineFault, AllocError>
    ensures { IfOk result (IsAnswerTo (kind_of error.now)) }
{
    if error.kind() == ErrorKind::OutOfMemory {
        return Err(AllocError);
    }
    let text = error.to_string(alloc)?;
    if error.use_stderr() {
        return Ok(LineFault::Usage {
            kind: error.kind(),
            text,
        });
    }
    Ok(LineFault::Help { text })
}

/// The line of the command of this name of the table, of which `clap` found some values, each number in
/// its range.
fn line_at(
    alloc: Global,
    name: &str,
    matches: &ArgMatches<'_>,
) -> Result<CommandLine, Refused<LineFault>>
    requires numbers { HasNumbersOf name.now (rows_of (found_of matches.now)) }
    requires listed { IsUnlisted name.now commands → ⊥ }
    ensures ok { IfOk result (IsLineAt name.now (rows_of (found_of matches.now))) }
    ensures err { IfErr result (UnlessRefused (HasBadValue name.now (rows_of (found_of matches.now)))) }
{
    match name {
        "verify" => Ok(verify_of(alloc, matches)?),
        "report" => report_of(alloc, matches),
        "make" => make_of(alloc, matches),
        "info" => Ok(info_of(alloc, matches)?),
        "claims" => Ok(claims_of(alloc, matches)?),
        "inputs" => Ok(inputs_of(alloc, matches)?),
        "cartridge" => Ok(cartridge_of(alloc, matches)?),
        "convert" => Ok(convert_of(alloc, matches)?),
        "frames" => frames_of(alloc, matches),
        "pictures" => Ok(pictures_of(alloc, matches)?),
        "cut" => Ok(cut_of(alloc, matches)?),
        "trace" => Ok(trace_of(alloc, matches)?),
        _ => unreachable!(),
    }
}

/// The same, with whether the reasons are asked for before the command's name or after it.
fn line_of(
    alloc: Global,
    name: &str,
    matches: &ArgMatches<'_>,
    explain: bool,
) -> Result<CommandLine, Refused<LineFault>>
    requires numbers { HasNumbersOf name.now (rows_of (found_of matches.now)) }
    requires listed { IsUnlisted name.now commands → ⊥ }
    ensures ok { IfOk result (IsLineAt name.now (rows_of (found_of matches.now))) }
    ensures explain { IfOk result (λ line. (line.explain ≡ true)
        ↔ ((explain ≡ true) ⊎ IsGiven explain_row (rows_of (found_of matches.now)))) }
    ensures err { IfErr result (UnlessRefused (HasBadValue name.now (rows_of (found_of matches.now)))) }
{
    Ok(CommandLine {
        explain: explain || is_given(matches, "explain"),
        ..line_at(alloc, name, matches)?
    })
}

/// The command of no arguments, and of `--explain` alone: `verify -` by one worker.
fn line_of_no_words(alloc: Global, explain: bool) -> Result<CommandLine, AllocError>
    ensures ok { IfOk result (IsLine None) }
    ensures explain { IfOk result (λ line. line.explain ≡ explain) }
{
    let command = Command::Verify {
        every: NonZeroU16::MIN,
        keep: Keep::NONE,
    };
    let input = String::from_str(alloc, "-")?;
    Ok(CommandLine {
        explain,
        ..CommandLine::of(command, input)
    })
}

/// The command of some arguments, of which the first is the program's name.
///
/// If they name no command it is `verify -` by one worker. `clap` tries each number, so that each is
/// in its range here.
pub fn parse_line<S: AsStr>(alloc: Global, words: &[S]) -> Result<CommandLine, Refused<LineFault>>
    ensures taken { IfOk result (λ _. faults_at program_app (map S.text words.now) ≡ []) }
    ensures ok { IfOk result (IsLine (subcommand_of program_app (map S.text words.now))) }
    ensures explain { IfOk result (λ line. (line.explain ≡ true)
        ↔ AsksForReasons (matches_of program_app (map S.text words.now))
        (subcommand_of program_app (map S.text words.now))) }
    ensures err { IfErr result (UnlessRefused (IsRefusal (map S.text words.now))) }
{
    let program = program(alloc)?;
    let matches = match program.try_get_matches_from(words) {
        Ok(matches) => matches,
        Err(error) => return Err(Refused::Of(fault_of(alloc, &error)?)),
    };
    let explain = is_given(&matches, "explain");
    match matches.subcommand() {
        Some((name, inner)) => line_of(alloc, name, inner, explain),
        None => Ok(line_of_no_words(alloc, explain)?),
    }
}
