//! From the arguments of `report` to its command.
ghost use Rattle.std.specs.Prelude.{◌≡◌, codes, string_bytes, Err, IfErr, IfOk};
ghost use Rattle.clap.specs.Words.{first_of, found_of, rows_of};
ghost use Rattle.command_line.specs.Faults.{IsNoReport, UnlessRefused, digest_mistake};
ghost use Rattle.command_line.specs.Meanings.{AreExpectations, IsDigest, IsLineAt};
ghost use Rattle.command_line.specs.Private.Numbers.{HasNumbers};
ghost use Rattle.command_line.specs.Table.{report_listed, sha256_row};

use crate::command::{Command, CommandLine, LineFault};
use crate::line::{is_given, line_of_facts, word_of, workers_of};
use clap::ArgMatches;
use clap::error::ErrorKind;
use hex::FromHex;
use refused::Refused;
use replay_plan::Expectations;
use std::alloc::{AllocError, Global};

/// What is said of a word that writes no digest.
fn told_digest(alloc: Global, word: &str) -> Result<String, AllocError>
    ensures { IfOk result (λ text. string_bytes text ≡ digest_mistake word.now) }
{
    format!(in alloc;
        "error: invalid value '{word}' for '--sha256 <DIGEST>': a SHA-256 is 64 hexadecimal digits\n"
    )
}

/// The digest that the cartridge is expected to have, if one is asked for.
#[tactic(auto, using(crate::proofs::ClapGetters::word_read))]
fn digest_of(
    alloc: Global,
    matches: &ArgMatches<'_>,
) -> Result<Option<[u8; 32]>, Refused<LineFault>>
    ensures ok { IfOk result (IsDigest (first_of sha256_row.name (rows_of (found_of matches.now)))) }
    ensures err { IfErr result (UnlessRefused (IsNoReport (rows_of (found_of matches.now)))) }
{
    let Some(word) = matches.get_str("sha256") else {
        return Ok(None);
    };
    match <[u8; 32] as FromHex>::from_hex(word) {
        Ok(digest) => Ok(Some(digest)),
        Err(_) => Err(Refused::Of(LineFault::Usage {
            kind: ErrorKind::ValueValidation,
            text: told_digest(alloc, word)?,
        })),
    }
}

/// What the movie is expected to be, beside the cartridge of a file.
fn expectations_of(
    alloc: Global,
    matches: &ArgMatches<'_>,
) -> Result<Expectations, Refused<LineFault>>
    ensures ok { IfOk result (AreExpectations (rows_of (found_of matches.now))) }
    ensures err { IfErr result (UnlessRefused (IsNoReport (rows_of (found_of matches.now)))) }
{
    Ok(Expectations {
        digest: digest_of(alloc, matches)?,
        power_on: is_given(matches, "power-on"),
        to_the_end: is_given(matches, "to-the-end"),
    })
}

/// `report`.
pub(crate) fn report_of(
    alloc: Global,
    matches: &ArgMatches<'_>,
) -> Result<CommandLine, Refused<LineFault>>
    requires { HasNumbers report_listed (rows_of (found_of matches.now)) }
    ensures ok { IfOk result (IsLineAt (codes "report") (rows_of (found_of matches.now))) }
    ensures err { IfErr result (UnlessRefused (IsNoReport (rows_of (found_of matches.now)))) }
{
    let command = Command::Report {
        expectations: expectations_of(alloc, matches)?,
    };
    Ok(CommandLine {
        second: word_of(alloc, matches, "rom")?,
        workers: workers_of(matches),
        ..line_of_facts(alloc, matches, command)?
    })
}
