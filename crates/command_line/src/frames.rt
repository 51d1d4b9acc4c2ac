//! From the arguments of `frames` to its command.
ghost use Rattle.std.specs.Prelude.{◌≡◌, ◌≤◌, List, [], ◌∷◌, length, map, option_map, codes, Ok};
ghost use Rattle.std.specs.Prelude.{IfErr, IfNone, IfOk, IfSome, is_some, string_bytes};
ghost use Rattle.clap.specs.Words.{found_of, rows_of};
ghost use Rattle.replay_plan.specs.Limits.{most_watches};
ghost use Rattle.replay_plan.specs.declared.watches.Address.{Address};
ghost use Rattle.command_line.specs.Faults.{IsNoFrames, UnlessRefused, first_no_address};
ghost use Rattle.command_line.specs.Faults.{is_in_memory, watch_mistake};
ghost use Rattle.command_line.specs.Private.Numbers.{HasNumbers};
ghost use Rattle.command_line.specs.Meanings.{AreAddresses, IsLineAt, byte_in};
ghost use Rattle.command_line.specs.Meanings.{without_dollar, words_of};
ghost use Rattle.command_line.specs.Table.{frames_listed, watch_row};

use crate::command::{Command, CommandLine, LineFault};
use crate::line::{is_given, line_of_facts, number_at, number_from_one};
use clap::ArgMatches;
use clap::error::ErrorKind;
use hex::FromHex;
use refused::Refused;
use replay_plan::{Address, Details, Watches};
use std::alloc::{AllocError, Global};

/// A word without the dollar sign with which it may begin.
fn without_dollar(word: &str) -> &str
    ensures { result.now ≡ without_dollar word.now }
{
    word.strip_prefix('$').unwrap_or(word)
}

/// The address of the memory that a word writes in two hexadecimal digits, which may follow a dollar
/// sign.
fn address_in(word: &str) -> Option<Address>
    ensures whether { is_some result ≡ is_in_memory (byte_in word.now) }
    ensures some { IfSome result (λ address. byte_in word.now ≡ Ok (address.number ∷ [])) }
    ensures none { IfNone result ((a : Address) → byte_in word.now ≡ Ok (a.number ∷ []) → ⊥) }
{
    let Ok(bytes) = <[u8; 1] as FromHex>::from_hex(without_dollar(word)) else {
        return None;
    };
    Address::new(bytes[0])
}

/// The addresses that words write, if each writes one and there are at most 16.
fn addresses_in(words: &[&str]) -> Option<Watches>
    ensures some { IfSome result (AreAddresses (map (λ word. word.now) words.now)) }
    ensures none { IfNone result ((addresses : List Address) → AreAddresses (map (λ word. word.now) words.now) addresses
        → length addresses ≤ most_watches → ⊥) }
{
    let mut watches = Watches::none();
    for word in words {
        let address = address_in(word)?;
        if watches.add(address).is_err() {
            return None;
        }
    }
    Some(watches)
}

/// The first word that writes no address of the memory.
fn first_no_address<'a>(words: &[&'a str]) -> Option<&'a str>
    ensures { option_map (λ word. word.now) result ≡ first_no_address (map (λ word. word.now) words.now) }
{
    words
        .iter()
        .find(|word| address_in(word).is_none())
        .copied()
}

/// What is said of words that aren't addresses: the first that writes none, or else how many there
/// are.
fn told_words(alloc: Global, words: &[&str]) -> Result<String, AllocError>
    ensures { IfOk result (λ text. string_bytes text ≡ watch_mistake (map (λ word. word.now) words.now)) }
{
    match first_no_address(words) {
        Some(word) => format!(in alloc;
            "error: invalid value '{word}' for '--watch <AA>': an address of the memory is 80 to FF, or '$80' to '$FF' in quotes\n"
        ),
        None => format!(in alloc;
            "error: '--watch <AA>' stands {} times: at most 16, and --memory shows all bytes\n",
            words.len()
        ),
    }
}

/// The addresses that are asked for.
fn watches_of(alloc: Global, matches: &ArgMatches<'_>) -> Result<Watches, Refused<LineFault>>
    ensures ok { IfOk result (AreAddresses (words_of watch_row (rows_of (found_of matches.now)))) }
    ensures err { IfErr result (UnlessRefused (IsNoFrames (rows_of (found_of matches.now)))) }
{
    let words = matches.get_strs("watch").unwrap_or(&[]);
    match addresses_in(words) {
        Some(watches) => Ok(watches),
        None => Err(Refused::Of(LineFault::Usage {
            kind: ErrorKind::ValueValidation,
            text: told_words(alloc, words)?,
        })),
    }
}

/// `frames`.
pub(crate) fn frames_of(
    alloc: Global,
    matches: &ArgMatches<'_>,
) -> Result<CommandLine, Refused<LineFault>>
    requires { HasNumbers frames_listed (rows_of (found_of matches.now)) }
    ensures ok { IfOk result (IsLineAt (codes "frames") (rows_of (found_of matches.now))) }
    ensures err { IfErr result (UnlessRefused (IsNoFrames (rows_of (found_of matches.now)))) }
{
    let watches = watches_of(alloc, matches)?;
    let memory = is_given(matches, "memory");
    let digests = is_given(matches, "digests");
    let command = Command::Frames {
        first: number_from_one(matches, "first"),
        count: number_at(matches, "count"),
        details: Details {
            watches,
            memory,
            digests,
        },
    };
    Ok(line_of_facts(alloc, matches, command)?)
}
