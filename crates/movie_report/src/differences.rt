//! The numbers in which two state records differ.
ghost use Rattle.std.specs.Prelude.{◌≡◌, ◌<◌, IfOk, length, string_bytes, drop};
ghost use Rattle.cart_board.specs.Known.{known_row};
ghost use Rattle.movie_report.specs.Differences.{array_name, difference_text, differences_text};
ghost use Rattle.movie_report.specs.Differences.{difference_count, pairs_text};
ghost use Rattle.movie_report.specs.Differences.{text_if_different};
ghost use Rattle.movie_report.specs.Private.Elements.{AreElements};
ghost use Rattle.movie_report.specs.Numbers.{bytes_in, state_names};
ghost use Rattle.movie_report.specs.Private.Places.{shown};

use crate::numbers::{Number, number_at, number_count};
use cart_board::KnownBoard;
use hex::encode_upper;
use replay_plan::Notation;
use std::alloc::{AllocError, Global};

/// Which states are compared.
#[derive(Clone, Copy)]
pub(crate) enum Comparison {
    /// A start state with the state of power-on.
    Start,
    /// A claimed state with the state that the run has.
    Claim,
}

impl Comparison {
    /// The name of the array of its differences.
    fn array_name(self) -> &'static str
        ensures { result.now ≡ array_name self }
    {
        match self {
            Comparison::Start => "start_differs",
            Comparison::Claim => "differs",
        }
    }

    /// What is said of a number whose bytes differ.
    fn difference(
        self,
        alloc: Global,
        notation: Notation,
        number: Number,
        first: &[u8],
        second: &[u8],
    ) -> Result<String, AllocError>
        ensures { IfOk result (λ text. string_bytes text ≡ difference_text notation self
            (record { name = (shown number).name; first = first.now; second = second.now })) }
    {
        let first = encode_upper(alloc, first)?;
        let second = encode_upper(alloc, second)?;
        match (notation, self) {
            (Notation::Lines, Comparison::Start) => format!(in alloc;
                "start {number}: {first}, at power-on {second}\n"
            ),
            (Notation::Lines, Comparison::Claim) => format!(in alloc;
                "{number}: claimed {first}, found {second}\n"
            ),
            (Notation::Json, Comparison::Start) => format!(in alloc;
                ",{{\"number\":\"{number}\",\"start\":\"{first}\",\"power_on\":\"{second}\"}}"
            ),
            (Notation::Json, Comparison::Claim) => format!(in alloc;
                ",{{\"number\":\"{number}\",\"claimed\":\"{first}\",\"found\":\"{second}\"}}"
            ),
        }
    }

    /// The same if its bytes differ, and else nothing.
    fn text_if_different(
        self,
        alloc: Global,
        notation: Notation,
        number: Number,
        first: &[u8],
        second: &[u8],
    ) -> Result<String, AllocError>
        ensures { IfOk result (λ text. string_bytes text ≡ text_if_different notation self
            (record { name = (shown number).name; first = first.now; second = second.now })) }
    {
        if first == second {
            return Ok(String::new(alloc));
        }
        self.difference(alloc, notation, number, first, second)
    }
}

/// What is said of the numbers in which two records differ, in the order of a record, by the board of
/// their cartridge.
#[tactic(auto, using(crate::proofs::DifferenceLemmas::number_by_number))]
fn pairs(
    alloc: Global,
    notation: Notation,
    comparison: Comparison,
    board: Option<KnownBoard>,
    first: &[u8],
    second: &[u8],
) -> Result<String, AllocError>
    requires first { length first.now ≡ bytes_in (state_names (known_row board)) }
    requires second { length second.now ≡ bytes_in (state_names (known_row board)) }
    ensures { IfOk result (λ text. string_bytes text
        ≡ pairs_text notation comparison (known_row board) first.now second.now) }
{
    let mut text = String::new(alloc);
    let mut at = 0;
    for place in 0..number_count(board) {
        let number = number_at(board, place);
        let end = at + number.len();
        prove!(end <= first.len());
        let (first, second) = (&first[at..end], &second[at..end]);
        let piece = comparison.text_if_different(alloc, notation, number, first, second)?;
        text.push_str(&piece)?;
        at = end;
    }
    Ok(text)
}

/// In how many numbers two records differ, by the board of their cartridge.
#[tactic(auto, using(crate::proofs::DifferenceLemmas::number_by_number))]
pub(crate) fn difference_count(board: Option<KnownBoard>, first: &[u8], second: &[u8]) -> usize
    requires first { length first.now ≡ bytes_in (state_names (known_row board)) }
    requires second { length second.now ≡ bytes_in (state_names (known_row board)) }
    ensures { result ≡ difference_count (known_row board) first.now second.now }
{
    let mut count = 0;
    let mut at = 0;
    for place in 0..number_count(board) {
        let end = at + number_at(board, place).len();
        prove!(end <= first.len());
        if first[at..end] != second[at..end] {
            count += 1;
        }
        at = end;
    }
    count
}

/// Elements of an array, without the comma before the first.
pub(crate) fn without_comma(text: &str) -> &str
    requires { AreElements text.now }
    ensures { result.now ≡ drop 1 text.now }
{
    match text.split_at_checked(1) {
        Some((_, rest)) => rest,
        None => "",
    }
}

/// The lines, or the array, of the numbers in which two records differ, by the board of their
/// cartridge.
pub(crate) fn differences(
    alloc: Global,
    notation: Notation,
    comparison: Comparison,
    board: Option<KnownBoard>,
    first: &[u8],
    second: &[u8],
) -> Result<String, AllocError>
    requires first { length first.now ≡ bytes_in (state_names (known_row board)) }
    requires second { length second.now ≡ bytes_in (state_names (known_row board)) }
    ensures { IfOk result (λ text. string_bytes text
        ≡ differences_text notation comparison (known_row board) first.now second.now) }
{
    let pairs = pairs(alloc, notation, comparison, board, first, second)?;
    match notation {
        Notation::Lines => Ok(pairs),
        Notation::Json => {
            let name = comparison.array_name();
            let elements = without_comma(&pairs);
            format!(in alloc; ",\"{name}\":[{elements}]")
        }
    }
}
