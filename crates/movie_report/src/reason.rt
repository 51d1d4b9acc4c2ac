//! What the signs of segments and claims say of a false checkpoint.
ghost use Rattle.std.specs.Prelude.{◌≡◌, ◌+◌, ◌≤◌, ◌<◌, ◌-◌, length, take, drop, IfOk, string_bytes};
ghost use Rattle.movie_report.specs.Reasons.{all_but, breaks, broken, changed_text, gone_text, last_text, many_text};
ghost use Rattle.movie_report.specs.Reasons.{more_numbers, none_from, number_text, other_run_text, reason_text, sentence, separator, first_text};

use crate::segments::Sign;
use replay_plan::Notation;
use std::alloc::{AllocError, Global};

/// How many claims are named.
const MOST_NAMED: usize = 8;

/// How many of these signs tell of a segment that doesn't reach its claim, or of a claim that the run
/// isn't in.
fn broken(signs: &[Sign]) -> usize
    ensures value { result ≡ broken signs.now }
    ensures most { result ≤ length signs.now }
{
    let mut count = 0;
    for sign in signs {
        if sign.breaks() {
            count += 1;
        }
    }
    count
}

/// What stands before a number, by how many come after it.
fn separator(left: usize) -> &'static str
    ensures { result.now ≡ separator left }
{
    if left == 0 { " and " } else { ", " }
}

/// The number of a claim with this sign, if the run isn't in that, before so many others.
fn number_text(alloc: Global, sign: Sign, left: usize, number: usize) -> Result<String, AllocError>
    ensures { IfOk result (λ text. string_bytes text ≡ number_text sign left number) }
{
    if !sign.breaks() {
        return Ok(String::new(alloc));
    }
    let separator = separator(left);
    format!(in alloc; "{separator}{number}")
}

/// The numbers of the claims after the one of this number that the run isn't in.
#[tactic(auto, using(crate::proofs::ReasonLemmas::number_by_number))]
fn more_numbers(alloc: Global, number: u16, claims: &[Sign]) -> Result<String, AllocError>
    requires { number + length claims.now < 65536 }
    ensures { IfOk result (λ text. string_bytes text ≡ more_numbers number claims.now) }
{
    let mut text = String::new(alloc);
    let mut left = broken(claims);
    let mut last = usize::from(number);
    for sign in claims {
        last += 1;
        if sign.breaks() {
            left -= 1;
        }
        let piece = number_text(alloc, *sign, left, last)?;
        text.push_str(&piece)?;
    }
    Ok(text)
}

/// The claims that the run isn't in, of which the first has this number, where it is in others after
/// that.
fn all_but(alloc: Global, number: u16, claims: &[Sign]) -> Result<String, AllocError>
    requires { number + length claims.now < 65536 }
    ensures { IfOk result (λ text. string_bytes text ≡ all_but number claims.now) }
{
    let others = broken(claims);
    if others < MOST_NAMED {
        let more = more_numbers(alloc, number, claims)?;
        return format!(in alloc; "the run is in all claims but {number}{more}");
    }
    let all = usize::from(number) + claims.len();
    format!(in alloc;
        "the run isn't in {} of {all} claims, claim {number} first",
        1 + others
    )
}

/// That it is in none from this number on.
fn none_from(alloc: Global, number: u16) -> Result<String, AllocError>
    ensures { IfOk result (λ text. string_bytes text ≡ none_from number) }
{
    if number == 1 {
        return format!(in alloc; "the run is in no claim");
    }
    format!(in alloc; "the run is in no claim from {number} on")
}

/// What is said where the claim is the movie's last.
fn last_text(alloc: Global, number: u16) -> Result<String, AllocError>
    ensures { IfOk result (λ text. string_bytes text ≡ last_text number) }
{
    if number == 1 {
        return format!(in alloc;
            "the run isn't in the only claim: that claim was changed, or what leads to it"
        );
    }
    format!(in alloc;
        "the run is in all claims but {number}: that claim was changed, or what leads to it"
    )
}

/// What may have been changed where the run comes back into a claim.
fn changed_text(one_claim: bool, one_segment: bool) -> &'static str
    ensures { result.now ≡ changed_text one_claim one_segment }
{
    match (one_claim, one_segment) {
        (true, true) => ": that claim or what leads to it was changed, without lasting effect",
        (true, false) => ": that claim was changed, or what leads to it and from it",
        (false, true) => {
            ": these claims or what leads to them were changed, without lasting effect"
        }
        (false, false) => ": these claims were changed, or what leads to them and from them",
    }
}

/// What may have been changed where it doesn't, and one segment alone breaks.
fn other_run_text(alloc: Global, number: u16) -> Result<String, AllocError>
    ensures { IfOk result (λ text. string_bytes text ≡ other_run_text number) }
{
    if number == 1 {
        return format!(in alloc;
            ", and only segment 1 doesn't lead to its claim: the start state, its inputs or the cartridge were changed, or the claims are of another run"
        );
    }
    format!(in alloc;
        ", and only segment {number} doesn't lead to its claim: its inputs or the cartridge were changed, or the claims before and after it are of two runs"
    )
}

/// The start state, if the claim of this number is the first.
fn first_text(number: u16) -> &'static str
    ensures { result.now ≡ first_text number }
{
    if number == 1 { "the start state, " } else { "" }
}

/// What may have been changed where it doesn't, and so many segments break.
fn many_text(alloc: Global, number: u16, count: usize) -> Result<String, AllocError>
    ensures { IfOk result (λ text. string_bytes text ≡ many_text number count) }
{
    let start = first_text(number);
    format!(in alloc;
        ", and {count} segments don't lead to their claims: {start}inputs, the cartridge or claims were changed"
    )
}

/// The same, by how many segments after the first that breaks do so too.
fn gone_text(alloc: Global, number: u16, others: usize) -> Result<String, AllocError>
    requires { others < 65536 }
    ensures { IfOk result (λ text. string_bytes text ≡ gone_text number others) }
{
    if others == 0 {
        return other_run_text(alloc, number);
    }
    many_text(alloc, number, 1 + others)
}

/// In which claims the run is, and what may have been changed, where the claim of this number is the
/// first that it isn't in: by the signs of the segments and of the claims after that.
pub(crate) fn sentence(
    alloc: Global,
    number: u16,
    segments: &[Sign],
    claims: &[Sign],
) -> Result<String, AllocError>
    requires segments { length segments.now < 65536 }
    requires claims { number + length claims.now < 65536 }
    ensures { IfOk result (λ text. string_bytes text ≡ sentence number segments.now claims.now) }
{
    let others = broken(claims);
    let later = broken(segments);
    if claims.is_empty() {
        return last_text(alloc, number);
    }
    if others == claims.len() {
        let found = none_from(alloc, number)?;
        let causes = gone_text(alloc, number, later)?;
        return format!(in alloc; "{found}{causes}");
    }
    let found = all_but(alloc, number, claims)?;
    let causes = changed_text(others == 0, later == 0);
    format!(in alloc; "{found}{causes}")
}

/// A sentence as a line, or as a member.
pub(crate) fn reason(
    alloc: Global,
    notation: Notation,
    sentence: &str,
) -> Result<String, AllocError>
    ensures { IfOk result (λ text. string_bytes text ≡ reason_text notation sentence.now) }
{
    match notation {
        Notation::Lines => format!(in alloc; "{sentence}\n"),
        Notation::Json => format!(in alloc; ",\"reason\":\"{sentence}\""),
    }
}
