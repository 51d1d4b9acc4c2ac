//! Looks for pieces by their numbers.
ghost use Rattle.std.specs.Prelude.{◌≡◌, ◌+◌, IfSome, IfNone};
ghost use Rattle.replay_segments.specs.Private.Finding.{IsPassedAt, ArePassedBelow};
ghost use Rattle.replay_segments.specs.Private.Finding.{IsFirstUnpassed, IsAnswer};
ghost use Rattle.replay_segments.specs.Gathering.{HasPassed};

use crate::gathering::Missing;
use crate::piece::Piece;
use crate::verdict::Verdict;
use refused::Refused;

/// Where a piece of this number stands that passed.
pub(crate) fn find_passed(pieces: &[Piece], number: u32) -> Option<usize>
    ensures some { IfSome result (λ i. IsPassedAt pieces.now number i) }
    ensures none { IfNone result (HasPassed pieces.now number → ⊥) }
{
    for (i, piece) in pieces.iter().enumerate() {
        if piece.number() == number && piece.passed() {
            return Some(i);
        }
    }
    None
}

/// The first of the numbers below n that has no piece that passed.
pub(crate) fn first_unpassed(pieces: &[Piece], n: u32) -> Option<u32>
    ensures some { IfSome result (λ number. IsFirstUnpassed pieces.now n number) }
    ensures none { IfNone result (ArePassedBelow pieces.now n) }
{
    for number in 0..n {
        if find_passed(pieces, number).is_none() {
            return Some(number);
        }
    }
    None
}

/// What a segment without a piece that passed answers: the verdict of a piece that was judged, or
/// why there is none.
pub(crate) fn answer_of(pieces: &[Piece], number: u32) -> Result<Verdict, Refused<Missing>>
    requires { HasPassed pieces.now number → ⊥ }
    ensures { IsAnswer pieces.now number result }
{
    let mut answer = Refused::Of(Missing { segment: number });
    for (i, piece) in pieces.iter().enumerate() {
        if piece.number() == number {
            if let Some(verdict) = piece.bad() {
                return Ok(verdict);
            }
            answer = Refused::NoMemory;
        }
    }
    Err(answer)
}
