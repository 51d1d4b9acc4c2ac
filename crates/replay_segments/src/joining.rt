//! The pictures of pieces, joined in the order of their segments.
ghost use Rattle.std.specs.Prelude.{◌≡◌, ◌<◌, IfOk, OnErr, IfSome, IfNone};
ghost use Rattle.replay_segments.specs.Gathering.{NamesAll, HasPassed, PassedBelow, picture_count};
ghost use Rattle.replay_segments.specs.Pieces.{Job, segments_of};
ghost use Rattle.replay_segments.specs.Private.Finding.{IsTaken};
ghost use Rattle.replay_segments.specs.Verdicts.{IsVerdict};
ghost use Rattle.replay_segments.specs.declared.verdict.Verdict.{Verdict};

use crate::finding::find_passed;
use crate::piece::Piece;
use std::alloc::{AllocError, Global};
use vcs_machine::Pictures;

/// Takes the pictures of a piece of this number that passed.
fn take_passed(pieces: &mut Vec<Piece>, number: u32) -> Pictures
    requires { HasPassed pieces.old.items number }
    ensures { IsTaken pieces.old.items number result pieces.new.items }
{
    let Some(i) = find_passed(pieces.as_slice(), number) else {
        unreachable!()
    };
    let piece = &mut pieces[i];
    piece.take_pictures()
}

/// How many pictures the pieces have, or None for more than can be counted.
fn pictures_in(pieces: &[Piece]) -> Option<usize>
    ensures some { IfSome result (λ n. n ≡ picture_count pieces.now) }
    ensures none { IfNone result (0 < picture_count pieces.now) }
{
    let mut n = 0usize;
    for piece in pieces {
        n = n.checked_add(piece.pictures_len())?;
    }
    Some(n)
}

/// The pictures of all segments, each of which passed. The only allocation is for all of them.
pub(crate) fn all_pictures(
    alloc: Global,
    mut pieces: Vec<Piece>,
    n: u32,
) -> Result<Pictures, AllocError>
    requires { PassedBelow pieces.items n }
    ensures pictures { IfOk result (λ kept. (job : Job) → NamesAll job pieces.items
        → n ≡ segments_of job → IsVerdict job.movie job.keep (Verdict.Genuine kept)) }
    ensures refused { OnErr result (0 < picture_count pieces.items) }
{
    let Some(room) = pictures_in(pieces.as_slice()) else {
        return Err(AllocError);
    };
    let Ok(mut all) = Vec::with_capacity(alloc, room) else {
        return Err(AllocError);
    };
    for number in 0..n {
        let mut part = take_passed(&mut pieces, number).into_vec();
        let Ok(()) = all.append(&mut part) else {
            unreachable!()
        };
    }
    Ok(Pictures::new(all))
}
