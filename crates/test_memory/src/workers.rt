//! Verdicts by workers at one desk.
ghost use Rattle.replay_segments.specs.Cuts.{Fits};

use crate::call_failure::{CallFailure, OUT_OF_MEMORY, right};
use crate::growths::TakesRefused;
use crate::movies::{make, movie};
use crate::segments::is_genuine;
use crate::wrong_movies::WrongMovie;
use movie_file::{Movie, Progress};
use replay_plan::{Keep, Workers};
use replay_segments::{Cuts, Piece, gather};
use std::alloc::{AllocError, Global};
use std::num::NonZeroU16;
use std::sync::Wait;
use std::thread::Threads;
use verify_pool::{Desk, Gate, Hand, NoGate, crew, verify};

pub(crate) fn has_desk(alloc: Global) -> Result<(), CallFailure> {
    let (desk, mut tickets) = match Desk::new(alloc, 2, 3) {
        Ok(made) => made,
        Err(AllocError) => return Err(OUT_OF_MEMORY),
    };
    let all = tickets.len() == 3;
    match tickets.pop() {
        Some(mut ticket) => right(all && desk.draw(&mut ticket) == Some(0)),
        None => Err(CallFailure::Wrong),
    }
}

/// The hand that got all pieces, of a desk with one ticket. No thread is started.
fn worked<R: Threads + Wait + Sync>(
    rt: &R,
    alloc: Global,
    movie: &Movie,
    cuts: &Cuts,
) -> Result<Hand, CallFailure>
    requires fit { Fits cuts.now movie.now }
{
    let keep = Keep::new(1, 2)?;
    let (desk, mut tickets) = match Desk::new(alloc, cuts.segments(), 1) {
        Ok(made) => made,
        Err(AllocError) => return Err(OUT_OF_MEMORY),
    };
    let Some(ticket) = tickets.pop() else {
        return Err(CallFailure::Wrong);
    };
    let pieces = Vec::with_capacity(alloc, cuts.segments() as usize)?;
    let mut hands = Vec::with_capacity(alloc, 1)?;
    hands.push_reserved(Hand { ticket, pieces });
    Ok(crew(rt, alloc, movie, cuts, keep, &desk, hands, &NoGate)?)
}

/// Right for the pieces of two segments, in order, with a picture each.
fn are_both(alloc: Global, pieces: Vec<Piece>) -> Result<(), CallFailure> {
    let numbers = pieces.iter().map(|piece| piece.number());
    let in_order = numbers.zip(0..2).all(|(number, wanted)| number == wanted);
    let all = in_order && pieces.len() == 2;
    let verdict = gather(alloc, pieces, 2)?;
    right(all)?;
    is_genuine(&verdict, 2)
}

/// One hand gets the pieces of both segments.
pub(crate) fn is_worked_on<R: Threads + Wait + Sync>(
    rt: &R,
    alloc: Global,
) -> Result<(), CallFailure> {
    let movie = movie(alloc)?;
    let cuts = Cuts::every(alloc, &movie, NonZeroU16::MIN)?;
    let hand = worked(rt, alloc, &movie, &cuts)?;
    are_both(alloc, hand.pieces)
}

/// The verdict with all pictures, and a gate.
fn judged_with<G: Gate + Progress + Sync, R: Threads + Wait + Sync>(
    rt: &R,
    alloc: Global,
    movie: &Movie,
    cuts: &Cuts,
    workers: u8,
    gate: &G,
) -> Result<(), CallFailure>
    requires fit { Fits cuts.now movie.now }
{
    let workers = Workers::new(workers).ok_or(CallFailure::Wrong)?;
    let keep = Keep::new(1, 600)?;
    let verdict = verify(rt, alloc, movie, cuts, workers, keep, gate)?;
    is_genuine(&verdict, movie.frames() as usize)
}

/// The same with a cut at each checkpoint, and a gate that does nothing.
fn judge<R: Threads + Wait + Sync>(
    rt: &R,
    alloc: Global,
    movie: &Movie,
    workers: u8,
) -> Result<(), CallFailure> {
    let cuts = Cuts::every(alloc, movie, NonZeroU16::MIN)?;
    judged_with(rt, alloc, movie, &cuts, workers, &NoGate)
}

/// One worker, whose gate meets the refused growth unless that came before the first entry. So no
/// growth of a replay is refused: where one is, the replay came before the entry.
pub(crate) fn is_entered_before_replay<R: Threads + Wait + Sync>(
    rt: &R,
    alloc: Global,
) -> Result<(), CallFailure> {
    let gate = TakesRefused::new(alloc);
    let movie = movie(alloc)?;
    let cuts = Cuts::every(alloc, &movie, NonZeroU16::MIN)?;
    let outcome = judged_with(rt, alloc, &movie, &cuts, 1, &gate);
    if !gate.was_entered() {
        return outcome.and(Err(CallFailure::Wrong));
    }
    right(outcome.is_ok())?;
    if gate.has_met() {
        Err(CallFailure::Fewer)
    } else {
        Ok(())
    }
}

/// Two segments of a frame each, by so many workers.
pub(crate) fn is_judged_by<R: Threads + Wait + Sync>(
    rt: &R,
    alloc: Global,
    workers: u8,
) -> Result<(), CallFailure> {
    judge(rt, alloc, &movie(alloc)?, workers)
}

/// Ten segments, of which each but the last has two frames.
pub(crate) fn is_judged_by_eight<R: Threads + Wait + Sync>(
    rt: &R,
    alloc: Global,
) -> Result<(), CallFailure> {
    judge(rt, alloc, &make(alloc, 19, 2)?, 8)
}

/// Two segments of 300 frames each, and an empty one: a growth for each picture, and few besides. A
/// second replay would need 600 more.
pub(crate) fn is_judged_once<R: Threads + Wait + Sync>(
    rt: &R,
    alloc: Global,
) -> Result<(), CallFailure> {
    judge(rt, alloc, &make(alloc, 600, 300)?, 2)
}

/// The same frames without the cut after the last one.
pub(crate) fn is_judged_once_of_one_cut<R: Threads + Wait + Sync>(
    rt: &R,
    alloc: Global,
) -> Result<(), CallFailure> {
    let movie = make(alloc, 600, 300)?;
    let cuts = Cuts::new(&movie, vec![in alloc; 1u16]?)?;
    judged_with(rt, alloc, &movie, &cuts, 2, &NoGate)
}

/// A movie that is not genuine, by so many workers, with a cut at each checkpoint and all pictures.
pub(crate) fn is_judged_as_wrong<R: Threads + Wait + Sync>(
    rt: &R,
    alloc: Global,
    wrong: WrongMovie,
    workers: u8,
) -> Result<(), CallFailure> {
    let movie = wrong.movie(alloc)?;
    let workers = Workers::new(workers).ok_or(CallFailure::Wrong)?;
    let cuts = Cuts::every(alloc, &movie, NonZeroU16::MIN)?;
    let keep = Keep::new(1, 600)?;
    let verdict = verify(rt, alloc, &movie, &cuts, workers, keep, &NoGate)?;
    right(wrong.has(&verdict))
}
