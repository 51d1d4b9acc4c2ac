//! Verdicts of one thread: of the whole movie, and of its segments.
ghost use Rattle.replay_segments.specs.Cuts.{Fits};

use crate::call_failure::{CallFailure, OUT_OF_MEMORY, right};
use crate::movies::movie;
use crate::wrong_movies::WrongMovie;
use movie_file::{Movie, NoProgress};
use replay_plan::Keep;
use replay_segments::{Cuts, Piece, Verdict, gather, replay};
use std::alloc::Global;
use std::num::NonZeroU16;

/// Right for a genuine verdict with so many pictures.
pub(crate) fn is_genuine(verdict: &Verdict, pictures: usize) -> Result<(), CallFailure> {
    match verdict {
        Verdict::Genuine { pictures: kept } => right(kept.len() == pictures),
        _ => Err(CallFailure::Wrong),
    }
}

pub(crate) fn is_cut(alloc: Global) -> Result<(), CallFailure> {
    let movie = movie(alloc)?;
    let cuts = Cuts::every(alloc, &movie, NonZeroU16::MIN)?;
    right(cuts.segments() == 2)
}

/// Right for the piece of the first segment. That it is out of memory is seen by the verdict that it
/// decides.
fn is_first(alloc: Global, mut pieces: Vec<Piece>, piece: Piece) -> Result<(), CallFailure> {
    if piece.passed() {
        return right(piece.number() == 0);
    }
    pieces.push(piece)?;
    let _verdict = gather(alloc, pieces, 1)?;
    Err(CallFailure::Wrong)
}

/// The one segment of a movie without cuts, with both pictures.
pub(crate) fn is_replayed_whole(alloc: Global) -> Result<(), CallFailure> {
    let movie = movie(alloc)?;
    let cuts = Cuts::new(&movie, Vec::new(alloc))?;
    let keep = Keep::new(1, 2)?;
    let pieces = Vec::with_capacity(alloc, 1)?;
    is_first(
        alloc,
        pieces,
        replay(alloc, &movie, &cuts, keep, 0, &NoProgress),
    )
}

/// Only the movie takes memory: its replay is never out of it.
pub(crate) fn is_replayed_without_pictures(alloc: Global) -> Result<(), CallFailure> {
    let movie = movie(alloc)?;
    let cuts = Cuts::new(&movie, Vec::new(alloc))?;
    right(replay(alloc, &movie, &cuts, Keep::NONE, 0, &NoProgress).passed())
}

/// The first segment, with its picture.
pub(crate) fn is_replayed(alloc: Global) -> Result<(), CallFailure> {
    let movie = movie(alloc)?;
    let cuts = Cuts::new(&movie, vec![in alloc; 1u16]?)?;
    let keep = Keep::new(1, 2)?;
    let pieces = Vec::with_capacity(alloc, 1)?;
    is_first(
        alloc,
        pieces,
        replay(alloc, &movie, &cuts, keep, 0, &NoProgress),
    )
}

/// The pieces of all segments.
fn replayed(
    alloc: Global,
    movie: &Movie,
    cuts: &Cuts,
    keep: Keep,
) -> Result<Vec<Piece>, CallFailure>
    requires fit { Fits cuts.now movie.now }
{
    let mut pieces = Vec::with_capacity(alloc, 2)?;
    for number in 0..cuts.segments() {
        pieces.push(replay(alloc, movie, cuts, keep, number, &NoProgress))?;
    }
    Ok(pieces)
}

/// Two segments of a frame each, with the pictures of so many frames.
pub(crate) fn is_gathered(alloc: Global, pictures: u32) -> Result<(), CallFailure> {
    let movie = movie(alloc)?;
    let cuts = Cuts::every(alloc, &movie, NonZeroU16::MIN)?;
    let pieces = replayed(alloc, &movie, &cuts, Keep::new(1, pictures)?)?;
    let verdict = gather(alloc, pieces, cuts.segments())?;
    is_genuine(&verdict, pictures as usize)
}

/// Pieces of a movie that is cut at its first checkpoint alone: those of the segments of these
/// numbers, with the pictures of two frames.
fn pieces_of(alloc: Global, movie: &Movie, numbers: &[u32]) -> Result<Vec<Piece>, CallFailure> {
    let cuts = Cuts::new(movie, vec![in alloc; 1u16]?)?;
    let keep = Keep::new(1, 2)?;
    let mut pieces = Vec::with_capacity(alloc, numbers.len())?;
    for number in numbers {
        let number = *number % cuts.segments();
        pieces.push(replay(alloc, movie, &cuts, keep, number, &NoProgress))?;
    }
    Ok(pieces)
}

/// A movie whose first segment is bad. Where the second one's piece is without memory, the verdict
/// is still that of the first.
pub(crate) fn is_gathered_as_wrong(alloc: Global, wrong: WrongMovie) -> Result<(), CallFailure> {
    let movie = wrong.movie(alloc)?;
    let pieces = pieces_of(alloc, &movie, &[0, 1])?;
    let verdict = gather(alloc, pieces, 2)?;
    right(wrong.has(&verdict))
}

/// Two genuine segments, of which the second has two pieces. Where one of the two is without memory,
/// the other one counts.
pub(crate) fn is_gathered_of_three(alloc: Global) -> Result<(), CallFailure> {
    let movie = movie(alloc)?;
    let pieces = pieces_of(alloc, &movie, &[0, 1, 1])?;
    let verdict = gather(alloc, pieces, 2)?;
    is_genuine(&verdict, 2)
}
