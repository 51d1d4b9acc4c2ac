//! Replays a segment.
ghost use Rattle.std.specs.Prelude.{◌≡◌, ◌+◌, ◌<◌, ◌≤◌, length, IfOk, OnErr};
ghost use Rattle.movie_file.specs.Movie.{IsMovie};
ghost use Rattle.replay_segments.specs.Cuts.{Fits};
ghost use Rattle.replay_segments.specs.Pieces.{job_of, IsJob, IsOutcome, TakesMemory};
ghost use Rattle.replay_segments.specs.Segments.{end_of, IsSegment};

use crate::cuts::Cuts;
use crate::judge::judge_frames;
use crate::piece::Piece;
use crate::verdict::Verdict;
use movie_file::{Movie, Progress};
use replay_plan::Keep;
use std::alloc::{AllocError, Global};
use std::snapshot::Snapshot;

/// The last frame of a segment.
#[tactic(auto, using(crate::proofs::SegmentLemmas::checkpoint_within))]
fn end(movie: &Movie, cuts: &Cuts, i: u32) -> u32
    requires fit { Fits cuts.now movie.now }
    ensures value { result ≡ end_of movie.now cuts.now i }
    ensures within { result ≤ length movie.now.inputs }
    ensures lawful { IsMovie movie.now }
{
    let frames = movie.frames();
    match cuts.get(i) {
        Some(number) => movie.checkpoint(number).frame,
        None => frames,
    }
}

/// Replays the segment that begins at cut `i`, counted from 0.
fn from_cut<P: Progress>(
    alloc: Global,
    movie: &Movie,
    cuts: &Cuts,
    keep: Keep,
    i: u32,
    end: u32,
    progress: &P,
) -> Result<Verdict, AllocError>
    requires fit { Fits cuts.now movie.now }
    requires number { i < length cuts.now }
    requires end { end ≡ end_of movie.now cuts.now (i + 1) }
    requires within { end ≤ length movie.now.inputs }
    requires lawful { IsMovie movie.now }
    ensures judged { IfOk result (λ verdict. IsSegment movie.now cuts.now keep (i + 1) verdict) }
    ensures refused { OnErr result (TakesMemory (job_of movie.now cuts.now keep) (i + 1)) }
{
    let Some(cut) = cuts.get(i) else {
        unreachable!()
    };
    let checkpoint = movie.checkpoint(cut);
    let (from, state) = (checkpoint.frame, &checkpoint.state);
    judge_frames(alloc, movie, keep, state, from, end - from, cut, progress)
}

/// The outcome of a segment.
#[tactic(auto, using(crate::proofs::CheckpointLemmas::at_start))]
fn outcome_of<P: Progress>(
    alloc: Global,
    movie: &Movie,
    cuts: &Cuts,
    keep: Keep,
    number: u32,
    progress: &P,
) -> Result<Verdict, AllocError>
    requires fit { Fits cuts.now movie.now }
    requires number { number < length cuts.now + 1 }
    ensures job { IsJob (job_of movie.now cuts.now keep) }
    ensures outcome { IsOutcome (job_of movie.now cuts.now keep) number result }
    ensures memory { OnErr result (TakesMemory (job_of movie.now cuts.now keep) number) }
{
    let end = end(movie, cuts, number);
    if number == 0 {
        judge_frames(alloc, movie, keep, movie.start(), 0, end, 0, progress)
    } else {
        from_cut(alloc, movie, cuts, keep, number - 1, end, progress)
    }
}

/// Replays a segment, from 0, on the calling thread. The cuts fit the movie, and have that segment.
///
/// Memory is taken for kept pictures, their list, and the RAM of the cartridge alone. Each frame that is
/// played is told, as a part of a work that has begun.
pub fn replay<P: Progress>(
    alloc: Global,
    movie: &Movie,
    cuts: &Cuts,
    keep: Keep,
    number: u32,
    progress: &P,
) -> Piece
    requires fit { Fits cuts.now movie.now }
    requires number { number < length cuts.now + 1 }
    ensures number { result.number ≡ number }
    ensures job { result.job ≡ job_of movie.now cuts.now keep }
    ensures memory { OnErr result.outcome (TakesMemory (job_of movie.now cuts.now keep) number) }
{
    let outcome = outcome_of(alloc, movie, cuts, keep, number, progress);
    Piece {
        number,
        outcome,
        movie: Snapshot::of(movie),
        cuts: Snapshot::of(cuts),
        keep,
    }
}
