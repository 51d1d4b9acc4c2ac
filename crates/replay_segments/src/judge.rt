//! Replays frames from a state, and judges them.
ghost use Rattle.std.specs.Prelude.{◌≡◌, ◌⊎◌, ℕ, ◌+◌, ◌<◌, ◌≤◌, ◌^◌, length, IsTrue, IfOk, OnOk, OnErr, true};
ghost use Rattle.std.specs.Prelude.{vec_len, vec_capacity, if◌then◌else◌};
ghost use Rattle.movie_machine.specs.Carts.{ram_length};
ghost use Rattle.movie_machine.specs.States.{is_of};
ghost use Rattle.replay_plan.specs.Keeping.{is_kept, kept_count};
ghost use Rattle.replay_segments.specs.NextCheckpoint.{IsNext};
ghost use Rattle.replay_segments.specs.Private.Steps.{IsFrameStep, IsClaim, IsAdvance};
ghost use Rattle.replay_segments.specs.Verdicts.{IsJudged};

use crate::verdict::Verdict;
use movie_file::{Movie, Progress};
use movie_machine::{State, frame};
use refused::Refused;
use replay_plan::Keep;
use std::alloc::{AllocError, Global};
use vcs_machine::{FaultKind, Picture, Pictures};

/// Frame `before` + 1 of the movie.
pub(crate) fn movie_frame(
    alloc: Global,
    movie: &Movie,
    before: u32,
    state: &mut State,
    keep: bool,
) -> Result<Option<Picture>, Refused<FaultKind>>
    requires frame { before < length movie.now.inputs }
    requires short { before + 1 < 2 ^ 32 }
    requires cartridge { IsTrue (is_of movie.now.cartridge state.old) }
    ensures step { IsFrameStep movie.now before state.old keep state.new result }
    ensures cartridge { IsTrue (is_of movie.now.cartridge state.new) }
{
    match frame(alloc, movie.cart(), state, movie.input(before + 1), keep) {
        Ok(timed) => Ok(timed.picture),
        Err(error) => Err(error),
    }
}

/// Frame `before` + 1 of the movie, whose picture is kept if it is to be.
fn advance(
    alloc: Global,
    movie: &Movie,
    keep: Keep,
    before: u32,
    state: &mut State,
    pictures: &mut Vec<Picture>,
) -> Result<(), Refused<FaultKind>>
    requires frame { before < length movie.now.inputs }
    requires short { before + 1 < 2 ^ 32 }
    requires cartridge { IsTrue (is_of movie.now.cartridge state.old) }
    requires room { is_kept keep (before + 1) ≡ true → vec_len pictures.old < vec_capacity pictures.old }
    ensures advance { IsAdvance movie.now keep before state.old pictures.old.items state.new pictures.new.items result }
    ensures len { OnOk result (vec_len pictures.new ≡ vec_len pictures.old + (if is_kept keep (before + 1) then 1 else 0)) }
    ensures capacity { vec_capacity pictures.new ≡ vec_capacity pictures.old }
    ensures cartridge { IsTrue (is_of movie.now.cartridge state.new) }
{
    let kept = keep.has(before + 1);
    if let Some(picture) = movie_frame(alloc, movie, before, state, kept)? {
        pictures.push_reserved(picture);
    }
    Ok(())
}

/// What a comparison with the checkpoint after a frame answers.
#[derive(Clone, Copy)]
enum Claim {
    /// It is true, or none stands there. The first after the frame has this index.
    Holds { next: u16 },
    /// It is false. It has this number, from 1.
    False { number: u16 },
}

/// Compares a state with the checkpoint after a frame, if there is one. `next` is the index of the
/// first that is not before the frame.
fn compare(movie: &Movie, next: u16, frame: u32, state: &State) -> Claim
    requires { IsNext movie.now next frame }
    ensures { IsClaim movie.now next frame state.now result }
{
    if next == movie.checkpoints() {
        return Claim::Holds { next };
    }
    let number = next + 1;
    let checkpoint = movie.checkpoint(number);
    if checkpoint.frame != frame {
        return Claim::Holds { next };
    }
    if checkpoint.state.equals(state) {
        Claim::Holds { next: number }
    } else {
        Claim::False { number }
    }
}

/// Judges `len` frames from a state that stands after frame `from`. `first` is the index of the
/// first checkpoint after that.
///
/// The list of the kept pictures is grown once, before the first frame. Each frame that is played is
/// told, as a part of a work that has begun.
pub(crate) fn judge_frames<P: Progress>(
    alloc: Global,
    movie: &Movie,
    keep: Keep,
    start: &State,
    from: u32,
    len: u32,
    first: u16,
    progress: &P,
) -> Result<Verdict, AllocError>
    requires range { from + len ≤ length movie.now.inputs }
    requires short { from + len < 2 ^ 32 }
    requires next { IsNext movie.now first (from + 1) }
    requires cartridge { IsTrue (is_of movie.now.cartridge start.now) }
    ensures judged { IfOk result (λ verdict. IsJudged movie.now keep start.now from len verdict) }
    ensures refused { OnErr result ((0 < kept_count keep from len) ⊎ (0 < ram_length movie.now.cartridge)) }
{
    let room = keep.count(from, len);
    let Ok(mut pictures) = Vec::with_capacity(alloc, room) else {
        return Err(AllocError);
    };
    let Ok(mut state) = start.copy(alloc) else {
        return Err(AllocError);
    };
    let mut next = first;
    for k in 0..len {
        let frame = from + k + 1;
        match advance(alloc, movie, keep, from + k, &mut state, &mut pictures) {
            Ok(()) => progress.advance(),
            Err(Refused::Of(kind)) => return Ok(Verdict::Fault { frame, kind }),
            Err(Refused::NoMemory) => return Err(AllocError),
        }
        match compare(movie, next, frame, &state) {
            Claim::Holds { next: after } => next = after,
            Claim::False { number } => return Ok(Verdict::FalseCheckpoint { number, frame }),
        }
    }
    Ok(Verdict::Genuine {
        pictures: Pictures::new(pictures),
    })
}
