//! States of a movie's one unbroken run.
ghost use Rattle.std.specs.Prelude.{◌≡◌, ◌≤◌, ◌<◌, length, IsSome, IsTrue, IfOk, OnErr, Some};
ghost use Rattle.movie_machine.specs.Carts.{ram_length};
ghost use Rattle.movie_machine.specs.States.{is_of};
ghost use Rattle.movie_file.specs.Run.{run};
ghost use Rattle.replay_segments.specs.Private.Resuming.{IsResumable};
ghost use Rattle.replay_segments.specs.RunStates.{left_at};
ghost use Rattle.replay_segments.specs.Verdicts.{HasVerdict};
ghost use Rattle.replay_segments.specs.declared.verdict.Verdict.TheVariants.{FalseCheckpoint};
ghost use Rattle.replay_segments.specs.declared.verdict.Verdict.TheVariants.{Fault};

use crate::checkpoints::checkpoints_before;
use movie_file::{Movie, Progress};
use movie_machine::{State, halt};
use refused::Refused;
use run_cursor::Cursor;
use std::alloc::{AllocError, Global};
use vcs_machine::{FaultKind, LINE_CYCLES};

/// What a frame leaves that faults.
#[derive(Drop)]
pub struct LeftState {
    /// The state before the faulty instruction. If the frame was overlong it is the one that was
    /// reached.
    pub state: State,
    /// The scanline of its beam, 0 being the one in which the frame began.
    pub scanline: u64,
}

/// The state after a frame to which a cursor goes. The run comes to its end.
fn state_after<P: Progress>(
    alloc: Global,
    cursor: &mut Cursor<'_>,
    frame: u32,
    progress: &P,
) -> Result<State, AllocError>
    requires later { cursor.old.frame ≤ frame }
    requires within { frame ≤ length cursor.old.movie.inputs }
    requires ends { IsSome (run cursor.old.movie cursor.old.movie.start 0 frame) }
    ensures ran { IfOk result (λ state. run cursor.old.movie cursor.old.movie.start 0 frame ≡ Some state) }
    ensures cartridge { IfOk result (λ state. IsTrue (is_of cursor.old.movie.cartridge state)) }
    ensures memory { OnErr result (0 < ram_length cursor.old.movie.cartridge) }
{
    match cursor.work_to(alloc, frame, progress) {
        Ok(()) => cursor.state().copy(alloc),
        Err(Refused::Of(_)) => unreachable!(),
        Err(Refused::NoMemory) => Err(AllocError),
    }
}

/// The state of the run after a frame, replayed from the checkpoint before index `next`, or from
/// the start if there is none.
fn resume<P: Progress>(
    alloc: Global,
    movie: &Movie,
    next: u16,
    frame: u32,
    progress: &P,
) -> Result<State, AllocError>
    requires { IsResumable movie.now next frame }
    ensures ran { IfOk result (λ state. run movie.now movie.now.start 0 frame ≡ Some state) }
    ensures cartridge { IfOk result (λ state. IsTrue (is_of movie.now.cartridge state)) }
    ensures memory { OnErr result (0 < ram_length movie.now.cartridge) }
{
    let _ = movie.frames();
    if next == 0 {
        let mut start = Cursor::at_start(alloc, movie)?;
        return state_after(alloc, &mut start, frame, progress);
    }
    let claim = movie.checkpoint(next);
    let mut cursor = Cursor::at_claim(alloc, movie, claim.frame, &claim.state)?;
    state_after(alloc, &mut cursor, frame, progress)
}

/// The state that a movie's one unbroken run has after the frame of its first false checkpoint.
///
/// The movie is replayed from the checkpoint before the false one, or from its start if there is
/// none. Its frames are told as one work, if there are some. AllocError comes only if memory for the
/// RAM of the cartridge was refused.
pub fn found_state<P: Progress>(
    alloc: Global,
    movie: &Movie,
    number: u16,
    frame: u32,
    progress: &P,
) -> Result<State, AllocError>
    requires { HasVerdict movie.now (FalseCheckpoint number frame) }
    ensures ran { IfOk result (λ state. run movie.now movie.now.start 0 frame ≡ Some state) }
    ensures cartridge { IfOk result (λ state. IsTrue (is_of movie.now.cartridge state)) }
    ensures memory { OnErr result (0 < ram_length movie.now.cartridge) }
{
    let _ = movie.frames();
    resume(alloc, movie, number - 1, frame, progress)
}

/// What the frame leaves in which a movie's one unbroken run faults.
///
/// The movie is replayed from the last checkpoint before that frame, or from its start if there
/// is none. The frames before that are told as one work, if there are some. By the chip's rules
/// nothing is left. AllocError comes only if memory for the RAM of the cartridge was refused.
#[tactic(auto, using(crate::proofs::CheckpointLemmas::none_before))]
pub fn left_state<P: Progress>(
    alloc: Global,
    movie: &Movie,
    frame: u32,
    kind: FaultKind,
    progress: &P,
) -> Result<Option<LeftState>, AllocError>
    requires { HasVerdict movie.now (Fault frame kind) }
    ensures left { IfOk result (λ left. left_at movie.now frame ≡ left) }
    ensures memory { OnErr result (0 < ram_length movie.now.cartridge) }
{
    let next = checkpoints_before(movie, 0, frame);
    let mut state = resume(alloc, movie, next, frame - 1, progress)?;
    let begun = state.line_cycle();
    let Some(halt) = halt(alloc, movie.cart(), &mut state, movie.input(frame)) else {
        unreachable!()
    };
    let Some(cycles) = halt.cycles else {
        return Ok(None);
    };
    let cycles = u64::from(begun) + u64::from(cycles);
    Ok(Some(LeftState {
        state,
        scanline: cycles / LINE_CYCLES as u64,
    }))
}
