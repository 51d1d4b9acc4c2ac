//! Movies of some frames of a movie.
ghost use Rattle.std.specs.Prelude.{◌≡◌, ◌≤◌, ◌<◌, ◌+◌, ◌-◌, ◌/◌, [], length, IfOk, IfErr, OnOk, OnErr};
ghost use Rattle.std.specs.Prelude.{IsTrue, vec_capacity};
ghost use Rattle.std.specs.NonZero.{non_zero_u32_get};
ghost use Rattle.movie_file.specs.Making.{counts_fit};
ghost use Rattle.movie_file.specs.Movie.{IsMovie};
ghost use Rattle.movie_file.specs.ClaimedStates.{Claims};
ghost use Rattle.movie_machine.specs.Carts.{ram_length};
ghost use Rattle.run_cursor.specs.RunFaults.{FaultsWithin};
ghost use Rattle.commands.specs.Cut.{IsCutOf};
ghost use Rattle.commands.specs.AskedFrames.{Ends, frames_asked};

use crate::asked_frames::{cursor_in_work, frames_asked};
use movie_file::{Checkpoint, Movie, Progress, Work, claim, copy_state, movie_of, version_made};
use refused::Refused;
use run_cursor::{Cursor, RunFault};
use std::alloc::{AllocError, Global};
use std::num::NonZeroU32;

/// The checkpoints of the frames that follow, put into an empty list that has room for them; or the
/// first fault of these. Memory is taken for the RAM of the cartridge alone.
fn checkpoints_after<P: Progress>(
    alloc: Global,
    mut checkpoints: Vec<Checkpoint>,
    cursor: &mut Cursor<'_>,
    frames: u32,
    every: u32,
    progress: &P,
) -> Result<Result<Vec<Checkpoint>, RunFault>, AllocError>
    requires empty { checkpoints.items ≡ [] }
    requires within { cursor.old.frame + frames ≤ length cursor.old.movie.inputs }
    requires every { 1 ≤ every }
    requires room { frames / every ≤ vec_capacity checkpoints }
    ensures claims { IfOk result (λ made. IfOk made (λ claims. Claims cursor.old.movie cursor.old.frame every frames claims.items)) }
    ensures ends { IfOk result (λ made. OnOk made (Ends cursor.old.movie (cursor.old.frame + frames))) }
    ensures faults { IfOk result (λ made. IfErr made (λ fault.
        FaultsWithin cursor.old.movie (cursor.old.frame + frames) fault.frame fault.kind)) }
    ensures memory { OnErr result (0 < ram_length cursor.old.movie.cartridge) }
{
    let from = cursor.frame();
    for k in 0..frames {
        match cursor.advance(alloc) {
            Ok(()) => {}
            Err(Refused::Of(kind)) => {
                let frame = from + k + 1;
                return Ok(Err(RunFault { frame, kind }));
            }
            Err(Refused::NoMemory) => return Err(AllocError),
        }
        claim(alloc, &mut checkpoints, every, k + 1, cursor.state())?;
        progress.advance();
    }
    Ok(Ok(checkpoints))
}

/// The movie of `count` frames from `first` on, as many as the movie has, with a checkpoint after
/// each `every` of them; or the first fault of a frame up to the last of them. Each of these is told,
/// as a part of a work that has begun.
fn cut_of<P: Progress>(
    alloc: Global,
    movie: &Movie,
    first: NonZeroU32,
    count: u32,
    every: u32,
    progress: &P,
) -> Result<Result<Movie, RunFault>, AllocError>
    requires { IsTrue (counts_fit (frames_asked movie.now (non_zero_u32_get first) count) every) }
    ensures lawful { IfOk result (λ made. IfOk made (λ cut. IsMovie cut)) }
    ensures cut { IfOk result (λ made. IfOk made (λ cut. IsCutOf movie.now (non_zero_u32_get first) count every cut)) }
    ensures faults { IfOk result (λ made. IfErr made (λ fault.
        FaultsWithin movie.now (non_zero_u32_get first - 1 + frames_asked movie.now (non_zero_u32_get first) count) fault.frame fault.kind)) }
{
    let from = first.get() - 1;
    let frames = frames_asked(movie, first, count);
    let mut cursor = match cursor_in_work(alloc, movie, from, progress)? {
        Ok(cursor) => cursor,
        Err(fault) => return Ok(Err(fault)),
    };
    let start = copy_state(alloc, cursor.state())?;
    let Ok(checkpoints) = Vec::with_capacity(alloc, (frames / every) as usize) else {
        return Err(AllocError);
    };
    let checkpoints = match checkpoints_after(
        alloc,
        checkpoints,
        &mut cursor,
        frames,
        every,
        progress,
    )? {
        Ok(checkpoints) => checkpoints,
        Err(fault) => return Ok(Err(fault)),
    };
    let asked = &movie.inputs()[from as usize..(from + frames) as usize];
    let inputs = Vec::from_slice(alloc, asked)?;
    let cart = movie.cart().copy(alloc)?;
    let version = version_made(&cart, frames as usize);
    Ok(Ok(movie_of(version, cart, start, inputs, checkpoints)))
}

/// The same, where the frames up to the last of the cut are a work of their own.
pub(crate) fn cut_movie<P: Progress>(
    alloc: Global,
    movie: &Movie,
    first: NonZeroU32,
    count: u32,
    every: u32,
    progress: &P,
) -> Result<Result<Movie, RunFault>, AllocError>
    requires { IsTrue (counts_fit (frames_asked movie.now (non_zero_u32_get first) count) every) }
    ensures lawful { IfOk result (λ made. IfOk made (λ cut. IsMovie cut)) }
    ensures cut { IfOk result (λ made. IfOk made (λ cut. IsCutOf movie.now (non_zero_u32_get first) count every cut)) }
    ensures faults { IfOk result (λ made. IfErr made (λ fault.
        FaultsWithin movie.now (non_zero_u32_get first - 1 + frames_asked movie.now (non_zero_u32_get first) count) fault.frame fault.kind)) }
{
    let frames = frames_asked(movie, first, count);
    progress.begin(Work::Frames(first.get() - 1 + frames));
    let cut = cut_of(alloc, movie, first, count, every, progress);
    progress.end();
    cut
}
