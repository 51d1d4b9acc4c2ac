//! The signs of segments that workers draw one by one, so that none waits while segments are left.
ghost use Rattle.std.specs.Prelude.{◌≡◌, ℕ, ◌+◌, ◌<◌, ◌≤◌, All, List, length, slice_get, IfOk, IfSome, OnErr};
ghost use Rattle.movie_file.specs.Movie.{MovieData};
ghost use Rattle.movie_machine.specs.Carts.{ram_length};
ghost use Rattle.replay_segments.specs.Cuts.{Fits};
ghost use Rattle.movie_report.specs.Private.FoundSigns.{AreFound, IsRow};
ghost use Rattle.movie_report.specs.Segments.{HasSign};

use crate::segments::{Sign, segment_sign};
use movie_file::{Movie, Progress, Work};
use replay_plan::Workers;
use replay_segments::Cuts;
use std::alloc::{AllocError, Global};
use std::sync::atomic::{AtomicU32, Ordering};
use std::thread;
use std::thread::Threads;

/// Finds the signs of the segments whose places, of `count` from segment `from` on, this worker draws
/// from a counter, until none is left. One is left out where memory is refused.
fn draw_signs<P: Progress>(
    alloc: Global,
    movie: &Movie,
    cuts: &Cuts,
    from: u32,
    count: u32,
    next: &AtomicU32,
    row: &mut [Option<Sign>],
    progress: &P,
)
    requires fit { Fits cuts.now movie.now }
    requires numbers { from + count ≤ length cuts.now + 1 }
    requires before { IsRow movie.now cuts.now from count row.old }
    ensures { IsRow movie.now cuts.now from count row.new }
{
    let _ = cuts.segments();
    for _ in 0..count {
        let place = next.fetch_add(1, Ordering::SeqCst);
        if place >= count {
            return;
        }
        row[place as usize] = segment_sign(alloc, movie, cuts, from + place).ok();
        progress.advance();
    }
}

/// The same by as many workers as there are rows, each of which finds signs for its row: one on the
/// calling thread, each other one in a thread of its own, or on the calling one where that is refused.
fn draw_by_workers<R: Threads + Sync, P: Progress + Sync>(
    rt: &R,
    alloc: Global,
    movie: &Movie,
    cuts: &Cuts,
    from: u32,
    count: u32,
    rows: &mut [Vec<Option<Sign>>],
    progress: &P,
)
    requires some { 0 < length rows.old }
    requires fit { Fits cuts.now movie.now }
    requires numbers { from + count ≤ length cuts.now + 1 }
    requires before { All (λ row. IsRow movie.now cuts.now from count row.items) rows.old }
    ensures { All (λ row. IsRow movie.now cuts.now from count row.items) rows.new }
{
    let next = AtomicU32::new(0);
    let workers = rows.len();
    let draw = |_: usize, row: &mut Vec<Option<Sign>>|
        requires { Fits cuts.now movie.now × (from + count ≤ length cuts.now + 1) × IsRow movie.now cuts.now from count row.now.items }
        ensures { IsRow movie.entry.now cuts.entry.now from count row.exit.now.items }
    { draw_signs(alloc, movie, cuts, from, count, &next, row, progress) };
    thread::for_each_mut(rt, rows, workers, &draw);
}

/// The sign at a place after segment `from`: the one that a worker found, or else it is found now.
fn sign_at(
    alloc: Global,
    movie: &Movie,
    cuts: &Cuts,
    from: u32,
    place: u32,
    rows: &[Vec<Option<Sign>>],
) -> Result<Sign, AllocError>
    requires fit { Fits cuts.now movie.now }
    requires number { from + place < length cuts.now + 1 }
    requires found { All (λ row. AreFound movie.now cuts.now from row.items) rows.now }
    ensures sign { IfOk result (HasSign movie.now cuts.now (from + place)) }
    ensures memory { OnErr result (0 < ram_length movie.now.cartridge) }
{
    let _ = cuts.segments();
    for row in rows {
        if let Some(Some(sign)) = row.get(place as usize) {
            return Ok(*sign);
        }
    }
    segment_sign(alloc, movie, cuts, from + place)
}

/// A row for each of so many workers, in which no sign is found yet.
fn rows_of(
    alloc: Global,
    workers: usize,
    count: usize,
) -> Result<Vec<Vec<Option<Sign>>>, AllocError>
    ensures len { IfOk result (λ rows. length rows.items ≡ workers) }
    ensures blank { IfOk result (λ rows. (m : MovieData) (cuts : List ℕ) (from : ℕ) → All (λ row. IsRow m cuts from count row.items) rows.items) }
{
    let mut rows = Vec::with_capacity(alloc, workers)?;
    for _ in 0..workers {
        rows.push(vec![in alloc; None; count]?)?;
    }
    Ok(rows)
}

/// The signs of so many segments from one on, by workers: a work, if there are some.
pub(crate) fn later_signs<R: Threads + Sync, P: Progress + Sync>(
    rt: &R,
    alloc: Global,
    movie: &Movie,
    cuts: &Cuts,
    from: u32,
    count: u32,
    workers: Workers,
    progress: &P,
) -> Result<Vec<Sign>, AllocError>
    requires fit { Fits cuts.now movie.now }
    requires numbers { from + count ≤ length cuts.now + 1 }
    ensures len { IfOk result (λ signs. length signs.items ≡ count) }
    ensures each { IfOk result (λ signs. (i : ℕ) → IfSome (slice_get signs.items i) (HasSign movie.now cuts.now (from + i))) }
{
    let workers = usize::from(workers.get()).min(count as usize);
    let mut rows = rows_of(alloc, workers, count as usize)?;
    if workers > 0 {
        progress.begin(Work::Segments(count));
        draw_by_workers(rt, alloc, movie, cuts, from, count, &mut rows, progress);
        progress.end();
    }
    let mut signs = Vec::with_capacity(alloc, count as usize)?;
    for place in 0..count {
        let sign = sign_at(alloc, movie, cuts, from, place, &rows)?;
        signs.push(sign)?;
    }
    Ok(signs)
}
