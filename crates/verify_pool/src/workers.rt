//! Workers side by side at one desk.
ghost use Rattle.std.specs.Prelude.{◌≡◌, ℕ, ◌+◌, ◌*◌, ◌≤◌, length, IfOk, OnErr, vec_len};
ghost use Rattle.std.specs.Prelude.{vec_capacity};
ghost use Rattle.replay_segments.specs.Cuts.{Fits};
ghost use Rattle.replay_segments.specs.Pieces.{Job, job_of};
ghost use Rattle.verify_pool.specs.Crew.{AreReady, IsReady, IsWorked, first_room, shares};
ghost use Rattle.segment_desk.specs.Views.{IsOf};

use crate::gate::Gate;
use crate::hand::Hand;
use crate::worker::Shared;
use movie_file::{Movie, Progress};
use replay_plan::Keep;
use replay_segments::Cuts;
use segment_desk::Desk;
use std::alloc::Global;
use std::snapshot::Snapshot;
use std::sync::Wait;
use std::thread;
use std::thread::{Promise, PromisedHandle, Scope, Threads};

/// A thread could not be started.
#[derive(Clone, Copy, Debug, PartialEq, Eq)]
pub struct NoThread;

/// What a worker promises of the hand that it gives back.
#[derive(Drop)]
struct WorkerPromise {
    movie: Snapshot<Movie>,
    cuts: Snapshot<Cuts>,
    keep: Keep,
    desk: Snapshot<Desk>,
    hand: Snapshot<Hand>,
}

impl Promise<Hand> for WorkerPromise {
    ghost use Rattle.std.specs.Prelude.{◌≤◌, vec_len};
    ghost use Rattle.replay_segments.specs.Pieces.{job_of};
    ghost use Rattle.verify_pool.specs.Crew.{IsWorked};

    ghost kept_by = { λ p hand.
        IsWorked p.desk.value (job_of p.movie.value p.cuts.value p.keep) p.hand.value.ticket.part.share hand
        × (vec_len hand.pieces ≤ p.desk.value.segments) };
}

/// The first hand, with the numbers and the pieces of the second as well.
fn unite(desk: &Desk, first: Hand, second: Hand) -> Hand
    requires own { IsOf desk.now first.ticket × IsOf desk.now second.ticket }
    requires room { vec_len first.pieces + vec_len second.pieces ≤ vec_capacity first.pieces }
    ensures worked { (job : Job) (a b : ℕ) → IsWorked desk.now job a first → IsWorked desk.now job b second → IsWorked desk.now job (a + b) result }
    ensures len { vec_len result.pieces ≡ vec_len first.pieces + vec_len second.pieces }
    ensures room { vec_capacity first.pieces ≤ vec_capacity result.pieces }
{
    let Hand {
        mut ticket,
        mut pieces,
    } = first;
    let Hand {
        ticket: other,
        pieces: mut others,
    } = second;
    desk.hand_in(&mut ticket, other);
    let Ok(()) = pieces.append(&mut others) else {
        unreachable!()
    };
    Hand { ticket, pieces }
}

/// Starts a thread that works on a hand. Its handle promises what a worker does of what is shared
/// and of that hand.
fn start<'s, E, G: Gate + Progress + Sync>(
    scope: &'s Scope<'s, E>,
    shared: &Shared<'s, G>,
    hand: Hand,
) -> Result<PromisedHandle<Hand, WorkerPromise>, NoThread>
    requires ready { IsReady shared.now.desk.now hand }
    ensures movie { IfOk result (λ worker. worker.promise.movie.value ≡ shared.now.movie.now) }
    ensures cuts { IfOk result (λ worker. worker.promise.cuts.value ≡ shared.now.cuts.now) }
    ensures keep { IfOk result (λ worker. worker.promise.keep ≡ shared.now.keep) }
    ensures desk { IfOk result (λ worker. worker.promise.desk.value ≡ shared.now.desk.now) }
    ensures hand { IfOk result (λ worker. worker.promise.hand.value ≡ hand) }
{
    let Shared {
        alloc,
        movie,
        cuts,
        keep,
        desk,
        gate,
    } = *shared;
    let promise = WorkerPromise {
        movie: Snapshot::of(movie),
        cuts: Snapshot::of(cuts),
        keep,
        desk: Snapshot::of(desk),
        hand: Snapshot::of(&hand),
    };
    let started = scope.spawn_with(
        promise,
        move || -> Hand
            requires fit { Fits cuts.now movie.now }
            requires size { desk.now.segments ≡ length cuts.now + 1 }
            requires ready { IsReady desk.now hand }
            ensures worked { IsWorked desk.entry.now (job_of movie.entry.now cuts.entry.now keep) hand.ticket.part.share result }
            ensures few { vec_len result.pieces ≤ desk.entry.now.segments }
        {
            let shared = Shared {
                alloc,
                movie,
                cuts,
                keep,
                desk,
                gate,
            };
            shared.work(hand)
        },
    );
    let Ok(worker) = started else {
        return Err(NoThread);
    };
    Ok(worker)
}

/// Works on all hands, the last one in a thread of its own, and the first one on the calling
/// thread.
fn crew_within<'s, E, G: Gate + Progress + Sync, R: Threads + Wait + Sync>(
    scope: &'s Scope<'s, E>,
    rt: &'s R,
    shared: &Shared<'s, G>,
    mut hands: Vec<Hand>,
) -> Result<Hand, NoThread>
    requires ready { AreReady shared.now.desk.now hands.items }
    ensures worked { IfOk result
        (λ hand. IsWorked shared.now.desk.now
        (job_of shared.now.movie.now shared.now.cuts.now shared.now.keep) (shares hands.items) hand) }
    ensures few { IfOk result (λ hand. vec_len hand.pieces ≤ shared.now.desk.now.segments * length hands.items) }
    ensures room { IfOk result (λ hand. first_room hands.items ≤ vec_capacity hand.pieces) }
    ensures refused { OnErr result (2 ≤ length hands.items) }
{
    let Some(hand) = hands.pop() else {
        unreachable!()
    };
    if hands.is_empty() {
        return Ok(shared.work(hand));
    }
    let worker = start(scope, shared, hand)?;
    let rest = crew_within(scope, rt, shared, hands);
    let last = worker.join(rt);
    let Ok(first) = rest else {
        return Err(NoThread);
    };
    Ok(unite(shared.desk, first, last))
}

/// Works on all hands until their tickets have ended, each hand but the first in a thread of its
/// own, and gives back the first with the numbers and the pieces of all. The cuts fit the movie,
/// and the desk is for its segments.
///
/// A worker looks after each draw, and passes a segment over if a smaller one is known not to
/// have passed. Of each other one it tells the gate, replays it, and reports it unless it passed.
///
/// One hand is worked on by the calling thread, without another. NoThread comes if the start of
/// a thread was refused, for any cause, after those that were started have ended.
///
/// What is replayed is told, as a part of a work that has begun.
pub fn crew<G: Gate + Progress + Sync, R: Threads + Wait + Sync>(
    rt: &R,
    alloc: Global,
    movie: &Movie,
    cuts: &Cuts,
    keep: Keep,
    desk: &Desk,
    hands: Vec<Hand>,
    gate: &G,
) -> Result<Hand, NoThread>
    requires fit { Fits cuts.now movie.now }
    requires desk { desk.now.segments ≡ length cuts.now + 1 }
    requires ready { AreReady desk.now hands.items }
    ensures worked { IfOk result (λ hand. IsWorked desk.now (job_of movie.now cuts.now keep) (shares hands.items) hand) }
    ensures refused { OnErr result (2 ≤ length hands.items) }
{
    thread::scope(
        thread::scope_env(),
        rt,
        |scope| -> Result<Hand, NoThread>
            requires fit { Fits cuts.now movie.now }
            requires desk { desk.now.segments ≡ length cuts.now + 1 }
            requires ready { AreReady desk.now hands.items }
            ensures worked { IfOk result (λ hand. IsWorked desk.entry.now (job_of movie.entry.now cuts.entry.now keep) (shares hands.items) hand) }
            ensures refused { OnErr result (2 ≤ length hands.items) }
        {
            let shared = Shared {
                alloc,
                movie,
                cuts,
                keep,
                desk,
                gate,
            };
            crew_within(scope, rt, &shared, hands)
        },
    )
}
