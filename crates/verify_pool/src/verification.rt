//! The verdict of a movie, by workers.
ghost use Rattle.std.specs.Prelude.{◌≡◌, ◌≢◌, ℕ, ◌+◌, ◌<◌, ◌≤◌, length, replicate, IfErr, IfOk};
ghost use Rattle.replay_segments.specs.Cuts.{Fits};
ghost use Rattle.replay_segments.specs.Verdicts.{IsVerdict};
ghost use Rattle.verify_pool.specs.Crew.{AreReady, shares};
ghost use Rattle.segment_desk.specs.Views.{first_ticket};

use crate::gate::Gate;
use crate::hand::Hand;
use crate::work::work_of;
use crate::workers::{NoThread, crew};
use movie_file::{Movie, Progress};
use refused::Refused;
use replay_plan::{Keep, Workers};
use replay_segments::{Cuts, Verdict, gather};
use segment_desk::{Desk, Ticket};
use std::alloc::{AllocError, Global};
use std::sync::Wait;
use std::thread::Threads;

/// A hand for each ticket of a new desk: each has room for a piece of each segment, and the first
/// has room for those of all.
fn hands_of(
    alloc: Global,
    desk: &Desk,
    segments: u32,
    mut tickets: Vec<Ticket>,
) -> Result<Vec<Hand>, AllocError>
    requires segments { segments ≡ desk.now.segments }
    requires workers { (0 < desk.now.workers) × (desk.now.workers < 256) }
    requires tickets { tickets.items ≡ replicate desk.now.workers (first_ticket desk.now) }
    ensures ready { IfOk result (λ hands. AreReady desk.now hands.items) }
    ensures shares { IfOk result (λ hands. shares hands.items ≡ desk.now.workers) }
    ensures len { IfOk result (λ hands. length hands.items ≡ desk.now.workers) }
{
    let workers = tickets.len();
    let mut hands = Vec::with_capacity(alloc, workers)?;
    let mut room = segments as usize * workers;
    while let Some(ticket) = tickets.pop() {
        let pieces = Vec::with_capacity(alloc, room)?;
        hands.push_reserved(Hand { ticket, pieces });
        room = segments as usize;
    }
    Ok(hands)
}

/// The verdict of a movie, by workers, who tell what they replay as a part of a work that has begun.
fn verdict_of<G: Gate + Progress + Sync, R: Threads + Wait + Sync>(
    rt: &R,
    alloc: Global,
    movie: &Movie,
    cuts: &Cuts,
    workers: Workers,
    keep: Keep,
    gate: &G,
) -> Result<Verdict, Refused<NoThread>>
    requires fit { Fits cuts.now movie.now }
    ensures verdict { IfOk result (λ verdict. IsVerdict movie.now keep verdict) }
    ensures no_thread { IfErr result (λ e. e ≢ Refused.NoMemory → (2 ≤ workers.number) × (2 ≤ length cuts.now + 1)) }
{
    let segments = cuts.segments();
    let workers = u32::from(workers.get()).min(segments) as u8;
    let Ok((desk, tickets)) = Desk::new(alloc, segments, workers) else {
        return Err(Refused::NoMemory);
    };
    let Ok(hands) = hands_of(alloc, &desk, segments, tickets) else {
        return Err(Refused::NoMemory);
    };
    let Ok(hand) = crew(rt, alloc, movie, cuts, keep, &desk, hands, gate) else {
        return Err(Refused::Of(NoThread));
    };
    let Hand { ticket, pieces } = hand;
    drop(ticket);
    match gather(alloc, pieces, segments) {
        Ok(verdict) => Ok(verdict),
        Err(Refused::NoMemory) => Err(Refused::NoMemory),
        Err(Refused::Of(_)) => unreachable!(),
    }
}

/// The verdict of a movie, which is that of one unbroken run from its start state, by workers, who
/// replay the segments between the cuts: one on the calling thread, each other one in a thread of
/// its own. The cuts fit the movie. If there is one worker, or one segment, no thread is
/// started.
///
/// It joins its threads, so it returns if each of them does. It is refused in this order:
/// NoMemory for the desk or the lists of pieces; NoThread; and NoMemory, if that was the outcome
/// of the first segment that did not pass, or for the list of all pictures.
///
/// It is a work: of the movie's frames if there are at most two segments, and else of its segments. A
/// frame that is played is told between `enter` and `leave`, and a segment that is replayed after
/// `leave`.
pub fn verify<G: Gate + Progress + Sync, R: Threads + Wait + Sync>(
    rt: &R,
    alloc: Global,
    movie: &Movie,
    cuts: &Cuts,
    workers: Workers,
    keep: Keep,
    gate: &G,
) -> Result<Verdict, Refused<NoThread>>
    requires fit { Fits cuts.now movie.now }
    ensures verdict { IfOk result (λ verdict. IsVerdict movie.now keep verdict) }
    ensures no_thread { IfErr result (λ e. e ≢ Refused.NoMemory → (2 ≤ workers.number) × (2 ≤ length cuts.now + 1)) }
{
    gate.begin(work_of(movie, cuts));
    let verdict = verdict_of(rt, alloc, movie, cuts, workers, keep, gate);
    gate.end();
    verdict
}
