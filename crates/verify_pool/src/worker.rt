//! What workers share, and one worker, which draws segments and replays them.
ghost use Rattle.std.specs.Prelude.{◌≡◌, ◌+◌, ◌<◌, ◌≤◌, ◌⊎◌, length, true, false, Some, vec_len};
ghost use Rattle.std.specs.Prelude.{vec_capacity, IsTrue, OnErr};
ghost use Rattle.replay_segments.specs.Cuts.{Fits};
ghost use Rattle.replay_segments.specs.Pieces.{job_of, TakesMemory, passed};
ghost use Rattle.verify_pool.specs.Crew.{IsReady, IsWorked};
ghost use Rattle.segment_desk.specs.Desk.{times};
ghost use Rattle.verify_pool.specs.Private.Draws.{left_of};
ghost use Rattle.verify_pool.specs.WorkerPieces.{IsExact};
ghost use Rattle.verify_pool.specs.Private.Replays.{IsReplayed};
ghost use Rattle.segment_desk.specs.Kept.{IsKnown};
ghost use Rattle.segment_desk.specs.Views.{IsOf};

use crate::gate::Gate;
use crate::hand::Hand;
use crate::work::counts_frames;
use movie_file::{Movie, NoProgress, Progress};
use replay_plan::Keep;
use replay_segments::{Cuts, Piece, replay};
use segment_desk::{Desk, Ticket};
use std::alloc::Global;

/// What workers share. The cuts fit the movie, and the desk is for its segments.
#[derive(Drop)]
pub(crate) struct Shared<'s, G> {
    /// Where pieces take their memory.
    pub(crate) alloc: Global,
    /// The movie that is replayed.
    pub(crate) movie: &'s Movie,
    /// Where it is cut into segments.
    pub(crate) cuts: &'s Cuts,
    /// Which frames are kept.
    pub(crate) keep: Keep,
    /// Where segments are drawn and reported.
    pub(crate) desk: &'s Desk,
    /// What is called around each replay, and to which its progress is told.
    pub(crate) gate: &'s G,
    ghost fit: { Fits cuts.now movie.now },
    ghost size: { desk.now.segments ≡ length cuts.now + 1 },
}

/// Reports the segment that the ticket drew last, which has this piece, unless that passed.
fn report_unless_passed(desk: &Desk, ticket: &mut Ticket, piece: &Piece)
    requires own { IsOf desk.now ticket.old }
    requires last { ticket.old.part.last ≡ Some piece.now.number }
    requires not_passed_over { times piece.now.number ticket.old.part.passed_over ≡ 0 }
    ensures own { IsOf desk.now ticket.new }
    ensures last { ticket.new.part.last ≡ ticket.old.part.last }
    ensures known { IsKnown ticket.old.part → IsKnown ticket.new.part }
    ensures replayed { IsReplayed (passed piece.now.outcome) piece.now.number ticket.old.part ticket.new.part }
    ensures reported { IsTrue (passed piece.now.outcome) ⊎ (0 < times piece.now.number ticket.new.part.reported) }
{
    let number = piece.number();
    if !piece.passed() {
        desk.report_bad(ticket, number);
    }
}

impl<'s, G: Gate + Progress> Shared<'s, G> {
    /// Replays a segment, whose frames are told if the verdict counts frames.
    fn replay(&self, number: u32) -> Piece
        requires { number < length self.now.cuts.now + 1 }
        ensures number { result.number ≡ number }
        ensures job { result.job ≡ job_of self.now.movie.now self.now.cuts.now self.now.keep }
        ensures memory { OnErr result.outcome (TakesMemory (job_of self.now.movie.now self.now.cuts.now self.now.keep) number) }
    {
        if counts_frames(self.cuts) {
            return replay(
                self.alloc, self.movie, self.cuts, self.keep, number, self.gate,
            );
        }
        let untold = &NoProgress;
        replay(self.alloc, self.movie, self.cuts, self.keep, number, untold)
    }

    /// Replays the segment that the ticket drew last, and reports it unless it passes. That it is
    /// done is told, unless its frames were.
    fn replay_drawn(&self, ticket: &mut Ticket, number: u32) -> Piece
        requires number { number < length self.now.cuts.now + 1 }
        requires own { IsOf self.now.desk.now ticket.old }
        requires last { (ticket.old.part.last ≡ Some number) × (times number ticket.old.part.passed_over ≡ 0) }
        ensures own { IsOf self.now.desk.now ticket.new }
        ensures known { IsKnown ticket.old.part → IsKnown ticket.new.part }
        ensures number { result.number ≡ number }
        ensures job { result.job ≡ job_of self.now.movie.now self.now.cuts.now self.now.keep }
        ensures memory { OnErr result.outcome (TakesMemory (job_of self.now.movie.now self.now.cuts.now self.now.keep) number) }
        ensures replayed { IsReplayed (passed result.outcome) number ticket.old.part ticket.new.part }
    {
        self.gate.enter(ticket, number);
        let piece = self.replay(number);
        report_unless_passed(self.desk, ticket, &piece);
        self.gate.leave(ticket, &piece);
        if !counts_frames(self.cuts) {
            self.gate.advance();
        }
        piece
    }

    /// Draws a segment and replays it, unless a smaller one is known not to have passed. False
    /// if none is left.
    fn work_once(&self, ticket: &mut Ticket, pieces: &mut Vec<Piece>) -> bool
        requires own { IsOf self.now.desk.now ticket.old }
        requires known { IsKnown ticket.old.part }
        requires exact { IsExact (job_of self.now.movie.now self.now.cuts.now self.now.keep) ticket.old.part pieces.old.items }
        requires left { vec_len pieces.old + left_of ticket.old.part ≤ self.now.desk.now.segments + 1 }
        requires room { self.now.desk.now.segments ≤ vec_capacity pieces.old }
        ensures own { IsOf self.now.desk.now ticket.new }
        ensures known { IsKnown ticket.new.part }
        ensures exact { IsExact (job_of self.now.movie.now self.now.cuts.now self.now.keep) ticket.new.part pieces.new.items }
        ensures share { ticket.new.part.share ≡ ticket.old.part.share }
        ensures capacity { vec_capacity pieces.new ≡ vec_capacity pieces.old }
        ensures left { vec_len pieces.new + left_of ticket.new.part ≤ self.now.desk.now.segments + 1 }
        ensures fewer { result ≡ true → left_of ticket.new.part < left_of ticket.old.part }
        ensures ended { result ≡ false → ticket.new.part.ended ≡ true }
    {
        let Some(number) = self.desk.draw(ticket) else {
            return false;
        };
        if self.desk.least_bad(ticket) < number {
            return true;
        }
        let piece = self.replay_drawn(ticket, number);
        pieces.push_reserved(piece);
        true
    }

    /// Works on a hand until its ticket has ended, and gives it back.
    pub(crate) fn work(&self, hand: Hand) -> Hand
        requires ready { IsReady self.now.desk.now hand }
        ensures worked { IsWorked self.now.desk.now (job_of self.now.movie.now self.now.cuts.now self.now.keep) hand.ticket.part.share result }
        ensures few { vec_len result.pieces ≤ self.now.desk.now.segments }
        ensures room { vec_capacity hand.pieces ≤ vec_capacity result.pieces }
    {
        let Hand {
            mut ticket,
            mut pieces,
        } = hand;
        let _ = ticket.has_ended();
        while self.work_once(&mut ticket, &mut pieces) {}
        Hand { ticket, pieces }
    }
}
