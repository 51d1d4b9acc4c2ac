//! The desk, as two atomic words.
ghost use Rattle.std.specs.Prelude.{◌≡◌, ℕ, ◌+◌, ◌-◌, ◌<◌, ◌≤◌, false, Some, IfOk, IfSome};
ghost use Rattle.std.specs.Prelude.{MatchOption, replicate};

use crate::part::Part;
use crate::rule::{Rule, Size};
use crate::steps::{CutOne, Draw, HandIn, Look, Report, Settle};
use crate::ticket::Ticket;
use atomic_table::Table;
use std::alloc::{AllocError, Global};
use std::marker::Model;

/// It gives out the numbers of segments, each once, and keeps the least that was reported bad.
///
/// Threads share it by reference. No call waits, and after `new` none takes memory.
#[derive(Drop)]
pub struct Desk {
    table: Table<(), Part, Size, Rule, Global>,
    segments: u32,
}

impl Model for Desk {
    ghost use Rattle.std.specs.Prelude.{◌≡◌, ◌^◌, ◌<◌};
    ghost use Rattle.segment_desk.specs.Views.{DeskView};

    ghost Value = { DeskView };

    ghost view = { λ d. record {
      id = d.table.shared.table_id;
      segments = d.segments;
      workers = d.table.shared.key.workers;
    } };

    ghost invariant = { λ d. (d.table.shared.table_id.words ≡ 2)
        × (d.table.shared.key.segments ≡ d.segments) × (d.segments < 2 ^ 32) };
}

impl Desk {
    ghost use Rattle.segment_desk.specs.Desk.{times, with_drawn, at_end, look_at, report_at};
    ghost use Rattle.segment_desk.specs.Desk.{with_handed_in, StandsIn};
    ghost use Rattle.segment_desk.specs.Kept.{IsKnown};
    ghost use Rattle.segment_desk.specs.Views.{IsOf, IsBelowSeen, first_ticket, shared_ticket};

    /// A desk, and a ticket for each worker.
    ///
    /// There are three allocations, of the list and of the table's two blocks. `AllocError` comes
    /// only if one was refused.
    pub fn new(alloc: Global, segments: u32, workers: u8) -> Result<(Desk, Vec<Ticket>), AllocError>
        requires segments { 0 < segments }
        requires workers { 0 < workers }
        ensures { IfOk result (λ r. (r.0.segments ≡ segments) × (r.0.workers ≡ workers)
            × (r.1.items ≡ replicate workers (first_ticket r.0))) }
    {
        let mut tickets = Vec::with_capacity(alloc, workers as usize)?;
        let size = Size { segments, workers };
        let (table, seat) = Table::of_words(alloc, &[0, segments as u64], &size)?;
        let desk = Desk { table, segments };
        let mut first = Ticket { seat, ended: false };
        for taken in 0..workers - 1 {
            let ticket = desk.split(&mut first, workers - taken);
            tickets.push_reserved(ticket);
        }
        tickets.push_reserved(first);
        Ok((desk, tickets))
    }

    /// Takes one share from a ticket that has done nothing, and stands for `_share` of them.
    fn split(&self, ticket: &mut Ticket, _share: u8) -> Ticket
        requires fresh { ticket.old ≡ shared_ticket self.now _share }
        requires share { 1 < _share }
        ensures kept { ticket.new ≡ shared_ticket self.now (_share - 1) }
        ensures taken { result ≡ first_ticket self.now }
    {
        let seat = self.table.shared.split_seat::<CutOne>(&mut ticket.seat);
        Ticket { seat, ended: false }
    }

    /// The next number, from 0. It is `None` once all are drawn, and then always for that ticket,
    /// without a step.
    pub fn draw(&self, ticket: &mut Ticket) -> Option<u32>
        requires { IsOf self.now ticket.old }
        ensures own { IsOf self.now ticket.new }
        ensures event { MatchOption result (ticket.new.part ≡ at_end ticket.old.part)
            (λ k. (ticket.old.part.ended ≡ false) × (k < self.now.segments)
            × (ticket.new.part ≡ with_drawn k ticket.old.part)) }

        // The number is the count in a state that events reach, where the ticket has this part.
        ensures state { IfSome result (λ k. StandsIn (λ s. s.count ≡ k) ticket.old.part) }
        ensures rising { IfSome result (λ k. (j : ℕ) → 0 < times j ticket.old.part.drawn → j < k) }
        ensures not_passed { IfSome result (λ k. times k ticket.new.part.passed_over ≡ 0) }
        ensures after_last { IfSome result (λ k. (j : ℕ) → ticket.old.part.last ≡ Some j → j < k) }
        ensures known { IsKnown ticket.new.part }
    {
        if ticket.ended {
            return None;
        }
        let found = self.table.shared.fetch_add::<Draw>(&mut ticket.seat, 0, 1);
        if found < self.segments as u64 {
            Some(found as u32)
        } else {
            ticket.ended = true;
            None
        }
    }

    /// The least number that was reported bad, or the number of segments. If it is below the
    /// ticket's last drawn number, that one is passed over in this step.
    pub fn least_bad(&self, ticket: &mut Ticket) -> u32
        requires { IsOf self.now ticket.old }
        ensures own { IsOf self.now ticket.new }
        ensures event { ticket.new.part ≡ look_at result ticket.old.part }

        // It is the least number in a state that events reach, where the ticket has this part.
        ensures state { StandsIn (λ s. s.least ≡ result) ticket.old.part }
        ensures still { (k : ℕ) → ticket.old.part.last ≡ Some k → k ≤ result
            → ticket.new.part.passed_over ≡ ticket.old.part.passed_over }
        ensures passes { (k : ℕ) → ticket.old.part.last ≡ Some k → result < k
            → 0 < times k ticket.new.part.passed_over }
        ensures least { (result ≤ self.now.segments) × IsBelowSeen result ticket.old.part }
        ensures known { IsKnown ticket.new.part }
    {
        self.table.shared.load::<Look>(&mut ticket.seat, 1) as u32
    }

    /// Reports bad the number that the ticket drew last, which it has not passed over.
    pub fn report_bad(&self, ticket: &mut Ticket, number: u32)
        requires own { IsOf self.now ticket.old }
        requires last { (ticket.old.part.last ≡ Some number)
            × (times number ticket.old.part.passed_over ≡ 0) }
        ensures own { IsOf self.now ticket.new }

        // x is the least number as the report found it, in a state that events reach.
        ensures event { (x : ℕ) × (ticket.new.part ≡ report_at x number ticket.old.part)
            × (x ≤ self.now.segments) × IsBelowSeen x ticket.old.part
            × StandsIn (λ s. s.least ≡ x) ticket.old.part }
        ensures known { IsKnown ticket.new.part }
    {
        self.table
            .shared
            .fetch_min::<Report>(&mut ticket.seat, 1, number as u64);
    }

    /// `into` then has the numbers of both, of which none is the same, and stands for the workers
    /// of both. It has ended if either had.
    pub fn hand_in(&self, into: &mut Ticket, from: Ticket)
        requires into { IsOf self.now into.old }
        requires from { IsOf self.now from }
        ensures own { IsOf self.now into.new }
        ensures event { into.new.part ≡ with_handed_in into.old.part from.part }
        ensures apart { (k : ℕ) → times k into.old.part.drawn + times k from.part.drawn ≤ 1 }
        ensures known { IsKnown into.new.part }
    {
        let Ticket { seat, ended } = from;
        let shared = &self.table.shared;
        shared.join_seat::<HandIn>(&mut into.seat, seat);
        // The joined part is told by the next step alone.
        shared.load::<Settle>(&mut into.seat, 0);
        into.ended = into.ended || ended;
    }
}
