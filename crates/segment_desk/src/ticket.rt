//! A worker's right to draw.

use crate::part::Part;
use atomic_table::Seat;
use std::marker::Model;

/// A worker's right to draw. Contracts see its part of the desk's history.
///
/// What it drew is lost to the desk if it is dropped and not handed in.
#[derive(Drop)]
pub struct Ticket {
    pub(crate) seat: Seat<(), Part>,
    pub(crate) ended: bool,
}

impl Model for Ticket {
    ghost use Rattle.std.specs.Prelude.{◌≡◌, ◌<◌, []};
    ghost use Rattle.segment_desk.specs.Kept.{IsKnown};
    ghost use Rattle.segment_desk.specs.Views.{TicketView};

    ghost Value = { TicketView };

    ghost view = { λ t. record { desk = t.seat.table_id; part = t.seat.me.0 } };

    ghost invariant = { λ t. (t.seat.me.1 ≡ []) × (t.ended ≡ t.seat.me.0.ended)
        × (0 < t.seat.me.0.share) × IsKnown t.seat.me.0 };
}

impl Ticket {
    ghost use Rattle.std.specs.Prelude.{◌≡◌};
    ghost use Rattle.segment_desk.specs.Kept.{IsKnown};

    /// Whether a draw found no number left. Contracts learn from it what every ticket knows.
    pub fn has_ended(&self) -> bool
        ensures value { result ≡ self.now.part.ended }
        ensures known { IsKnown self.now.part }
    {
        self.ended
    }
}
