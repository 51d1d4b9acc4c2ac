//! The steps on the desk's table, one for each kind of event, and one more load.
ghost use Rattle.segment_desk.specs.Private.DeskSteps.{staying_part, split_of, Drew, Looked, Reported};
ghost use Rattle.segment_desk.specs.Private.DeskSteps.{Settled};
ghost use Rattle.segment_desk.specs.Desk.{with_handed_in, spent_part};

use crate::part::Part;
use atomic_table::{Join, Play, Split};

/// 1 is added to the count.
pub(crate) struct Draw;

impl Play<(), Part> for Draw {
    ghost then = { Drew };
}

/// The least number is loaded.
pub(crate) struct Look;

impl Play<(), Part> for Look {
    ghost then = { Looked };
}

/// The least number becomes the smaller of itself and the reported one.
pub(crate) struct Report;

impl Play<(), Part> for Report {
    ghost then = { Reported };
}

/// A load that changes no part, and tells what a ticket that took another in knows.
pub(crate) struct Settle;

impl Play<(), Part> for Settle {
    ghost then = { Settled };
}

/// One share of a ticket goes to a fresh one.
pub(crate) struct CutOne;

impl Split<Part> for CutOne {
    ghost left = { staying_part };

    ghost right = { split_of };
}

/// A ticket takes another in.
pub(crate) struct HandIn;

impl Join<Part> for HandIn {
    ghost both = { with_handed_in };

    ghost spent = { spent_part };
}
