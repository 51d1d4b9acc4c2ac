//! The rule of the desk's table.
ghost use Rattle.segment_desk.specs.Desk.{fresh_part};
ghost use Rattle.segment_desk.specs.Tables.{IsRuled};

use crate::part::Part;
use atomic_table::TableRule;

/// What the table is told once: how many numbers there are, and how many tickets.
#[derive(Clone, Copy)]
pub(crate) struct Size {
    pub segments: u32,
    pub workers: u8,
}

/// Between any two steps the table shows a state that the desk's events reach.
pub(crate) struct Rule;

impl TableRule<(), Part, Size> for Rule {
    ghost holds = { λ size. IsRuled size.segments size.workers };

    ghost first = { λ size. fresh_part size.segments size.workers size.workers };
}
