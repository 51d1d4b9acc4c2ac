//! The law of the desk.
ghost use Rattle.std.specs.Prelude.{ℕ};
ghost use Rattle.segment_desk.specs.Desk.{DeskState, Reached};
ghost use Rattle.segment_desk.specs.Kept.{IsDesk};
ghost use Rattle.segment_desk.specs.Tables.{TableState, IsRuled, desk_of};

/// What holds between any two steps at a desk, whoever takes them: it follows from the events
/// alone, and the rule of the desk's table is that it shows a state that events reach.
pub const fn law_of_desk_states()
    ensures events { (n w : ℕ) (s : DeskState) → Reached n w s → IsDesk n w s }
    ensures table { (n w : ℕ) (s : TableState) → IsRuled n w s → IsDesk n w (desk_of s) }
{}
