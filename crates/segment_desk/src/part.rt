//! What a ticket knows: its part of the desk's history.
ghost use Rattle.std.specs.Prelude.{ℕ, Bool, List, Option};
ghost use Rattle.std.specs.Borrow.{ftrue};

use std::marker::Model;

/// A ticket's part of the desk's history, for contracts alone: no value of it is made.
pub struct Part {
    /// How many numbers the desk gives out.
    pub ghost segments: { ℕ },
    /// How many tickets the desk was made with.
    pub ghost workers: { ℕ },
    /// The numbers that the ticket drew.
    pub ghost drawn: { List ℕ },
    /// Those of them that it reported bad.
    pub ghost reported: { List ℕ },
    /// Those of them that it passed over, since a smaller number was bad.
    pub ghost passed_over: { List ℕ },
    /// The number that it drew last.
    pub ghost last: { Option ℕ },
    /// The least number that it has seen: a bad one, or the number of segments if none was
    /// reported. It is `None` if the ticket has neither looked nor reported.
    pub ghost seen: { Option ℕ },
    /// Whether a draw found no number left.
    pub ghost ended: { Bool },
    /// The number of first tickets for which it stands.
    pub ghost share: { ℕ },
}

impl Model for Part {
    ghost also_owns = { λ _. ftrue };
}
