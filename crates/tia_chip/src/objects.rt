//! The objects that are lit.
ghost use Rattle.std.specs.Prelude.{◌≡◌};
ghost use Rattle.tia_chip.specs.Objects.{lit_objects};
ghost use Rattle.tia_chip.specs.Private.Lines.{lit_somewhere};

use crate::state::TiaState;

/// A set of the six objects.
#[derive(Clone, Copy, Debug, PartialEq, Eq)]
pub struct Objects {
    pub player0: bool,
    pub player1: bool,
    pub missile0: bool,
    pub missile1: bool,
    pub ball: bool,
    pub playfield: bool,
}

impl Objects {
    /// The objects that are lit.
    pub fn lit(tia: &TiaState) -> Self
        ensures { result ≡ lit_objects tia.now }
    {
        Objects {
            player0: tia.player0.seen,
            player1: tia.player1.seen,
            missile0: tia.missile0.is_lit(),
            missile1: tia.missile1.is_lit(),
            ball: tia.ball.is_lit(),
            playfield: tia.playfield,
        }
    }

    /// The objects that may be lit at some pixel of a line, as far as their registers say.
    pub fn lit_somewhere(tia: &TiaState) -> Self
        ensures { result ≡ lit_somewhere tia.now }
    {
        Objects {
            player0: tia.player0.has_dots(),
            player1: tia.player1.has_dots(),
            missile0: tia.missile0.is_enabled(),
            missile1: tia.missile1.is_enabled(),
            ball: tia.ball.is_enabled(),
            playfield: tia.playfield || tia.pf0 != 0 || tia.pf1 != 0 || tia.pf2 != 0,
        }
    }
}
