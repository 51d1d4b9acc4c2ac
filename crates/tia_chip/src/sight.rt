//! What is seen of the objects.
ghost use Rattle.std.specs.Prelude.{◌≡◌};
ghost use Rattle.tia_chip.specs.Clock.{looked_at, without_seen};
ghost use Rattle.tia_chip.specs.Private.Ranges.{IsInRange};

use crate::state::TiaState;

/// Looks at each object.
pub fn look(tia: &mut TiaState)
    requires { IsInRange tia.old }
    ensures value { tia.new ≡ looked_at tia.old }
    ensures range { IsInRange tia.new }
{
    tia.player0.look();
    tia.player1.look();
    tia.missile0.look();
    tia.missile1.look();
    tia.ball.look();
}

/// Forgets what was seen.
#[inline(always)]
pub fn forget_seen(tia: &mut TiaState)
    requires { IsInRange tia.old }
    ensures value { tia.new ≡ without_seen tia.old }
    ensures range { IsInRange tia.new }
{
    tia.player0.seen = false;
    tia.player1.seen = false;
    tia.missile0.seen = false;
    tia.missile1.seen = false;
    tia.ball.seen = false;
}
