//! The pixels that the objects light.
ghost use Rattle.std.specs.Prelude.{◌≡◌, ◌<◌, ◌≤◌, ◌^◌, bit_and, not, ◌==◌};
ghost use Rattle.tia_chip.specs.Calm.{after_steps};
ghost use Rattle.tia_chip.specs.Private.Lines.{AreLit, lit_at, union_of, pairs_in};
ghost use Rattle.tia_chip.specs.Private.Ranges.{IsInRange};

use crate::bits::has_pixel;
use crate::collision::number_of;
use crate::objects::Objects;
use crate::state::TiaState;

/// Which of up to 64 pixels of a line each object but the playfield lights: bit k is that of the k-th.
#[derive(Clone, Copy, Debug)]
pub struct LitPixels {
    pub player0: u64,
    pub player1: u64,
    pub missile0: u64,
    pub missile1: u64,
    pub ball: u64,
}

/// Whether two objects light a pixel together.
#[inline(always)]
fn meet(first: u64, second: u64) -> bool
    ensures { result ≡ not (bit_and first second == 0) }
{
    first & second != 0
}

impl LitPixels {
    /// Those of so many steps in the picture, at most 64, of the objects of a TIA, which makes them.
    pub fn of_steps(tia: &mut TiaState, count: u8) -> Self
        requires range { IsInRange tia.old }
        requires some { 1 ≤ count }
        requires most { count ≤ 64 }
        ensures value { tia.new ≡ after_steps count tia.old }
        ensures lit { AreLit result count tia.old }
        ensures range { IsInRange tia.new }
    {
        let (clock, ctrlpf) = (tia.clock, tia.ctrlpf);
        let (nusiz0, nusiz1) = (tia.player0.nusiz, tia.player1.nusiz);
        LitPixels {
            player0: tia.player0.steps(count),
            player1: tia.player1.steps(count),
            missile0: tia.missile0.steps(nusiz0, clock, count),
            missile1: tia.missile1.steps(nusiz1, clock, count),
            ball: tia.ball.steps(ctrlpf, count),
        }
    }

    /// The objects that light pixel `k`, where the playfield does or doesn't.
    #[inline(always)]
    pub fn objects(&self, k: u8, playfield: bool) -> Objects
        requires { k < 64 }
        ensures { result ≡ lit_at self.now k playfield }
    {
        Objects {
            player0: has_pixel(self.player0, k),
            player1: has_pixel(self.player1, k),
            missile0: has_pixel(self.missile0, k),
            missile1: has_pixel(self.missile1, k),
            ball: has_pixel(self.ball, k),
            playfield,
        }
    }

    /// The pixels that one of them lights.
    #[inline(always)]
    pub fn union(&self) -> u64
        ensures { result ≡ union_of self.now }
    {
        self.player0 | self.player1 | self.missile0 | self.missile1 | self.ball
    }

    /// The collision bits of the pairs that meet in some pixel, where the playfield lights these.
    pub fn pairs(&self, playfield: u64) -> u16
        ensures value { result ≡ pairs_in self.now playfield }
        ensures range { result < 2 ^ 15 }
    {
        number_of(&[
            meet(self.missile0, self.player1),
            meet(self.missile0, self.player0),
            meet(self.missile1, self.player0),
            meet(self.missile1, self.player1),
            meet(self.player0, playfield),
            meet(self.player0, self.ball),
            meet(self.player1, playfield),
            meet(self.player1, self.ball),
            meet(self.missile0, playfield),
            meet(self.missile0, self.ball),
            meet(self.missile1, playfield),
            meet(self.missile1, self.ball),
            meet(self.ball, playfield),
            meet(self.player0, self.player1),
            meet(self.missile0, self.missile1),
        ])
    }
}
