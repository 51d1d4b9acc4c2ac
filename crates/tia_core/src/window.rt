//! The six objects in a few pixels of a line, and the pairs that meet there.
ghost use Rattle.std.specs.Prelude.{◌≡◌, ◌<◌, ◌≤◌, ◌-◌, ◌^◌, ℕ, true, false, nat_lt};
ghost use Rattle.tia_core.specs.Bits.{has_bit};
ghost use Rattle.tia_core.specs.Collision.{number_from};
ghost use Rattle.tia_core.specs.Private.ObjectSets.{has_two};
ghost use Rattle.tia_core.specs.Private.ObjectMasks.{AreInWindow};
ghost use Rattle.tia_core.specs.Private.StretchPairs.{pairs_of_bl, pairs_of_m0, pairs_of_m1};
ghost use Rattle.tia_core.specs.Private.StretchPairs.{pairs_of_p0, pairs_of_p1, stretch_pairs};

use crate::collision::bit;
use crate::fields::TiaFields;
use crate::mask::{all_overlap, overlap, set_twice};

/// The most pixels of a window.
pub const MOST_PIXELS: u8 = 32;

/// Which of 32 pixels of a line each object covers: bit k is that of the k-th.
#[derive(Clone, Copy)]
pub struct Window {
    pub player0: u32,
    pub player1: u32,
    pub missile0: u32,
    pub missile1: u32,
    pub ball: u32,
    pub playfield: u32,
}

impl Window {
    /// Whether one of these pixels is covered by two objects.
    #[inline(always)]
    pub fn any_two_meet(&self, within: u32) -> bool
        ensures { result ≡ false → (k : ℕ) → has_bit within k ≡ true
            → has_two (has_bit self.now.player0 k) (has_bit self.now.player1 k) (has_bit self.now.missile0 k)
            (has_bit self.now.missile1 k) (has_bit self.now.ball k) (has_bit self.now.playfield k) ≡ false }
    {
        let twice = set_twice(
            self.player0,
            self.player1,
            self.missile0,
            self.missile1,
            self.ball,
            self.playfield,
        );
        overlap(twice, within)
    }

    /// The collision bits of the pairs that meet in pixels `from..to`, of which the window has the
    /// first at bit 0.
    #[inline(always)]
    pub fn pairs(&self, tia: &TiaFields, from: u8, to: u8) -> u16
        requires window { AreInWindow tia.now from self.now }
        requires order { from ≤ to }
        requires range { to ≤ 160 }
        requires short { to - from ≤ 32 }
        ensures value { result ≡ number_from 0 (stretch_pairs tia.now from (to - from)) }
        ensures range { result < 2 ^ 15 }
    {
        self.pairs_of_missile0(tia, from, to)
            + self.pairs_of_missile1(tia, from, to)
            + self.pairs_of_player0(tia, from, to)
            + self.pairs_of_player1(tia, from, to)
            + self.pairs_of_ball(tia, from, to)
    }

    /// The collision bits of the pairs of missile 0, which aren't looked at if it covers no pixel. So
    /// it is with the next three.
    #[inline(always)]
    fn pairs_of_missile0(&self, tia: &TiaFields, from: u8, to: u8) -> u16
        requires window { AreInWindow tia.now from self.now }
        requires order { from ≤ to }
        requires range { to ≤ 160 }
        requires short { to - from ≤ 32 }
        ensures value { result ≡ pairs_of_m0 tia.now from (to - from) }
        ensures range { result ≤ 24673 }
    {
        let within = pixels(to - from);
        if overlap(self.missile0, within) {
            16384 * bit(all_overlap(self.missile0, self.player1, within))
                + 8192 * bit(all_overlap(self.missile0, self.player0, within))
                + 64 * bit(all_overlap(self.missile0, self.playfield, within))
                + 32 * bit(all_overlap(self.missile0, self.ball, within))
                + bit(all_overlap(self.missile0, self.missile1, within))
        } else {
            0
        }
    }

    /// The collision bits of the pairs of missile 1, but for that with missile 0.
    #[inline(always)]
    fn pairs_of_missile1(&self, tia: &TiaFields, from: u8, to: u8) -> u16
        requires window { AreInWindow tia.now from self.now }
        requires order { from ≤ to }
        requires range { to ≤ 160 }
        requires short { to - from ≤ 32 }
        ensures value { result ≡ pairs_of_m1 tia.now from (to - from) }
        ensures range { result ≤ 6168 }
    {
        let within = pixels(to - from);
        if overlap(self.missile1, within) {
            4096 * bit(all_overlap(self.missile1, self.player0, within))
                + 2048 * bit(all_overlap(self.missile1, self.player1, within))
                + 16 * bit(all_overlap(self.missile1, self.playfield, within))
                + 8 * bit(all_overlap(self.missile1, self.ball, within))
        } else {
            0
        }
    }

    /// The collision bits of the pairs of player 0, but for those with missiles.
    #[inline(always)]
    fn pairs_of_player0(&self, tia: &TiaFields, from: u8, to: u8) -> u16
        requires window { AreInWindow tia.now from self.now }
        requires order { from ≤ to }
        requires range { to ≤ 160 }
        requires short { to - from ≤ 32 }
        ensures value { result ≡ pairs_of_p0 tia.now from (to - from) }
        ensures range { result ≤ 1538 }
    {
        let within = pixels(to - from);
        if overlap(self.player0, within) {
            1024 * bit(all_overlap(self.player0, self.playfield, within))
                + 512 * bit(all_overlap(self.player0, self.ball, within))
                + 2 * bit(all_overlap(self.player0, self.player1, within))
        } else {
            0
        }
    }

    /// The collision bits of the pairs of player 1, but for those with missiles and player 0.
    #[inline(always)]
    fn pairs_of_player1(&self, tia: &TiaFields, from: u8, to: u8) -> u16
        requires window { AreInWindow tia.now from self.now }
        requires order { from ≤ to }
        requires range { to ≤ 160 }
        requires short { to - from ≤ 32 }
        ensures value { result ≡ pairs_of_p1 tia.now from (to - from) }
        ensures range { result ≤ 384 }
    {
        let within = pixels(to - from);
        if overlap(self.player1, within) {
            256 * bit(all_overlap(self.player1, self.playfield, within))
                + 128 * bit(all_overlap(self.player1, self.ball, within))
        } else {
            0
        }
    }

    /// The collision bit of the ball and the playfield.
    #[inline(always)]
    fn pairs_of_ball(&self, tia: &TiaFields, from: u8, to: u8) -> u16
        requires window { AreInWindow tia.now from self.now }
        requires order { from ≤ to }
        requires range { to ≤ 160 }
        requires short { to - from ≤ 32 }
        ensures value { result ≡ pairs_of_bl tia.now from (to - from) }
        ensures range { result ≤ 4 }
    {
        4 * bit(all_overlap(self.ball, self.playfield, pixels(to - from)))
    }
}

/// The bits of the first pixels of a window.
#[inline(always)]
pub fn pixels(count: u8) -> u32
    requires { count ≤ 32 }
    ensures { (k : ℕ) → has_bit result k ≡ nat_lt k count }
{
    ((1u64 << count) - 1) as u32
}
