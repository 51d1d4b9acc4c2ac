//! The objects that cover a pixel.
ghost use Rattle.std.specs.Prelude.{◌≡◌, ◌<◌, ◌≤◌, ◌&&◌, not};
ghost use Rattle.tia_core.specs.Bits.{has_bit};
ghost use Rattle.tia_core.specs.Collision.{pairs_of};
ghost use Rattle.tia_core.specs.Objects.{value_by_delay, size_of};
ghost use Rattle.tia_core.specs.Private.ObjectSets.{set_number, union_of, visible_objects};
ghost use Rattle.tia_core.specs.declared.objects.Objects.{Objects};

use crate::bits::has_bit;
use crate::fields::TiaFields;

/// The collision bits of each set of objects, by its number.
const PAIRS: &[u16; 64] = &[
    0x0000, 0x0000, 0x0000, 0x0002, 0x0000, 0x2000, 0x4000, 0x6002, 0x0000, 0x1000, 0x0800, 0x1802,
    0x0001, 0x3001, 0x4801, 0x7803, 0x0000, 0x0200, 0x0080, 0x0282, 0x0020, 0x2220, 0x40A0, 0x62A2,
    0x0008, 0x1208, 0x0888, 0x1A8A, 0x0029, 0x3229, 0x48A9, 0x7AAB, 0x0000, 0x0400, 0x0100, 0x0502,
    0x0040, 0x2440, 0x4140, 0x6542, 0x0010, 0x1410, 0x0910, 0x1D12, 0x0051, 0x3451, 0x4951, 0x7D53,
    0x0004, 0x0604, 0x0184, 0x0786, 0x0064, 0x2664, 0x41E4, 0x67E6, 0x001C, 0x161C, 0x099C, 0x1F9E,
    0x007D, 0x367D, 0x49FD, 0x7FFF,
];

/// Which of the six objects cover a pixel.
#[derive(Clone, Copy, Debug)]
pub struct Objects {
    pub player0: bool,
    pub player1: bool,
    pub missile0: bool,
    pub missile1: bool,
    pub ball: bool,
    pub playfield: bool,
}

impl Objects {
    /// The objects that may be visible, wherever they stand: a player or a playfield with a bit set,
    /// a missile or a ball that is enabled, be it locked to its player or not.
    #[inline]
    pub fn visible(tia: &TiaFields) -> Self
        ensures { result ≡ visible_objects tia.now }
    {
        Objects {
            player0: has_player0(tia),
            player1: has_player1(tia),
            missile0: has_bit(tia.enam0, 1),
            missile1: has_bit(tia.enam1, 1),
            ball: has_ball(tia),
            playfield: has_playfield(tia),
        }
    }

    /// The objects of both sets.
    #[inline]
    pub fn union(self, other: Objects) -> Self
        ensures { result ≡ union_of self other }
    {
        Objects {
            player0: self.player0 | other.player0,
            player1: self.player1 | other.player1,
            missile0: self.missile0 | other.missile0,
            missile1: self.missile1 | other.missile1,
            ball: self.ball | other.ball,
            playfield: self.playfield | other.playfield,
        }
    }

    /// The number of the set: each object has a bit, from player 0 in the lowest to the playfield
    /// in bit 5.
    #[inline(always)]
    pub fn number(self) -> u8
        ensures { result ≡ set_number self }
    {
        self.player0 as u8
            + 2 * self.player1 as u8
            + 4 * self.missile0 as u8
            + 8 * self.missile1 as u8
            + 16 * self.ball as u8
            + 32 * self.playfield as u8
    }
}

/// The collision bits of all pairs of the set with this number, from M0-P1 in bit 14 to M0-M1 in
/// bit 0.
#[inline(always)]
pub fn pairs_of_set(number: u8) -> u16
    requires { number < 64 }
    ensures { (objects : Objects) → number ≡ set_number objects → result ≡ pairs_of objects }
{
    PAIRS[number as usize]
}

/// Whether the graphic that player 0 shows has a bit set.
#[inline(always)]
pub fn has_player0(tia: &TiaFields) -> bool
    ensures { result ≡ (visible_objects tia.now).player0 }
{
    value_by_delay(tia.vdelp0, tia.grp0_old, tia.grp0_new) != 0
}

/// Whether the graphic that player 1 shows has a bit set.
#[inline(always)]
pub fn has_player1(tia: &TiaFields) -> bool
    ensures { result ≡ (visible_objects tia.now).player1 }
{
    value_by_delay(tia.vdelp1, tia.grp1_old, tia.grp1_new) != 0
}

/// Whether the ball is enabled.
#[inline(always)]
pub fn has_ball(tia: &TiaFields) -> bool
    ensures { result ≡ (visible_objects tia.now).ball }
{
    has_bit(value_by_delay(tia.vdelbl, tia.enabl_old, tia.enabl_new), 1)
}

/// Whether the playfield has a bit set.
#[inline(always)]
pub fn has_playfield(tia: &TiaFields) -> bool
    ensures { result ≡ (visible_objects tia.now).playfield }
{
    tia.pf0 | tia.pf1 | tia.pf2 != 0
}

/// What is shown of a register that may be delayed: its old value if bit 0 of `delay` is set.
#[inline]
pub fn value_by_delay(delay: u8, old: u8, new: u8) -> u8
    ensures { result ≡ value_by_delay delay old new }
{
    if has_bit(delay, 0) { old } else { new }
}

/// Whether a missile is shown: it is enabled and not locked to its player.
#[inline]
pub fn is_shown(enam: u8, resmp: u8) -> bool
    ensures { result ≡ (has_bit enam 1 && not (has_bit resmp 1)) }
{
    has_bit(enam, 1) & !has_bit(resmp, 1)
}

/// The size of a missile or ball, by bits 5 and 4 of a register.
#[inline]
pub fn size(register: u8) -> u8
    ensures value { result ≡ size_of register }
    ensures range { result ≤ 8 }
{
    1 << (register / 16 % 4)
}
