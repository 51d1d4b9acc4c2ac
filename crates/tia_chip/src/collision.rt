//! Collisions of pairs of objects.
ghost use Rattle.std.specs.Prelude.{◌≡◌, ◌<◌, ◌≤◌, ◌^◌, bit_and, bit_or, length, true, if◌then◌else◌};
ghost use Rattle.tia_chip.specs.Collision.{is_latching, latched, number_from, pairs_of};
ghost use Rattle.tia_chip.specs.Private.Ranges.{IsInRange};

use crate::bits::has_bit;
use crate::motion::pulses_on;
use crate::objects::Objects;
use crate::state::TiaState;

/// The number with these bits, highest first.
pub fn number_of(bits: &[bool]) -> u16
    requires { length bits.now ≤ 15 }
    ensures value { result ≡ number_from 0 bits.now }
    ensures range { result < 2 ^ length bits.now }
{
    let mut number = 0;
    for bit in bits {
        number = 2 * number + u16::from(*bit);
    }
    number
}

/// The collision bits of all pairs of a set of objects.
#[tactic(auto, unfolding(crate::specs::Collision::pairs_of))]
pub fn pairs(objects: Objects) -> u16
    ensures value { result ≡ pairs_of objects }
    ensures range { result < 2 ^ 15 }
{
    let Objects {
        player0,
        player1,
        missile0,
        missile1,
        ball,
        playfield,
    } = objects;
    number_of(&[
        missile0 & player1,
        missile0 & player0,
        missile1 & player0,
        missile1 & player1,
        player0 & playfield,
        player0 & ball,
        player1 & playfield,
        player1 & ball,
        missile0 & playfield,
        missile0 & ball,
        missile1 & playfield,
        missile1 & ball,
        ball & playfield,
        player0 & player1,
        missile0 & missile1,
    ])
}

/// The bits of all pairs.
const ALL_PAIRS: u16 = 0x7FFF;

/// A set of collision bits, unless their object is in a set.
#[inline(always)]
fn unless(is_in: bool, pairs: u16) -> u16
    ensures { result ≡ (if is_in then 0 else pairs) }
{
    if is_in { 0 } else { pairs }
}

/// The bits of the pairs of which some object isn't in a set.
#[inline(always)]
fn other_pairs(objects: Objects) -> u16
    ensures all { bit_or result (pairs_of objects) ≡ 32767 }
    ensures apart { bit_and result (pairs_of objects) ≡ 0 }
{
    unless(objects.player0, 0x3602)
        | unless(objects.player1, 0x4982)
        | unless(objects.missile0, 0x6061)
        | unless(objects.missile1, 0x1819)
        | unless(objects.ball, 0x02AC)
        | unless(objects.playfield, 0x0554)
}

/// Whether the bits of all pairs of a set of objects are among these.
#[inline(always)]
pub fn has_pairs(collisions: u16, objects: Objects) -> bool
    ensures { result ≡ true → bit_or collisions (pairs_of objects) ≡ collisions }
{
    collisions | other_pairs(objects) == ALL_PAIRS
}

/// Whether a clock latches pairs.
#[inline(always)]
fn is_latching(tia: &TiaState) -> bool
    ensures { result ≡ is_latching tia.now }
{
    !has_bit(tia.vblank, 1) && (!tia.is_in_blank() || pulses_on(tia) || tia.changed)
}

/// The collision bits `collisions` with those of `pairs`.
#[inline(always)]
pub fn with_pairs(collisions: u16, pairs: u16) -> u16
    requires collisions { collisions < 2 ^ 15 }
    requires pairs { pairs < 2 ^ 15 }
    ensures value { result ≡ bit_or collisions pairs }
    ensures range { result < 2 ^ 15 }
{
    collisions | pairs
}

/// Latches the pairs of a clock.
pub fn latch(tia: &mut TiaState)
    requires { IsInRange tia.old }
    ensures value { tia.new ≡ latched tia.old }
    ensures range { IsInRange tia.new }
{
    if is_latching(tia) {
        tia.collisions = with_pairs(tia.collisions, pairs(Objects::lit(tia)));
    }
    tia.changed = false;
}
