//! The playfield.
ghost use Rattle.std.specs.Prelude.{◌≡◌, ◌<◌, ◌≤◌, ◌-◌};
ghost use Rattle.tia_chip.specs.Playfield.{mirrored_at, playfield_at, playfield_bit};
ghost use Rattle.tia_chip.specs.Playfield.{playfield_index, with_playfield};
ghost use Rattle.tia_chip.specs.Private.Ranges.{IsInRange};

use crate::bits::has_bit;
use crate::state::TiaState;

/// Bit `i` of the twenty.
#[inline(always)]
pub fn playfield_bit(pf0: u8, pf1: u8, pf2: u8, i: u8) -> bool
    requires { i < 20 }
    ensures { result ≡ playfield_bit pf0 pf1 pf2 i }
{
    if i < 4 {
        has_bit(pf0, 4 + i)
    } else if i < 12 {
        has_bit(pf1, 11 - i)
    } else {
        has_bit(pf2, i - 12)
    }
}

/// Which bit pixel `x` shows.
#[inline(always)]
pub fn playfield_index(mirrored: bool, x: u8) -> u8
    requires { x < 160 }
    ensures value { result ≡ playfield_index mirrored x }
    ensures range { result < 20 }
{
    if x < 80 {
        x / 4
    } else if mirrored {
        19 - (x - 80) / 4
    } else {
        (x - 80) / 4
    }
}

/// Whether the right half is mirrored, as pixel `x` begins.
#[inline(always)]
fn mirrored_at(tia: &TiaState, x: u8) -> bool
    ensures { result ≡ mirrored_at tia.now x }
{
    if x == 80 {
        has_bit(tia.ctrlpf, 0)
    } else {
        tia.mirrored
    }
}

/// Takes a bit for four pixels, as pixel `x` begins.
fn take_at(tia: &mut TiaState, x: u8)
    requires range { IsInRange tia.old }
    requires pixel { x < 160 }
    ensures value { tia.new ≡ playfield_at tia.old x }
    ensures range { IsInRange tia.new }
{
    if x % 4 == 0 {
        tia.mirrored = mirrored_at(tia, x);
        let index = playfield_index(tia.mirrored, x);
        tia.playfield = playfield_bit(tia.pf0, tia.pf1, tia.pf2, index);
    }
}

/// Gives the playfield its bit for this clock.
pub fn take(tia: &mut TiaState)
    requires { IsInRange tia.old }
    ensures value { tia.new ≡ with_playfield tia.old }
    ensures range { IsInRange tia.new }
{
    if tia.clock < 68 {
        return;
    }
    if tia.clock >= 225 && tia.longer {
        tia.playfield = false;
    } else {
        take_at(tia, tia.beam.saturating_sub(68));
    }
}
