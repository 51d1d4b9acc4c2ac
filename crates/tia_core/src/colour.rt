//! The colour of a pixel.
ghost use Rattle.std.specs.Prelude.{◌≡◌, ◌||◌};
ghost use Rattle.tia_core.specs.Bits.{has_bit};
ghost use Rattle.tia_core.specs.Colour.{colour_at, is_blanked, playfield_colour};

use crate::bits::has_bit;
use crate::fields::TiaFields;
use crate::objects::Objects;

/// Whether each pixel is black whatever covers it.
#[inline]
pub fn is_dark(tia: &TiaFields) -> bool
    ensures { result ≡ (has_bit tia.now.vblank 1 || has_bit tia.now.vsync 1) }
{
    has_bit(tia.vblank, 1) || has_bit(tia.vsync, 1)
}

/// Whether pixel `x` is black whatever covers it.
#[inline]
fn is_blanked(tia: &TiaFields, x: u8) -> bool
    ensures { result ≡ is_blanked tia.now x }
{
    has_bit(tia.vblank, 1) || has_bit(tia.vsync, 1) || (has_bit(tia.comb, 0) && x < 8)
}

/// The playfield's colour at pixel `x`.
#[inline]
fn playfield_colour(tia: &TiaFields, x: u8) -> u8
    ensures { result ≡ playfield_colour tia.now x }
{
    if has_bit(tia.ctrlpf, 1) && !has_bit(tia.ctrlpf, 2) {
        if x < 80 { tia.colup0 } else { tia.colup1 }
    } else {
        tia.colupf
    }
}

/// The colour byte of pixel `x`, which these objects cover.
#[inline]
#[tactic(auto, unfolding(crate::specs::Colour::colour_at))]
pub fn colour_at(tia: &TiaFields, objects: Objects, x: u8) -> u8
    ensures { result ≡ colour_at tia.now objects x }
{
    if is_blanked(tia, x) {
        return 0;
    }
    let first = objects.player0 || objects.missile0;
    let second = objects.player1 || objects.missile1;
    if has_bit(tia.ctrlpf, 2) {
        if objects.ball {
            tia.colupf
        } else if objects.playfield {
            playfield_colour(tia, x)
        } else if first {
            tia.colup0
        } else if second {
            tia.colup1
        } else {
            tia.colubk
        }
    } else if first {
        tia.colup0
    } else if second {
        tia.colup1
    } else if objects.ball {
        tia.colupf
    } else if objects.playfield {
        playfield_colour(tia, x)
    } else {
        tia.colubk
    }
}
