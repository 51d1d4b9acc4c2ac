//! The pixel of a clock.
ghost use Rattle.std.specs.Prelude.{◌≡◌, ◌-◌, if◌then◌else◌};
ghost use Rattle.tia_chip.specs.Colour.{colour_at, front_colour, is_black, layers_of, pixel_of};

use crate::bits::has_bit;
use crate::objects::Objects;
use crate::pixel::Pixel;
use crate::state::TiaState;

/// Whether a pixel is black whatever is lit.
fn is_black(tia: &TiaState) -> bool
    ensures { result ≡ is_black tia.now }
{
    tia.is_in_blank() || has_bit(tia.vblank, 1) || has_bit(tia.vsync, 1)
}

/// The colour of the object in front at pixel `x`, or of the background.
fn front_colour(tia: &TiaState, lit: Objects, x: u8) -> u8
    ensures { result ≡ front_colour (layers_of tia.now lit x) tia.now.colubk }
{
    let first = lit.player0 || lit.missile0;
    let second = lit.player1 || lit.missile1;
    let has_score = has_bit(tia.ctrlpf, 1);
    if has_bit(tia.ctrlpf, 2) && (lit.ball || lit.playfield) {
        tia.colupf
    } else if first {
        tia.colup0
    } else if !has_bit(tia.ctrlpf, 2) && has_score && lit.playfield {
        if x < 80 { tia.colup0 } else { tia.colup1 }
    } else if second {
        tia.colup1
    } else if lit.ball || lit.playfield {
        tia.colupf
    } else {
        tia.colubk
    }
}

/// The colour of pixel `x` where these objects are lit.
pub fn colour(tia: &TiaState, lit: Objects, x: u8) -> u8
    ensures { result ≡ (if is_black tia.now then 0 else front_colour (layers_of tia.now lit x) tia.now.colubk) }
{
    if is_black(tia) {
        0
    } else {
        front_colour(tia, lit, x)
    }
}

/// The pixel that a clock puts.
pub fn pixel(tia: &TiaState) -> Option<Pixel>
    ensures { result ≡ pixel_of tia.now }
{
    if tia.beam < 68 {
        None
    } else {
        let x = tia.beam - 68;
        Some(Pixel {
            line: tia.line,
            x,
            colour: colour(tia, Objects::lit(tia), x),
        })
    }
}
