//! What a clock of the picture changes beside the objects and the beam.
ghost use Rattle.std.specs.Prelude.{◌≡◌, ◌<◌, ◌≤◌, ◌^◌};
ghost use Rattle.tia_chip.specs.Private.Lines.{collisions_with, line_at, line_of, line_past};
ghost use Rattle.tia_chip.specs.Private.Lines.{shown_mirrored, shown_playfield};
ghost use Rattle.tia_chip.specs.Private.Ranges.{IsInRange};

use crate::bits::has_bit;
use crate::collision::{pairs, with_pairs};
use crate::objects::Objects;
use crate::playfield::{playfield_bit, playfield_index};
use crate::state::TiaState;

/// The playfield and the collisions of a TIA.
#[derive(Clone, Copy, Debug)]
pub struct Line {
    pub playfield: bool,
    pub mirrored: bool,
    pub collisions: u16,
}

impl Line {
    /// Those of a TIA.
    #[inline(always)]
    pub fn of(tia: &TiaState) -> Self
        ensures { result ≡ line_of tia.now }
    {
        Line {
            playfield: tia.playfield,
            mirrored: tia.mirrored,
            collisions: tia.collisions,
        }
    }

    /// They as pixel `x` begins.
    pub fn at(self, tia: &TiaState, x: u8) -> Self
        requires { x < 160 }
        ensures { result ≡ line_at tia.now x self }
    {
        if x % 4 != 0 {
            return self;
        }
        let mirrored = if x == 80 {
            has_bit(tia.ctrlpf, 0)
        } else {
            self.mirrored
        };
        let index = playfield_index(mirrored, x);
        Line {
            playfield: playfield_bit(tia.pf0, tia.pf1, tia.pf2, index),
            mirrored,
            collisions: self.collisions,
        }
    }

    /// They after pixel `x`, at which these objects are lit.
    pub fn past(self, tia: &TiaState, x: u8, lit: Objects) -> Self
        requires x { x < 160 }
        requires collisions { self.collisions < 2 ^ 15 }
        ensures value { result ≡ line_past tia.now x lit self }
        ensures range { result.collisions < 2 ^ 15 }
    {
        Line {
            playfield: self.playfield && (x + 1) % 4 != 0,
            mirrored: self.mirrored && x < 156,
            collisions: if has_bit(tia.vblank, 1) {
                self.collisions
            } else {
                with_pairs(self.collisions, pairs(lit))
            },
        }
    }
}

/// Whether the right half is mirrored as pixel `x` is shown, on a line that goes on at `first`.
#[inline(always)]
pub fn shown_mirrored(tia: &TiaState, first: u8, x: u8) -> bool
    ensures { result ≡ shown_mirrored tia.now first x }
{
    let mirrored = if first <= 80 && 80 <= x {
        has_bit(tia.ctrlpf, 0)
    } else {
        tia.mirrored
    };
    mirrored && (x == first || x < 157)
}

/// The playfield's bit at pixel `x`, on a line that goes on at `first`.
#[inline(always)]
pub fn shown_playfield(tia: &TiaState, first: u8, x: u8) -> bool
    requires { x < 160 }
    ensures { result ≡ shown_playfield tia.now first x }
{
    let start = x - x % 4;
    if start < first {
        tia.playfield
    } else {
        let index = playfield_index(shown_mirrored(tia, first, start), start);
        playfield_bit(tia.pf0, tia.pf1, tia.pf2, index)
    }
}
