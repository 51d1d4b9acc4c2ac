//! Where objects stand: the position strobes, horizontal motion, missiles released from their
//! players.
ghost use Rattle.std.specs.Prelude.{◌≡◌, ◌<◌, ◌≤◌, ◌-◌, ◌/◌, ◌%◌, nat_lt, if◌then◌else◌};
ghost use Rattle.tia_core.specs.Position.{strobed_position, moved_position, release_of};
ghost use Rattle.tia_core.specs.Position.{released_position};

use crate::bits::has_bit;

/// Where a strobe at colour clock `clock` of a line puts an object: at `blank` in the blank, else
/// `delay` pixels past the beam.
pub fn strobed_position(blank: u8, delay: u8, clock: u8) -> u8
    requires blank { blank < 160 }
    requires delay { delay < 10 }
    ensures value { result ≡ strobed_position blank delay clock }
    ensures range { result < 160 }
{
    if clock < 68 {
        blank
    } else {
        (clock - 68 + delay) % 160
    }
}

/// How many pixels to the right an object moves at HMOVE, going round from 159 to 0, by the high
/// nibble of its motion.
const MOVES: &[u8; 16] = &[0, 159, 158, 157, 156, 155, 154, 153, 8, 7, 6, 5, 4, 3, 2, 1];

/// How many pixels to the right an object of this motion moves at HMOVE, going round from 159 to 0.
#[inline(always)]
fn pixels_right(motion: u8) -> u8
    ensures value { result ≡ (if nat_lt (motion / 16) 8 then (160 - motion / 16) % 160 else 16 - motion / 16) }
    ensures range { result < 160 }
{
    MOVES[(motion / 16) as usize]
}

/// Where an object is after HMOVE.
#[inline(always)]
pub fn moved_position(motion: u8, position: u8) -> u8
    requires { position < 160 }
    ensures value { result ≡ moved_position motion position }
    ensures range { result < 160 }
{
    let moved = u32::from(position) + u32::from(pixels_right(motion));
    (if moved < 160 { moved } else { moved - 160 }) as u8
}

/// How far right of its player a missile is released.
fn release(mode: u8) -> u8
    ensures value { result ≡ release_of mode }
    ensures range { result ≤ 16 }
{
    match mode {
        5 => 8,
        7 => 16,
        _ => 4,
    }
}

/// Where a missile is after a write of `new` to RESMP, which held `old`.
pub fn released_position(old: u8, new: u8, nusiz: u8, player: u8, missile: u8) -> u8
    requires player { player < 160 }
    requires missile { missile < 160 }
    ensures value { result ≡ released_position old new nusiz player missile }
    ensures range { result < 160 }
{
    if has_bit(old, 1) && !has_bit(new, 1) {
        (player + release(nusiz % 8)) % 160
    } else {
        missile
    }
}
