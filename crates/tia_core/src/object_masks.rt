//! The masks of the six objects.
ghost use Rattle.std.specs.Prelude.{◌≡◌, ◌<◌, ◌≤◌, ◌+◌, ◌-◌, ◌%◌, ℕ, if◌then◌else◌, [], ◌∷◌};
ghost use Rattle.std.specs.List.{list_any};
ghost use Rattle.tia_core.specs.Bits.{has_bit};
ghost use Rattle.tia_core.specs.Coverage.{ball_covers, copies_of, distance_of, missile_covers};
ghost use Rattle.tia_core.specs.Coverage.{player_covers};
ghost use Rattle.tia_core.specs.Mask.{covers};
ghost use Rattle.tia_core.specs.Playfield.{playfield_bit, playfield_index};

use crate::coverage::copies;
use crate::mask::Mask;
use crate::pattern::Pattern;
use crate::row::{missile_row, player_row, quadruple_bits, reverse_bits, reversed_half};

/// The mask of a row at each copy of an object.
#[inline]
fn mask_of_copies(row: u32, mode: u8, position: u8) -> Mask
    requires { position < 160 }
    ensures { (x : ℕ) → x < 160 → covers result x ≡ list_any (λ c. has_bit row (distance_of x position c)) (copies_of mode) }
{
    let mut mask = Mask::empty();
    for copy in copies(mode) {
        mask.place(row, right_of(position, *copy));
    }
    mask
}

/// The pixel that lies so far right of another, going round from 159 to 0.
#[inline]
fn right_of(position: u8, copy: u8) -> u8
    requires { position < 160 }
    ensures value { result ≡ (position + copy) % 160 }
    ensures range { result < 160 }
{
    ((position as u16 + copy as u16) % 160) as u8
}

/// A pixel at each copy of an object, by its mode.
const COPIES: &[u128; 8] = &[
    0x1,
    0x1_0001,
    0x1_0000_0001,
    0x1_0001_0001,
    0x1_0000_0000_0000_0001,
    0x1,
    0x1_0000_0001_0000_0001,
    0x1,
];

/// A row at each copy of an object, from the object's first pixel on. A row of more than eight pixels
/// has one copy.
#[inline(always)]
fn row_of_copies(row: u32, mode: u8) -> u128
    requires mode { mode < 8 }
    requires narrow { 256 ≤ row → copies_of mode ≡ 0 ∷ [] }
    ensures { (x position : ℕ) → position < 160 → has_bit result (distance_of x position 0)
        ≡ list_any (λ c. has_bit row (distance_of x position c)) (copies_of mode) }
{
    u128::from(row) * COPIES[mode as usize]
}

/// The pattern of a player.
#[inline]
pub fn player_pattern(mode: u8, reflected: bool, graphic: u8) -> Pattern
    requires { mode < 8 }
    ensures { (x p : ℕ) → p < 160 → covers result (distance_of x p 0) ≡ player_covers mode reflected graphic p x }
{
    Pattern::of_row(row_of_copies(player_row(mode, reflected, graphic), mode))
}

/// The pattern of a missile of this size.
#[inline]
pub fn missile_pattern(mode: u8, size: u8) -> Pattern
    requires mode { mode < 8 }
    requires size { size ≤ 8 }
    ensures { (x p : ℕ) → p < 160 → covers result (distance_of x p 0) ≡ missile_covers mode size p x }
{
    Pattern::of_row(row_of_copies(missile_row(size), mode))
}

/// The pattern of a ball of this size.
#[inline]
pub fn ball_pattern(size: u8) -> Pattern
    requires { size ≤ 8 }
    ensures { (x p : ℕ) → p < 160 → covers result (distance_of x p 0) ≡ ball_covers size p x }
{
    Pattern::of_row(u128::from(missile_row(size)))
}

/// The mask of a player.
pub fn player_mask(mode: u8, reflected: bool, graphic: u8, position: u8) -> Mask
    requires { position < 160 }
    ensures { (x : ℕ) → x < 160 → covers result x ≡ player_covers mode reflected graphic position x }
{
    mask_of_copies(player_row(mode, reflected, graphic), mode, position)
}

/// The mask of a missile of this size.
pub fn missile_mask(mode: u8, size: u8, position: u8) -> Mask
    requires position { position < 160 }
    requires size { size ≤ 8 }
    ensures { (x : ℕ) → x < 160 → covers result x ≡ missile_covers mode size position x }
{
    mask_of_copies(missile_row(size), mode, position)
}

/// The mask of a ball of this size.
pub fn ball_mask(size: u8, position: u8) -> Mask
    requires position { position < 160 }
    requires size { size ≤ 8 }
    ensures { (x : ℕ) → x < 160 → covers result x ≡ ball_covers size position x }
{
    let mut mask = Mask::empty();
    mask.place(missile_row(size), position);
    mask
}

/// The playfield's twenty bits, the leftmost lowest.
#[inline]
fn left_half(pf0: u8, pf1: u8, pf2: u8) -> u32
    ensures { (i : ℕ) → i < 20 → has_bit result i ≡ playfield_bit pf0 pf1 pf2 i }
{
    (u32::from(pf2) * 256 + u32::from(reverse_bits(pf1))) * 16 + u32::from(pf0 / 16)
}

/// The playfield's twenty bits, the leftmost highest.
#[inline]
fn mirrored_half(pf0: u8, pf1: u8, pf2: u8) -> u32
    ensures { (i : ℕ) → i < 20 → has_bit result i ≡ playfield_bit pf0 pf1 pf2 (19 - i) }
{
    (u32::from(reversed_half(pf0 / 16)) * 256 + u32::from(pf1)) * 256 + u32::from(reverse_bits(pf2))
}

/// The twenty bits of a line's right half, the leftmost lowest.
#[inline]
fn right_half(pf0: u8, pf1: u8, pf2: u8, mirrored: bool) -> u32
    ensures { (i : ℕ) → i < 20 → has_bit result i ≡ playfield_bit pf0 pf1 pf2 (if mirrored then 19 - i else i) }
{
    if mirrored {
        mirrored_half(pf0, pf1, pf2)
    } else {
        left_half(pf0, pf1, pf2)
    }
}

/// The mask of the playfield.
pub fn playfield_mask(pf0: u8, pf1: u8, pf2: u8, mirrored: bool) -> Mask
    ensures { (x : ℕ) → x < 160 → covers result x ≡ playfield_bit pf0 pf1 pf2 (playfield_index mirrored x) }
{
    let left = left_half(pf0, pf1, pf2);
    let right = right_half(pf0, pf1, pf2, mirrored);
    Mask::of_words([
        quadruple_bits((left % 256) as u8),
        quadruple_bits((left / 256 % 256) as u8),
        quadruple_bits((right % 16) as u8 * 16 + (left / 65536 % 16) as u8),
        quadruple_bits((right / 16 % 256) as u8),
        quadruple_bits((right / 4096 % 256) as u8),
    ])
}
