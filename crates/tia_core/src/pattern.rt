//! The pixels that an object covers, wherever it stands.
ghost use Rattle.std.specs.Prelude.{◌≡◌, ◌<◌, ◌≤◌, ◌+◌, ◌-◌, ℕ};
ghost use Rattle.tia_core.specs.Bits.{has_bit};
ghost use Rattle.tia_core.specs.Coverage.{distance_of};
ghost use Rattle.tia_core.specs.Mask.{covers};

use std::marker::Model;

/// The pixels that an object covers, from its position on and round from 159 to 0. Contracts see
/// 160 truth values.
#[derive(Drop)]
pub struct Pattern {
    /// Twice round the line: the i-th has 64 pixels from pixel 32 i on, so that any 32 pixels are in
    /// one word.
    words: [u64; 10],
}

impl Model for Pattern {
    ghost use Rattle.std.specs.Prelude.{Bool, List};
    ghost use Rattle.tia_core.specs.Private.MaskWords.{IsRound, pixels_in};

    ghost Value = { List Bool };

    ghost view = { λ a. pixels_in a.words };

    ghost invariant = { λ a. IsRound a.words };
}

impl Pattern {
    /// The pattern of a row, of which the lowest bit is the first pixel.
    #[inline]
    pub fn of_row(row: u128) -> Self
        ensures { (x : ℕ) → x < 160 → covers result x ≡ has_bit row x }
    {
        let first = (row % 0x1_0000_0000_0000_0000) as u64;
        let second = ((row >> 32) % 0x1_0000_0000_0000_0000) as u64;
        let third = (row >> 64) as u64;
        let fourth = (row >> 96) as u64;
        let fifth = (first % 0x1_0000_0000) << 32;
        Pattern {
            words: [
                first, second, third, fourth, fifth, first, second, third, fourth, fifth,
            ],
        }
    }

    /// The 32 pixels of a line from `first` on, where an object at this position has the pattern.
    #[inline(always)]
    pub fn window(&self, first: u8, position: u8) -> u32
        requires first { first < 160 }
        requires position { position < 160 }
        ensures { (k : ℕ) → k < 32 → has_bit result k ≡ covers self.now (distance_of (first + k) position 0) }
    {
        let distance = u32::from(first) + 160 - u32::from(position);
        ((self.words[(distance / 32) as usize] >> (distance % 32)) % 0x1_0000_0000) as u32
    }
}
