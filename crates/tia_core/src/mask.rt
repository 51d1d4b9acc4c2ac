//! The pixels of a line that an object covers.
ghost use Rattle.std.specs.Prelude.{◌≡◌, ◌<◌, ◌≤◌, ◌||◌, ◌&&◌, ◌-◌, ◌+◌, ◌%◌, ℕ, nat_le, nat_lt};
ghost use Rattle.std.specs.Prelude.{bit_and, ◌^◌, true, false, min, if◌then◌else◌};
ghost use Rattle.tia_core.specs.Bits.{has_bit};
ghost use Rattle.tia_core.specs.Coverage.{distance_of};
ghost use Rattle.tia_core.specs.Private.ObjectSets.{has_two};
ghost use Rattle.tia_core.specs.Mask.{any_from, covers};
ghost use Rattle.tia_core.specs.Private.MaskWords.{word_bit, pixels_in};

use std::marker::Model;

/// The pixels of a line that an object covers. Contracts see 160 truth values.
#[derive(Drop)]
pub struct Mask {
    words: [u32; 5],
}

impl Model for Mask {
    ghost use Rattle.std.specs.Prelude.{Bool, List};
    ghost use Rattle.tia_core.specs.Private.MaskWords.{pixels_in};

    ghost Value = { List Bool };

    ghost view = { λ a. pixels_in a.words };
}

impl Mask {
    /// The mask that covers no pixel.
    #[inline]
    pub(crate) fn empty() -> Self
        ensures { (x : ℕ) → x < 160 → covers result x ≡ false }
    {
        Mask { words: [0; 5] }
    }

    /// Covers, from pixel `at` on and round from 159 to 0, the pixels whose bits are set in `row`,
    /// of which the lowest is the first.
    #[inline]
    pub(crate) fn place(&mut self, row: u32, at: u8)
        requires { at < 160 }
        ensures { (x : ℕ) → x < 160 → covers self.new x ≡ (covers self.old x || has_bit row (distance_of x at 0)) }
    {
        let word = (at / 32) as usize;
        let shifted = (row as u64) << (at % 32);
        self.words[word] |= (shifted % 0x1_0000_0000) as u32;
        self.words[(word + 1) % 5] |= (shifted >> 32) as u32;
    }

    /// The mask that covers the pixels of `from..to`.
    #[inline]
    pub(crate) fn between(from: u8, to: u8) -> Self
        requires order { from ≤ to }
        requires range { to ≤ 160 }
        ensures { (x : ℕ) → x < 160 → covers result x ≡ (nat_le from x && nat_lt x to) }
    {
        Mask {
            words: [
                ones(from, to, 0),
                ones(from, to, 32),
                ones(from, to, 64),
                ones(from, to, 96),
                ones(from, to, 128),
            ],
        }
    }

    /// Whether the mask covers pixel `x`.
    #[inline]
    pub(crate) fn covers(&self, x: u8) -> bool
        requires { x < 160 }
        ensures { result ≡ covers self.now x }
    {
        self.words[(x / 32) as usize] >> (x % 32) & 1 == 1
    }

    /// The 32 pixels from `first` on: bit k is set where pixel `first + k` is covered.
    #[inline(always)]
    pub(crate) fn window(&self, first: u8) -> u32
        requires { first < 160 }
        ensures { (k : ℕ) → k < 32 → first + k < 160 → has_bit result k ≡ covers self.now (first + k) }
    {
        let word = (first / 32) as usize;
        let next = if word < 4 { word + 1 } else { word };
        joined(self.words[word], self.words[next], first % 32)
    }

    /// Where the mask differs from its pixel `x`, up to the end of the word: bit k is set where one
    /// of pixels `x` and `x + k` is covered and the other is not.
    #[inline]
    pub(crate) fn changes(&self, x: u8) -> u32
        requires { x < 160 }
        ensures { (k : ℕ) → x % 32 + k < 32 → has_bit result k ≡ false → covers self.now (x + k) ≡ covers self.now x }
    {
        changes(self.words[(x / 32) as usize], x % 32)
    }

    /// The mask of these words.
    #[inline]
    pub(crate) fn of_words(words: [u32; 5]) -> Self
        ensures { (x : ℕ) → x < 160 → covers result x ≡ word_bit words x }
    {
        Mask { words }
    }

    /// Whether both masks cover some pixel of `from..to`.
    pub fn meets(&self, other: &Mask, from: u8, to: u8) -> bool
        requires { to ≤ 160 }
        ensures { result ≡ any_from (λ x. covers self.now x && covers other.now x) from (to - from) }
    {
        if from <= to {
            self.meets_within(other, &Mask::between(from, to))
        } else {
            false
        }
    }

    /// Whether some pixel of `from..to` is covered by two of these masks.
    #[inline]
    pub(crate) fn any_two_meet(
        a: &Mask,
        b: &Mask,
        c: &Mask,
        d: &Mask,
        e: &Mask,
        f: &Mask,
        from: u8,
        to: u8,
    ) -> bool
        requires order { from ≤ to }
        requires range { to ≤ 160 }
        ensures { result ≡ false → (x : ℕ) → from ≤ x → x < to
            → has_two (covers a.now x) (covers b.now x) (covers c.now x) (covers d.now x) (covers e.now x) (covers f.now x) ≡ false }
    {
        for i in from as usize / 32..(to as usize + 31) / 32 {
            let twice = set_twice(
                a.words[i], b.words[i], c.words[i], d.words[i], e.words[i], f.words[i],
            );
            if overlap(twice, ones(from, to, 32 * i as u8)) {
                return true;
            }
        }
        false
    }

    /// Whether a pixel is covered by all three masks.
    #[inline]
    pub(crate) fn meets_within(&self, other: &Mask, within: &Mask) -> bool
        ensures some { result ≡ true → (x : ℕ) × (x < 160) × ((covers self.now x && covers other.now x && covers within.now x) ≡ true) }
        ensures none { result ≡ false → (x : ℕ) → x < 160 → (covers self.now x && covers other.now x && covers within.now x) ≡ false }
    {
        for i in 0..5usize {
            if all_overlap(self.words[i], other.words[i], within.words[i]) {
                return true;
            }
        }
        false
    }
}

/// The 32 bits from bit `first` on of two words.
#[inline(always)]
fn joined(low: u32, high: u32, first: u8) -> u32
    requires { first < 32 }
    ensures { (k : ℕ) → k < 32
        → has_bit result k ≡ (if nat_lt (first + k) 32 then has_bit low (first + k) else has_bit high (first + k - 32)) }
{
    let both = u64::from(high) * 0x1_0000_0000 + u64::from(low);
    ((both >> first) % 0x1_0000_0000) as u32
}

/// Which bits of `word` from bit `first` on differ from bit `first`; bit 0 of the answer is that of
/// bit `first`.
#[inline]
fn changes(word: u32, first: u8) -> u32
    requires { first < 32 }
    ensures { (k : ℕ) → k < 32 → has_bit result k ≡ false → has_bit word (first + k) ≡ has_bit word first }
{
    let rest = word >> first;
    if rest & 1 == 1 {
        rest ^ 0xFFFF_FFFF
    } else {
        rest
    }
}

/// The place of the lowest set bit above bit 0; 33 if none is set.
#[inline]
pub(crate) fn first_change(changes: u32) -> u8
    ensures positive { 0 < result }
    ensures range { result ≤ 33 }
    ensures clear { (k : ℕ) → 0 < k → k < result → has_bit changes k ≡ false }
{
    (changes >> 1).trailing_zeros() as u8 + 1
}

/// The bits that are set in two of six words.
#[inline]
pub(crate) fn set_twice(a: u32, b: u32, c: u32, d: u32, e: u32, f: u32) -> u32
    ensures { (k : ℕ) → has_bit result k ≡ has_two (has_bit a k) (has_bit b k) (has_bit c k) (has_bit d k) (has_bit e k) (has_bit f k) }
{
    (a & b) | ((a | b) & c) | ((a | b | c) & d) | ((a | b | c | d) & e) | ((a | b | c | d | e) & f)
}

/// Whether two words have a bit in common.
#[inline]
pub(crate) fn overlap(a: u32, b: u32) -> bool
    ensures { result ≡ false → bit_and a b ≡ 0 }
{
    a & b != 0
}

/// Whether three words have a bit in common.
#[inline]
pub(crate) fn all_overlap(a: u32, b: u32, c: u32) -> bool
    ensures some { result ≡ true → (0 < bit_and (bit_and a b) c) × (a < 2 ^ 32) }
    ensures none { result ≡ false → bit_and (bit_and a b) c ≡ 0 }
{
    a & b & c != 0
}

/// How many of the 32 pixels from `first` on lie left of pixel `x`.
#[inline]
fn left_of(x: u8, first: u8) -> u8
    ensures { result ≡ min (x - first) 32 }
{
    if x <= first {
        0
    } else if x - first < 32 {
        x - first
    } else {
        32
    }
}

/// The bits of the pixels of `from..to` among the 32 pixels from `first` on.
#[inline]
fn ones(from: u8, to: u8, first: u8) -> u32
    requires { from ≤ to }
    ensures { (k : ℕ) → k < 32 → has_bit result k ≡ (nat_le from (first + k) && nat_lt (first + k) to) }
{
    ((1u64 << left_of(to, first)) - (1u64 << left_of(from, first))) as u32
}
