//! Single bits, and words of bits.
ghost use Rattle.std.specs.Prelude.{◌≡◌, ◌<◌, ◌≤◌, ◌+◌, ◌-◌, ◌==◌, ◌&&◌, ◌||◌, ℕ, nat_le, nat_lt};
ghost use Rattle.tia_chip.specs.Bits.{has_bit};

/// Whether bit `index` of `value` is set.
#[inline(always)]
pub fn has_bit(value: u8, index: u8) -> bool
    requires { index < 8 }
    ensures { result ≡ has_bit value index }
{
    (value >> index) % 2 == 1
}

/// Whether bit `index` of a word is set.
#[inline(always)]
pub fn has_pixel(word: u64, index: u8) -> bool
    requires { index < 64 }
    ensures { result ≡ has_bit word index }
{
    (word >> index) % 2 == 1
}

/// A word in which bit `index` is also set, if it is lit.
#[inline(always)]
pub fn with_pixel(word: u64, index: u8, is_lit: bool) -> u64
    requires { index < 64 }
    ensures { (k : ℕ) → has_bit result k ≡ (has_bit word k || (is_lit && (k == index))) }
{
    if is_lit { word | (1 << index) } else { word }
}

/// The first bits of a word.
#[inline(always)]
pub fn first_bits(word: u64, count: u8) -> u64
    requires { count ≤ 64 }
    ensures { (k : ℕ) → has_bit result k ≡ (nat_lt k count && has_bit word k) }
{
    if count < 64 {
        word & ((1 << count) - 1)
    } else {
        word
    }
}

/// A word from bit `count` on.
#[inline(always)]
pub fn bits_from(word: u64, count: u8) -> u64
    ensures { (k : ℕ) → has_bit result k ≡ has_bit word (count + k) }
{
    if count < 64 { word >> count } else { 0 }
}

/// A word whose bits begin at `place`.
#[inline(always)]
pub fn bits_at(word: u64, place: u8) -> u64
    requires { place < 64 }
    ensures { (k : ℕ) → has_bit result k ≡ (nat_lt k 64 && (nat_le place k && has_bit word (k - place))) }
{
    word << place
}
