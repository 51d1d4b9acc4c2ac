//! The smaller of two numbers.
ghost use Rattle.std.specs.Prelude.{◌≤◌, ◌<◌, ℕ};

/// The smaller number.
#[inline]
pub fn least(a: u8, b: u8) -> u8
    ensures first { result ≤ a }
    ensures second { result ≤ b }
    ensures positive { 0 < a → 0 < b → 0 < result }
    ensures greater { (n : ℕ) → n < a → n < b → n < result }
{
    if a < b { a } else { b }
}
