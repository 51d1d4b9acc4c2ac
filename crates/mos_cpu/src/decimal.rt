//! Addition and subtraction of decimal digits.

ghost use Rattle.std.specs.Prelude.{◌≡◌, ◌<◌, ◌≤◌, ◌/◌, ◌%◌, ◌==◌, pos, ◌-ℤ◌};
ghost use Rattle.mos_cpu.specs.Numbers.{modulo};
ghost use Rattle.mos_cpu.specs.Status.{put_flag};
ghost use Rattle.mos_cpu.specs.Sums.{sum_of};
ghost use Rattle.mos_cpu.specs.Decimal.{low_sum, decimal_sum_of, corrected_of, decimal_adc_of};
ghost use Rattle.mos_cpu.specs.Decimal.{low_difference_of, decimal_difference};

use crate::arithmetic::Alu;
use crate::status::{Flag, has, with_flag};

/// The sum of the low digits with carry, and 16 if they carry.
#[inline(always)]
const fn low_digits(a: u8, m: u8, p: u8) -> u8
    ensures { result ≡ low_sum a m p }
{
    let low = (a & 0x0F) + (m & 0x0F) + (p & 1);
    if low >= 10 {
        ((low + 6) & 0x0F) + 0x10
    } else {
        low
    }
}

/// The sum of both digits with carry, before the high one is corrected.
#[inline(always)]
const fn decimal_sum(a: u8, m: u8, p: u8) -> u16
    ensures value { result ≡ decimal_sum_of a m p }
    ensures bound { result < 512 }
{
    (a & 0xF0) as u16 + (m & 0xF0) as u16 + low_digits(a, m, p) as u16
}

/// A sum with its high digit in decimal.
#[inline(always)]
const fn corrected(sum: u16) -> u16
    requires { sum < 512 }
    ensures { result ≡ corrected_of sum }
{
    if sum >= 0xA0 { sum + 0x60 } else { sum }
}

/// The status with Z of the binary sum.
#[tactic(auto, using(crate::proofs::DecimalLemmas::carried, crate::proofs::StatusLemmas::and_one))]
#[inline(always)]
const fn with_binary_zero(a: u8, m: u8, p: u8) -> u8
    ensures value { result ≡ put_flag Flag.Zero (sum_of a m p % 256 == 0) p }
    ensures status { result / 16 % 4 ≡ p / 16 % 4 }
{
    let binary = a.wrapping_add(m).wrapping_add(p & 1);
    with_flag(p, Flag::Zero, binary == 0)
}

/// The decimal sum, with C of itself, N and V of the sum before its correction, and Z of the binary
/// sum.
#[inline(never)]
pub const fn decimal_adc(a: u8, m: u8, p: u8) -> Alu
    ensures result { result ≡ decimal_adc_of a m p }
    ensures status { result.p / 16 % 4 ≡ p / 16 % 4 }
{
    let sum = decimal_sum(a, m, p);
    let middle = (sum & 0xFF) as u8;
    let outcome = corrected(sum);
    let overflow = (a ^ middle) & (m ^ middle) & 0x80 != 0;
    let zero = with_binary_zero(a, m, p);
    let negative = with_flag(zero, Flag::Negative, has(middle, Flag::Negative));
    Alu {
        value: (outcome & 0xFF) as u8,
        p: with_flag(
            with_flag(negative, Flag::Overflow, overflow),
            Flag::Carry,
            outcome > 0xFF,
        ),
    }
}

/// A low digit that lacks what is taken from it: 6 less, modulo 16.
#[tactic(auto, using(crate::proofs::DecimalLemmas::digit_modulo))]
#[inline(always)]
const fn lacking_digit(have: u8, taken: u8) -> u8
    requires digit { taken ≤ 16 }
    requires lacks { have < taken }
    ensures value { result ≡ modulo (pos have -ℤ pos taken -ℤ pos 6) 16 }
    ensures digit { result < 16 }
{
    (have + 26 - taken) & 0x0F
}

/// The difference of the low digits with borrow, and the 16 that it borrows or 0.
#[tactic(auto, using(crate::proofs::DecimalLemmas::low_digits))]
#[inline(always)]
const fn low_difference(a: u8, m: u8, p: u8) -> (u8, u8)
    ensures difference { pos result.0 -ℤ pos result.1 ≡ low_difference_of a m p }
    ensures digit { result.0 < 16 }
    ensures borrow { result.1 ≤ 16 }
{
    let have = (a & 0x0F) + (p & 1);
    let taken = (m & 0x0F) + 1;
    if have < taken {
        (lacking_digit(have, taken), 0x10)
    } else {
        (have - taken, 0)
    }
}

/// The decimal difference with borrow: a digit that lacks borrows from the next, and is 6 less.
#[tactic(auto, using(crate::proofs::DecimalLemmas::high_lacks, crate::proofs::DecimalLemmas::high_suffices))]
#[inline(never)]
pub const fn decimal_sub(a: u8, m: u8, p: u8) -> u8
    ensures { result ≡ decimal_difference a m p }
{
    let (digit, borrowed) = low_difference(a, m, p);
    let have = (a & 0xF0) as u16 + digit as u16;
    let taken = (m & 0xF0) as u16 + borrowed as u16;
    if have < taken {
        ((have + 0x1A0 - taken) & 0xFF) as u8
    } else {
        (have - taken) as u8
    }
}
