//! Addition and subtraction.

ghost use Rattle.std.specs.Prelude.{◌≡◌, ◌/◌, ◌%◌};
ghost use Rattle.mos_cpu.specs.Sums.{binary_adc_of, binary_sbc_of};
ghost use Rattle.mos_cpu.specs.Decimal.{adc_of, sbc_of};

use crate::decimal::{decimal_adc, decimal_sub};
use crate::outcome::Outcome;
use crate::running_status::RunningStatus;
use crate::status::Flag;

/// ADC: the sum with carry, in decimal if D is set.
#[inline(always)]
pub const fn adc(a: u8, m: u8, status: &RunningStatus) -> Outcome
    ensures result { result ≡ adc_of a m status.now }
    ensures status { result.p / 16 % 4 ≡ status.now / 16 % 4 }
{
    if status.has(Flag::Decimal) {
        Outcome::of(&decimal_adc(a, m, status.byte()))
    } else {
        binary_adc(a, m, status)
    }
}

#[inline(always)]
const fn binary_adc(a: u8, m: u8, status: &RunningStatus) -> Outcome
    ensures result { result ≡ binary_adc_of a m status.now }
    ensures status { result.p / 16 % 4 ≡ status.now / 16 % 4 }
{
    let sum = a as u16 + m as u16 + status.carry() as u16;
    let value = (sum & 0xFF) as u8;
    let overflow = (a ^ value) & (m ^ value) & 0x80 != 0;
    let signed = status.with_sign(value);
    let overflowed = signed.with_flag(Flag::Overflow, overflow);
    Outcome {
        value,
        status: overflowed.with_flag(Flag::Carry, sum > 0xFF),
    }
}

/// SBC: the difference with borrow. Its value is in decimal if D is set, its flags never are.
#[inline(always)]
pub const fn sbc(a: u8, m: u8, status: &RunningStatus) -> Outcome
    ensures result { result ≡ sbc_of a m status.now }
    ensures status { result.p / 16 % 4 ≡ status.now / 16 % 4 }
{
    let binary = binary_sbc(a, m, status);
    if status.has(Flag::Decimal) {
        Outcome {
            value: decimal_sub(a, m, status.byte()),
            status: binary.status,
        }
    } else {
        binary
    }
}

/// The difference as the sum with the operand's complement.
#[inline(always)]
const fn binary_sbc(a: u8, m: u8, status: &RunningStatus) -> Outcome
    ensures result { result ≡ binary_sbc_of a m status.now }
    ensures status { result.p / 16 % 4 ≡ status.now / 16 % 4 }
{
    binary_adc(a, !m, status)
}
