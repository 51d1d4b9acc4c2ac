//! The arithmetic unit for callers that have the status as a byte.

ghost use Rattle.std.specs.Prelude.{◌≡◌, ◌/◌, ◌%◌};
ghost use Rattle.mos_cpu.specs.Arithmetic.{load_of, and_of, ora_of, eor_of, compare_of, bit_of};
ghost use Rattle.mos_cpu.specs.Arithmetic.{inc_of, dec_of, asl_of, lsr_of, rol_of, ror_of};
ghost use Rattle.mos_cpu.specs.Decimal.{adc_of, sbc_of};

use crate::arithmetic::Alu;
use crate::running_status::RunningStatus;
use crate::{arithmetic, shifts, sums};

/// LDA, LDX, LDY and the transfers: N and Z of the value.
#[inline(always)]
pub const fn load(value: u8, p: u8) -> Alu
    ensures result { result ≡ load_of value p }
    ensures status { result.p / 16 % 4 ≡ p / 16 % 4 }
{
    arithmetic::load(value, &RunningStatus::of(p)).alu()
}

/// AND: N and Z of the result.
#[inline(always)]
pub const fn and(a: u8, m: u8, p: u8) -> Alu
    ensures result { result ≡ and_of a m p }
    ensures status { result.p / 16 % 4 ≡ p / 16 % 4 }
{
    arithmetic::and(a, m, &RunningStatus::of(p)).alu()
}

/// ORA: N and Z of the result.
#[inline(always)]
pub const fn ora(a: u8, m: u8, p: u8) -> Alu
    ensures result { result ≡ ora_of a m p }
    ensures status { result.p / 16 % 4 ≡ p / 16 % 4 }
{
    arithmetic::ora(a, m, &RunningStatus::of(p)).alu()
}

/// EOR: N and Z of the result.
#[inline(always)]
pub const fn eor(a: u8, m: u8, p: u8) -> Alu
    ensures result { result ≡ eor_of a m p }
    ensures status { result.p / 16 % 4 ≡ p / 16 % 4 }
{
    arithmetic::eor(a, m, &RunningStatus::of(p)).alu()
}

/// CMP, CPX and CPY: C, Z and N of the register against the operand. The value is the register.
#[inline(always)]
pub const fn compare(register: u8, m: u8, p: u8) -> Alu
    ensures result { result ≡ compare_of register m p }
    ensures status { result.p / 16 % 4 ≡ p / 16 % 4 }
{
    arithmetic::compare(register, m, &RunningStatus::of(p)).alu()
}

/// BIT: N and V of the operand, Z of its common bits with A. The value is A.
#[inline(always)]
pub const fn bit(a: u8, m: u8, p: u8) -> Alu
    ensures result { result ≡ bit_of a m p }
    ensures status { result.p / 16 % 4 ≡ p / 16 % 4 }
{
    arithmetic::bit(a, m, &RunningStatus::of(p)).alu()
}

/// INC, INX and INY: one more modulo 256, with N and Z.
#[inline(always)]
pub const fn inc(m: u8, p: u8) -> Alu
    ensures result { result ≡ inc_of m p }
    ensures status { result.p / 16 % 4 ≡ p / 16 % 4 }
{
    arithmetic::inc(m, &RunningStatus::of(p)).alu()
}

/// DEC, DEX and DEY: one less modulo 256, with N and Z.
#[inline(always)]
pub const fn dec(m: u8, p: u8) -> Alu
    ensures result { result ≡ dec_of m p }
    ensures status { result.p / 16 % 4 ≡ p / 16 % 4 }
{
    arithmetic::dec(m, &RunningStatus::of(p)).alu()
}

/// ASL: to the left, with 0 in bit 0 and bit 7 in C.
#[inline(always)]
pub const fn asl(m: u8, p: u8) -> Alu
    ensures result { result ≡ asl_of m p }
    ensures status { result.p / 16 % 4 ≡ p / 16 % 4 }
{
    shifts::asl(m, &RunningStatus::of(p)).alu()
}

/// LSR: to the right, with 0 in bit 7 and bit 0 in C.
#[inline(always)]
pub const fn lsr(m: u8, p: u8) -> Alu
    ensures result { result ≡ lsr_of m p }
    ensures status { result.p / 16 % 4 ≡ p / 16 % 4 }
{
    shifts::lsr(m, &RunningStatus::of(p)).alu()
}

/// ROL: to the left, with the old C in bit 0 and bit 7 in C.
#[inline(always)]
pub const fn rol(m: u8, p: u8) -> Alu
    ensures result { result ≡ rol_of m p }
    ensures status { result.p / 16 % 4 ≡ p / 16 % 4 }
{
    shifts::rol(m, &RunningStatus::of(p)).alu()
}

/// ROR: to the right, with the old C in bit 7 and bit 0 in C.
#[inline(always)]
pub const fn ror(m: u8, p: u8) -> Alu
    ensures result { result ≡ ror_of m p }
    ensures status { result.p / 16 % 4 ≡ p / 16 % 4 }
{
    shifts::ror(m, &RunningStatus::of(p)).alu()
}

/// ADC: the sum with carry, in decimal if D is set.
#[inline(always)]
pub const fn adc(a: u8, m: u8, p: u8) -> Alu
    ensures result { result ≡ adc_of a m p }
    ensures status { result.p / 16 % 4 ≡ p / 16 % 4 }
{
    sums::adc(a, m, &RunningStatus::of(p)).alu()
}

/// SBC: the difference with borrow. Its value is in decimal if D is set, its flags never are.
#[inline(always)]
pub const fn sbc(a: u8, m: u8, p: u8) -> Alu
    ensures result { result ≡ sbc_of a m p }
    ensures status { result.p / 16 % 4 ≡ p / 16 % 4 }
{
    sums::sbc(a, m, &RunningStatus::of(p)).alu()
}
