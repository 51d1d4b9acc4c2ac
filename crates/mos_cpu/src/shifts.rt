//! Shifts and rotations.

ghost use Rattle.std.specs.Prelude.{◌≡◌, ◌/◌, ◌%◌};
ghost use Rattle.mos_cpu.specs.Arithmetic.{shift_of, asl_of, lsr_of, rol_of, ror_of};

use crate::outcome::Outcome;
use crate::running_status::RunningStatus;
use crate::status::{Flag, has};

/// A shifted value, with N and Z, and in C the bit that fell out.
#[inline(always)]
const fn shift_to(value: u8, out: bool, status: &RunningStatus) -> Outcome
    ensures result { result ≡ shift_of value out status.now }
    ensures status { result.p / 16 % 4 ≡ status.now / 16 % 4 }
{
    Outcome {
        value,
        status: status.with_sign(value).with_flag(Flag::Carry, out),
    }
}

/// ASL: to the left, with 0 in bit 0 and bit 7 in C.
#[inline(always)]
pub const fn asl(m: u8, status: &RunningStatus) -> Outcome
    ensures result { result ≡ asl_of m status.now }
    ensures status { result.p / 16 % 4 ≡ status.now / 16 % 4 }
{
    shift_to(m << 1, has(m, Flag::Negative), status)
}

/// LSR: to the right, with 0 in bit 7 and bit 0 in C.
#[inline(always)]
pub const fn lsr(m: u8, status: &RunningStatus) -> Outcome
    ensures result { result ≡ lsr_of m status.now }
    ensures status { result.p / 16 % 4 ≡ status.now / 16 % 4 }
{
    shift_to(m >> 1, has(m, Flag::Carry), status)
}

/// ROL: to the left, with the old C in bit 0 and bit 7 in C.
#[tactic(auto, using(crate::proofs::SumLemmas::or_carry))]
#[inline(always)]
pub const fn rol(m: u8, status: &RunningStatus) -> Outcome
    ensures result { result ≡ rol_of m status.now }
    ensures status { result.p / 16 % 4 ≡ status.now / 16 % 4 }
{
    shift_to(m << 1 | status.carry(), has(m, Flag::Negative), status)
}

/// ROR: to the right, with the old C in bit 7 and bit 0 in C.
#[inline(always)]
pub const fn ror(m: u8, status: &RunningStatus) -> Outcome
    ensures result { result ≡ ror_of m status.now }
    ensures status { result.p / 16 % 4 ≡ status.now / 16 % 4 }
{
    shift_to(m >> 1 | status.carry() << 7, has(m, Flag::Carry), status)
}
