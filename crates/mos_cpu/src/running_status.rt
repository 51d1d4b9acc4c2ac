//! The status register of a processor that runs.

use crate::status::{Flag, has, with_flag};
use std::marker::Model;

/// A status that keeps N and Z as a number that they come from, C by itself, and the other bits as they
/// are.
///
/// Nearly every instruction sets N and Z, and few look at them. So a value is kept as it is, and bits
/// are made of it only where the status is asked for as a byte.
#[derive(Drop)]
pub struct RunningStatus {
    /// The bits V, D and I. What it has elsewhere counts for nothing.
    others: u8,
    /// Whether C is set.
    carry: bool,
    /// Z is set if its low byte is 0, and N if it is 128 or more. So a byte has its own N and Z, and
    /// 0x8000 has both.
    sign_and_zero: u16,
}

impl Model for RunningStatus {
    ghost use Rattle.std.specs.Prelude.{ℕ};
    ghost use Rattle.mos_cpu.specs.Private.RunningStatus.{status_byte};

    ghost Value = { ℕ };

    ghost view = { λ s. status_byte s.others s.carry s.sign_and_zero };
}

impl RunningStatus {
    ghost use Rattle.std.specs.Prelude.{◌≡◌, ◌≤◌, ◌/◌, ◌%◌, ◌==◌, true};
    ghost use Rattle.mos_cpu.specs.Status.{carry_of, has_flag, put_flag, with_nz};
    ghost use Rattle.mos_cpu.specs.Private.RunningStatus.{is_apart};
    ghost use Rattle.mos_cpu.specs.declared.status.Flag.TheVariants.{Zero, Negative};

    /// A byte as the status.
    #[tactic(auto, using(crate::proofs::RunningStatusLemmas::of_byte))]
    #[inline(always)]
    pub const fn of(p: u8) -> Self
        ensures { result ≡ p }
    {
        let zero = if has(p, Flag::Zero) { 0 } else { 1 };
        let sign = if has(p, Flag::Negative) { 0x8000 } else { 0 };
        Self {
            others: p,
            carry: has(p, Flag::Carry),
            sign_and_zero: sign + zero,
        }
    }

    /// The status as a byte.
    #[inline(always)]
    pub const fn byte(&self) -> u8
        ensures { result ≡ self.now }
    {
        let carry = with_flag(self.others, Flag::Carry, self.carry);
        let zero = with_flag(carry, Flag::Zero, self.sign_and_zero % 256 == 0);
        with_flag(zero, Flag::Negative, self.sign_and_zero >= 0x80)
    }

    #[inline(always)]
    pub const fn has(&self, flag: Flag) -> bool
        ensures { result ≡ has_flag flag self.now }
    {
        match flag {
            Flag::Carry => self.carry,
            Flag::Zero => self.sign_and_zero % 256 == 0,
            Flag::Negative => self.sign_and_zero >= 0x80,
            _ => has(self.others, flag),
        }
    }

    /// The carry as a number.
    #[inline(always)]
    pub const fn carry(&self) -> u8
        ensures { result ≡ carry_of self.now }
    {
        if self.carry { 1 } else { 0 }
    }

    /// The status with a flag set or cleared, other than N and Z.
    #[inline(always)]
    pub const fn with_flag(&self, flag: Flag, on: bool) -> Self
        requires { is_apart flag ≡ true }
        ensures value { result ≡ put_flag flag on self.now }
        ensures status { result / 16 % 4 ≡ self.now / 16 % 4 }
    {
        match flag {
            Flag::Carry => Self {
                others: self.others,
                carry: on,
                sign_and_zero: self.sign_and_zero,
            },
            _ => Self {
                others: with_flag(self.others, flag, on),
                carry: self.carry,
                sign_and_zero: self.sign_and_zero,
            },
        }
    }

    /// The status with N and Z of a value.
    #[inline(always)]
    pub const fn with_sign(&self, value: u8) -> Self
        ensures value { result ≡ with_nz value self.now }
        ensures status { result / 16 % 4 ≡ self.now / 16 % 4 }
    {
        Self {
            others: self.others,
            carry: self.carry,
            sign_and_zero: value as u16,
        }
    }

    /// The status with N of one value, and Z of another that has bit 7 only if the first has it.
    #[inline(always)]
    pub const fn with_sign_and_zero(&self, sign: u8, zero: u8) -> Self
        requires { zero ≤ sign }
        ensures value { result ≡ put_flag Negative (has_flag Negative sign) (put_flag Zero (zero == 0) self.now) }
        ensures status { result / 16 % 4 ≡ self.now / 16 % 4 }
    {
        Self {
            others: self.others,
            carry: self.carry,
            sign_and_zero: ((sign & 0x80) as u16) * 0x100 + zero as u16,
        }
    }
}
