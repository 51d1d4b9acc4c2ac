//! The status register P.

ghost use Rattle.std.specs.Prelude.{◌≡◌, ◌+◌, ◌/◌, ◌%◌};
ghost use Rattle.mos_cpu.specs.Registers.{IsStatus};
ghost use Rattle.mos_cpu.specs.Status.{flag_weight, has_flag, put_flag, pushed_of};
ghost use Rattle.mos_cpu.specs.Status.{pulled_of};

/// A flag of the status register.
#[derive(Clone, Copy)]
pub enum Flag {
    Carry,
    Zero,
    Interrupt,
    Decimal,
    Overflow,
    Negative,
}

/// The bit of a flag.
#[inline(always)]
const fn mask(flag: Flag) -> u8
    ensures { result ≡ flag_weight flag }
{
    match flag {
        Flag::Carry => 0x01,
        Flag::Zero => 0x02,
        Flag::Interrupt => 0x04,
        Flag::Decimal => 0x08,
        Flag::Overflow => 0x40,
        Flag::Negative => 0x80,
    }
}

#[tactic(auto, using(crate::proofs::StatusLemmas::and_weight))]
#[inline(always)]
pub const fn has(p: u8, flag: Flag) -> bool
    ensures { result ≡ has_flag flag p }
{
    p & mask(flag) != 0
}

/// The status with a flag set or cleared.
#[tactic(auto, using(crate::proofs::StatusLemmas::puts))]
#[inline(always)]
pub const fn with_flag(p: u8, flag: Flag, on: bool) -> u8
    ensures value { result ≡ put_flag flag on p }
    ensures status { result / 16 % 4 ≡ p / 16 % 4 }
{
    let others = p & !mask(flag);
    if on { others | mask(flag) } else { others }
}

/// The status as it is pushed: with bits 5 and 4 set.
#[tactic(auto, using(crate::proofs::StatusLemmas::or_48))]
#[inline(always)]
pub const fn pushed_status(p: u8) -> u8
    ensures { result ≡ pushed_of p }
{
    p | 0x30
}

/// A pulled byte as the status: its bits 5 and 4 are dropped.
#[tactic(auto, using(crate::proofs::StatusLemmas::pulls))]
#[inline(always)]
pub const fn pulled_status(byte: u8) -> u8
    ensures value { result ≡ pulled_of byte }
    ensures status { IsStatus result }
{
    byte & 0xCF
}
