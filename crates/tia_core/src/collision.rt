//! Collision bits.
ghost use Rattle.std.specs.Prelude.{◌≡◌, ◌<◌, ◌≤◌, ◌^◌, bit_or, length};
ghost use Rattle.tia_core.specs.Collision.{number_from};
ghost use Rattle.tia_core.specs.Private.ObjectSets.{one};

/// The number with these bits, highest first.
#[inline]
pub fn number_of(bits: &[bool]) -> u16
    requires { length bits.now ≤ 15 }
    ensures value { result ≡ number_from 0 bits.now }
    ensures range { result < 2 ^ length bits.now }
{
    let mut number = 0;
    for bit in bits {
        number = 2 * number + u16::from(*bit);
    }
    number
}

/// 1 if two objects meet, else 0.
#[inline(always)]
pub fn bit(met: bool) -> u16
    ensures { result ≡ one met }
{
    u16::from(met)
}

/// The collision bits `collisions` with those of `pairs`.
#[inline]
pub fn with_pairs(collisions: u16, pairs: u16) -> u16
    requires collisions { collisions < 2 ^ 15 }
    requires pairs { pairs < 2 ^ 15 }
    ensures value { result ≡ bit_or collisions pairs }
    ensures range { result < 2 ^ 15 }
{
    collisions | pairs
}
