//! Bits of numbers, and so the lines of an address.
ghost use Rattle.std.specs.Prelude.{◌≡◌, ◌<◌};
ghost use Rattle.riot_map.specs.Bits.{has_bit};

/// Whether a bit of a number is 1, where bit 0 is the lowest. Bit 12 of an address is its line A12.
pub fn has_bit(number: u16, bit: u32) -> bool
    requires { bit < 16 }
    ensures { result ≡ has_bit number bit }
{
    (number >> bit) % 2 == 1
}
