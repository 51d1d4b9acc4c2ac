//! The address map.
ghost use Rattle.std.specs.Prelude.{◌≡◌};
ghost use Rattle.riot_map.specs.Place.{place_of};

use crate::bits::has_bit;
use crate::places::Place;

/// The place that an address leads to, by its lines A12, A9 and A7.
///
/// The processor has 13 address lines, so the upper three bits decide nothing.
pub fn place(address: u16) -> Place
    ensures { result ≡ place_of address }
{
    if has_bit(address, 12) {
        Place::Cart(address)
    } else if !has_bit(address, 7) {
        Place::Tia((address % 64) as u8)
    } else if !has_bit(address, 9) {
        Place::Ram((address % 128) as u8)
    } else {
        Place::Io((address % 32) as u8)
    }
}
