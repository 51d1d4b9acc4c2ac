//! What a read gives, and what it changes.
ghost use Rattle.std.specs.Prelude.{◌≡◌, ◌<◌, ◌-◌, ◌*◌, ◌≤◌};
ghost use Rattle.tia_chip.specs.Bits.{has_bit as bit_of, two_bits};
ghost use Rattle.tia_chip.specs.Private.Ranges.{IsInRange};
ghost use Rattle.tia_chip.specs.Read.{button_byte, register_byte, tia_after_read};

use crate::bits::has_bit;
use crate::state::TiaState;

/// Whether bit `index` of the collision bits is set.
fn collision(collisions: u16, index: u8) -> bool
    requires { index < 15 }
    ensures { result ≡ bit_of collisions index }
{
    (collisions >> index) % 2 == 1
}

/// A byte by its bits 7 and 6.
fn two_bits(high: bool, low: bool) -> u8
    ensures { result ≡ two_bits high low }
{
    (if high { 128 } else { 0 }) + (if low { 64 } else { 0 })
}

/// The byte of two pairs, of which the first is at this bit of the collision bits.
fn pair(collisions: u16, first: u8) -> u8
    requires some { 0 < first }
    requires most { first < 15 }
    ensures { result ≡ two_bits (bit_of collisions first) (bit_of collisions (first - 1)) }
{
    two_bits(
        collision(collisions, first),
        collision(collisions, first - 1),
    )
}

/// A button as INPT4 and INPT5 give it.
fn button_byte(tia: &TiaState, fire: bool, button: u8) -> u8
    requires { button < 2 }
    ensures { result ≡ button_byte tia.now fire button }
{
    let is_latched = has_bit(tia.vblank, 6) && has_bit(tia.latches, button);
    two_bits(!(fire || is_latched), false)
}

/// What a register, 0 to 15, gives in bits 7 and 6.
pub fn register_byte(tia: &TiaState, register: u8) -> u8
    ensures { result ≡ register_byte tia.now register }
{
    match register {
        0 => pair(tia.collisions, 14),
        1 => pair(tia.collisions, 12),
        2 => pair(tia.collisions, 10),
        3 => pair(tia.collisions, 8),
        4 => pair(tia.collisions, 6),
        5 => pair(tia.collisions, 4),
        6 => two_bits(collision(tia.collisions, 2), false),
        7 => pair(tia.collisions, 1),
        12 => button_byte(tia, tia.fire0, 0),
        13 => button_byte(tia, tia.fire1, 1),
        _ => 0,
    }
}

/// Sets the latch of a button that is pressed as its register is read, with VBLANK D6.
pub fn latch_button(tia: &mut TiaState, number: u8)
    requires { IsInRange tia.old }
    ensures value { tia.new ≡ tia_after_read tia.old number }
    ensures range { IsInRange tia.new }
{
    if !has_bit(tia.vblank, 6) {
        return;
    }
    let first = has_bit(tia.latches, 0);
    let second = has_bit(tia.latches, 1);
    if number % 16 == 12 && tia.fire0 {
        tia.latches = 1 + (if second { 2 } else { 0 });
    } else if number % 16 == 13 && tia.fire1 {
        tia.latches = (if first { 1 } else { 0 }) + 2;
    }
}
