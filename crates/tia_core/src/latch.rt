//! The latches of the two buttons.
ghost use Rattle.std.specs.Prelude.{◌≡◌, ◌<◌, false};
ghost use Rattle.tia_core.specs.Bits.{has_bit};
ghost use Rattle.tia_core.specs.Latch.{latches_with_buttons, latches_after_vblank};
ghost use Rattle.tia_core.specs.Latch.{latches_at_start};

use crate::bits::has_bit;

/// The latches once each pressed button has set its own.
fn latches_with_buttons(latches: u8, fire0: bool, fire1: bool) -> u8
    ensures value { result ≡ latches_with_buttons latches fire0 fire1 }
    ensures range { result < 4 }
{
    let first = has_bit(latches, 0) || fire0;
    let second = has_bit(latches, 1) || fire1;
    (if first { 1 } else { 0 }) + (if second { 2 } else { 0 })
}

/// The latches after VBLANK was written.
pub fn latches_after_vblank(latches: u8, fire0: bool, fire1: bool, vblank: u8) -> u8
    ensures value { result ≡ latches_after_vblank latches fire0 fire1 vblank }
    ensures range { result < 4 }
    ensures unlatched { has_bit vblank 6 ≡ false → result ≡ 0 }
{
    if has_bit(vblank, 6) {
        latches_with_buttons(latches, fire0, fire1)
    } else {
        0
    }
}

/// The latches after a frame's start.
pub fn latches_at_start(latches: u8, fire0: bool, fire1: bool, vblank: u8) -> u8
    requires range { latches < 4 }
    ensures value { result ≡ latches_at_start latches fire0 fire1 vblank }
    ensures range { result < 4 }
    ensures same { has_bit vblank 6 ≡ false → result ≡ latches }
{
    if has_bit(vblank, 6) {
        latches_with_buttons(latches, fire0, fire1)
    } else {
        latches
    }
}
