//! What is held in a frame.
ghost use Rattle.std.specs.Prelude.{◌≡◌};
ghost use Rattle.input_text.specs.Names.{idle, is_idle, is_held, hold};

use crate::name::{Name, Port};
use vcs_machine::Input;

/// The pins and buttons of a frame in which nothing is held.
const IDLE: [u8; 3] = [0xFF, 0x3F, 0x00];

/// Whether nothing is held in a frame: each joystick, button and switch is at rest, colour is
/// selected, and both difficulty switches are at B.
pub fn is_idle(input: &Input) -> bool
    ensures { result ≡ is_idle input.now }
{
    let [swcha, swchb, buttons] = input.bytes();
    swcha == IDLE[0] && swchb == IDLE[1] && buttons == IDLE[2]
}

/// The input in which nothing is held.
pub(crate) fn idle() -> Input
    ensures { result ≡ idle }
{
    let [swcha, swchb, buttons] = IDLE;
    match Input::new(swcha, swchb, buttons) {
        Some(input) => input,
        None => unreachable!(),
    }
}

/// Whether a name is held in a frame.
pub(crate) fn is_held(input: &Input, name: Name) -> bool
    ensures { result ≡ is_held input.now name }
{
    let [swcha, swchb, buttons] = input.bytes();
    let bit = name.named_bit();
    let (byte, idle) = match bit.port {
        Port::Swcha => (swcha, IDLE[0]),
        Port::Swchb => (swchb, IDLE[1]),
        Port::Buttons => (buttons, IDLE[2]),
    };
    byte / bit.mask % 2 != idle / bit.mask % 2
}

/// An input in which a name is held as well.
pub(crate) fn hold(input: Input, name: Name) -> Input
    ensures { result ≡ hold input name }
{
    if is_held(&input, name) {
        return input;
    }
    let [swcha, swchb, buttons] = input.bytes();
    let bit = name.named_bit();
    let turned = match bit.port {
        Port::Swcha => Input::new(swcha ^ bit.mask, swchb, buttons),
        Port::Swchb => Input::new(swcha, swchb ^ bit.mask, buttons),
        Port::Buttons => Input::new(swcha, swchb, buttons ^ bit.mask),
    };
    match turned {
        Some(input) => input,
        None => unreachable!(),
    }
}
