//! The pins and buttons of one frame.
ghost use Rattle.std.specs.Prelude.{◌≡◌, IsTrue, if◌then◌else◌, [], ◌∷◌};
ghost use Rattle.vcs_machine.specs.Inputs.{is_input, is_pressed, input_bytes};

use std::marker::Model;

/// What the players do in one frame, which contracts see as its three numbers.
///
/// SWCHA's bits 7 to 4 are right, left, down and up of joystick 0, bits 3 to 0 the same of
/// joystick 1; 0 is pressed. SWCHB's bit 0 is reset, bit 1 select (0 is pressed), bit 3 colour,
/// bits 6 and 7 the difficulty of players 0 and 1; its bits 2, 4 and 5 are 1 (Stella
/// Programmer's Guide; that the unused ones are 1 is this project's own rule). Bits 0 and 1 of
/// the buttons are 1 if button 0 or 1 is pressed.
#[derive(Clone, Copy, Debug, PartialEq, Eq)]
pub struct Input {
    swcha: u8,
    swchb: u8,
    buttons: u8,
}

impl Model for Input {
    ghost use Rattle.std.specs.Prelude.{IsTrue};
    ghost use Rattle.vcs_machine.specs.Inputs.{InputData, is_input};

    ghost Value = { InputData };

    ghost view = { λ i. record { swcha = i.swcha; swchb = i.swchb; buttons = i.buttons } };

    ghost invariant = { λ i. IsTrue (is_input (record { swcha = i.swcha; swchb = i.swchb; buttons = i.buttons })) };

    ghost inverse = { λ c. record { swcha = c.swcha; swchb = c.swchb; buttons = c.buttons } };
}

impl Input {
    /// The input of these numbers, if no bit has a value that no console gives it.
    pub fn new(swcha: u8, swchb: u8, buttons: u8) -> Option<Input>
        ensures { result ≡ (if is_input (record { swcha = swcha; swchb = swchb; buttons = buttons })
            then Some (record { swcha = swcha; swchb = swchb; buttons = buttons }) else None) }
    {
        if swchb & 0x34 == 0x34 && buttons < 4 {
            Some(Input {
                swcha,
                swchb,
                buttons,
            })
        } else {
            None
        }
    }

    /// The pins of port A.
    pub(crate) fn swcha(&self) -> u8
        ensures value { result ≡ self.now.swcha }
        ensures lawful { IsTrue (is_input self.now) }
    {
        self.swcha
    }

    /// The pins of port B.
    pub(crate) fn swchb(&self) -> u8
        ensures { result ≡ self.now.swchb }
    {
        self.swchb
    }

    /// Whether button 0 is pressed.
    pub(crate) fn fire0(&self) -> bool
        ensures { result ≡ is_pressed 0 self.now }
    {
        self.buttons % 2 == 1
    }

    /// Whether button 1 is pressed.
    pub(crate) fn fire1(&self) -> bool
        ensures { result ≡ is_pressed 1 self.now }
    {
        self.buttons / 2 % 2 == 1
    }

    /// Its three bytes, as a movie file has them.
    pub fn bytes(&self) -> [u8; 3]
        ensures value { result ≡ input_bytes self.now }
        ensures lawful { IsTrue (is_input self.now) }
    {
        [self.swcha, self.swchb, self.buttons]
    }
}
