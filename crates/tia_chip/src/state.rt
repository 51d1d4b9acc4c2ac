//! The state of a TIA between two colour clocks.
ghost use Rattle.std.specs.Prelude.{◌≡◌, ◌≤◌, IsTrue, IsFalse};
ghost use Rattle.tia_chip.specs.Blank.{is_in_blank, lateness_of};

use crate::ball::Ball;
use crate::missile::Missile;
use crate::player::Player;
use crate::waiting::Waiting;

/// The state of a TIA between two colour clocks.
#[derive(Clone, Copy, Debug, PartialEq, Eq)]
pub struct TiaState {
    pub vsync: u8,
    pub vblank: u8,
    pub colup0: u8,
    pub colup1: u8,
    pub colupf: u8,
    pub colubk: u8,
    pub ctrlpf: u8,
    pub pf0: u8,
    pub pf1: u8,
    pub pf2: u8,
    pub player0: Player,
    pub player1: Player,
    pub missile0: Missile,
    pub missile1: Missile,
    pub ball: Ball,
    /// CTRLPF D0 as pixel 80 began, until the last pixels of the line have their bit.
    pub mirrored: bool,
    /// The playfield's bit for the pixels from the last that took one.
    pub playfield: bool,
    /// The fifteen collision bits, from M0-P1 in bit 14 to M0-M1 in bit 0.
    pub collisions: u16,
    /// How many pulses HMOVE has made, to 16; 0 if nothing moves.
    pub pulses: u8,
    /// The button latches: bit 0 of button 0, bit 1 of button 1.
    pub latches: u8,
    /// The next colour clock of the line, 0 to 227.
    pub clock: u8,
    /// The clock whose pixel comes next: `clock`, but after RSYNC it goes on from where it was.
    pub beam: u8,
    /// Whether clocks from 68 on are in the blank: after HMOVE, and after RSYNC in the blank.
    pub longer: bool,
    /// A write on its way.
    pub waiting: Option<Waiting>,
    /// How many clocks pass until HMOVE acts, if it is on its way.
    pub hmove: Option<u8>,
    /// Whether a write has changed an object since the last clock.
    pub changed: bool,
    /// The line, from 0 at a frame's start, modulo 65,536.
    pub line: u16,
    /// Whether each button is pressed.
    pub fire0: bool,
    pub fire1: bool,
}

impl TiaState {
    /// Whether the next clock is in the blank.
    #[inline(always)]
    pub(crate) fn is_in_blank(&self) -> bool
        ensures { result ≡ is_in_blank self.now }
    {
        self.clock < 68 || self.longer
    }

    /// How many steps late a strobe takes effect.
    #[inline(always)]
    pub(crate) fn lateness(&self) -> u8
        ensures value { result ≡ lateness_of self.now }
        ensures range { result ≤ 2 }
    {
        if !self.is_in_blank() {
            0
        } else if self.clock < 73 {
            2
        } else {
            1
        }
    }
}
