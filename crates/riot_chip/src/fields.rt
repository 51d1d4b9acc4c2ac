//! The numbers of a RIOT.
ghost use Rattle.std.specs.Prelude.{◌≡◌};
ghost use Rattle.riot_chip.specs.Riot.{is_riot};

use crate::timer::TimerFields;

/// The numbers of a RIOT: its memory, its ports and its timer.
///
/// Its pins are no part of them: what is connected sets them.
#[derive(Clone, Copy, Debug, PartialEq, Eq)]
pub struct RiotFields {
    pub ram: [u8; 128],
    pub output_a: u8,
    /// The direction of port A: a bit of 1 is an output.
    pub direction_a: u8,
    pub output_b: u8,
    pub direction_b: u8,
    pub timer: TimerFields,
}

impl RiotFields {
    /// Whether there is a RIOT of these numbers.
    pub fn is_lawful(&self) -> bool
        ensures { result ≡ is_riot self.now }
    {
        self.timer.is_lawful()
    }
}
