//! The numbers of a RIOT.
ghost use Rattle.std.specs.Prelude.{◌≡◌};
ghost use Rattle.riot_map.specs.RiotFields.{is_riot};

use crate::interval::Interval;

/// The numbers of a RIOT, in the order of a state's record. The pins of the ports aren't among
/// them.
#[derive(Clone, Copy, Debug, PartialEq, Eq)]
pub struct RiotFields {
    /// The memory, from address 80 (hexadecimal) on.
    pub ram: [u8; 128],
    /// The output latch of port A.
    pub output_a: u8,
    /// The direction register of port A: a bit of 1 is an output.
    pub direction_a: u8,
    /// The output latch of port B.
    pub output_b: u8,
    /// The direction register of port B: a bit of 1 is an output.
    pub direction_b: u8,
    /// What a read of INTIM gives.
    pub timer: u8,
    /// The cycles until that changes: 1 to the interval, and 1 past zero.
    pub part: u16,
    /// The code of the interval: 0 to 3 for 1, 8, 64 and 1024 cycles.
    pub interval: u8,
    /// 1 if the timer is past zero, else 0.
    pub past_zero: u8,
    /// 1 if the timer's flag is set, else 0.
    pub flag: u8,
}

impl RiotFields {
    /// Whether there is a RIOT with these numbers: the timer's are in their ranges, and fit one
    /// another.
    #[tactic(auto, unfolding(crate::specs::RiotFields::is_riot))]
    pub fn is_lawful(&self) -> bool
        ensures { result ≡ is_riot self.now }
    {
        self.interval < 4
            && self.past_zero < 2
            && self.flag < 2
            && 1 <= self.part
            && self.part <= Interval::of_code(self.interval).cycles()
            && (self.past_zero == 0 || self.part == 1)
    }
}
