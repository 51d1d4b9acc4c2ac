//! How a movie is to be judged.
ghost use Rattle.std.specs.Prelude.{◌≡◌};
ghost use Rattle.std.specs.NonZero.{non_zero_u16_get};

use crate::keep::Keep;
use crate::workers::Workers;
use std::num::NonZeroU16;

/// How a movie is to be judged.
///
/// No output shows the workers and the cuts.
#[derive(Clone, Copy, Debug, PartialEq, Eq)]
pub struct Plan {
    /// How many workers judge it.
    pub workers: Workers,
    /// It is cut at every so many checkpoints.
    pub every: NonZeroU16,
    /// Which frames' pictures are kept.
    pub keep: Keep,
}

impl Plan {
    /// The plan by which so many workers judge a movie that is cut at each checkpoint, and no
    /// picture is kept.
    pub fn without_pictures(workers: Workers) -> Plan
        ensures workers { result.workers ≡ workers }
        ensures every { non_zero_u16_get result.every ≡ 1 }
        ensures keep { (result.keep.first ≡ 1) × (result.keep.count ≡ 0) }
    {
        Plan {
            workers,
            every: NonZeroU16::MIN,
            keep: Keep::NONE,
        }
    }
}
