//! Which frames of a movie no checkpoint claims.
ghost use Rattle.std.specs.NonZero.{non_zero_u32_get};
ghost use Rattle.movie_hints.specs.Hints.{Unclaims};
ghost use Rattle.movie_hints.specs.Places.{frames_in};

use crate::hint::Hint;
use crate::places::Places;
use std::num::NonZeroU32;

/// Which frames at the end of a movie no checkpoint follows, if it has one after every so many
/// frames. The bytes are those of a movie that was made.
pub fn hint_of_claims(bytes: &[u8], every: NonZeroU32) -> Option<Hint>
    ensures { Unclaims (frames_in bytes.now) (non_zero_u32_get every) result }
{
    let last = Places::of(bytes).frames;
    let after = last % every.get();
    if after == 0 {
        return None;
    }
    let first = last - after + 1;
    Some(Hint::Unclaimed { first, last })
}
