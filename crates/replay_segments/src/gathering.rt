//! The verdict of pieces.
ghost use Rattle.std.specs.Prelude.{◌≡◌, ◌<◌, ◌⊎◌, ◌↔◌, ℕ, Err, IfOk};
ghost use Rattle.replay_segments.specs.Gathering.{NamesAll, PassedBelow, IsFirstMissing};
ghost use Rattle.replay_segments.specs.Gathering.{IsFirstRefused, picture_count};
ghost use Rattle.replay_segments.specs.Pieces.{Job, segments_of};
ghost use Rattle.replay_segments.specs.Verdicts.{IsVerdict};

use crate::finding::{answer_of, first_unpassed};
use crate::joining::all_pictures;
use crate::piece::Piece;
use crate::verdict::Verdict;
use refused::Refused;
use std::alloc::{AllocError, Global};

/// The first segment without a piece that passed has no piece at all.
#[derive(Clone, Copy, Debug, PartialEq, Eq)]
pub struct Missing {
    /// Its number, from 0.
    pub segment: u32,
}

/// The verdict of the movie whose pieces these are, which has `n` segments. They come in any order,
/// and a segment may have more than one.
///
/// It is that of the first segment that did not pass, or genuine if each has a piece that did.
/// If no piece has a picture no memory is taken; else there is one allocation, for all pictures.
/// NoMemory comes if that is refused, or if the first segment without a piece that passed has
/// pieces, all of them without memory.
pub fn gather(alloc: Global, pieces: Vec<Piece>, n: u32) -> Result<Verdict, Refused<Missing>>
    requires { 0 < n }
    ensures verdict { IfOk result (λ verdict. (job : Job) → NamesAll job pieces.items
        → n ≡ segments_of job → IsVerdict job.movie job.keep verdict) }
    ensures missing { (k : ℕ) → (result ≡ Err (Refused.Of (record { segment = k })))
        ↔ IsFirstMissing pieces.items n k }
    ensures refused { (k : ℕ) → IsFirstRefused pieces.items n k
        → result ≡ Err Refused.NoMemory }
    ensures memory { result ≡ Err Refused.NoMemory
        → ((k : ℕ) × IsFirstRefused pieces.items n k)
        ⊎ (PassedBelow pieces.items n × (0 < picture_count pieces.items)) }
{
    let arrived = pieces.as_slice();
    if let Some(number) = first_unpassed(arrived, n) {
        return answer_of(arrived, number);
    }
    match all_pictures(alloc, pieces, n) {
        Ok(pictures) => Ok(Verdict::Genuine { pictures }),
        Err(AllocError) => Err(Refused::NoMemory),
    }
}
