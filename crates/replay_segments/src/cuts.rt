//! Where a movie is cut.
ghost use Rattle.std.specs.Prelude.{◌≡◌, ◌+◌, ◌≤◌, ◌↔◌, length, slice_get, IsOk, IfOk, OnErr};
ghost use Rattle.std.specs.Prelude.{ℕ, IsTrue, Some};
ghost use Rattle.std.specs.NonZero.{non_zero_u16_get};
ghost use Rattle.movie_file.specs.Format.{most_checkpoints};

use movie_file::Movie;
use std::alloc::{AllocError, Global};
use std::marker::Model;
use std::num::NonZeroU16;

/// Numbers of checkpoints, counted from 1, in rising order. The movie is cut after the frame of
/// each.
#[derive(Drop)]
pub struct Cuts {
    numbers: Vec<u16>,
}

impl Model for Cuts {
    ghost use Rattle.std.specs.Prelude.{List, ℕ};
    ghost use Rattle.movie_file.specs.Format.{most_checkpoints};
    ghost use Rattle.replay_segments.specs.Cuts.{AreCuts};

    ghost Value = { List ℕ };

    ghost view = { λ c. c.numbers.items };

    ghost invariant = { λ c. AreCuts most_checkpoints c.numbers.items };
}

/// Whether each number is at most this one.
fn are_within(numbers: &[u16], most: u16) -> bool
    ensures { IsTrue result ↔ ((i n : ℕ) → slice_get numbers.now i ≡ Some n → n ≤ most) }
{
    numbers.iter().all(|number| *number <= most)
}

/// The numbers are not strictly rising, or one of them is no checkpoint of the movie.
#[derive(Clone, Copy, Debug, PartialEq, Eq)]
pub struct BadCuts;

impl Cuts {
    ghost use Rattle.replay_segments.specs.Cuts.{AreCuts, Fits, IsEvery};

    /// The cuts at these checkpoints. It takes no memory.
    pub fn new(movie: &Movie, numbers: Vec<u16>) -> Result<Cuts, BadCuts>
        ensures fit { IsOk result ↔ Fits numbers.items movie.now }
        ensures value { IfOk result (λ cuts. cuts ≡ numbers.items) }
    {
        let most = movie.checkpoints();
        let mut last = 0;
        for i in 0..numbers.len() {
            let number = numbers[i];
            if number <= last || number > most {
                return Err(BadCuts);
            }
            last = number;
        }
        Ok(Cuts { numbers })
    }

    /// The cuts at checkpoints k, 2k, .. up to the movie's last one; none if k is greater than the
    /// number of its checkpoints.
    ///
    /// AllocError comes only if the allocation of the list of their numbers was refused.
    pub fn every(alloc: Global, movie: &Movie, k: NonZeroU16) -> Result<Cuts, AllocError>
        ensures every { IfOk result (λ cuts. IsEvery (non_zero_u16_get k) (length movie.now.checkpoints) cuts) }
        ensures fit { IfOk result (λ cuts. Fits cuts movie.now) }
        ensures memory { OnErr result (non_zero_u16_get k ≤ length movie.now.checkpoints) }
    {
        let k = k.get();
        let count = movie.checkpoints() / k;
        let Ok(mut numbers) = Vec::with_capacity(alloc, usize::from(count)) else {
            return Err(AllocError);
        };
        for i in 0..count {
            numbers.push_reserved((i + 1) * k);
        }
        Ok(Cuts { numbers })
    }

    /// Whether each of them is a checkpoint of the movie: whether none is above its last one. It
    /// takes no memory.
    pub fn fits(&self, movie: &Movie) -> bool
        ensures { IsTrue result ↔ Fits self.now movie.now }
    {
        are_within(&self.numbers, movie.checkpoints())
    }

    /// The number of segments, one more than cuts. It takes no memory.
    #[tactic(auto, using(crate::proofs::CutLemmas::few))]
    pub fn segments(&self) -> u32
        ensures value { result ≡ length self.now + 1 }
        ensures lawful { AreCuts most_checkpoints self.now }
    {
        self.numbers.len() as u32 + 1
    }

    /// The checkpoint of a cut; cuts are counted from 0.
    pub(crate) fn get(&self, i: u32) -> Option<u16>
        ensures { result ≡ slice_get self.now i }
    {
        self.numbers.get(i as usize).copied()
    }
}
