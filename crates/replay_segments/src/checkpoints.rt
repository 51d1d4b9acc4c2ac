//! Checkpoints by the frames after which they stand.
ghost use Rattle.movie_file.specs.Movie.{IsMovie};
ghost use Rattle.replay_segments.specs.NextCheckpoint.{IsNext, StandBefore};

use movie_file::Movie;

/// How many checkpoints stand before a frame, of which the first `from` surely do.
#[tactic(auto, using(crate::proofs::CheckpointLemmas::one_more_before))]
pub fn checkpoints_before(movie: &Movie, from: u16, frame: u32) -> u16
    requires { StandBefore movie.now from frame }
    ensures next { IsNext movie.now result frame }
    ensures lawful { IsMovie movie.now }
{
    let count = movie.checkpoints();
    for next in from..count {
        if movie.checkpoint(next + 1).frame >= frame {
            return next;
        }
    }
    count
}
