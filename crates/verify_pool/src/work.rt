//! What the work of a verdict counts.

use movie_file::{Movie, Work};
use replay_segments::Cuts;

/// Most segments of a verdict that counts frames: nothing would come before its first segment is
/// done, and of two the second may have no frame, where a checkpoint stands at the movie's end.
const FEW_SEGMENTS: u32 = 2;

/// Whether a verdict counts frames.
pub(crate) fn counts_frames(cuts: &Cuts) -> bool {
    cuts.segments() <= FEW_SEGMENTS
}

/// What there is to replay of a movie: frames, if it has few segments, and else segments.
pub(crate) fn work_of(movie: &Movie, cuts: &Cuts) -> Work {
    if counts_frames(cuts) {
        Work::Frames(movie.frames())
    } else {
        Work::Segments(cuts.segments())
    }
}
