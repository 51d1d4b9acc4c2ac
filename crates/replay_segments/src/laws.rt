//! Laws about verdicts.
ghost use Rattle.std.specs.Prelude.{◌≡◌, ◌↔◌, List, ℕ};
ghost use Rattle.movie_file.specs.Conversion.{in_version_2};
ghost use Rattle.movie_file.specs.Movie.{MovieData, IsMovie};
ghost use Rattle.replay_plan.specs.declared.keep.Keep.{Keep};
ghost use Rattle.replay_segments.specs.declared.verdict.Verdict.{Verdict};
ghost use Rattle.replay_segments.specs.Segments.{IsSegment};
ghost use Rattle.replay_segments.specs.Verdicts.{IsVerdict};

/// A law: a movie has at most one verdict.
pub const fn law_of_one_verdict()
    ensures { (m : MovieData) (keep : Keep) (v w : Verdict) → IsMovie m → IsVerdict m keep v → IsVerdict m keep w → v ≡ w }
{}

/// A law: a segment has at most one outcome.
pub const fn law_of_one_outcome()
    ensures { (m : MovieData) (cuts : List ℕ) (keep : Keep) (i : ℕ) (v w : Verdict) → IsMovie m
        → IsSegment m cuts keep i v → IsSegment m cuts keep i w → v ≡ w }
{}

/// A law: a movie in version 2 has the verdict of the movie, whichever frames are kept.
pub const fn law_of_converted_verdicts()
    ensures { (m : MovieData) (keep : Keep) (v : Verdict) → IsVerdict m keep v ↔ IsVerdict (in_version_2 m) keep v }
{}
