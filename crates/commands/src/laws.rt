//! Laws about the definitions.
ghost use Rattle.std.specs.Prelude.{◌≡◌, ◌≤◌, ◌+◌, ◌-◌, ℕ, length};
ghost use Rattle.movie_file.specs.Judgement.{IsGenuine};
ghost use Rattle.movie_file.specs.Movie.{MovieData, IsMovie};
ghost use Rattle.movie_file.specs.Run.{run};
ghost use Rattle.commands.specs.Cut.{ClaimsEvery, IsCutOf};

/// A law: a cut is genuine, whatever its movie claims, and its run is the movie's run from its
/// first frame on. Of the same frames there is one cut, and that of all frames of a genuine movie,
/// with the distances that its claims have, has its claims.
#[tactic(auto, using(crate::proofs::CutMovies::cut_run, crate::proofs::CutMovies::old_claims, crate::proofs::CutMovies::one_cut))]
pub const fn law_of_cuts()
    ensures run { (m c : MovieData) (first count every k : ℕ) → IsCutOf m first count every c
        → k ≤ length c.inputs → run c c.start 0 k ≡ run m m.start 0 (first - 1 + k) }
    ensures genuine { (m c : MovieData) (first count every : ℕ) → IsCutOf m first count every c
        → IsGenuine c }
    ensures one_cut { (m c d : MovieData) (first count every : ℕ) → IsCutOf m first count every c
        → IsCutOf m first count every d → c ≡ d }
    ensures old_claims { (m c : MovieData) (count every : ℕ) → IsMovie m → IsGenuine m
        → ClaimsEvery m every → length m.inputs ≤ count → IsCutOf m 1 count every c
        → c.checkpoints ≡ m.checkpoints }
{}
