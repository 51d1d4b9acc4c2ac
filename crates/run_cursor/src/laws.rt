//! Laws about the definitions.
ghost use Rattle.std.specs.Prelude.{◌≡◌, ℕ};
ghost use Rattle.movie_file.specs.Movie.{MovieData};
ghost use Rattle.run_cursor.specs.Cursor.{CursorData, IsAt};
ghost use Rattle.run_cursor.specs.RunFaults.{FaultsWithin};
ghost use Rattle.vcs_machine.specs.declared.fault.FaultKind.{FaultKind};

/// A law: after a frame of a movie there is one place for a cursor at most, and none after a fault.
pub const fn law_of_one_cursor()
    ensures one { (m : MovieData) (k : ℕ) (c d : CursorData) → IsAt m k c → IsAt m k d → c ≡ d }
    ensures none { (m : MovieData) (k frame : ℕ) (kind : FaultKind) (c : CursorData)
        → IsAt m k c → FaultsWithin m k frame kind → ⊥ }
{}
