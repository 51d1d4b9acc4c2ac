//! What is said of a movie.
ghost use Rattle.std.specs.Prelude.{◌≡◌, ◌↔◌, IsTrue};

use vcs_machine::{FaultKind, Pictures};

/// What is said of a movie.
#[derive(Drop)]
pub enum Verdict {
    /// Its one unbroken run reaches its end through every checkpoint; these are the kept pictures.
    Genuine { pictures: Pictures },
    /// The checkpoint of this number, from 1, claims another state than that after the frame.
    FalseCheckpoint { number: u16, frame: u32 },
    /// The frame of this number, from 1, faults.
    Fault { frame: u32, kind: FaultKind },
}

impl Verdict {
    /// Whether both say the same.
    pub fn equals(&self, other: &Verdict) -> bool
        ensures { IsTrue result ↔ (self.now ≡ other.now) }
    {
        match (self, other) {
            (Verdict::Genuine { pictures }, Verdict::Genuine { pictures: others }) =>
                pictures.equals(others),
            (
                Verdict::FalseCheckpoint { number, frame },
                Verdict::FalseCheckpoint {
                    number: other_number,
                    frame: other_frame,
                },
            ) => *number == *other_number && *frame == *other_frame,
            (
                Verdict::Fault { frame, kind },
                Verdict::Fault {
                    frame: other_frame,
                    kind: other_kind,
                },
            ) => { *frame == *other_frame && kind.equals(*other_kind) }
            _ => false,
        }
    }
}
