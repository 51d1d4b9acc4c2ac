//! Pieces: segments with their outcomes.
ghost use Rattle.std.specs.Prelude.{◌≡◌, Ok, Err, IsTrue, IsFalse, IfSome, IfNone, alloc_error};

use crate::cuts::Cuts;
use crate::verdict::Verdict;
use movie_file::Movie;
use replay_plan::Keep;
use std::alloc::AllocError;
use std::marker::Model;
use std::mem;
use std::snapshot::Snapshot;
use vcs_machine::Pictures;

/// The outcome of one segment, right by its type: it is what the rule says of that segment, or
/// that memory was wanted. For contracts alone a piece names its movie, its cuts and which frames
/// are kept.
#[derive(Drop)]
pub struct Piece {
    pub(crate) number: u32,
    pub(crate) outcome: Result<Verdict, AllocError>,
    pub(crate) movie: Snapshot<Movie>,
    pub(crate) cuts: Snapshot<Cuts>,
    pub(crate) keep: Keep,
}

impl Model for Piece {
    ghost use Rattle.replay_segments.specs.Pieces.{PieceData, IsPiece};

    ghost Value = { PieceData };

    ghost view = { λ p. record {
      number = p.number;
      outcome = p.outcome;
      job = record { movie = p.movie.value; cuts = p.cuts.value; keep = p.keep };
    } };

    ghost invariant = { λ p. IsPiece (record {
      number = p.number;
      outcome = p.outcome;
      job = record { movie = p.movie.value; cuts = p.cuts.value; keep = p.keep };
    }) };
}

impl Piece {
    ghost use Rattle.replay_segments.specs.Pieces.{IsPiece, passed, outcome_pictures};

    /// The number of its segment, from 0.
    pub fn number(&self) -> u32
        ensures value { result ≡ self.now.number }
        ensures lawful { IsPiece self.now }
    {
        self.number
    }

    /// Whether the segment passed.
    pub fn passed(&self) -> bool
        ensures { result ≡ passed self.now.outcome }
    {
        matches!(self.outcome, Ok(Verdict::Genuine { .. }))
    }

    /// What is said of its segment; None if an allocation was refused.
    pub fn verdict(&self) -> Option<&Verdict>
        ensures some { IfSome result (λ v. self.now.outcome ≡ Ok v.now) }
        ensures none { IfNone result (self.now.outcome ≡ Err alloc_error) }
        ensures lawful { IsPiece self.now }
    {
        match &self.outcome {
            Ok(verdict) => Some(verdict),
            Err(AllocError) => None,
        }
    }

    /// The verdict of a segment that did not pass.
    pub(crate) fn bad(&self) -> Option<Verdict>
        ensures bad { IfSome result (λ v. (self.now.outcome ≡ Ok v) × IsFalse (passed self.now.outcome)) }
        ensures good { IfNone result (IsFalse (passed self.now.outcome) → self.now.outcome ≡ Err alloc_error) }
        ensures lawful { IsPiece self.now }
    {
        match &self.outcome {
            Ok(Verdict::FalseCheckpoint { number, frame }) => Some(Verdict::FalseCheckpoint {
                number: *number,
                frame: *frame,
            }),
            Ok(Verdict::Fault { frame, kind }) => Some(Verdict::Fault {
                frame: *frame,
                kind: *kind,
            }),
            Ok(Verdict::Genuine { .. }) => None,
            Err(AllocError) => None,
        }
    }

    /// How many pictures it has.
    pub(crate) fn pictures_len(&self) -> usize
        ensures { result ≡ outcome_pictures self.now.outcome }
    {
        match &self.outcome {
            Ok(Verdict::Genuine { pictures }) => pictures.len(),
            _ => 0,
        }
    }

    /// Takes the pictures of a segment that passed.
    pub(crate) fn take_pictures(&mut self) -> Pictures
        requires { IsTrue (passed self.old.outcome) }
        ensures pictures { self.old.outcome ≡ Ok (Verdict.Genuine result) }
        ensures rest { self.new ≡ record self.old { outcome = Err alloc_error } }
        ensures lawful { IsPiece self.old }
    {
        match mem::replace(&mut self.outcome, Err(AllocError)) {
            Ok(Verdict::Genuine { pictures }) => pictures,
            _ => unreachable!(),
        }
    }
}
