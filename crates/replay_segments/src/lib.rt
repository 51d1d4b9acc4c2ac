//! The replay of movies, and the verdict of a movie: genuine, its first false checkpoint, or its
//! fault.
//!
//! A movie is replayed whole, or cut at checkpoints into segments that are replayed apart, each
//! from the state that its first cut claims; the pieces then give the same verdict.
#![tactic(auto)]

mod checkpoints;
mod cuts;
mod finding;
mod gathering;
mod joining;
mod judge;
mod laws;
mod piece;
mod run_states;
mod segment;
mod verdict;

pub use checkpoints::checkpoints_before;
pub use cuts::{BadCuts, Cuts};
pub use gathering::{Missing, gather};
pub use laws::{law_of_converted_verdicts, law_of_one_outcome, law_of_one_verdict};
pub use piece::Piece;
pub use run_states::{LeftState, found_state, left_state};
pub use segment::replay;
pub use verdict::Verdict;
