//! Records as tables of numbers: definitions alone, for the crates of the chips and of the movie.
#![tactic(auto)]

mod laws;

pub use laws::{law_of_lengths, law_of_parts};
