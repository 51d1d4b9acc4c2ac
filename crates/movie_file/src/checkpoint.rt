//! Checkpoints.
use movie_machine::State;

/// A state that a movie claims.
#[derive(Drop)]
pub struct Checkpoint {
    /// The frame, counted from 1, after which the console is claimed to be in the state.
    pub frame: u32,
    /// The claimed state.
    pub state: State,
}
