//! What a movie is made of, before it is known to be one.
use crate::checkpoint::Checkpoint;
use movie_machine::{Cart, State};
use vcs_machine::Input;

/// The parts of a movie.
#[derive(Drop)]
pub(crate) struct MovieParts {
    pub version: u16,
    pub cart: Cart,
    pub start: State,
    pub inputs: Vec<Input>,
    pub checkpoints: Vec<Checkpoint>,
}
