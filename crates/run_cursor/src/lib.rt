//! Frame by frame through the run of a movie.
#![tactic(auto)]

mod cursor;
mod laws;

pub use cursor::{Cursor, RunFault};
pub use laws::law_of_one_cursor;
