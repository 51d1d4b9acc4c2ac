//! The console of a movie, by the movie's rules: the guide's (`vcs_machine`) or the chip's
//! (`chip_machine`). Each function asks once by which, and hands its arguments on.
#![tactic(auto)]

mod cart;
mod executed;
mod fault;
mod frames;
mod laws;
mod rules;
mod state;
mod stepping;

pub use cart::Cart;
pub use chip_machine::TimedFrame;
pub use executed::Executed;
pub use fault::Halt;
pub use frames::{frame, halt};
pub use laws::law_of_frames;
pub use rules::Rules;
pub use state::State;
pub use stepping::Stepping;
