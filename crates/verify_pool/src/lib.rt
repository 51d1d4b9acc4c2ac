//! Workers that share the segments of a movie over one desk, and the verdict of what they replayed.
#![tactic(auto)]

mod gate;
mod hand;
mod verification;
mod work;
mod worker;
mod workers;

pub use gate::{Gate, NoGate};
pub use hand::Hand;
pub use segment_desk::{Desk, Ticket};
pub use verification::verify;
pub use workers::{NoThread, crew};
