//! A desk that gives out the numbers of segments, each once, and keeps the least that was reported
//! bad. Threads share it, and none of its calls waits.
#![tactic(auto)]

mod desk;
mod laws;
mod part;
mod rule;
mod steps;
mod ticket;

pub use desk::Desk;
pub use laws::law_of_desk_states;
pub use part::Part;
pub use ticket::Ticket;
