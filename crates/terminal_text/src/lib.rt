//! Texts for a terminal or a log: names without characters that hide something, and a line that shows
//! how far a work has come.
//!
//! The texts are this project's own.
#![tactic(auto)]

mod shown;
mod stage;

pub use shown::Shown;
pub use stage::{Count, Notice, Stage, Unit};
