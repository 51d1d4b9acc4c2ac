//! Inputs of frames as text: a line for each stretch of frames with one input, which says how many
//! frames and what is held in them.
//!
//! The text is this project's own. `specs/Texts` says which inputs a text is, and which line is
//! bad; `specs/Stretches` how inputs are printed.
#![tactic(auto)]

mod held;
mod laws;
mod mistake;
mod name;
mod near;
mod reading;
mod stretch;
mod words;
mod writing;

pub use held::is_idle;
pub use laws::{law_of_held_names, law_of_one_text, law_of_printed_inputs};
pub use mistake::{Mistake, line_at, mistake_in};
pub use near::meant_by;
pub use reading::{BadLine, read_text};
pub use writing::{write_numbered, write_text};
