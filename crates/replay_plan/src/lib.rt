//! What a command asks for, beside its files. How a movie is to be judged: by how many workers,
//! where it is cut, and which pictures are kept; what a line about one of its frames says; what it is expected to be; how facts
//! are written, and in which form inputs are. Each number is in its range by its type.
#![tactic(auto)]

mod expectations;
mod input_form;
mod keep;
mod notation;
mod plan;
mod watches;
mod workers;

pub use expectations::Expectations;
pub use input_form::InputForm;
pub use keep::{BadKeep, Keep, MOST_KEPT};
pub use notation::Notation;
pub use plan::Plan;
pub use watches::{Address, Details, MOST_WATCHES, TooManyWatches, Watches};
pub use workers::{MOST_WORKERS, Workers};
