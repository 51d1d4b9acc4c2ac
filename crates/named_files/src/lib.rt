//! The files and standard streams of a command: each with its name, and with why it failed.
//!
//! No file is both an input of a command and an output or a stream of its text, and an output is whole or
//! as it was, if it can be replaced. The rules are this project's own.
#![tactic(auto)]

mod disk;
mod file_error;
mod files;
mod identity;
mod named;
mod output;
mod replacing;
mod size_limit;

pub use disk::sync_standard_output;
pub use file_error::{FileError, Reason};
pub use files::{
    check_standard_output, check_streams, create, null_if_closed, open, open_beside, replace,
};
pub use identity::Identity;
pub use named::Named;
pub use output::Output;
pub use replacing::{Replacing, Whole};
pub use size_limit::{Limited, Quota};

/// The name of standard input in messages.
pub const STANDARD_INPUT: &str = "standard input";

/// The name of standard output in messages.
pub const STANDARD_OUTPUT: &str = "standard output";

/// The name of standard error in messages.
pub const STANDARD_ERROR: &str = "standard error";
