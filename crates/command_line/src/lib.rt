//! The words of a command line, as a command of the program.
#![tactic(auto)]

mod arguments;
mod command;
mod frames;
mod inputs;
mod line;
mod make;
mod named_board;
mod parser;
mod report;
mod table;
mod version;

pub use command::{Command, CommandLine, LineFault, Writing};
pub use inputs::Listing;
pub use line::parse_line;
pub use make::Making;
pub use named_board::NamedBoard;
pub use table::is_command;
pub use version::program_name;
