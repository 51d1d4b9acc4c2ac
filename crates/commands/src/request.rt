//! A command line, and what carries it out.

use command_line::CommandLine;

/// A command line, and what carries it out.
#[derive(Drop)]
pub struct Request<'a, T, G> {
    /// What starts threads, and gives memory.
    pub rt: &'a T,
    pub line: &'a CommandLine,
    /// What is called around each replay, and to which progress is told.
    pub gate: &'a G,
}
