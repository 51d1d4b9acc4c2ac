//! A stretch of frames.

use vcs_machine::Input;

/// So many frames in a row with one input.
#[derive(Clone, Copy)]
pub(crate) struct Stretch {
    pub(crate) count: u64,
    pub(crate) input: Input,
}
