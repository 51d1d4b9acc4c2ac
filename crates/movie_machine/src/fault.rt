//! Why a frame did not end.
use vcs_machine::FaultKind;

/// Why a frame did not end.
#[derive(Clone, Copy, Debug, PartialEq, Eq)]
pub struct Halt {
    pub kind: FaultKind,
    /// After how many of its cycles it stopped. The chip's rules don't say it.
    pub cycles: Option<u32>,
}
