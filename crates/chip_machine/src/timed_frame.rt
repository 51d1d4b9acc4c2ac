//! How long a frame was.

use vcs_machine::Picture;

/// How long a frame was that ended.
#[derive(Drop)]
pub struct TimedFrame {
    /// The cycles that it took, stops included.
    pub cycles: u32,
    /// The rows of its picture, at most 322.
    pub rows: u16,
    /// Its picture, if it is kept.
    pub picture: Option<Picture>,
}
