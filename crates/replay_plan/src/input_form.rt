//! How a file has the inputs of frames.

/// How a file has the inputs of frames.
#[derive(Clone, Copy, Debug, PartialEq, Eq)]
pub enum InputForm {
    /// Three bytes a frame.
    Bytes,
    /// Lines of how many frames and what is held in them.
    Text,
}
