//! What is said of a frame of a movie's run: how many cycles it took, how many rows its picture has, whether
//! a checkpoint after it is true, and bytes and digests of what it leaves.
#![tactic(auto)]

mod frame_line;

pub use frame_line::{FrameLength, played_line};
