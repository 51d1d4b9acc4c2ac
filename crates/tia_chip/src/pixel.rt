//! What a clock puts on the screen.

/// A pixel: its line, its place in the line from 0 to 159, and its colour byte.
#[derive(Clone, Copy, Debug, PartialEq, Eq)]
pub struct Pixel {
    pub line: u16,
    pub x: u8,
    pub colour: u8,
}
