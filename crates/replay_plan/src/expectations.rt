//! What a movie is expected to be.

/// What a report compares a movie with, beside the cartridge of a file.
#[derive(Clone, Copy, Debug, PartialEq, Eq)]
pub struct Expectations {
    /// The SHA-256 that its cartridge is expected to have.
    pub digest: Option<[u8; 32]>,
    /// Whether it is expected to start at power-on.
    pub power_on: bool,
    /// Whether a checkpoint is expected after its last frame.
    pub to_the_end: bool,
}

impl Expectations {
    /// Nothing is expected.
    pub const NONE: Expectations = Expectations {
        digest: None,
        power_on: false,
        to_the_end: false,
    };
}
