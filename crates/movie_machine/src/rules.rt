//! Rules by which movies are played.

/// The rules by which a movie is played.
#[derive(Clone, Copy, Debug, PartialEq, Eq)]
pub enum Rules {
    /// The guide's: those of the Stella Programmer's Guide of 1979, and a profile of them.
    Guide,
    /// The chip's: what each chip does, cycle by cycle.
    Chip,
}
