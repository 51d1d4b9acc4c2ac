//! What a header says.
use cart_board::KnownBoard;

/// The version, the board and the lengths that a header gives.
#[derive(Clone, Copy)]
pub(crate) struct Sizes {
    pub version: u16,
    /// The board of the cartridge, in versions whose headers name one.
    pub board: Option<KnownBoard>,
    /// The bytes of the cartridge.
    pub cartridge_length: u32,
    pub frames: u32,
    pub checkpoints: u16,
}
