//! What a write asks of the machine around the TIA.

/// What a write asks of its caller.
#[derive(Clone, Copy, Debug, PartialEq, Eq)]
pub enum Effect {
    /// Nothing.
    Nothing,
    /// WSYNC was written: cycles pass until the beam is at the start of a line.
    Sync,
    /// Bit 1 of VSYNC fell: the frame ends.
    FrameEnd,
}
