//! What one worker has.
use replay_segments::Piece;
use segment_desk::Ticket;

/// What one worker has: its ticket, and the pieces that it has replayed.
#[derive(Drop)]
pub struct Hand {
    pub ticket: Ticket,
    pub pieces: Vec<Piece>,
}
