//! What is called around each replay.

use movie_file::Progress;
use replay_segments::Piece;
use segment_desk::Ticket;

/// A worker calls it for each segment that it replays, and not for one that it passes over: `enter`
/// once before the replay, `leave` once after it. Both come on that worker's own thread, the
/// calling one for one of the workers, and the worker calls nothing of the gate between them.
///
/// No number is entered twice. The numbers of one worker rise. Of those of several workers no order
/// is promised, and their calls may come at the same time.
///
/// A gate may take time, take memory, note what it is called for, and wait for what another worker
/// does, as for its entry of another segment. It has to return: `verify` and `crew` join their
/// threads, so if a gate never returns they don't either. A wait for another segment needs a
/// bound, since that segment may never be entered: it may be passed over, there may be too few
/// workers, and the start of a thread may be refused.
///
/// A gate can't change a verdict. It sees the ticket and the piece and can change neither, and it
/// returns nothing. If it takes memory that a replay then lacks, there may be no verdict.
pub trait Gate {
    ghost use Rattle.std.specs.Prelude.{◌≡◌, ◌⊎◌, ◌<◌, IsTrue, Some};
    ghost use Rattle.replay_segments.specs.Pieces.{passed};
    ghost use Rattle.segment_desk.specs.Desk.{times};

    /// The worker has drawn this segment, has looked, does not pass it over, and replays it next.
    fn enter(&self, ticket: &Ticket, segment: u32)
        requires drawn { ticket.now.part.last ≡ Some segment }
        requires not_passed_over { times segment ticket.now.part.passed_over ≡ 0 };

    /// The worker has replayed the segment that it drew last, which gave this piece, and has
    /// reported it unless it passed. It draws again next.
    fn leave(&self, ticket: &Ticket, piece: &Piece)
        requires drawn { ticket.now.part.last ≡ Some piece.now.number }
        requires reported { IsTrue (passed piece.now.outcome) ⊎ (0 < times piece.now.number ticket.now.part.reported) };
}

/// A gate that does nothing.
#[derive(Clone, Copy, Debug)]
pub struct NoGate;

impl Gate for NoGate {
    fn enter(&self, _ticket: &Ticket, _segment: u32) {}

    fn leave(&self, _ticket: &Ticket, _piece: &Piece) {}
}

impl Progress for NoGate {}
