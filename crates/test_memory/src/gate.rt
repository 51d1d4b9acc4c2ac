//! A gate that counts its calls.

use commands::{Progress, Work};
use replay_segments::Piece;
use std::sync::atomic::{AtomicU64, Ordering};
use verify_pool::{Gate, Ticket};

/// A gate that counts the works that begin and those that end.
#[derive(Drop)]
pub(crate) struct Counting {
    begun: AtomicU64,
    ended: AtomicU64,
}

impl Counting {
    pub(crate) fn new() -> Counting {
        Counting {
            begun: AtomicU64::new(0),
            ended: AtomicU64::new(0),
        }
    }

    /// Whether it was told of as many ends as beginnings.
    pub(crate) fn has_ended_as_begun(&self) -> bool {
        self.begun.load(Ordering::SeqCst) == self.ended.load(Ordering::SeqCst)
    }
}

impl Gate for Counting {
    fn enter(&self, _ticket: &Ticket, _segment: u32) {}

    fn leave(&self, _ticket: &Ticket, _piece: &Piece) {}
}

impl Progress for Counting {
    fn begin(&self, _work: Work) {
        self.begun.fetch_add(1, Ordering::SeqCst);
    }

    fn advance(&self) {}

    fn end(&self) {
        self.ended.fetch_add(1, Ordering::SeqCst);
    }
}
