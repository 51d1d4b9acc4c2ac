//! Growths that come to the refused one.

use movie_file::Progress;
use replay_segments::Piece;
use std::alloc::Global;
use std::sync::atomic::{AtomicU64, Ordering};
use verify_pool::{Gate, Ticket};

/// The number of the growth that is refused.
pub(crate) const REFUSED: usize = 1000;

/// Makes growths and gives them back. Whether none of them was refused.
pub(crate) fn grow(alloc: Global, count: usize) -> bool {
    let mut granted = true;
    for _growth in 0..count {
        let mut bytes: Vec<u8> = Vec::new(alloc);
        if bytes.push(0).is_err() {
            granted = false;
        }
    }
    granted
}

/// A gate that makes growths before the first replay, up to the refused one: after its entry no
/// growth is refused any more.
#[derive(Drop)]
pub(crate) struct TakesRefused {
    alloc: Global,
    entered: AtomicU64,
    met: AtomicU64,
}

impl TakesRefused {
    pub(crate) fn new(alloc: Global) -> TakesRefused {
        TakesRefused {
            alloc,
            entered: AtomicU64::new(0),
            met: AtomicU64::new(0),
        }
    }

    /// Whether a segment was entered.
    pub(crate) fn was_entered(&self) -> bool {
        self.entered.load(Ordering::SeqCst) != 0
    }

    /// Whether it met the refused growth.
    pub(crate) fn has_met(&self) -> bool {
        self.met.load(Ordering::SeqCst) != 0
    }
}

impl Gate for TakesRefused {
    fn enter(&self, _ticket: &Ticket, _segment: u32) {
        self.entered.store(1, Ordering::SeqCst);
        if !grow(self.alloc, REFUSED) {
            self.met.store(1, Ordering::SeqCst);
        }
    }

    fn leave(&self, _ticket: &Ticket, _piece: &Piece) {}
}

impl Progress for TakesRefused {}
