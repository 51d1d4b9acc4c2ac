//! Gates that note which segments are replayed, and hold workers for a while.

use commands::{Progress, Work};
use replay_segments::Piece;
use std::sync::atomic::{AtomicU64, Ordering};
use std::thread;
use verify_pool::{Gate, Ticket};

/// How often the workers at a gate look, all together, before it gives up.
const LOOKS: u64 = 10_000_000;

/// Looks until a counter has come to a number, counts its looks, and lets others run between them.
/// False where the counter stays below.
fn comes(counter: &AtomicU64, to: u64, looks: &AtomicU64) -> bool {
    for _look in 0..LOOKS {
        if counter.load(Ordering::SeqCst) >= to {
            return true;
        }
        if looks.fetch_add(1, Ordering::SeqCst) >= LOOKS {
            return false;
        }
        thread::yield_now();
    }
    false
}

/// Four counters.
fn counters() -> [AtomicU64; 4] {
    [
        AtomicU64::new(0),
        AtomicU64::new(0),
        AtomicU64::new(0),
        AtomicU64::new(0),
    ]
}

/// What four counters show.
fn shown(counters: &[AtomicU64; 4]) -> [u64; 4] {
    [
        counters[0].load(Ordering::SeqCst),
        counters[1].load(Ordering::SeqCst),
        counters[2].load(Ordering::SeqCst),
        counters[3].load(Ordering::SeqCst),
    ]
}

/// A gate that counts how often each of the first three segments was entered and left, and how
/// often a further one was.
#[derive(Drop)]
pub(crate) struct Counts {
    pub entered: [AtomicU64; 4],
    pub left: [AtomicU64; 4],
}

impl Counts {
    pub(crate) fn new() -> Counts {
        Counts {
            entered: counters(),
            left: counters(),
        }
    }

    /// How often segments 0, 1, 2 and further ones were entered.
    pub(crate) fn entries(&self) -> [u64; 4] {
        shown(&self.entered)
    }

    /// How often they were left.
    pub(crate) fn leaves(&self) -> [u64; 4] {
        shown(&self.left)
    }
}

impl Gate for Counts {
    fn enter(&self, _ticket: &Ticket, segment: u32) {
        self.entered[segment.min(3) as usize].fetch_add(1, Ordering::SeqCst);
    }

    fn leave(&self, _ticket: &Ticket, piece: &Piece) {
        self.left[piece.number().min(3) as usize].fetch_add(1, Ordering::SeqCst);
    }
}

impl Progress for Counts {}

/// A gate that holds segment 0 until segment 1 has been left.
#[derive(Drop)]
pub(crate) struct SecondFirst {
    pub left: AtomicU64,
    pub missed: AtomicU64,
}

impl SecondFirst {
    pub(crate) fn new() -> SecondFirst {
        SecondFirst {
            left: AtomicU64::new(0),
            missed: AtomicU64::new(0),
        }
    }
}

impl Gate for SecondFirst {
    fn enter(&self, _ticket: &Ticket, segment: u32) {
        if segment == 0 && !comes(&self.left, 1, &AtomicU64::new(0)) {
            self.missed.store(1, Ordering::SeqCst);
        }
    }

    fn leave(&self, _ticket: &Ticket, piece: &Piece) {
        if piece.number() == 1 {
            self.left.store(1, Ordering::SeqCst);
        }
    }
}

impl Progress for SecondFirst {}

/// A gate where each segment, once entered, waits until so many have been.
#[derive(Drop)]
pub(crate) struct Meeting {
    pub wanted: u64,
    pub entered: AtomicU64,
    pub looks: AtomicU64,
    pub missed: AtomicU64,
}

impl Meeting {
    pub(crate) fn of(wanted: u64) -> Meeting {
        Meeting {
            wanted,
            entered: AtomicU64::new(0),
            looks: AtomicU64::new(0),
            missed: AtomicU64::new(0),
        }
    }
}

impl Gate for Meeting {
    fn enter(&self, _ticket: &Ticket, _segment: u32) {
        self.entered.fetch_add(1, Ordering::SeqCst);
        if !comes(&self.entered, self.wanted, &self.looks) {
            self.missed.store(1, Ordering::SeqCst);
        }
    }

    fn leave(&self, _ticket: &Ticket, _piece: &Piece) {}
}

impl Progress for Meeting {}

/// A gate that adds up the segments, the frames and the lines of the works that begin and what of
/// them is done, and counts the beginnings and the ends.
#[derive(Drop)]
pub(crate) struct Counting {
    segments: AtomicU64,
    frames: AtomicU64,
    lines: AtomicU64,
    done: AtomicU64,
    begun: AtomicU64,
    ended: AtomicU64,
}

impl Counting {
    pub(crate) fn new() -> Counting {
        Counting {
            segments: AtomicU64::new(0),
            frames: AtomicU64::new(0),
            lines: AtomicU64::new(0),
            done: AtomicU64::new(0),
            begun: AtomicU64::new(0),
            ended: AtomicU64::new(0),
        }
    }

    /// The segments, frames and lines that it was told of, what of them is done, and how many works
    /// have begun and ended.
    pub(crate) fn counts(&self) -> [u64; 6] {
        [
            self.segments.load(Ordering::SeqCst),
            self.frames.load(Ordering::SeqCst),
            self.lines.load(Ordering::SeqCst),
            self.done.load(Ordering::SeqCst),
            self.begun.load(Ordering::SeqCst),
            self.ended.load(Ordering::SeqCst),
        ]
    }
}

impl Gate for Counting {
    fn enter(&self, _ticket: &Ticket, _segment: u32) {}

    fn leave(&self, _ticket: &Ticket, _piece: &Piece) {}
}

impl Progress for Counting {
    fn begin(&self, work: Work) {
        let (counter, all) = match work {
            Work::Segments(all) => (&self.segments, all),
            Work::Frames(all) => (&self.frames, all),
            Work::Lines(all) => (&self.lines, all),
        };
        counter.fetch_add(u64::from(all), Ordering::SeqCst);
        self.begun.fetch_add(1, Ordering::SeqCst);
    }

    fn advance(&self) {
        self.done.fetch_add(1, Ordering::SeqCst);
    }

    fn end(&self) {
        self.ended.fetch_add(1, Ordering::SeqCst);
    }
}
