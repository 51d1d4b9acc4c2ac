//! How the progress of a long replay is told.

/// Work that takes long, and how much there is of it.
#[derive(Clone, Copy)]
pub enum Work {
    /// So many segments, replayed in any order, perhaps by several threads.
    Segments(u32),
    /// So many frames, played one after the other.
    Frames(u32),
    /// So many frames, of which each is written as a line as soon as it was played.
    Lines(u32),
}

/// It is called around each work of a command and within it. A command has several works in a row,
/// or none: each is begun and ended, also where it breaks off, and no other begins before its end.
///
/// `begin` and `end` come on the calling thread, `advance` from each thread that replays. They have
/// to return, and can't change an answer. Each does nothing, unless it is written otherwise.
pub trait Progress {
    /// This work is next.
    fn begin(&self, _work: Work) {}

    /// One more of its segments or frames is done. It isn't called for a frame that faults, or for a
    /// segment that is passed over.
    fn advance(&self) {}

    /// It has come to its end.
    fn end(&self) {}
}

/// Progress that is told to nobody.
#[derive(Clone, Copy, Debug)]
pub struct NoProgress;

impl Progress for NoProgress {}
