//! How far a work has come that takes long, and what a terminal shows of it.
ghost use Rattle.std.specs.Prelude.{◌≡◌, ◌↔◌, ◌<◌, ◌≤◌, length, true, IfSome, Some};
ghost use Rattle.terminal_text.specs.Progress.{IsAdvanced, IsCounted, IsDue, IsOfOneMovie};
ghost use Rattle.terminal_text.specs.Progress.{begun_of, last_notice, most_of, notice_text};
ghost use Rattle.terminal_text.specs.declared.stage.Notice.TheVariants.{Wiped};
ghost use Rattle.terminal_text.specs.declared.stage.Stage.TheVariants.{Ended};

use std::fmt;

/// The milliseconds of a work before its first line.
const BEFORE_THE_FIRST: u64 = 500;

/// The least milliseconds from one line to the next.
const BETWEEN_LINES: u64 = 200;

/// What a work is counted in.
#[derive(Clone, Copy)]
pub enum Unit {
    Segments,
    Frames,
}

/// What is written on a terminal, over the same line again and again.
#[derive(Clone, Copy)]
pub enum Notice {
    /// So many of all are done.
    Done { done: u32, all: u32, unit: Unit },
    /// The line is wiped.
    Wiped,
}

impl fmt::Display for Notice {
    ghost use Rattle.std.specs.Prelude.{Some};
    ghost use Rattle.terminal_text.specs.Progress.{notice_text};

    ghost output = { λ notice. Some (notice_text notice) };

    fn fmt<W: fmt::Write>(&self, f: &mut fmt::Formatter<W>) -> fmt::Result {
        match *self {
            Notice::Done {
                done,
                all,
                unit: Unit::Segments,
            } => write!(f, "\r{done} of {all} segments"),
            Notice::Done {
                done,
                all,
                unit: Unit::Frames,
            } => write!(f, "\r{done} of {all} frames"),
            // As many spaces as the longest line has characters: 262143 of 262143 frames.
            Notice::Wiped => f.write_str("\r                       \r"),
        }
    }
}

/// How much of a work is done. Times are milliseconds of a clock; there is none if
/// the clock has failed.
#[derive(Clone, Copy)]
pub struct Count {
    unit: Unit,
    all: u32,
    done: u32,
    /// When the work began.
    begun: Option<u64>,
    /// When the last line was written.
    last: Option<u64>,
}

impl Count {
    /// Whether a line may be written at this time.
    fn is_due(&self, now: u64) -> bool
        ensures { (result ≡ true) ↔ IsDue self.now (Some now) }
    {
        let Some(begun) = self.begun else {
            return false;
        };
        let is_apart = match self.last {
            Some(last) => now.saturating_sub(last) >= BETWEEN_LINES,
            None => true,
        };
        is_apart && now.saturating_sub(begun) >= BEFORE_THE_FIRST
    }

    /// One more is done. The answer is what to write.
    fn advance(&mut self, now: Option<u64>) -> Option<Notice>
        ensures counted { IsCounted self.old now result self.new }
        ensures covered { self.old.all ≤ most_of self.old.unit
            → IfSome result (λ notice. length (notice_text notice) < length (notice_text Wiped)) }
    {
        let is_due = now.is_some_and(|now| self.is_due(now));
        let all = self.all;
        self.done = all.min(self.done.saturating_add(1));
        if !is_due {
            return None;
        }
        self.last = now;
        let (done, unit) = (self.done, self.unit);
        Some(Notice::Done { done, all, unit })
    }
}

/// How far a work has come.
#[derive(Clone, Copy)]
pub enum Stage {
    /// It has not begun.
    Ready,
    Begun(Count),
    Ended,
}

impl Stage {
    /// A work of so many segments or frames begins.
    pub fn begin(&mut self, unit: Unit, all: u32, now: Option<u64>)
        ensures { self.new ≡ begun_of unit all now }
    {
        *self = Stage::Begun(Count {
            unit,
            all,
            done: 0,
            begun: now,
            last: None,
        });
    }

    /// One more of them is done. The answer is what to write.
    pub fn advance(&mut self, now: Option<u64>) -> Option<Notice>
        ensures advanced { IsAdvanced self.old now result self.new }

        // No movie has more of them, so each line is wiped whole.
        ensures covered { IsOfOneMovie self.old
            → IfSome result (λ notice. length (notice_text notice) < length (notice_text Wiped)) }
    {
        match self {
            Stage::Begun(count) => count.advance(now),
            Stage::Ready | Stage::Ended => None,
        }
    }

    /// It has ended. The answer is what to write.
    pub fn end(&mut self) -> Option<Notice>
        ensures notice { result ≡ last_notice self.old }
        ensures stage { self.new ≡ Ended }
    {
        let stage = *self;
        *self = Stage::Ended;
        match stage {
            Stage::Begun(Count { last: Some(_), .. }) => Some(Notice::Wiped),
            _ => None,
        }
    }
}
