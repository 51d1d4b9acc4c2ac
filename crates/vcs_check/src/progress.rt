//! How far a command has come that replays, on a terminal.

use commands::{Gate, Progress, Ticket, Work};
use replay_segments::Piece;
use std::io::Eprint;
use std::rt::Clock;
use std::sync::{Mutex, Wait};
use terminal_text::{Notice, Stage, Unit};

/// A gate that tells a stage what comes, and writes on standard error what the stage answers. A
/// worker waits for another while that one counts, and not while it writes.
///
/// If standard error is no terminal nothing begins, so that nothing is written. Nor does a work
/// whose lines are written begin if standard output is a terminal: they would stand in the line of
/// the progress, and show it themselves. A failed write is ignored.
#[derive(Drop)]
pub(crate) struct ProgressLine<'a, R> {
    rt: &'a R,
    is_terminal: bool,
    is_output_terminal: bool,
    stage: Mutex<Stage>,
}

impl<'a, R: Eprint + Clock + Wait> ProgressLine<'a, R> {
    /// On standard error, by whether that is a terminal, and whether standard output is one.
    pub(crate) fn new(
        rt: &'a R,
        is_terminal: bool,
        is_output_terminal: bool,
    ) -> ProgressLine<'a, R> {
        ProgressLine {
            rt,
            is_terminal,
            is_output_terminal,
            stage: Mutex::new(Stage::Ready),
        }
    }

    /// The milliseconds of the clock.
    fn now(&self) -> Option<u64> {
        let Ok(time) = self.rt.monotonic() else {
            return None;
        };
        u64::try_from(time.as_millis()).ok()
    }

    fn write(&self, notice: Option<Notice>) {
        if let Some(notice) = notice {
            let _printed = eprint!(self.rt; "{notice}");
        }
    }

    fn begin_of(&self, unit: Unit, all: u32) {
        self.stage.lock(self.rt).begin(unit, all, self.now());
    }
}

impl<R: Eprint + Clock + Wait> Gate for ProgressLine<'_, R> {
    fn enter(&self, _ticket: &Ticket, _segment: u32) {}

    fn leave(&self, _ticket: &Ticket, _piece: &Piece) {}
}

impl<R: Eprint + Clock + Wait> Progress for ProgressLine<'_, R> {
    fn begin(&self, work: Work) {
        if !self.is_terminal {
            return;
        }
        match work {
            Work::Segments(all) => self.begin_of(Unit::Segments, all),
            Work::Frames(all) => self.begin_of(Unit::Frames, all),
            Work::Lines(all) if !self.is_output_terminal => self.begin_of(Unit::Frames, all),
            Work::Lines(_) => {}
        }
    }

    fn advance(&self) {
        if !self.is_terminal {
            return;
        }
        let notice = self.stage.lock(self.rt).advance(self.now());
        self.write(notice);
    }

    fn end(&self) {
        if !self.is_terminal {
            return;
        }
        let notice = self.stage.lock(self.rt).end();
        self.write(notice);
    }
}
