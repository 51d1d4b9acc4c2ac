//! A TIA, and the line that it draws.

use crate::row::Row;
use crate::screen::Screen;
use crate::step::Step;
use tia_chip::{Tia, TiaState};
use tia_core::Paint;

/// How many lines a case may go on.
const MOST_LINES: u16 = 20;

/// How many clocks a line has.
const LINE_CLOCKS: u8 = 228;

/// A TIA, and the pixels of the last line that has any.
#[derive(Drop)]
pub(crate) struct Console {
    tia: Tia,
    screen: Screen,
    /// Whether clocks pass many at once, and writes come ahead of them.
    at_once: bool,
    /// How many clocks the TIA is behind.
    lag: u16,
}

impl Console {
    /// A TIA that was just switched on, whose clocks pass one by one, or many at once.
    pub(crate) fn power_on(at_once: bool) -> Console {
        Console {
            tia: Tia::power_on(),
            screen: Screen::black(),
            at_once,
            lag: 0,
        }
    }

    /// Takes a step. Whether all is as the step says.
    pub(crate) fn take(&mut self, step: &Step) -> bool {
        match step {
            Step::Set(number, value) => {
                self.write(*number, *value);
                self.clocks(3);
            }
            Step::Write(number, value) => self.write(*number, *value),
            Step::Read(number, bus, value) => {
                self.catch_up();
                return self.tia.read(*number, *bus) == *value;
            }
            Step::Clocks(count) => self.clocks(*count),
            Step::To(line, clock) => return self.go_to(*line, *clock),
            Step::Beam(line, clock) => return self.is_at(*line, *clock),
            Step::Row(line, row) => return self.draws(*line, row),
            Step::Fire(first, second) => self.tia.set_fire(*first, *second),
            Step::Record(is_whole) => return self.goes_on() == *is_whole,
        }
        true
    }

    /// A write, if it can be ahead of the clocks that the TIA is behind.
    fn write(&mut self, number: u8, value: u8) {
        let is_ahead = self.at_once
            && self.lag <= 240
            && self.tia.write_late(self.lag as u8, number, value);
        if !is_ahead {
            self.catch_up();
            let _effect = self.tia.write(number, value);
        }
    }

    /// Lets the clocks pass that the TIA is behind.
    fn catch_up(&mut self) {
        self.tia.clocks(u32::from(self.lag), &mut self.screen);
        self.lag = 0;
    }

    /// So many clocks.
    fn clocks(&mut self, count: u16) {
        self.catch_up();
        if self.at_once {
            self.lag = count;
        } else {
            for _clock in 0..count {
                self.clock();
            }
        }
    }

    /// One clock.
    fn clock(&mut self) {
        if let Some(pixel) = self.tia.clock() {
            self.screen.put(pixel.line, pixel.x, pixel.colour);
        }
    }

    /// Whether a clock of a line comes next.
    fn is_at(&mut self, line: u16, clock: u8) -> bool {
        self.catch_up();
        self.tia.line() == line && self.tia.line_clock() == clock
    }

    /// Goes on as the TIA of what a record says of this one: on line 0, with no button pressed.
    /// Whether there is one.
    fn goes_on(&mut self) -> bool {
        self.catch_up();
        let state = TiaState {
            line: 0,
            fire0: false,
            fire1: false,
            ..self.tia.state()
        };
        let Some(tia) = Tia::from_state(state) else {
            return false;
        };
        self.tia = tia;
        self.screen.line = 0;
        true
    }

    /// Goes to a clock of a line. Whether it comes.
    fn go_to(&mut self, line: u16, clock: u8) -> bool {
        for _line in 0..MOST_LINES {
            self.catch_up();
            let now = self.tia.line_clock();
            if self.tia.line() == line && now <= clock {
                self.clocks(u16::from(clock - now));
                return self.is_at(line, clock);
            }
            self.clocks(u16::from(LINE_CLOCKS.saturating_sub(now)));
        }
        false
    }

    /// Goes to a line's end. Whether its pixels are these.
    fn draws(&mut self, line: u16, row: &Row) -> bool {
        self.go_to(line.saturating_add(1), 0) && self.screen.line == line && self.screen.row == *row
    }
}
