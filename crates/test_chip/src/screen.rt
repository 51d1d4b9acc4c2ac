//! The line that a TIA draws.
ghost use Rattle.std.specs.Prelude.{◌==◌, nat_lt, replicate, slice_set, if◌then◌else◌};

use crate::row::Row;
use tia_core::Paint;

/// The pixels of the last line that has any. A line's pixels are black until they are put.
#[derive(Clone, Copy)]
pub(crate) struct Screen {
    pub line: u16,
    pub row: Row,
}

impl Screen {
    /// A black line.
    pub(crate) fn black() -> Screen {
        Screen {
            line: 0,
            row: Row::of(0),
        }
    }
}

impl Paint for Screen {
    ghost drawn = { λ s line x c.
        let pixels = if s.line == line then s.row.pixels else replicate 160 0 in
        record { line = line; row = record { pixels = if nat_lt x 160 then slice_set pixels x c else pixels } } };

    fn put(&mut self, line: u16, x: u8, colour: u8) {
        if self.line != line {
            self.line = line;
            self.row = Row::of(0);
        }
        if x < 160 {
            self.row.pixels[x as usize] = colour;
        }
    }
}
