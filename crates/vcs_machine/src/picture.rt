//! The picture of a frame.
ghost use Rattle.std.specs.Prelude.{◌≡◌, ◌↔◌, ◌<◌, ◌≤◌, ◌-◌, [], length, take, slice_index};
ghost use Rattle.std.specs.Prelude.{slice_index_or, vec_capacity, IsTrue, IfOk};
ghost use Rattle.vcs_machine.specs.Frame.{most_frame_cycles};
ghost use Rattle.vcs_machine.specs.Pictures.{with_pixel, blank, rows_of};
ghost use Rattle.vcs_machine.specs.Private.Rows.{with_pixels};

use crate::devices::LINE_CYCLES;
use std::alloc::{AllocError, Global};
use std::marker::Model;
use tia_core::Paint;

/// The most scanlines that a frame reaches.
pub const MOST_ROWS: u16 = 322;

/// Rows from the top, each of 160 colour bytes from the left, which contracts see as a list of
/// lists.
///
/// A colour byte is a colour register of the TIA, with the hue in bits 7 to 4 and the luminance in
/// bits 3 to 1.
#[derive(Drop)]
pub struct Picture {
    rows: Vec<[u8; 160]>,
}

impl Model for Picture {
    ghost use Rattle.std.specs.Prelude.{List, ℕ, length, ◌≤◌};
    ghost use Rattle.vcs_machine.specs.Pictures.{most_rows};

    ghost Value = { List (List ℕ) };

    ghost view = { λ p. p.rows.items };

    ghost invariant = { λ p. length p.rows.items ≤ most_rows };
}

impl Paint for Picture {
    ghost drawn = { with_pixel };

    fn put(&mut self, line: u16, x: u8, colour: u8) {
        let line = line as usize;
        if line < self.rows.len() && x < 160 {
            let row = &mut self.rows[line];
            row[x as usize] = colour;
        }
    }

    fn put_run(&mut self, line: u16, from: u8, to: u8, colour: u8) {
        let line = line as usize;
        if line < self.rows.len() {
            fill(&mut self.rows[line], from, to, colour);
        }
    }
}

/// Gives pixels `from..to` of a row one colour.
#[inline]
fn fill(row: &mut [u8; 160], from: u8, to: u8, colour: u8)
    requires order { from ≤ to }
    requires range { to ≤ 160 }
    ensures { row.new ≡ with_pixels row.old from (to - from) colour }
{
    for place in from..to {
        row[place as usize] = colour;
    }
}

/// The most rows, all zeros, in a list that was grown once, to their number.
fn blank_rows(alloc: Global) -> Result<Vec<[u8; 160]>, AllocError>
    ensures value { IfOk result (λ rows. rows.items ≡ blank MOST_ROWS) }
    ensures room { IfOk result (λ rows. vec_capacity rows ≡ MOST_ROWS) }
{
    let mut rows = Vec::with_capacity(alloc, MOST_ROWS as usize)?;
    for _row in 0..MOST_ROWS {
        rows.push_reserved([0; 160]);
    }
    Ok(rows)
}

impl Picture {
    /// A picture of the most rows, all zeros. Its memory is taken in one allocation.
    pub fn blank(alloc: Global) -> Result<Picture, AllocError>
        ensures { IfOk result (λ p. p ≡ blank MOST_ROWS) }
    {
        let rows = blank_rows(alloc)?;
        Ok(Picture { rows })
    }

    /// Its first rows.
    pub fn cut(mut self, rows: u16) -> Picture
        ensures { result ≡ take rows self }
    {
        self.rows.truncate(rows as usize);
        self
    }

    /// How many rows it has.
    pub fn rows(&self) -> u16
        ensures value { result ≡ length self.now }
        ensures most { result ≤ MOST_ROWS }
    {
        self.rows.len() as u16
    }

    /// The colours of a row, counted from 0.
    pub fn row(&self, row: u16) -> &[u8; 160]
        requires { row < length self.now }
        ensures { result.now ≡ slice_index_or self.now row [] }
    {
        &self.rows[row as usize]
    }

    /// The colour at a place of a row, 0 to 159.
    pub fn at(&self, row: u16, x: u8) -> u8
        requires row { row < length self.now }
        requires x { x < 160 }
        ensures { result ≡ slice_index (slice_index_or self.now row []) x }
    {
        self.row(row)[x as usize]
    }

    /// Whether both have the same rows.
    pub fn equals(&self, other: &Picture) -> bool
        ensures { IsTrue result ↔ (self.now ≡ other.now) }
    {
        self.rows == other.rows
    }
}

/// The rows of a frame that began at this cycle of its scanline and took so many cycles.
pub(crate) fn rows(line_cycle: u8, cycles: u32) -> u16
    requires { cycles ≤ most_frame_cycles }
    ensures { result ≡ rows_of line_cycle cycles }
{
    (line_cycle as u32 + cycles).div_ceil(LINE_CYCLES as u32) as u16
}
