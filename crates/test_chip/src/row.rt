//! Rows of pixels, and how the cases spell them.
ghost use Rattle.std.specs.Prelude.{◌≡◌, replicate};

use crate::step::{byte, place};

/// A line's pixels.
#[derive(Clone, Copy, PartialEq, Eq)]
pub(crate) struct Row {
    pub pixels: [u8; 160],
}

impl Row {
    /// Pixels of one colour.
    pub(crate) fn of(colour: u8) -> Row
        ensures { result.pixels ≡ replicate 160 colour }
    {
        Row {
            pixels: [colour; 160],
        }
    }

    /// Colours a pixel, if there is one at this place.
    pub(crate) fn put(&mut self, x: u8, colour: u8) {
        if x < 160 {
            self.pixels[x as usize] = colour;
        }
    }
}

/// The row of a text as `00 40-47:1E 50:1E`: the background's colour, then stretches of other
/// colours, each from its first pixel to its last.
pub(crate) fn parse_row(text: &str) -> Option<Row> {
    let (background, stretches) = text.split_once(' ').unwrap_or((text, ""));
    let mut row = Row::of(byte(background)?);
    for stretch in stretches.split_whitespace() {
        add_stretch(&mut row, stretch)?;
    }
    Some(row)
}

fn add_stretch(row: &mut Row, stretch: &str) -> Option<()> {
    let (pixels, colour) = stretch.split_once(':')?;
    let (first, last) = pixels.split_once('-').unwrap_or((pixels, pixels));
    let first = place(first)?;
    let last = place(last)?;
    if first > last || last >= 160 {
        return None;
    }
    let colour = byte(colour)?;
    for x in first..last + 1 {
        row.put(x, colour);
    }
    Some(())
}
