//! Words of a file, as they are shown.
ghost use Rattle.std.specs.Prelude.{◌≡◌, take};
ghost use Rattle.std.specs.Fmt.{WritesOnOk};
ghost use Rattle.movie_hints.specs.Words.{escaped, escaped_byte, letter_text, letters_text};

use std::fmt;
use terminal_text::Shown;

/// The most bytes of a word that are shown.
const MOST_SHOWN: usize = 40;

/// A word of a file, in which no blank stands that isn't ASCII but it is shown as `\u{a0}`. Of a long one the first 40 bytes are shown, and two dots.
#[derive(Clone, Copy, Debug)]
pub struct Word<'a> {
    pub bytes: &'a [u8],
}

/// Writes a character as it is, or escaped if it hides something or looks like a space.
fn write_letter<W: fmt::Write>(f: &mut fmt::Formatter<W>, c: char) -> fmt::Result
    ensures { WritesOnOk W.write_str_gives f.old result (letter_text c) f.new }
{
    if Shown::is_plain(c) && !c.is_whitespace() {
        return f.write_char(c);
    }
    for character in c.escape_default() {
        f.write_char(character)?;
    }
    Ok(())
}

/// Writes a text so.
fn write_letters<W: fmt::Write>(f: &mut fmt::Formatter<W>, text: &str) -> fmt::Result
    ensures { WritesOnOk W.write_str_gives f.old result (letters_text text.now) f.new }
{
    for c in text.chars() {
        write_letter(f, c)?;
    }
    Ok(())
}

/// Writes a byte of no text as an escape.
fn write_escaped_byte<W: fmt::Write>(f: &mut fmt::Formatter<W>, byte: u8) -> fmt::Result
    ensures { WritesOnOk W.write_str_gives f.old result (escaped_byte byte) f.new }
{
    for character in byte.escape_ascii() {
        f.write_char(char::from(character))?;
    }
    Ok(())
}

/// Writes bytes of no text so.
fn write_escaped<W: fmt::Write>(f: &mut fmt::Formatter<W>, bytes: &[u8]) -> fmt::Result
    ensures { WritesOnOk W.write_str_gives f.old result (escaped bytes.now) f.new }
{
    for byte in bytes {
        write_escaped_byte(f, *byte)?;
    }
    Ok(())
}

/// The bytes of a word that are shown.
#[tactic(auto, using(crate::proofs::WordLemmas::bytes_shown))]
fn shown_part(bytes: &[u8]) -> &[u8]
    ensures { result.now ≡ take 40 bytes.now }
{
    &bytes[..bytes.len().min(MOST_SHOWN)]
}

impl fmt::Display for Word<'_> {
    ghost use Rattle.std.specs.Prelude.{Some};
    ghost use Rattle.movie_hints.specs.Words.{word_text};

    ghost output = { λ word. Some (word_text word.bytes.now) };

    fn fmt<W: fmt::Write>(&self, f: &mut fmt::Formatter<W>) -> fmt::Result {
        for chunk in shown_part(self.bytes).utf8_chunks() {
            write_letters(f, chunk.valid())?;
            write_escaped(f, chunk.invalid())?;
        }
        if self.bytes.len() > MOST_SHOWN {
            f.write_str("..")?;
        }
        Ok(())
    }
}
