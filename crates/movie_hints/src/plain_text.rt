//! Whether bytes are a text.
ghost use Rattle.std.specs.Prelude.{◌≡◌, ◌↔◌, ◌+◌, ◌==◌, ◌&&◌, ◌||◌, nat_le, slice_index, true};
ghost use Rattle.std.specs.Char.{is_ascii_digit};
ghost use Rattle.std.specs.List.{list_all};
ghost use Rattle.std.specs.Str.{is_utf8};
ghost use Rattle.movie_hints.specs.Hints.{IsFrameNumber, is_high_first, is_low_first, is_printed};
ghost use Rattle.movie_hints.specs.Hints.{is_text, is_utf16, is_utf8_text};

use crate::look::has_at;
use crate::places::{byte_after, byte_at};

/// Whether a byte is a printed character of ASCII, a tab or a line end.
fn is_printed(byte: u8) -> bool
    ensures { result ≡ is_printed byte }
{
    (0x20..0x7F).contains(&byte) || (9..14).contains(&byte)
}

/// Whether none of some bytes is a control character of ASCII but tabs and line ends.
fn are_printed(bytes: &[u8]) -> bool
    ensures { result ≡ list_all (λ byte. is_printed byte || nat_le 0x80 byte) bytes.now }
{
    bytes.iter().all(|byte| is_printed(*byte) || *byte >= 0x80)
}

/// Whether bytes are UTF-8.
fn is_utf8(bytes: &[u8]) -> bool
    ensures { result ≡ is_utf8 bytes.now }
{
    str::from_utf8(bytes).is_ok()
}

/// Whether bytes look like a text in UTF-8: none is a control character but tabs and line ends.
fn is_utf8_text(bytes: &[u8]) -> bool
    ensures { result ≡ is_utf8_text bytes.now }
{
    !bytes.is_empty() && are_printed(bytes) && is_utf8(bytes)
}

/// Whether two bytes at a place are a printed character in UTF-16, the lower byte first.
fn is_low_first(bytes: &[u8], at: usize) -> bool
    ensures { result ≡ is_low_first bytes.now at }
{
    is_printed(byte_at(bytes, at)) && byte_after(bytes, at, 1) == 0
}

/// The same, the higher byte first.
fn is_high_first(bytes: &[u8], at: usize) -> bool
    ensures { result ≡ is_high_first bytes.now at }
{
    byte_at(bytes, at) == 0 && is_printed(byte_after(bytes, at, 1))
}

/// Whether bytes begin as a text in UTF-16, with a byte order mark or four printed characters.
pub(crate) fn is_utf16(bytes: &[u8]) -> bool
    ensures { result ≡ is_utf16 bytes.now }
{
    (has_at(bytes, 0, &[0xFF, 0xFE]) && is_low_first(bytes, 2))
        || (has_at(bytes, 0, &[0xFE, 0xFF]) && is_high_first(bytes, 2))
        || (is_low_first(bytes, 0)
            && is_low_first(bytes, 2)
            && is_low_first(bytes, 4)
            && is_low_first(bytes, 6))
        || (is_high_first(bytes, 0)
            && is_high_first(bytes, 2)
            && is_high_first(bytes, 4)
            && is_high_first(bytes, 6))
}

/// Whether bytes look like a text, in UTF-8 or in UTF-16.
pub(crate) fn is_text(bytes: &[u8]) -> bool
    ensures { result ≡ is_text bytes.now }
{
    is_utf8_text(bytes) || is_utf16(bytes)
}

/// Whether bytes are decimal digits alone.
fn are_digits(bytes: &[u8]) -> bool
    ensures { result ≡ list_all is_ascii_digit bytes.now }
{
    bytes.iter().all(|byte| byte.is_ascii_digit())
}

/// Whether a word is digits and a colon, as a line of inputs begins that has the number of its first
/// frame.
pub(crate) fn is_frame_number(word: &[u8]) -> bool
    ensures { result ≡ true → IsFrameNumber word.now }
{
    match word.split_last() {
        Some((last, digits)) => *last == b':' && !digits.is_empty() && are_digits(digits),
        None => false,
    }
}
