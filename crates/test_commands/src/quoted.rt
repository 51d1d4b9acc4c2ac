//! Texts between apostrophes.

use crate::named_bytes::malformed;
use std::alloc::Global;
use std::io;

/// The byte that a letter after a backslash stands for.
fn escaped(letter: u8) -> io::Result<u8> {
    match letter {
        b'n' => Ok(b'\n'),
        b'r' => Ok(b'\r'),
        b't' => Ok(b'\t'),
        b'\'' | b'\\' => Ok(letter),
        _ => Err(malformed()),
    }
}

/// The bytes up to an apostrophe, and what follows that.
pub(crate) fn quoted(alloc: Global, text: &str) -> io::Result<(Vec<u8>, &str)> {
    let mut bytes = Vec::new(alloc);
    let mut is_escaped = false;
    for (place, byte) in text.bytes().enumerate() {
        if is_escaped {
            bytes.push(escaped(byte)?)?;
            is_escaped = false;
        } else if byte == b'\'' {
            let after = text.get(place + 1..).ok_or(malformed())?;
            return Ok((bytes, after));
        } else if byte == b'\\' {
            is_escaped = true;
        } else {
            bytes.push(byte)?;
        }
    }
    Err(malformed())
}
