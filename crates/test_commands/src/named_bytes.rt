//! Bytes as cases spell them.

use crate::quoted::quoted;
use std::alloc::{AllocError, Global};
use std::io;

/// The error of a line that can't be read.
pub(crate) fn malformed() -> io::Error {
    io::Error::from(io::ErrorKind::InvalidData)
}

/// Bytes with names.
#[derive(Drop)]
pub(crate) struct NamedBytes<'a> {
    alloc: Global,
    named: Vec<(&'a str, Vec<u8>)>,
}

impl<'a> NamedBytes<'a> {
    pub(crate) fn none(alloc: Global) -> NamedBytes<'a> {
        NamedBytes {
            alloc,
            named: Vec::new(alloc),
        }
    }

    /// Takes a line, if it names bytes, and says whether it does.
    pub(crate) fn take(&mut self, line: &'a str) -> io::Result<bool> {
        let Some((name, spelling)) = line.split_once(" = ") else {
            return Ok(false);
        };
        if spelling.contains(" | ") || name.contains(' ') || self.of(name).is_some() {
            return Ok(false);
        }
        let Ok(bytes) = self.spelled(spelling) else {
            return Ok(false);
        };
        self.named.push((name, bytes))?;
        Ok(true)
    }

    /// The bytes of a name.
    fn of(&self, name: &str) -> Option<&[u8]> {
        let (_, bytes) = self.named.iter().find(|(other, _)| *other == name)?;
        Some(bytes.as_slice())
    }

    /// The bytes of a word: `@` and a name, or hexadecimal digits.
    fn of_word(&self, word: &str) -> io::Result<Vec<u8>> {
        let Some(name) = word.strip_prefix('@') else {
            return hex::decode(self.alloc, word).map_err(|_| malformed());
        };
        let mut bytes = Vec::new(self.alloc);
        bytes.extend_from_slice(self.of(name).ok_or(malformed())?)?;
        Ok(bytes)
    }

    /// The bytes of the first item of a spelling, how often they stand there, and what follows.
    fn first_of<'b>(&self, spelling: &'b str) -> io::Result<(Vec<u8>, usize, &'b str)> {
        let (bytes, count, rest) = match spelling.strip_prefix('\'') {
            Some(text) => {
                let (bytes, after) = quoted(self.alloc, text)?;
                let (count, rest) = after.split_once(' ').unwrap_or((after, ""));
                let count = if count.is_empty() {
                    Some("1")
                } else {
                    count.strip_prefix('*')
                };
                (bytes, count.ok_or(malformed())?, rest)
            }
            None => {
                let (item, rest) = spelling.split_once(' ').unwrap_or((spelling, ""));
                let (word, count) = item.split_once('*').unwrap_or((item, "1"));
                (self.of_word(word)?, count, rest)
            }
        };
        Ok((bytes, count.parse().ok().ok_or(malformed())?, rest))
    }

    /// The bytes that a text spells.
    pub(crate) fn spelled(&self, spelling: &str) -> io::Result<Vec<u8>> {
        let mut all = Vec::new(self.alloc);
        let mut rest = spelling.trim();
        for _ in 0..spelling.len() {
            if rest.is_empty() {
                break;
            }
            let (bytes, count, after) = self.first_of(rest)?;
            repeat(&bytes, count, &mut all)?;
            rest = after.trim_start();
        }
        Ok(all)
    }
}

/// Adds bytes, so often.
fn repeat(bytes: &[u8], count: usize, all: &mut Vec<u8>) -> Result<(), AllocError> {
    for _ in 0..count {
        all.extend_from_slice(bytes)?;
    }
    Ok(())
}
