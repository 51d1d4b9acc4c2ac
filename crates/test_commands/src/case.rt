//! Cases.

use crate::answer::Answer;
use crate::named_bytes::{NamedBytes, malformed};
use std::alloc::Global;
use std::io;

/// The fields of a line, as it spells them.
#[derive(Clone, Copy)]
struct Fields<'a> {
    words: &'a str,
    first: &'a str,
    second: &'a str,
    status: u8,
    text: &'a str,
    file: Option<&'a str>,
}

impl<'a> Fields<'a> {
    /// The fields of a line; none where it has too few or too many.
    fn parse(line: &'a str) -> Option<Fields<'a>> {
        let mut fields = line.split(" | ");
        let found = Fields {
            words: fields.next()?,
            first: fields.next()?,
            second: fields.next()?,
            status: fields.next()?.parse().ok()?,
            text: fields.next()?,
            file: fields.next(),
        };
        if fields.next().is_some() {
            return None;
        }
        Some(found)
    }
}

/// A command line with its inputs, and what it is to answer.
#[derive(Drop)]
pub(crate) struct Case<'a> {
    /// The words of the command line.
    pub words: &'a str,
    pub first: Vec<u8>,
    pub second: Vec<u8>,
    status: u8,
    text: &'a str,
    file: Option<Vec<u8>>,
}

impl<'a> Case<'a> {
    /// The case of a line, or an error where it is none.
    pub(crate) fn parse(names: &NamedBytes<'_>, line: &'a str) -> io::Result<Case<'a>> {
        let fields = Fields::parse(line).ok_or(malformed())?;
        let file = match fields.file {
            Some(file) => Some(names.spelled(file)?),
            None => None,
        };
        Ok(Case {
            words: fields.words,
            first: names.spelled(fields.first)?,
            second: names.spelled(fields.second)?,
            status: fields.status,
            text: fields.text,
            file,
        })
    }

    /// Whether an answer is what is wanted.
    pub(crate) fn is_met_by(&self, alloc: Global, answer: &Answer) -> io::Result<bool> {
        let found = format!(in alloc; " {} ", answer.text)?;
        let wanted = format!(in alloc; " {} ", self.text)?;
        let has_file = self.place_of_difference(&answer.file).is_none();
        Ok(answer.status == self.status && has_file && fits(&found, &wanted))
    }

    /// The first place where a file differs from the one that is wanted, if one is.
    pub(crate) fn place_of_difference(&self, found: &[u8]) -> Option<usize> {
        let wanted = self.file.as_deref()?;
        if *found == *wanted {
            return None;
        }
        let mut pairs = found.iter().zip(wanted.iter());
        let place = pairs.position(|(byte, other)| *byte != *other);
        Some(place.unwrap_or(found.len().min(wanted.len())))
    }
}

/// Whether a text is as wanted, where ` .. ` is any text, once or twice.
fn fits(text: &str, wanted: &str) -> bool {
    let Some((beginning, rest)) = wanted.split_once(" .. ") else {
        return text == wanted;
    };
    let Some(text) = text.strip_prefix(beginning) else {
        return false;
    };
    match rest.rsplit_once(" .. ") {
        Some((middle, end)) => match text.split_once(middle) {
            Some((_, after)) => after.ends_with(end),
            None => false,
        },
        None => text.ends_with(rest),
    }
}
