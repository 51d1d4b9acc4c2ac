//! Cases of cartridges.

use crate::step::{Step, byte};
use crate::trial::Trial;
use cart_board::{Cart, KnownBoard};
use std::alloc::{AllocError, Global};

/// Whether each line of a text is a comment.
pub(crate) fn is_comment(text: &str) -> bool {
    text.lines().all(|line| line.starts_with('#'))
}

/// An offset and its byte, as `0FF8=11`.
fn named_byte(word: &str) -> Option<(usize, u8)> {
    let (offset, value) = word.split_once('=')?;
    Some((usize::from_str_radix(offset, 16).ok()?, byte(value)?))
}

/// Sets the bytes that words name. Whether each of them does.
fn set_bytes(bytes: &mut [u8], words: &str) -> bool {
    for word in words.split_whitespace() {
        let Some((offset, value)) = named_byte(word) else {
            return false;
        };
        let Some(place) = bytes.get_mut(offset) else {
            return false;
        };
        *place = value;
    }
    true
}

/// The bytes of a cartridge of a length, some of which are named.
fn bytes_of(alloc: Global, length: &str, words: &str) -> Result<Option<Vec<u8>>, AllocError> {
    let Some(length) = length.parse::<u32>().ok() else {
        return Ok(None);
    };
    let mut bytes = vec![in alloc; 0; length as usize]?;
    if set_bytes(&mut bytes, words) {
        Ok(Some(bytes))
    } else {
        Ok(None)
    }
}

/// The first step of a cartridge's lines that isn't met.
fn difference_on<'a>(
    alloc: Global,
    cart: &Cart,
    lines: &'a str,
) -> Result<Option<&'a str>, AllocError> {
    let mut trial = Trial::power_on(alloc, cart)?;
    for step in lines.split(&[';', '\n']) {
        let step = step.trim();
        let is_met = match Step::parse(step) {
            Some(step) => trial.take(step)?,
            None => step.is_empty(),
        };
        if !is_met {
            return Ok(Some(step));
        }
    }
    Ok(None)
}

/// The first step of a case that isn't met. Where its first line names no source, or its second no
/// cartridge, that line.
pub(crate) fn difference(alloc: Global, case: &str) -> Result<Option<&str>, AllocError> {
    let (title, rest) = case.split_once('\n').unwrap_or((case, ""));
    let (cartridge, lines) = rest.split_once('\n').unwrap_or((rest, ""));
    if !title.contains(" | ") {
        return Ok(Some(title));
    }
    let (name, rest) = cartridge.split_once(' ').unwrap_or((cartridge, ""));
    let (length, words) = rest.split_once(' ').unwrap_or((rest, ""));
    let Some(known) = KnownBoard::of_name(name) else {
        return Ok(refused(words, cartridge));
    };
    let is_wanted = words != "refused";
    let words = if is_wanted { words } else { "" };
    let Some(bytes) = bytes_of(alloc, length, words)? else {
        return Ok(Some(cartridge));
    };
    match Cart::new(known.board, bytes) {
        Ok(cart) if is_wanted => difference_on(alloc, &cart, lines),
        Err(_) if !is_wanted => Ok(None),
        _ => Ok(Some(cartridge)),
    }
}

/// Nothing where a cartridge is to be refused, else its line.
fn refused<'a>(words: &str, cartridge: &'a str) -> Option<&'a str> {
    if words == "refused" {
        None
    } else {
        Some(cartridge)
    }
}
