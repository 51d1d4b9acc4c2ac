//! Cartridges, as the cases spell them.

use crate::step::byte;
use cart_board::{Cart, KnownBoard};
use std::alloc::{AllocError, Global};

/// The bytes of a bank, in each of which a cartridge has the same vectors.
const BANK_LENGTH: usize = 4096;

/// Sets bytes of a cartridge from an offset on, by their hexadecimal digits. Whether they fit.
fn set_bytes(bytes: &mut [u8], offset: usize, digits: &str) -> bool {
    for index in 0..digits.len() / 2 {
        let Some(value) = digits.get(2 * index..2 * index + 2).and_then(byte) else {
            return false;
        };
        let Some(place) = bytes.get_mut(offset.saturating_add(index)) else {
            return false;
        };
        *place = value;
    }
    true
}

/// Sets the bytes of a word as `0FF8=1122`, or in each bank of one as `each:000=A902`. Whether it is
/// such a word.
fn set_word(bytes: &mut [u8], word: &str) -> bool {
    let (each, named) = match word.strip_prefix("each:") {
        Some(named) => (true, named),
        None => (false, word),
    };
    let Some((offset, digits)) = named.split_once('=') else {
        return false;
    };
    let Some(offset) = usize::from_str_radix(offset, 16).ok() else {
        return false;
    };
    if !each {
        return set_bytes(bytes, offset, digits);
    }
    for bank in bytes.chunks_mut(BANK_LENGTH) {
        if !set_bytes(bank, offset, digits) {
            return false;
        }
    }
    true
}

/// The cartridge of a line as `F8 8192 each:FFC=00F000F0 0FF8=11`; none where it is none.
pub(crate) fn cartridge(alloc: Global, line: &str) -> Result<Option<Cart>, AllocError> {
    let mut words = line.split_whitespace();
    let Some(known) = words.next().and_then(KnownBoard::of_name) else {
        return Ok(None);
    };
    let Some(length) = words.next().and_then(|word| word.parse::<u32>().ok()) else {
        return Ok(None);
    };
    let mut bytes = vec![in alloc; 0; length as usize]?;
    for word in words {
        if !set_word(&mut bytes, word) {
            return Ok(None);
        }
    }
    Ok(Cart::new(known.board, bytes).ok())
}
