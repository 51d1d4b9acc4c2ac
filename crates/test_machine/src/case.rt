//! Cases of consoles.

use crate::cartridge::cartridge;
use crate::step::Step;
use crate::trial::Trial;
use cart_board::Cart;
use std::alloc::{AllocError, Global};

/// Whether each line of a text is a comment.
pub(crate) fn is_comment(text: &str) -> bool {
    text.lines().all(|line| line.starts_with('#'))
}

/// The first step of a cartridge's lines that isn't met; the lines where none checks anything.
fn difference_on<'a>(
    alloc: Global,
    cart: &Cart,
    lines: &'a str,
) -> Result<Option<&'a str>, AllocError> {
    let mut trial = Trial::power_on(alloc, cart)?;
    let mut has_check = false;
    for text in lines.split(&[';', '\n']) {
        let text = text.trim();
        let is_met = match Step::parse(text) {
            Some(step) => {
                has_check = has_check || step.is_check();
                trial.take(step)?
            }
            None => text.is_empty(),
        };
        if !is_met {
            return Ok(Some(text));
        }
    }
    Ok(if has_check { None } else { Some(lines) })
}

/// The first step of a case that isn't met. Where its first line names no source, or its second no
/// cartridge, that line.
pub(crate) fn difference(alloc: Global, case: &str) -> Result<Option<&str>, AllocError> {
    let (title, rest) = case.split_once('\n').unwrap_or((case, ""));
    let (line, steps) = rest.split_once('\n').unwrap_or((rest, ""));
    if !title.contains(" | ") {
        return Ok(Some(title));
    }
    let found = cartridge(alloc, line)?;
    match found {
        Some(cart) => difference_on(alloc, &cart, steps),
        None => Ok(Some(line)),
    }
}
