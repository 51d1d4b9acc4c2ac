//! Which name a word was to be.
ghost use Rattle.std.specs.Prelude.{◌≡◌, ◌↔◌, true};
ghost use Rattle.std.specs.Char.{to_ascii_lowercase};
ghost use Rattle.input_text.specs.Mistakes.{IsMeant, IsMeantAmong, IsNear, small};
ghost use Rattle.input_text.specs.Private.Ends.{BeginAlike, HasOneMoreFirst, IsChangedFirst, IsExchangedFirst, IsNearFirst};

use crate::name::{NAMES, Name};
use crate::words::without_first;

/// Whether two letters are the same, be they capital ones or not.
fn is_same(a: u8, b: u8) -> bool
    ensures { (result ≡ true) ↔ (to_ascii_lowercase a ≡ to_ascii_lowercase b) }
{
    a.eq_ignore_ascii_case(&b)
}

/// Whether a name is a word with one letter more before it.
fn has_one_more(word: &[u8], name: &[u8]) -> bool
    ensures { (result ≡ true) ↔ HasOneMoreFirst (small word.now) (small name.now) }
{
    match name {
        [] => false,
        [_, after @ ..] => word.eq_ignore_ascii_case(after),
    }
}

/// Whether two words are the same after their first letters.
fn is_changed(word: &[u8], name: &[u8]) -> bool
    ensures { (result ≡ true) ↔ IsChangedFirst (small word.now) (small name.now) }
{
    match word {
        [] => false,
        [_, after @ ..] => has_one_more(after, name),
    }
}

/// Whether two letters are two others, exchanged.
fn are_exchanged(a: u8, b: u8, c: u8, d: u8) -> bool
    ensures { (result ≡ true) ↔ ((to_ascii_lowercase a ≡ to_ascii_lowercase d)
        × (to_ascii_lowercase b ≡ to_ascii_lowercase c)) }
{
    is_same(a, d) && is_same(b, c)
}

/// Whether two words are the same if the first two letters of one are exchanged.
fn is_exchanged(word: &[u8], name: &[u8]) -> bool
    ensures { (result ≡ true) ↔ IsExchangedFirst (small word.now) (small name.now) }
{
    let [a, b, word_after @ ..] = word else {
        return false;
    };
    let [c, d, name_after @ ..] = name else {
        return false;
    };
    are_exchanged(*a, *b, *c, *d) && word_after.eq_ignore_ascii_case(name_after)
}

/// Whether two words begin with one letter.
fn begin_alike(word: &[u8], name: &[u8]) -> bool
    ensures { (result ≡ true) ↔ BeginAlike (small word.now) (small name.now) }
{
    let [a, ..] = word else {
        return false;
    };
    let [b, ..] = name else {
        return false;
    };
    is_same(*a, *b)
}

/// Whether two words that don't begin with one letter are near.
fn is_near_first(word: &[u8], name: &[u8]) -> bool
    ensures { (result ≡ true) ↔ IsNearFirst (small word.now) (small name.now) }
{
    (word.is_empty() && name.is_empty())
        || has_one_more(word, name)
        || has_one_more(name, word)
        || is_changed(word, name)
        || is_exchanged(word, name)
}

/// Whether two words are the same, or a letter more, less, exchanged with its neighbour or changed
/// makes them so. Capital letters count as small ones.
fn is_near(word: &[u8], name: &[u8]) -> bool
    ensures { (result ≡ true) ↔ IsNear (small word.now) (small name.now) }
{
    if begin_alike(word, name) {
        is_near(without_first(word), without_first(name))
    } else {
        is_near_first(word, name)
    }
}

/// The first of some names that is near to a word.
fn meant_among(word: &[u8], names: &[Name]) -> Option<&'static str>
    ensures { IsMeantAmong word.now names.now result }
{
    match names {
        [] => None,
        [name, others @ ..] => {
            let text = name.named_bit().word;
            if is_near(word, text.as_bytes()) {
                Some(text)
            } else {
                meant_among(word, others)
            }
        }
    }
}

/// The name that a word was to be: the first, in the order of printing, that is near to it. Capital
/// letters count as small ones.
pub fn meant_by(word: &[u8]) -> Option<&'static str>
    ensures { IsMeant word.now result }
{
    meant_among(word, &NAMES)
}
