//! The steps of a case, as its lines say them.

/// What is done with a cartridge, or found in it.
#[derive(Clone, Copy)]
pub(crate) enum Step {
    /// A read of an address gives a byte.
    Read(u16, u8),
    /// A write of a byte to an address.
    Write(u16, u8),
    /// The bank bytes are these.
    Banks([u8; 3]),
    /// A byte of the RAM is this one.
    Ram(usize, u8),
    /// A state with these bank bytes is lawful, or isn't.
    Lawful([u8; 3], bool),
    /// So many bytes spell the bank bytes and the RAM.
    Record(usize),
}

impl Step {
    /// The step of a text; none where it is no step.
    pub(crate) fn parse(text: &str) -> Option<Step> {
        let (verb, rest) = text.split_once(' ')?;
        match verb {
            "banks" => return Some(Step::Banks(banks(rest)?)),
            "lawful" => return Some(Step::Lawful(banks(rest)?, true)),
            "unlawful" => return Some(Step::Lawful(banks(rest)?, false)),
            "record" => return Some(Step::Record(rest.parse().ok()?)),
            _ => {}
        }
        let (place, value) = rest.split_once(' ')?;
        let value = byte(value)?;
        match verb {
            "read" => Some(Step::Read(address(place)?, value)),
            "write" => Some(Step::Write(address(place)?, value)),
            "ram" => Some(Step::Ram(address(place)? as usize, value)),
            _ => None,
        }
    }
}

/// A byte of two hexadecimal digits.
pub(crate) fn byte(word: &str) -> Option<u8> {
    u8::from_str_radix(word, 16).ok()
}

fn address(word: &str) -> Option<u16> {
    u16::from_str_radix(word, 16).ok()
}

/// Up to three bank bytes in hexadecimal, with points between them. The others are 0.
fn banks(text: &str) -> Option<[u8; 3]> {
    let mut banks = [0; 3];
    let mut words = text.split('.');
    for bank in &mut banks {
        if let Some(word) = words.next() {
            *bank = byte(word)?;
        }
    }
    if words.next().is_some() {
        return None;
    }
    Some(banks)
}
