//! The accesses of a case, as its lines say them.

/// What an access is for.
#[derive(Clone, Copy, Debug, Default, PartialEq, Eq)]
pub(crate) enum What {
    Fetch,
    Pointer,
    Read,
    #[default]
    Discard,
    Write,
}

/// An access with its byte.
#[derive(Clone, Copy, Debug, Default, PartialEq, Eq)]
pub(crate) struct Access {
    pub what: What,
    pub address: u16,
    pub byte: u8,
}

impl Access {
    /// The access of a text, as `read 1108 22`; none where it is none.
    pub(crate) fn parse(text: &str) -> Option<Access> {
        let (what, rest) = text.split_once(' ')?;
        let what = what_of(what)?;
        let (place, value) = rest.split_once(' ')?;
        Some(Access {
            what,
            address: address(place)?,
            byte: byte(value)?,
        })
    }
}

fn what_of(word: &str) -> Option<What> {
    match word {
        "fetch" => Some(What::Fetch),
        "pointer" => Some(What::Pointer),
        "read" => Some(What::Read),
        "discard" => Some(What::Discard),
        "write" => Some(What::Write),
        _ => None,
    }
}

/// A byte of two hexadecimal digits.
pub(crate) fn byte(word: &str) -> Option<u8> {
    u8::from_str_radix(word, 16).ok()
}

/// An address of four hexadecimal digits.
pub(crate) fn address(word: &str) -> Option<u16> {
    u16::from_str_radix(word, 16).ok()
}
