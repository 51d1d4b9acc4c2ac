//! A number of a record, as reports and hints know it.

/// A number of a record: its name and length, and the condition on its first byte.
#[derive(Clone, Copy)]
pub struct RecordNumber {
    /// Its name in a report.
    pub name: &'static str,
    /// How many bytes it has: one or two.
    pub length: usize,
    /// The bits of its first byte that may be set.
    pub mask: u8,
    /// The most that its first byte may be.
    pub most: u8,
}

/// A number with this name: one byte that may be anything, but for what the row says besides.
macro_rules! number {
    ($name:literal) => {
        number!($name, length: 1, mask: 0xFF, most: 0xFF)
    };
    ($name:literal, length: $length:literal) => {
        number!($name, length: $length, mask: 0xFF, most: 0xFF)
    };
    ($name:literal, length: $length:literal, mask: $mask:literal) => {
        number!($name, length: $length, mask: $mask, most: 0xFF)
    };
    ($name:literal, mask: $mask:literal) => {
        number!($name, length: 1, mask: $mask, most: 0xFF)
    };
    ($name:literal, most: $most:literal) => {
        number!($name, length: 1, mask: 0xFF, most: $most)
    };
    ($name:literal, length: $length:literal, mask: $mask:literal, most: $most:literal) => {
        RecordNumber {
            name: $name,
            length: $length,
            mask: $mask,
            most: $most,
        }
    };
}

pub(super) use number;
