//! How facts are written.

/// How a command writes what it says: as lines, or as one object of JSON (RFC 8259) with a member
/// for each fact.
#[derive(Clone, Copy, Debug, PartialEq, Eq)]
pub enum Notation {
    Lines,
    Json,
}
