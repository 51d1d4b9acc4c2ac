//! A data access, as definitions speak of it. No code makes a list of accesses.

/// What an access writes.
#[derive(Clone, Copy)]
pub enum Source {
    Byte(u8),
    /// The byte that was read.
    Loaded,
    /// What the operation makes of the byte that was read.
    Changed,
}

#[derive(Clone, Copy, Default)]
pub enum Transfer {
    #[default]
    Read,
    Write(Source),
}

/// A data access, in a cycle of its instruction, counted from 1.
#[derive(Clone, Copy, Default)]
pub struct Access {
    pub cycle: u8,
    pub address: u16,
    pub transfer: Transfer,
}
