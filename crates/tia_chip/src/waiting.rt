//! A write that is on its way.
use crate::register::Register;

/// A write that acts once so many clocks have passed.
#[derive(Clone, Copy, Debug, PartialEq, Eq)]
pub struct Waiting {
    pub register: Register,
    pub value: u8,
    pub clocks: u8,
}
