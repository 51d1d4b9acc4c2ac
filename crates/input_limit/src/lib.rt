//! How long an input may be.
#![tactic(auto)]

/// The most bytes of one input.
pub const INPUT_LIMIT: usize = 16_777_216;
