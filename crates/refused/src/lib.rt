//! Refusals, of memory or for a reason.
#![tactic(auto)]

ghost use Rattle.std.specs.Prelude.{◌≡◌};
ghost use Rattle.refused.specs.declared.Refused.TheVariants.{NoMemory};

use std::alloc::{AllocError, AllocFailed};

/// Why there is no result: an allocation was refused, or for a reason that has nothing to do with
/// memory.
#[derive(Clone, Copy, Debug, PartialEq, Eq)]
pub enum Refused<E> {
    /// An allocation was refused.
    NoMemory,
    /// There is this reason.
    Of(E),
}

impl<E> From<AllocError> for Refused<E> {
    ghost from_gives = { λ _ e. e ≡ NoMemory };

    fn from(_e: AllocError) -> Refused<E> {
        Refused::NoMemory
    }
}

impl<E, T: Drop> From<AllocFailed<T>> for Refused<E> {
    ghost from_gives = { λ _ e. e ≡ NoMemory };

    fn from(_e: AllocFailed<T>) -> Refused<E> {
        Refused::NoMemory
    }
}
