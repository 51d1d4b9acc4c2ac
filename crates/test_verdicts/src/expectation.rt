//! What tests expect.

use std::fmt::Debug;
use std::process::Abort;

/// Ends the test where what it found is not what it wanted, and prints both.
///
/// `assert_eq!` written out costs the prover a second or more each time. A test does so only where
/// its own proof needs that the two are equal.
pub(crate) fn expect_equal<T: PartialEq + Debug + Drop>(rt: &impl Abort, found: T, wanted: T) {
    assert_eq!(rt; found, wanted);
}
