//! Counts that tests look at.
use std::process::Abort;

/// As many were found as expected. Beside values that are alive a call is proved sooner than `assert_eq!`.
pub fn is_count<R: Abort>(rt: &R, found: usize, expected: usize) {
    assert_eq!(rt; found, expected);
}
