//! Assertions. Each that shows its values takes seconds to prove where it stands, so these two have those of all tests.
//! Of each a word and a number say which one it is.
use std::fmt;
use std::process::Abort;

/// What was found is what is wanted.
pub(crate) fn check_same<T: PartialEq + fmt::Debug>(
    rt: &impl Abort,
    what: &str,
    number: u64,
    found: &T,
    wanted: &T,
) {
    assert_eq!(rt; *found, *wanted, "{what} {number}");
}

/// It holds.
pub(crate) fn demand(rt: &impl Abort, holds: bool, what: &str, number: u64) {
    assert!(rt; holds, "{what} {number}");
}
