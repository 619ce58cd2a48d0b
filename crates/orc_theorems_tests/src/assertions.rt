//! Assertions. Each that shows its values takes seconds to prove where it stands, so these few have those of all
//! tests.
use std::fmt;
use std::process::Abort;

/// What was found is what is wanted.
pub(crate) fn check_same<T: PartialEq + fmt::Debug>(
    rt: &impl Abort,
    what: &str,
    found: &T,
    wanted: &T,
) {
    assert_eq!(rt; *found, *wanted, "{what}");
}

/// The bytes are those that are wanted.
pub(crate) fn check_bytes(rt: &impl Abort, what: &str, found: &[u8], wanted: &[u8]) {
    assert_eq!(rt; found, wanted, "{what}");
}

/// The numbers are those that are wanted.
pub(crate) fn check_numbers(rt: &impl Abort, what: &str, found: &[i64], wanted: &[i64]) {
    assert_eq!(rt; found, wanted, "{what}");
}
