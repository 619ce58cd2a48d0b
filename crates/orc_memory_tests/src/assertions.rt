//! What the tests demand. An assertion takes a second or two to prove wherever it stands, so these have those of all tests.
use std::fmt;
use std::process::Abort;

/// What was asked of this one holds.
pub(crate) fn demand(rt: &impl Abort, holds: bool, which: &str) {
    assert!(rt; holds, "{which}");
}

/// What was found is what was wanted.
pub(crate) fn same<T: PartialEq + fmt::Debug>(rt: &impl Abort, found: &T, wanted: &T) {
    assert!(rt; found == wanted, "{found:?}, and not {wanted:?}");
}

/// The bytes are those that were wanted.
pub(crate) fn same_bytes(rt: &impl Abort, found: &[u8], wanted: &[u8]) {
    assert_eq!(rt; found, wanted);
}

/// The bytes are a front of a whole file.
pub(crate) fn is_front(rt: &impl Abort, found: &[u8], whole: &[u8]) {
    let len = found.len().min(whole.len());
    same_bytes(rt, found, &whole[..len]);
}
