//! What the tests demand. An assertion takes a second or two to prove wherever it stands, so these have those of all tests.
use orc_stripe::StripeFault;
use std::process::Abort;

/// What was asked of this one holds.
pub(crate) fn demand(rt: &impl Abort, holds: bool, which: &str) {
    assert!(rt; holds, "{which}");
}

/// The check passes.
pub(crate) fn passes(rt: &impl Abort, answer: Result<(), StripeFault>) {
    assert_eq!(rt; answer, Ok(()));
}

/// The refusal is the one that was wanted.
pub(crate) fn same_fault(rt: &impl Abort, found: Option<StripeFault>, wanted: Option<StripeFault>) {
    assert_eq!(rt; found, wanted);
}

/// What a call was refused for, if it was. Want of memory is handed on.
pub(crate) fn refusal(found: Option<StripeFault>) -> Result<Option<StripeFault>, StripeFault> {
    match found {
        Some(StripeFault::OutOfMemory) => Err(StripeFault::OutOfMemory),
        found => Ok(found),
    }
}
