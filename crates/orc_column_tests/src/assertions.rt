//! What the tests demand. An assertion takes a second or two to prove wherever it stands, so these have those of all tests.
use std::fmt;
use std::process::Abort;

/// The check of a case of a table holds.
pub(crate) fn demand_of<C: fmt::Debug, E: Drop>(rt: &impl Abort, held: Result<bool, E>, case: &C) {
    assert!(rt; matches!(held, Ok(true)), "of {case:?}");
}

/// What was asked of this one holds.
pub(crate) fn demand(rt: &impl Abort, holds: bool, which: &str) {
    assert!(rt; holds, "{which}");
}
