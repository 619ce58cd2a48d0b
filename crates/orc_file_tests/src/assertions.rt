//! Assertions that show what was found. One that shows its values takes seconds to prove where it stands, so there is one
//! alone: a call of it, or of one of the others, takes next to none.

use orc_file::FileFault;
use std::fmt;
use std::process::Abort;

/// What was found is what is wanted; the words and the numbers say of what.
pub(crate) fn check_same<T: PartialEq + fmt::Debug>(
    rt: &impl Abort,
    found: &T,
    wanted: &T,
    what: &str,
    numbers: &[u64],
) {
    assert_eq!(rt; *found, *wanted, "{what} {numbers:?}");
}

/// It holds; the words and the numbers say what.
pub(crate) fn demand(rt: &impl Abort, holds: bool, what: &str, numbers: &[u64]) {
    check_same(rt, &holds, &true, what, numbers);
}

/// The list that was found is the one that is wanted; the words and the numbers say of what.
pub(crate) fn check_list<T: PartialEq>(
    rt: &impl Abort,
    found: &[T],
    wanted: &[T],
    what: &str,
    numbers: &[u64],
) {
    demand(rt, found == wanted, what, numbers);
}

/// The check passes.
pub(crate) fn passes(rt: &impl Abort, answer: Result<(), FileFault>) {
    check_same(rt, &answer, &Ok(()), "passes", &[]);
}
