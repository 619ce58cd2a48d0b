//! Tests of numbers and their digits against tables, and the texts of faults.
use orc_bits::*;
use std::alloc::Global;
use std::fmt;
use std::process::Abort;

// An assertion that shows its values takes two seconds or more to prove where it stands, so these three stand for all.

/// What was found of a case is what is wanted.
fn check_same<C: fmt::Debug, T: PartialEq + fmt::Debug>(
    rt: &impl Abort,
    what: &str,
    case: &C,
    found: &T,
    wanted: &T,
) {
    assert_eq!(rt; *found, *wanted, "{what} of {case:?}");
}

/// The same of lists.
fn check_list<C: fmt::Debug, T: PartialEq + fmt::Debug>(
    rt: &impl Abort,
    what: &str,
    case: &C,
    found: &[T],
    wanted: &[T],
) {
    assert_eq!(rt; found, wanted, "{what} of {case:?}");
}

/// The check passes.
fn passes(rt: &impl Abort, answer: Result<(), BitFault>) {
    assert_eq!(rt; answer, Ok(()));
}

mod packed;
mod varints;

/// Faults, and their texts.
static TEXTS: [(BitFault, &'static str); 3] = [
    (BitFault::Short, "bit 1 Short"),
    (BitFault::TooLong, "bit 2 TooLong"),
    (BitFault::OutOfMemory, "bit 3 OutOfMemory"),
];

#[test]
fn fault_texts(rt: HostRuntime) {
    passes(&rt, check_texts(&rt, rt.alloc()));
}

fn check_texts(rt: &impl Abort, alloc: Global) -> Result<(), BitFault> {
    for (fault, text) in &TEXTS {
        check_text(rt, alloc, fault, text)?;
    }
    Ok(())
}

/// The fault is shown as this text.
fn check_text(
    rt: &impl Abort,
    alloc: Global,
    fault: &BitFault,
    text: &str,
) -> Result<(), BitFault> {
    let Ok(shown) = format!(in alloc; "{fault}") else {
        return Err(BitFault::OutOfMemory);
    };
    check_list(rt, "text", fault, shown.as_bytes(), text.as_bytes());
    Ok(())
}
