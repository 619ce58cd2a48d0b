//! Messages of texts, read, written and read again, and texts that are refused, from tables.
use orc_wire::*;
use std::alloc::{AllocError, Global};
use std::fmt;
use std::process::Abort;
use std::test::Fail;

mod directories;
mod fields;
mod numbers;
mod statistics;

/// The message of the text.
fn read_message<M: Message>(alloc: Global, text: &[u8]) -> Result<M, WireFault> {
    M::read(alloc, text)
}

/// The canonical text of the message.
fn text_of<M: Message>(alloc: Global, message: &M) -> Result<Vec<u8>, WireFault> {
    let mut out = Vec::new(alloc);
    message.put(&mut out)?;
    Ok(out)
}

/// The message of the text, and its canonical text.
fn both_ways<M: Message>(alloc: Global, text: &[u8]) -> Result<(M, Vec<u8>), WireFault> {
    let message = read_message::<M>(alloc, text)?;
    let out = text_of(alloc, &message)?;
    Ok((message, out))
}

/// Texts of a message, and the fault of each.
type Refused<'a> = &'a [(&'static [u8], WireFault)];

/// The fault of the text, if it is no message's.
fn fault_of<M: Message>(alloc: Global, text: &[u8]) -> Option<WireFault> {
    read_message::<M>(alloc, text).err()
}

/// The text's fault is the one that is wanted.
fn check_fault(rt: &impl Abort, text: &[u8], fault: Option<WireFault>, wanted: WireFault) {
    assert_eq!(rt; fault, Some(wanted), "of {text:?}");
}

/// Each text is refused by its fault.
fn check_refused<M: Message>(rt: &impl Abort, alloc: Global, table: Refused<'_>) {
    for (text, answer) in table {
        check_fault(rt, text, fault_of::<M>(alloc, text), *answer);
    }
}

/// The canonical text of the text's message.
fn written<M: Message>(alloc: Global, text: &[u8]) -> Result<Vec<u8>, WireFault> {
    let message = read_message::<M>(alloc, text)?;
    text_of(alloc, &message)
}

/// The text is a message's, and is written as the canonical one.
fn check_written<M: Message>(rt: &impl Abort, alloc: Global, text: &[u8], canonical: &[u8]) {
    check_answer(rt, text, written::<M>(alloc, text), canonical);
}

/// What was written for the text is the canonical one.
fn check_answer(
    rt: &impl Abort,
    text: &[u8],
    answer: Result<Vec<u8>, WireFault>,
    canonical: &[u8],
) {
    match answer {
        Ok(out) => assert_eq!(rt; out.as_slice(), canonical, "of {text:?}"),
        Err(fault) => assert!(rt; false, "{fault} of {text:?}"),
    }
}

// An assertion that shows its values takes two seconds or more to prove where it stands, so these two stand for most.

/// What was found is what is wanted.
fn check_same<T: PartialEq + fmt::Debug>(rt: &impl Abort, what: &str, found: &T, wanted: &T) {
    assert_eq!(rt; *found, *wanted, "{what}");
}

/// The same of lists.
fn check_list<T: PartialEq + fmt::Debug>(rt: &impl Abort, what: &str, found: &[T], wanted: &[T]) {
    assert_eq!(rt; found, wanted, "{what}");
}

/// What a fault is shown as.
fn fault_text(alloc: Global, fault: WireFault) -> Result<String, AllocError> {
    match format!(in alloc; "{fault}") {
        Err(_) => format!(in alloc; "{fault}"),
        answer => answer,
    }
}

#[test]
fn fault_texts(rt: HostRuntime) -> Result<(), Fail> {
    let table = [
        (WireFault::Short(3), "wire 1 Short at 3"),
        (WireFault::BadVarint(3), "wire 2 BadVarint at 3"),
        (WireFault::BadWireType(3), "wire 3 BadWireType at 3"),
        (WireFault::ValueRange(3), "wire 4 ValueRange at 3"),
        (WireFault::RepeatedMessage(3), "wire 5 RepeatedMessage at 3"),
        (WireFault::Missing, "wire 6 Missing at 0"),
        (WireFault::OutOfMemory, "wire 7 OutOfMemory"),
    ];
    for (fault, text) in table {
        let shown = fault_text(rt.alloc(), fault)?;
        assert_eq!(rt; shown.as_str(), text);
    }
    Ok(())
}
