//! Files of which one byte is another one: reading, checking and merging each come to an end, and agree.
use crate::assertions::demand;
use crate::calls::{count_rows, joined, refusal_of};
use crate::tests::LISTS;
use orc_file::{FileFault, SliceSource};
use orc_test_kit::SEVENS;
use std::alloc::Global;
use std::process::Abort;

/// What is answered; none where it is refused.
fn unless_refused<T: Drop>(answer: Result<T, FileFault>) -> Result<Option<T>, FileFault> {
    match answer {
        Ok(found) => Ok(Some(found)),
        Err(FileFault::OutOfMemory) => Err(FileFault::OutOfMemory),
        Err(_) => Ok(None),
    }
}

/// Whether a file that is joined with itself, unless that is refused, has so many rows twice; where it is refused, they
/// are none.
fn has_twice(alloc: Global, bytes: &[u8], rows: Option<usize>) -> Result<bool, FileFault> {
    let Some(twice) = unless_refused(joined(alloc, bytes, bytes))? else {
        return Ok(true);
    };
    match (rows, unless_refused(count_rows(alloc, &twice))?) {
        (Some(once), Some(both)) => Ok(once.checked_mul(2) == Some(both)),
        (None, None) => Ok(true),
        _ => Ok(false),
    }
}

/// Whether a file is checked exactly where it is read, and merged with itself has its rows twice.
fn agree(alloc: Global, bytes: &[u8]) -> Result<bool, FileFault> {
    let rows = unless_refused(count_rows(alloc, bytes))?;
    let refusal = refusal_of(alloc, &mut SliceSource::new(bytes))?;
    if refusal.is_none() != rows.is_some() {
        return Ok(false);
    }
    has_twice(alloc, bytes, rows)
}

/// Puts the next value at a place, behind 255 the first one.
fn put_next(bytes: &mut [u8], place: usize) {
    if let Some(byte) = bytes.get_mut(place) {
        *byte = byte.wrapping_add(1);
    }
}

/// All agree on a file whose byte at a place has each value in turn, that which was there at last.
fn change_byte(rt: &impl Abort, alloc: Global, bytes: &mut [u8], place: usize) {
    for _ in 0..256u32 {
        put_next(bytes, place);
        demand(rt, agree(alloc, bytes) == Ok(true), "place", place as u64);
    }
}

fn change_each_byte(rt: &impl Abort, alloc: Global, bytes: &mut [u8]) {
    for place in 0..bytes.len() {
        change_byte(rt, alloc, bytes, place);
    }
}

#[test]
fn a_byte_of_the_sevens_is_another(rt: HostRuntime) {
    let mut bytes = SEVENS;
    change_each_byte(&rt, rt.alloc(), &mut bytes);
}

#[test]
fn a_byte_of_the_lists_is_another(rt: HostRuntime) {
    let mut bytes = LISTS;
    change_each_byte(&rt, rt.alloc(), &mut bytes);
}
