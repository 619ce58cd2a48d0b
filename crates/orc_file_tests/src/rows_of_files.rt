//! A file's rows, read from bytes.

use crate::assertions::check_same;
use crate::calls::{opened, rows};
use orc_file::{FileFault, OrcFile, SliceSource, Source};
use orc_rle::RunFault;
use orc_stripe::{StreamKind, StripeFault};
use orc_test_kit::{FailSource, SEVENS, TWICE, UPWARDS};
use orc_values::{Row, Value};
use std::alloc::Global;

/// The number that a value is.
fn int_of(value: &Row<'_>) -> Option<i64> {
    match value {
        Some(Value::Int(number)) => Some(*number),
        _ => None,
    }
}

/// The number in a struct with one field.
fn number(row: &Row<'_>) -> Option<i64> {
    let Some(Value::Struct(fields)) = row else {
        return None;
    };
    match fields.as_slice() {
        [field] => int_of(field),
        _ => None,
    }
}

/// Whether the rows have these numbers.
pub(crate) fn have_numbers(rows: &[Row<'_>], wanted: &[i64]) -> bool {
    if rows.len() != wanted.len() {
        return false;
    }
    for (row, wanted) in rows.iter().zip(wanted) {
        if number(row) != Some(*wanted) {
            return false;
        }
    }
    true
}

/// Whether the file has the rows of `UPWARDS`.
fn has_upwards<S: Source>(alloc: Global, file: &mut OrcFile<S>) -> Result<bool, FileFault> {
    let rows = rows(alloc, file)?;
    Ok(have_numbers(&rows, &[7, 7, 7, 8, 8, 8, 9, 9, 9]))
}

/// Files, and the numbers of their rows.
const FILES: [(&[u8], &[i64]); 3] = [
    (&SEVENS, &[7, 7, 7]),
    (&TWICE, &[7, 7, 7, 7, 7, 7]),
    (&UPWARDS, &[7, 7, 7, 8, 8, 8, 9, 9, 9]),
];

/// Whether the bytes are a file of these rows.
fn has_rows(alloc: Global, bytes: &[u8], wanted: &[i64]) -> Result<bool, FileFault> {
    let mut file = opened(alloc, SliceSource::new(bytes))?;
    let rows = rows(alloc, &mut file)?;
    Ok(have_numbers(&rows, wanted))
}

#[test]
fn rows_are_read(rt: HostRuntime) {
    for (i, (bytes, wanted)) in FILES.iter().enumerate() {
        let answer = has_rows(rt.alloc(), bytes, wanted);
        check_same(&rt, &answer, &Ok(true), "file", &[i as u64]);
    }
}

/// Why a file's rows aren't read for another reason than want of memory.
fn failure_of<S: Source>(alloc: Global, file: &mut OrcFile<S>) -> Result<FileFault, FileFault> {
    match rows(alloc, file).err() {
        Some(FileFault::OutOfMemory) => Err(FileFault::OutOfMemory),
        Some(fault) => Ok(fault),
        None => Ok(FileFault::Failed),
    }
}

/// The same, and why they aren't read when they are asked for again.
fn fail_twice<S: Source>(
    alloc: Global,
    file: &mut OrcFile<S>,
) -> Result<(FileFault, FileFault), FileFault> {
    let fault = failure_of(alloc, file)?;
    Ok((fault, failure_of(alloc, file)?))
}

/// The same of `UPWARDS` with a number too many in the second of three stripes.
fn refused_twice(alloc: Global) -> Result<(FileFault, FileFault), FileFault> {
    let mut bytes = UPWARDS;
    bytes[22] = 0x01;
    let mut file = opened(alloc, SliceSource::new(&bytes))?;
    fail_twice(alloc, &mut file)
}

#[test]
fn a_bad_stripe_is_named_each_time(rt: HostRuntime) {
    let answer = refused_twice(rt.alloc());
    let why = StripeFault::Run(1, StreamKind::Data, RunFault::TooMany(0));
    let wanted = FileFault::Stripe(1, why);
    check_same(&rt, &answer, &Ok((wanted, wanted)), "refused", &[]);
}

/// Which read fails: the stripes are read behind the five ranges of the tail.
static FAILING: [u64; 3] = [6, 7, 8];

/// Why a file's rows aren't read, and whether they are read when they are asked for again.
fn ask_twice<S: Source>(
    alloc: Global,
    file: &mut OrcFile<S>,
) -> Result<(FileFault, bool), FileFault> {
    let fault = failure_of(alloc, file)?;
    Ok((fault, has_upwards(alloc, file)?))
}

/// The same of a file of which that read fails.
fn read_twice(alloc: Global, read: u64) -> Result<(FileFault, bool), FileFault> {
    let mut file = opened(alloc, FailSource::new(&UPWARDS, read))?;
    ask_twice(alloc, &mut file)
}

#[test]
fn rows_are_read_after_a_failure(rt: HostRuntime) {
    for read in FAILING {
        let answer = read_twice(rt.alloc(), read);
        check_same(
            &rt,
            &answer,
            &Ok((FileFault::SourceFailed, true)),
            "read",
            &[read],
        );
    }
}
