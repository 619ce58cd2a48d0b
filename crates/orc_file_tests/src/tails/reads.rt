//! What is asked of a source, and what its failures make.

use crate::assertions::{check_list, check_same, passes};
use crate::calls::open;
use orc_file::{FileFault, Source, read_tail};
use orc_test_kit::{EMPTY, FailSource, SEVENS, SeenSource};
use std::alloc::Global;
use std::process::Abort;

/// Why a source isn't opened.
fn fault_of<S: Source + Drop>(alloc: Global, source: S) -> Option<FileFault> {
    match open(alloc, source) {
        Ok(_) => None,
        Err((fault, _)) => Some(fault),
    }
}

/// The answer of `open`, and the source with what was read of it.
fn read_seen(alloc: Global, bytes: &[u8]) -> (Option<FileFault>, SeenSource<'_>) {
    let mut source = SeenSource::new(bytes);
    let fault = fault_of(alloc, &mut source);
    (fault, source)
}

/// Both ends of `SEVENS`, its postscript, its footer, its metadata.
static FIVE: [(u64, u64); 5] = [(0, 3), (119, 1), (100, 19), (44, 56), (22, 22)];

/// Those of `EMPTY`, of which no metadata is read.
static FOUR: [(u64, u64); 4] = [(0, 3), (58, 1), (39, 19), (3, 36)];

/// The bytes are opened, and these ranges are read.
fn check_ranges(rt: &impl Abort, alloc: Global, bytes: &[u8], wanted: &[(u64, u64)]) {
    let (fault, source) = read_seen(alloc, bytes);
    check_same(rt, &fault, &None, "fault", &[]);
    check_list(rt, source.ranges(), wanted, "ranges", &[]);
}

#[test]
fn ranges_are_read(rt: HostRuntime) {
    check_ranges(&rt, rt.alloc(), &SEVENS, &FIVE);
    check_ranges(&rt, rt.alloc(), &EMPTY, &FOUR);
}

/// How many rows the tail of a source that is lent says.
fn rows_said(alloc: Global, source: &mut SeenSource<'_>) -> Result<u64, FileFault> {
    let tail = read_tail(alloc, source)?;
    Ok(tail.rows)
}

fn check_lent(rt: &impl Abort, alloc: Global) -> Result<(), FileFault> {
    let mut source = SeenSource::new(&SEVENS);
    let rows = rows_said(alloc, &mut source)?;
    check_same(rt, &rows, &3, "rows", &[]);
    check_list(rt, source.ranges(), &FIVE, "ranges", &[]);
    Ok(())
}

#[test]
fn a_source_is_lent(rt: HostRuntime) {
    passes(&rt, check_lent(&rt, rt.alloc()));
}

/// Why a source isn't opened, and why it isn't where it is handed back.
fn faults_of_two<S: Source + Drop>(
    alloc: Global,
    source: S,
) -> (Option<FileFault>, Option<FileFault>) {
    match open(alloc, source) {
        Ok(_) => (None, None),
        Err((fault, source)) => (Some(fault), fault_of(alloc, source)),
    }
}

/// The answers where the k-th read fails.
fn answers_failing(alloc: Global, kth: u64) -> (Option<FileFault>, Option<FileFault>) {
    faults_of_two(alloc, FailSource::new(&SEVENS, kth))
}

/// The source is handed back, and opened then.
#[test]
fn each_read_fails(rt: HostRuntime) {
    for kth in 1..6u64 {
        let faults = answers_failing(rt.alloc(), kth);
        let wanted = (Some(FileFault::SourceFailed), None);
        check_same(&rt, &faults, &wanted, "read", &[kth]);
    }
    let faults = answers_failing(rt.alloc(), 6);
    check_same(&rt, &faults, &(None, None), "read", &[6]);
}
