//! Files that are merged and checked.
use crate::assertions::{demand, is_front, same, same_bytes};
use crate::sevens::output;
use orc_file::{FileFault, SliceSource};
use orc_merge::{Finding, MergeFault, check, merge};
use orc_test_kit::{FailSink, SEVENS, TWICE, UPWARDS};
use std::alloc::Global;
use std::process::Abort;

/// The bytes of a file.
type Source = SliceSource<'static>;

/// How many rows the merged file has. There is no contract, of which a caller would prove more.
fn merged_rows(
    alloc: Global,
    inputs: &mut [Source],
    out: &mut FailSink,
) -> Result<u64, MergeFault> {
    match merge(alloc, inputs, out) {
        Ok(tail) => Ok(tail.rows),
        Err(fault) => Err(fault),
    }
}

/// Whether the inputs are merged. If not, what was written is a front of the merged file.
fn are_merged(rt: &impl Abort, alloc: Global, inputs: &mut [Source]) -> Result<bool, MergeFault> {
    let mut out = output(alloc)?;
    match merged_rows(alloc, inputs, &mut out) {
        Ok(rows) => {
            same(rt, &rows, &6);
            same_bytes(rt, out.bytes(), &TWICE);
            Ok(true)
        }
        Err(fault) => {
            same(rt, &fault, &MergeFault::OutOfMemory);
            is_front(rt, out.bytes(), &TWICE);
            Ok(false)
        }
    }
}

/// What was written is a front of the merged file, and the inputs are merged again.
#[test]
fn files_are_merged(rt: HostRuntime) -> Result<(), MergeFault> {
    let mut inputs = [SliceSource::new(&SEVENS), SliceSource::new(&SEVENS)];
    if are_merged(&rt, rt.alloc(), &mut inputs)? {
        return Ok(());
    }
    if are_merged(&rt, rt.alloc(), &mut inputs)? {
        return Ok(());
    }
    Err(MergeFault::OutOfMemory)
}

/// The last two stripes have eights and nines, and are said to have sevens.
static FOUND: [Finding; 3] = [
    Finding::StripeStatistic(1, 1),
    Finding::StripeStatistic(2, 1),
    Finding::FileStatistic(1),
];

/// The source has these findings.
fn check_found(rt: &impl Abort, alloc: Global, source: &mut Source) -> Result<(), FileFault> {
    let found = check(alloc, source)?;
    demand(rt, found.as_slice() == FOUND.as_slice(), "findings");
    Ok(())
}

/// The source is checked again.
#[test]
fn a_file_is_checked(rt: HostRuntime) -> Result<(), FileFault> {
    let mut source = SliceSource::new(&UPWARDS);
    if let Err(fault) = check_found(&rt, rt.alloc(), &mut source) {
        same(&rt, &fault, &FileFault::OutOfMemory);
        check_found(&rt, rt.alloc(), &mut source)?;
    }
    Ok(())
}
