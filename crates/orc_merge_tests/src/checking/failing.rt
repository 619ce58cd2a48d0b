//! Sources of which one read fails.
use crate::assertions::{check_same, demand};
use crate::calls::{checked, refusal_of};
use orc_file::FileFault;
use orc_merge::Finding;
use orc_test_kit::{EMPTY, FailSource, SEVENS, UPWARDS};
use std::alloc::Global;
use std::process::Abort;

/// Each stripe of `UPWARDS` says that it has sevens.
static OF_UPWARDS: [Finding; 3] = [
    Finding::StripeStatistic(1, 1),
    Finding::StripeStatistic(2, 1),
    Finding::FileStatistic(1),
];

/// What is found of a source's file are these findings, in their order, by so many reads in all.
fn check_source(
    rt: &impl Abort,
    alloc: Global,
    source: &mut FailSource<'_>,
    wanted: &[Finding],
    reads: u64,
) -> Result<(), FileFault> {
    let found = checked(alloc, source)?;
    demand(rt, found.as_slice() == wanted, "findings", reads);
    demand(rt, source.reads() == reads, "reads", source.reads());
    Ok(())
}

/// Where the k-th read fails, the check is refused with it, and after the failure the findings are right.
fn check_failed(
    rt: &impl Abort,
    alloc: Global,
    bytes: &[u8],
    kth: u64,
    wanted: &[Finding],
    reads: u64,
) -> Result<(), FileFault> {
    let mut source = FailSource::new(bytes, kth);
    let refusal = refusal_of(alloc, &mut source)?;
    check_same(rt, "read", kth, &refusal, &Some(FileFault::SourceFailed));
    demand(rt, source.reads() == kth, "reads", source.reads());
    check_source(rt, alloc, &mut source, wanted, reads.saturating_add(kth))
}

/// No read fails, one that doesn't come, and each in turn.
fn check_each_read(
    rt: &impl Abort,
    alloc: Global,
    bytes: &[u8],
    reads: u64,
    wanted: &[Finding],
) -> Result<(), FileFault> {
    let late = reads.saturating_add(1);
    check_source(rt, alloc, &mut FailSource::new(bytes, 0), wanted, reads)?;
    check_source(rt, alloc, &mut FailSource::new(bytes, late), wanted, reads)?;
    for kth in 1..=reads {
        check_failed(rt, alloc, bytes, kth, wanted, reads)?;
    }
    Ok(())
}

/// Files, how often each is read when it is checked, and the findings.
#[test]
fn each_read_fails(rt: HostRuntime) -> Result<(), FileFault> {
    check_each_read(&rt, rt.alloc(), &EMPTY, 4, &[])?;
    check_each_read(&rt, rt.alloc(), &SEVENS, 6, &[])?;
    check_each_read(&rt, rt.alloc(), &UPWARDS, 8, &OF_UPWARDS)
}
