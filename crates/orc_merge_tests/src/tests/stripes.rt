//! Stripes' bytes on their way, and devices that fail.
use super::files::LONG_END;
use crate::assertions::{check_same, demand};
use crate::calls::merged;
use orc_file::{SliceSource, VecSink};
use orc_merge::MergeFault;
use orc_test_kit::{FailSink, FailSource, Full, SEVENS, SeenSource, TWICE};
use std::alloc::Global;
use std::process::Abort;

/// The ranges of a file whose one stripe has 70,018 bytes: those of the tail, then full arrays and the rest.
static RANGES: [(u64, u64); 10] = [
    (0, 3),
    (70_122, 1),
    (70_103, 19),
    (70_043, 60),
    (70_021, 22),
    (3, 16_384),
    (16_387, 16_384),
    (32_771, 16_384),
    (49_155, 16_384),
    (65_539, 4_482),
];

/// A file with such a stripe: bytes that follow from their places, and its end.
fn long_file(alloc: Global) -> Result<Vec<u8>, MergeFault> {
    let mut bytes = Vec::new(alloc);
    bytes.extend_from_slice(b"ORC")?;
    for place in 3..70_003u32 {
        bytes.push((place % 251) as u8)?;
    }
    bytes.extend_from_slice(&LONG_END)?;
    Ok(bytes)
}

#[test]
fn a_long_stripe(rt: HostRuntime) -> Result<(), MergeFault> {
    let bytes = long_file(rt.alloc())?;
    let mut inputs = [SeenSource::new(&bytes)];
    let mut out = VecSink::new(rt.alloc());
    merged(rt.alloc(), &mut inputs, &mut out)?;
    let [input] = &inputs;
    demand(&rt, input.reads() == 10, "reads", 10);
    demand(&rt, input.ranges() == RANGES.as_slice(), "ranges", 10);
    demand(
        &rt,
        out.into_vec().as_slice() == bytes.as_slice(),
        "bytes",
        70_123,
    );
    Ok(())
}

/// Merging two files where one read of one input fails is answered so, and writes so much of their merged file.
fn check_failing(
    rt: &impl Abort,
    alloc: Global,
    first: u64,
    second: u64,
    wanted: Result<(), MergeFault>,
    written: usize,
) {
    let mut inputs = [
        FailSource::new(&SEVENS, first),
        FailSource::new(&SEVENS, second),
    ];
    let mut out = VecSink::new(alloc);
    let answer = merged(alloc, &mut inputs, &mut out);
    check_same(rt, "read", first.max(second), &answer, &wanted);
    let is_front = out.into_vec().as_slice() == &TWICE[..written.min(173)];
    demand(rt, is_front, "written before read", first.max(second));
}

/// Where none fails, each is read six times; the sixth read is that of the stripe.
#[test]
fn sources_that_fail(rt: HostRuntime) {
    check_failing(&rt, rt.alloc(), 0, 0, Ok(()), 173);
    check_failing(&rt, rt.alloc(), 7, 7, Ok(()), 173);
    for k in 1..=6u64 {
        let (first, second) = if k == 6 { (3, 22) } else { (0, 0) };
        let fault = Err(MergeFault::SourceFailed(0));
        check_failing(&rt, rt.alloc(), k, 0, fault, first);
        let fault = Err(MergeFault::SourceFailed(1));
        check_failing(&rt, rt.alloc(), 0, k, fault, second);
    }
}

/// Whether two files are merged into a sink that takes so many bytes a call and so many in all: it gets what there is
/// room for of their merged file, nothing is offered to it after it refused, and the answer is the right one. None for
/// want of memory.
fn is_merged_into(alloc: Global, a_call: usize, room: usize, full: Full) -> Option<bool> {
    let Ok(mut out) = FailSink::new(alloc, a_call, room, full) else {
        return None;
    };
    let mut inputs = [SliceSource::new(&SEVENS), SliceSource::new(&SEVENS)];
    let (wanted, refusals) = match merged(alloc, &mut inputs, &mut out) {
        Ok(()) => (173, 0),
        Err(MergeFault::WriteFailed) => (room, 1),
        Err(MergeFault::OutOfMemory) => return None,
        Err(_) => return Some(false),
    };
    Some(out.bytes() == &TWICE[..wanted.min(173)] && out.refusals() == refusals)
}

fn check_sink(rt: &impl Abort, alloc: Global, a_call: usize, room: usize, full: Full) {
    let is_right = is_merged_into(alloc, a_call, room, full);
    check_same(rt, "bytes", room as u64, &is_right, &Some(true));
}

#[test]
fn sinks_that_fail(rt: HostRuntime) {
    for a_call in [1, 7, 200] {
        for room in 0..175usize {
            check_sink(&rt, rt.alloc(), a_call, room, Full::Fails);
            check_sink(&rt, rt.alloc(), a_call, room, Full::TakesNothing);
        }
    }
}
