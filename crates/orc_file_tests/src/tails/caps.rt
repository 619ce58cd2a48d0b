//! Caps: a tail that is longer isn't read, nor is a stripe of a file that was opened so.

use crate::assertions::{check_list, check_same, passes};
use crate::calls::{load, open_capped, opened_capped, rows};
use orc_file::{FileFault, OrcFile, Source};
use orc_test_kit::{EMPTY, NAMED, SEVENS, SeenSource, TWICE, UPWARDS};
use std::alloc::Global;
use std::process::Abort;

/// How many rows a file has.
fn rows_counted<S: Source>(alloc: Global, file: &mut OrcFile<S>) -> Result<usize, FileFault> {
    match rows(alloc, file) {
        Ok(rows) => Ok(rows.len()),
        Err(fault) => Err(fault),
    }
}

/// How many rows are read of a file under a cap, and how many ranges.
pub(super) fn read_capped(
    alloc: Global,
    bytes: &[u8],
    cap: u64,
) -> (Result<usize, FileFault>, usize) {
    match open_capped(alloc, SeenSource::new(bytes), cap) {
        Ok(mut file) => {
            let rows = rows_counted(alloc, &mut file);
            (rows, file.into_parts().1.reads())
        }
        Err((fault, source)) => (Err(fault), source.reads()),
    }
}

/// A file, how many bytes its metadata, its footer and its postscript have together, its rows, and how many ranges are
/// read for them: of the tail four or, with metadata, five, and one a stripe.
const FILES: [(&[u8], u64, usize, usize); 5] = [
    (&EMPTY, 55, 0, 4),
    (&NAMED, 63, 0, 4),
    (&SEVENS, 97, 3, 6),
    (&TWICE, 131, 6, 7),
    (&UPWARDS, 165, 9, 8),
];

/// Of a tail that is longer than the cap both ends and the postscript are read, and no more.
fn check_caps(
    rt: &impl Abort,
    alloc: Global,
    bytes: &[u8],
    tail: u64,
    wanted: (Result<usize, FileFault>, usize),
) {
    for cap in [tail, tail.saturating_add(1), u64::MAX] {
        let answer = read_capped(alloc, bytes, cap);
        check_same(rt, &answer, &wanted, "so many bytes, under", &[tail, cap]);
    }
    for cap in [0, 18, 19, 36, 37, 56, tail.saturating_sub(1)] {
        if cap < tail {
            let answer = read_capped(alloc, bytes, cap);
            let wanted = (Err(FileFault::Limit), 3);
            check_same(rt, &answer, &wanted, "so many bytes, under", &[tail, cap]);
        }
    }
}

#[test]
fn tails_at_their_caps(rt: HostRuntime) {
    for (bytes, tail, rows, reads) in FILES {
        check_caps(&rt, rt.alloc(), bytes, tail, (Ok(rows), reads));
    }
}

/// The file of two stripes with 120 bytes more in the second, which has 139 then; the first has 19, and the tail 131.
static LENGTHENED: [u8; 293] = [
    0x4f, 0x52, 0x43, 0x00, 0x00, 0x0e, 0x0a, 0x06, 0x08, 0x01, 0x10, 0x01, 0x18, 0x03, 0x12, 0x02,
    0x08, 0x00, 0x12, 0x02, 0x08, 0x00, 0x00, 0x00, 0x0e, 0x00, 0x00, 0x00, 0x00, 0x00, 0x00, 0x00,
    0x00, 0x00, 0x00, 0x00, 0x00, 0x00, 0x00, 0x00, 0x00, 0x00, 0x00, 0x00, 0x00, 0x00, 0x00, 0x00,
    0x00, 0x00, 0x00, 0x00, 0x00, 0x00, 0x00, 0x00, 0x00, 0x00, 0x00, 0x00, 0x00, 0x00, 0x00, 0x00,
    0x00, 0x00, 0x00, 0x00, 0x00, 0x00, 0x00, 0x00, 0x00, 0x00, 0x00, 0x00, 0x00, 0x00, 0x00, 0x00,
    0x00, 0x00, 0x00, 0x00, 0x00, 0x00, 0x00, 0x00, 0x00, 0x00, 0x00, 0x00, 0x00, 0x00, 0x00, 0x00,
    0x00, 0x00, 0x00, 0x00, 0x00, 0x00, 0x00, 0x00, 0x00, 0x00, 0x00, 0x00, 0x00, 0x00, 0x00, 0x00,
    0x00, 0x00, 0x00, 0x00, 0x00, 0x00, 0x00, 0x00, 0x00, 0x00, 0x00, 0x00, 0x00, 0x00, 0x00, 0x00,
    0x00, 0x00, 0x00, 0x00, 0x00, 0x00, 0x00, 0x00, 0x00, 0x00, 0x00, 0x00, 0x00, 0x00, 0x00, 0x00,
    0x00, 0x0a, 0x06, 0x08, 0x01, 0x10, 0x01, 0x18, 0x03, 0x12, 0x02, 0x08, 0x00, 0x12, 0x02, 0x08,
    0x00, 0x0a, 0x14, 0x0a, 0x04, 0x08, 0x03, 0x50, 0x00, 0x0a, 0x0c, 0x08, 0x03, 0x12, 0x06, 0x08,
    0x0e, 0x10, 0x0e, 0x18, 0x2a, 0x50, 0x00, 0x0a, 0x14, 0x0a, 0x04, 0x08, 0x03, 0x50, 0x00, 0x0a,
    0x0c, 0x08, 0x03, 0x12, 0x06, 0x08, 0x0e, 0x10, 0x0e, 0x18, 0x2a, 0x50, 0x00, 0x08, 0x03, 0x10,
    0x29, 0x1a, 0x0a, 0x08, 0x03, 0x10, 0x00, 0x18, 0x03, 0x20, 0x10, 0x28, 0x03, 0x1a, 0x0a, 0x08,
    0x16, 0x10, 0x00, 0x18, 0x7b, 0x20, 0x10, 0x28, 0x03, 0x22, 0x08, 0x08, 0x0c, 0x12, 0x01, 0x01,
    0x1a, 0x01, 0x6e, 0x22, 0x02, 0x08, 0x04, 0x30, 0x06, 0x3a, 0x04, 0x08, 0x06, 0x50, 0x00, 0x3a,
    0x0c, 0x08, 0x06, 0x12, 0x06, 0x08, 0x0e, 0x10, 0x0e, 0x18, 0x54, 0x50, 0x00, 0x40, 0x00, 0x48,
    0x63, 0x08, 0x44, 0x10, 0x00, 0x22, 0x02, 0x00, 0x0b, 0x28, 0x2c, 0x30, 0x06, 0x82, 0xf4, 0x03,
    0x03, 0x4f, 0x52, 0x43, 0x13,
];

/// A cap, how many rows are read under it, and how many ranges: of the second stripe none where it is refused.
static LENGTHENED_CAPS: [(u64, Result<usize, FileFault>, usize); 5] = [
    (130, Err(FileFault::Limit), 3),
    (131, Err(FileFault::Limit), 6),
    (138, Err(FileFault::Limit), 6),
    (139, Ok(6), 7),
    (u64::MAX, Ok(6), 7),
];

#[test]
fn stripes_at_their_caps(rt: HostRuntime) {
    for (cap, rows, reads) in LENGTHENED_CAPS {
        let answer = read_capped(rt.alloc(), &LENGTHENED, cap);
        check_same(&rt, &answer, &(rows, reads), "under", &[cap]);
    }
}

/// The first stripe is loaded. The second one is refused each time, and the vector stays as the first one filled it.
fn check_second(
    rt: &impl Abort,
    file: &mut OrcFile<SeenSource<'static>>,
    loaded: &mut Vec<u8>,
) -> Result<(), FileFault> {
    load(file, 0, loaded)?;
    for time in 0..2u64 {
        let answer = load(file, 1, loaded);
        check_same(rt, &answer, &Err(FileFault::Limit), "time", &[time]);
        check_list(rt, loaded, &TWICE[3..22], "time", &[time]);
    }
    Ok(())
}

/// Behind the tail's five ranges nothing was read but the first stripe.
fn check_ranges(rt: &impl Abort, ranges: &[(u64, u64)]) {
    for range in ranges.iter().skip(5) {
        check_same(rt, range, &(3, 19), "read", &[]);
    }
}

/// The same with a file and a vector of its own.
fn check_loads(rt: &impl Abort, alloc: Global, cap: u64) -> Result<(), FileFault> {
    let mut file = opened_capped(alloc, SeenSource::new(&LENGTHENED), cap)?;
    let mut loaded = Vec::new(alloc);
    let answer = check_second(rt, &mut file, &mut loaded);
    check_ranges(rt, file.into_parts().1.ranges());
    answer
}

#[test]
fn a_stripe_above_the_cap_is_not_loaded(rt: HostRuntime) {
    for cap in [131, 138] {
        passes(&rt, check_loads(&rt, rt.alloc(), cap));
    }
}
