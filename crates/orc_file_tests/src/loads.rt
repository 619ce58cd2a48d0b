//! Stripes loaded by their numbers, viewed and read, and the ranges of the source that are read for them.

use crate::assertions::{check_list, check_same, demand, passes};
use crate::calls::{load, opened, stripe_rows, view, viewed_rows};
use crate::rows_of_files::have_numbers;
use orc_file::{FileFault, OrcFile};
use orc_stripe::{StripeFault, StripeView};
use orc_test_kit::{SeenSource, UPWARDS};
use std::alloc::Global;
use std::process::Abort;

/// The ranges that are read of `UPWARDS` when it is opened, and its three stripes.
static RANGES: [(u64, u64); 8] = [
    (0, 3),
    (225, 1),
    (206, 19),
    (126, 80),
    (60, 66),
    (3, 19),
    (22, 19),
    (41, 19),
];

/// Whether the rows of a stripe's bytes have these numbers.
fn is_read(
    alloc: Global,
    file: &OrcFile<SeenSource<'static>>,
    number: usize,
    bytes: &[u8],
    wanted: &[i64],
) -> Result<bool, FileFault> {
    let rows = stripe_rows(alloc, file, number, bytes)?;
    Ok(have_numbers(&rows, wanted))
}

/// Whether the rows of a stripe's view have these numbers.
fn has_numbers(
    alloc: Global,
    number: usize,
    view: &StripeView<'_>,
    wanted: &[i64],
) -> Result<bool, FileFault> {
    match viewed_rows(alloc, view) {
        Ok(rows) => Ok(have_numbers(&rows, wanted)),
        Err(StripeFault::OutOfMemory) => Err(FileFault::OutOfMemory),
        Err(why) => Err(FileFault::Stripe(number, why)),
    }
}

/// Whether the rows of the view of a stripe's bytes have these numbers.
fn is_viewed(
    alloc: Global,
    file: &OrcFile<SeenSource<'static>>,
    number: usize,
    bytes: &[u8],
    wanted: &[i64],
) -> Result<bool, FileFault> {
    let view = view(alloc, file, number, bytes)?;
    has_numbers(alloc, number, &view, wanted)
}

/// A stripe is loaded into the vector, in place of what was there, and its bytes and their view have three rows of a
/// number.
fn check_stripe(
    rt: &impl Abort,
    alloc: Global,
    file: &mut OrcFile<SeenSource<'static>>,
    number: usize,
    wanted: i64,
    bytes: &mut Vec<u8>,
) -> Result<(), FileFault> {
    load(file, number, bytes)?;
    let place = number.saturating_mul(19).saturating_add(3).min(41);
    check_list(
        rt,
        bytes,
        &UPWARDS[place..place + 19],
        "stripe",
        &[number as u64],
    );
    let wanted = [wanted; 3];
    let is_read = is_read(alloc, file, number, bytes, &wanted)?;
    demand(rt, is_read, "rows of stripe", &[number as u64]);
    let is_viewed = is_viewed(alloc, file, number, bytes, &wanted)?;
    demand(
        rt,
        is_viewed,
        "rows of the view of stripe",
        &[number as u64],
    );
    Ok(())
}

/// The number in the rows of each stripe.
static OF_STRIPES: [i64; 3] = [7, 8, 9];

/// The stripes are loaded into one vector.
fn check_stripes(
    rt: &impl Abort,
    alloc: Global,
    file: &mut OrcFile<SeenSource<'static>>,
    bytes: &mut Vec<u8>,
) -> Result<(), FileFault> {
    bytes.extend_from_slice(b"before")?;
    for (number, wanted) in OF_STRIPES.iter().enumerate() {
        check_stripe(rt, alloc, file, number, *wanted, bytes)?;
    }
    Ok(())
}

/// The same into a vector of its own.
fn check_file(
    rt: &impl Abort,
    alloc: Global,
    file: &mut OrcFile<SeenSource<'static>>,
) -> Result<(), FileFault> {
    check_same(rt, &file.schema().width(), &2, "columns", &[]);
    let mut bytes = Vec::new(alloc);
    check_stripes(rt, alloc, file, &mut bytes)
}

/// Unless it was refused, a file was read in these ranges.
fn check_ranges(
    rt: &impl Abort,
    answer: Result<(), FileFault>,
    source: &SeenSource<'static>,
) -> Result<(), FileFault> {
    answer?;
    check_list(rt, source.ranges(), &RANGES, "ranges", &[]);
    Ok(())
}

/// The stripes are loaded, each in one range behind those of the tail.
fn check_loads(rt: &impl Abort, alloc: Global) -> Result<(), FileFault> {
    let mut file = opened(alloc, SeenSource::new(&UPWARDS))?;
    let answer = check_file(rt, alloc, &mut file);
    check_ranges(rt, answer, &file.into_parts().1)
}

#[test]
fn stripes_are_loaded(rt: HostRuntime) {
    passes(&rt, check_loads(&rt, rt.alloc()));
}

/// Why bytes are no stripe 2, by its rows.
fn rows_fault(
    alloc: Global,
    file: &OrcFile<SeenSource<'static>>,
    bytes: &[u8],
) -> Option<FileFault> {
    stripe_rows(alloc, file, 2, bytes).err()
}

/// The same by its view.
fn view_fault(
    alloc: Global,
    file: &OrcFile<SeenSource<'static>>,
    bytes: &[u8],
) -> Option<FileFault> {
    view(alloc, file, 2, bytes).err()
}

/// Why so many bytes are no stripe 2, by its rows and by its view.
fn refused(alloc: Global, len: usize) -> Result<(Option<FileFault>, Option<FileFault>), FileFault> {
    let file = opened(alloc, SeenSource::new(&UPWARDS))?;
    let bytes = &UPWARDS[41..41 + len.min(20)];
    Ok((
        rows_fault(alloc, &file, bytes),
        view_fault(alloc, &file, bytes),
    ))
}

#[test]
fn bytes_that_are_no_stripe(rt: HostRuntime) {
    let wanted = Some(FileFault::Stripe(2, StripeFault::BadDirectory));
    for len in [0usize, 18, 20] {
        let answer = refused(rt.alloc(), len);
        check_same(&rt, &answer, &Ok((wanted, wanted)), "bytes", &[len as u64]);
    }
}
