//! The calls that are tried. None has a contract here: what the called ones promise is long, and would be a part of the
//! proof of each caller, of which the proof says nothing but that it is safe.
use orc_file::{OrcFile, SliceSource};
use orc_stripe_reader::{RowCursor, StripeView};
use orc_tail::{FileFault, stripe_fault};
use orc_values::Row;
use std::alloc::Global;

/// A file in memory.
pub(crate) type Image<'a> = OrcFile<SliceSource<'a>>;

/// The file of these bytes.
pub(crate) fn open<'a>(alloc: Global, bytes: &'a [u8]) -> Result<Image<'a>, FileFault> {
    match OrcFile::open(alloc, SliceSource::new(bytes)) {
        Ok(file) => Ok(file),
        Err((fault, _)) => Err(fault),
    }
}

/// All rows of the file.
pub(crate) fn rows(alloc: Global, file: &mut Image<'_>) -> Result<Vec<Row<'static>>, FileFault> {
    file.rows(alloc)
}

/// How many stripes the file has.
pub(crate) fn stripe_count(file: &Image<'_>) -> usize {
    file.tail().stripes.as_slice().len()
}

/// How many rows the footer says that a stripe has.
pub(crate) fn row_count(file: &Image<'_>, number: usize) -> u64 {
    match file.tail().stripes.as_slice().get(number) {
        Some(info) => info.number_of_rows,
        None => 0,
    }
}

/// Reads the bytes of a stripe.
pub(crate) fn load(
    file: &mut Image<'_>,
    number: usize,
    into: &mut Vec<u8>,
) -> Result<(), FileFault> {
    if number >= file.tail().stripes.as_slice().len() {
        return Err(FileFault::BadStripe(number));
    }
    file.load(number, into)
}

/// The rows of a stripe.
pub(crate) fn stripe_rows<'a>(
    alloc: Global,
    file: &'a Image<'_>,
    number: usize,
    bytes: &'a [u8],
) -> Result<Vec<Row<'a>>, FileFault> {
    if number >= file.tail().stripes.as_slice().len() {
        return Err(FileFault::BadStripe(number));
    }
    file.stripe_rows(alloc, number, bytes)
}

/// The view of a stripe.
fn view<'a>(
    alloc: Global,
    file: &'a Image<'_>,
    number: usize,
    bytes: &'a [u8],
) -> Result<StripeView<'a>, FileFault> {
    if number >= file.tail().stripes.as_slice().len() {
        return Err(FileFault::BadStripe(number));
    }
    file.view(alloc, number, bytes)
}

/// The rows of a stripe's view.
pub(crate) fn view_rows<'a>(
    alloc: Global,
    file: &'a Image<'_>,
    number: usize,
    bytes: &'a [u8],
) -> Result<Vec<Row<'a>>, FileFault> {
    let view = view(alloc, file, number, bytes)?;
    match view.rows(alloc) {
        Ok(rows) => Ok(rows),
        Err(fault) => Err(stripe_fault(number, fault)),
    }
}

/// A cursor at the first row of a stripe.
pub(crate) fn cursor<'a>(
    alloc: Global,
    file: &'a Image<'_>,
    number: usize,
    bytes: &'a [u8],
) -> Result<RowCursor<'a>, FileFault> {
    let view = view(alloc, file, number, bytes)?;
    match view.cursor(alloc) {
        Ok(cursor) => Ok(cursor),
        Err(fault) => Err(stripe_fault(number, fault)),
    }
}

/// A cursor at the first row of a stripe's group.
pub(crate) fn cursor_at<'a>(
    alloc: Global,
    file: &'a Image<'_>,
    number: usize,
    bytes: &'a [u8],
    group: u32,
) -> Result<RowCursor<'a>, FileFault> {
    let view = view(alloc, file, number, bytes)?;
    match view.cursor_at(alloc, u64::from(group)) {
        Ok(cursor) => Ok(cursor),
        Err(fault) => Err(stripe_fault(number, fault)),
    }
}
