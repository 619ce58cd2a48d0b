//! Calls of `orc_file` that promise nothing, so that what its contracts say is no part of each caller's proof.

use orc_file::{FileFault, OrcFile, Sink, Source, Tail, Writer};
use orc_stripe::{Options, StripeFault, StripeView};
use orc_types::Schema;
use orc_values::Row;
use std::alloc::Global;

/// A file, or the fault and its source.
pub(crate) fn open<S: Source>(alloc: Global, source: S) -> Result<OrcFile<S>, (FileFault, S)> {
    OrcFile::open(alloc, source)
}

/// A file under a cap, or the fault and its source.
pub(crate) fn open_capped<S: Source>(
    alloc: Global,
    source: S,
    cap: u64,
) -> Result<OrcFile<S>, (FileFault, S)> {
    OrcFile::open_capped(alloc, source, cap)
}

/// A file, or the fault alone.
pub(crate) fn opened<S: Source + Drop>(alloc: Global, source: S) -> Result<OrcFile<S>, FileFault> {
    match open(alloc, source) {
        Ok(file) => Ok(file),
        Err((fault, _)) => Err(fault),
    }
}

/// A file under a cap, or the fault alone.
pub(crate) fn opened_capped<S: Source + Drop>(
    alloc: Global,
    source: S,
    cap: u64,
) -> Result<OrcFile<S>, FileFault> {
    match open_capped(alloc, source, cap) {
        Ok(file) => Ok(file),
        Err((fault, _)) => Err(fault),
    }
}

/// A file's rows.
pub(crate) fn rows<S: Source>(
    alloc: Global,
    file: &mut OrcFile<S>,
) -> Result<Vec<Row<'static>>, FileFault> {
    file.rows(alloc)
}

/// Loads a stripe, where it is there.
pub(crate) fn load<S: Source>(
    file: &mut OrcFile<S>,
    number: usize,
    into: &mut Vec<u8>,
) -> Result<(), FileFault> {
    if number >= file.tail().stripes.as_slice().len() {
        return Err(FileFault::RowCount);
    }
    file.load(number, into)
}

/// The rows of a stripe's bytes, where the stripe is there.
pub(crate) fn stripe_rows<'a, S: Source>(
    alloc: Global,
    file: &'a OrcFile<S>,
    number: usize,
    bytes: &'a [u8],
) -> Result<Vec<Row<'a>>, FileFault> {
    if number >= file.tail().stripes.as_slice().len() {
        return Err(FileFault::RowCount);
    }
    file.stripe_rows(alloc, number, bytes)
}

/// The view of a stripe's bytes, where the stripe is there.
pub(crate) fn view<'a, S: Source>(
    alloc: Global,
    file: &'a OrcFile<S>,
    number: usize,
    bytes: &'a [u8],
) -> Result<StripeView<'a>, FileFault> {
    if number >= file.tail().stripes.as_slice().len() {
        return Err(FileFault::RowCount);
    }
    file.view(alloc, number, bytes)
}

/// The rows of a view.
pub(crate) fn viewed_rows<'a>(
    alloc: Global,
    view: &StripeView<'a>,
) -> Result<Vec<Row<'a>>, StripeFault> {
    view.rows(alloc)
}

/// A writer, or the fault and its output.
pub(crate) fn new_writer<W: Sink>(
    alloc: Global,
    schema: Schema,
    options: Options,
    out: W,
) -> Result<Writer<W>, (FileFault, W)> {
    Writer::new(alloc, schema, options, out)
}

/// Pushes a copy of a row.
pub(crate) fn push<W: Sink>(writer: &mut Writer<W>, row: &Row<'_>) -> Result<(), FileFault> {
    writer.push(row)
}

/// Gives a row away.
pub(crate) fn give<W: Sink>(writer: &mut Writer<W>, row: Row<'static>) -> Result<(), FileFault> {
    writer.push_owned(row)
}

/// The row that was given away last, for its room.
pub(crate) fn spare_row<W: Sink>(writer: &mut Writer<W>) -> Row<'static> {
    writer.spare_row()
}

/// Writes the file's end.
pub(crate) fn finish<W: Sink>(writer: Writer<W>) -> Result<(Tail, W), (FileFault, W)> {
    writer.finish()
}
