//! The lines that the rows of a file are, by one call or another.
use crate::calls::{self, Image};
use crate::trouble::Trouble;
use orc_directory::StripeFault;
use orc_stripe_reader::RowCursor;
use orc_tail::{FileFault, stripe_fault};
use orc_test_kit::{line_of, next_row, rest_of};
use orc_types::Schema;
use orc_values::Row;
use std::alloc::Global;

/// The calls that give the rows of a stripe.
#[derive(Clone, Copy)]
pub(crate) enum Call {
    /// `OrcFile::stripe_rows`.
    StripeRows,
    /// `OrcFile::view`, and `StripeView::rows` of what it gives.
    View,
    /// `StripeView::cursor`, and `RowCursor::next` for each row and once more at the end.
    Next,
    /// `StripeView::cursor`, `RowCursor::next` for the first row, and `RowCursor::rest` for the others.
    Rest,
}

/// Appends the line of each row.
fn put_lines(
    alloc: Global,
    schema: &Schema,
    rows: &[Row<'_>],
    lines: &mut Vec<String>,
) -> Result<(), StripeFault> {
    for row in rows {
        lines.push(line_of(alloc, schema, row)?)?;
    }
    Ok(())
}

/// Appends the line of a cursor's next row. Answers whether there was one.
fn put_next(
    alloc: Global,
    schema: &Schema,
    cursor: &mut RowCursor<'_>,
    lines: &mut Vec<String>,
) -> Result<bool, StripeFault> {
    match next_row(cursor)? {
        Some(row) => {
            lines.push(line_of(alloc, schema, &row)?)?;
            Ok(true)
        }
        None => Ok(false),
    }
}

/// Appends the lines of all rows that a cursor has, asking for so many and for one more, one by one.
fn put_each(
    alloc: Global,
    schema: &Schema,
    mut cursor: RowCursor<'_>,
    count: u64,
    lines: &mut Vec<String>,
) -> Result<(), StripeFault> {
    for _ in 0..count {
        put_next(alloc, schema, &mut cursor, lines)?;
    }
    put_next(alloc, schema, &mut cursor, lines)?;
    Ok(())
}

/// Appends the lines of all rows that a cursor has, all at once.
fn put_rest(
    alloc: Global,
    schema: &Schema,
    cursor: RowCursor<'_>,
    lines: &mut Vec<String>,
) -> Result<(), StripeFault> {
    put_lines(alloc, schema, &rest_of(cursor)?, lines)
}

/// The stripe's fault as that of a file.
fn of_stripe(number: usize, answer: Result<(), StripeFault>) -> Result<(), FileFault> {
    match answer {
        Ok(()) => Ok(()),
        Err(fault) => Err(stripe_fault(number, fault)),
    }
}

/// Appends the lines of a stripe's rows, by one call.
fn put_stripe(
    alloc: Global,
    file: &Image<'_>,
    number: usize,
    bytes: &[u8],
    call: Call,
    lines: &mut Vec<String>,
) -> Result<(), FileFault> {
    match call {
        Call::StripeRows => {
            let rows = calls::stripe_rows(alloc, file, number, bytes)?;
            of_stripe(number, put_lines(alloc, file.schema(), &rows, lines))
        }
        Call::View => {
            let rows = calls::view_rows(alloc, file, number, bytes)?;
            of_stripe(number, put_lines(alloc, file.schema(), &rows, lines))
        }
        Call::Next => {
            let cursor = calls::cursor(alloc, file, number, bytes)?;
            let count = calls::row_count(file, number);
            of_stripe(number, put_each(alloc, file.schema(), cursor, count, lines))
        }
        Call::Rest => {
            let mut cursor = calls::cursor(alloc, file, number, bytes)?;
            let first = put_next(alloc, file.schema(), &mut cursor, lines);
            of_stripe(number, first.map(|_| ()))?;
            of_stripe(number, put_rest(alloc, file.schema(), cursor, lines))
        }
    }
}

/// Appends the lines of the stripes from one on, by one call.
fn put_stripes(
    alloc: Global,
    file: &mut Image<'_>,
    first: usize,
    call: Call,
    lines: &mut Vec<String>,
) -> Result<(), FileFault> {
    let mut bytes = Vec::new(alloc);
    for number in first..calls::stripe_count(file) {
        calls::load(file, number, &mut bytes)?;
        put_stripe(alloc, file, number, &bytes, call, lines)?;
    }
    Ok(())
}

/// The lines of all rows, by `OrcFile::rows`.
pub(crate) fn lines_of_file(alloc: Global, bytes: &[u8]) -> Result<Vec<String>, Trouble> {
    let mut file = calls::open(alloc, bytes)?;
    let rows = calls::rows(alloc, &mut file)?;
    let mut lines = Vec::new(alloc);
    of_stripe(0, put_lines(alloc, file.schema(), &rows, &mut lines))?;
    Ok(lines)
}

/// The lines of all rows, stripe by stripe.
pub(crate) fn lines_by_stripes(
    alloc: Global,
    bytes: &[u8],
    call: Call,
) -> Result<Vec<String>, Trouble> {
    let mut file = calls::open(alloc, bytes)?;
    let mut lines = Vec::new(alloc);
    put_stripes(alloc, &mut file, 0, call, &mut lines)?;
    Ok(lines)
}

/// The lines of the rows from a group of a stripe on, by `StripeView::cursor_at` and `RowCursor::rest`, and of the
/// stripes after it.
pub(crate) fn lines_from(
    alloc: Global,
    bytes: &[u8],
    stripe: usize,
    group: u32,
) -> Result<Vec<String>, Trouble> {
    let mut file = calls::open(alloc, bytes)?;
    let mut lines = Vec::new(alloc);
    put_group(alloc, &mut file, stripe, group, &mut lines)?;
    put_stripes(
        alloc,
        &mut file,
        stripe.saturating_add(1),
        Call::View,
        &mut lines,
    )?;
    Ok(lines)
}

/// Appends the lines of a stripe's rows from a group on.
fn put_group(
    alloc: Global,
    file: &mut Image<'_>,
    stripe: usize,
    group: u32,
    lines: &mut Vec<String>,
) -> Result<(), FileFault> {
    let mut bytes = Vec::new(alloc);
    calls::load(file, stripe, &mut bytes)?;
    let cursor = calls::cursor_at(alloc, file, stripe, &bytes, group)?;
    of_stripe(stripe, put_rest(alloc, file.schema(), cursor, lines))
}
