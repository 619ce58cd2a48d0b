//! Rows by a cursor: those before bytes that are no run, what it answers from then on, and what is left behind a row.
use super::{FOUR_BYTES, THREE_BYTES, stripe_of};
use crate::assertions::{demand, passes, refusal, same_fault};
use orc_rle::RunFault;
use orc_stripe::{RowCursor, StreamKind, StripeFault};
use orc_test_kit::{
    cursor_of, line_of, lines_one_by_one, lines_straight, next_row, rest_of, schema_of,
};
use orc_types::Schema;
use orc_values::Row;
use std::alloc::Global;
use std::process::Abort;

/// Whether the row prints as this line.
fn is_line(alloc: Global, schema: &Schema, row: &Row<'_>, text: &str) -> Result<bool, StripeFault> {
    let line = line_of(alloc, schema, row)?;
    Ok(line.as_str() == text)
}

/// Whether there is a next row, and it prints as this line.
fn is_next(
    alloc: Global,
    schema: &Schema,
    cursor: &mut RowCursor<'_>,
    text: &str,
) -> Result<bool, StripeFault> {
    match next_row(cursor)? {
        Some(row) => is_line(alloc, schema, &row, text),
        None => Ok(false),
    }
}

/// The next rows print as these lines.
pub(super) fn check_next(
    rt: &impl Abort,
    alloc: Global,
    schema: &Schema,
    cursor: &mut RowCursor<'_>,
    wanted: &str,
) -> Result<(), StripeFault> {
    for text in wanted.lines() {
        demand(rt, is_next(alloc, schema, cursor, text)?, text);
    }
    Ok(())
}

/// What the next row is refused for, if it is. A function of its own, since a row is dropped here.
pub(super) fn next_fault(cursor: &mut RowCursor<'_>) -> Option<StripeFault> {
    match next_row(cursor) {
        Ok(_) => None,
        Err(fault) => Some(fault),
    }
}

/// What the rows that are left are refused for, if they are.
fn rest_fault(cursor: RowCursor<'_>) -> Option<StripeFault> {
    match rest_of(cursor) {
        Ok(_) => None,
        Err(fault) => Some(fault),
    }
}

/// Three rows of the number 7, as lines.
static SEVENS: &str = r#"{"n":7}
{"n":7}
{"n":7}"#;

/// Three rows come before bytes that are no run, and then the fault.
fn check_until(
    rt: &impl Abort,
    alloc: Global,
    schema: &Schema,
    cursor: &mut RowCursor<'_>,
) -> Result<(), StripeFault> {
    check_next(rt, alloc, schema, cursor, SEVENS)?;
    let fault = StripeFault::Run(1, StreamKind::Data, RunFault::Short(3));
    let found = refusal(next_fault(cursor))?;
    same_fault(rt, found, Some(fault));
    Ok(())
}

/// Rows come until the fault, behind which nothing is left.
fn check_broken(rt: &impl Abort, alloc: Global) -> Result<(), StripeFault> {
    let schema = schema_of(alloc, "struct<n:bigint>")?;
    let (info, bytes) = stripe_of(alloc, &[0x00, 0x00, 0x0e, 0xff], &FOUR_BYTES, 4)?;
    let mut cursor = cursor_of(alloc, &schema, info, &bytes)?;
    check_until(rt, alloc, &schema, &mut cursor)?;
    same_fault(rt, rest_fault(cursor), Some(StripeFault::Failed));
    Ok(())
}

/// Whether the rows are an eight and a nine.
fn are_two(alloc: Global, schema: &Schema, rows: &[Row<'_>]) -> Result<bool, StripeFault> {
    match rows {
        [eight, nine] => Ok(
            is_line(alloc, schema, eight, r#"{"n":8}"#)?
                && is_line(alloc, schema, nine, r#"{"n":9}"#)?,
        ),
        _ => Ok(false),
    }
}

/// What is left behind the first row are these.
fn check_left(
    rt: &impl Abort,
    alloc: Global,
    schema: &Schema,
    cursor: RowCursor<'_>,
) -> Result<(), StripeFault> {
    let rest = rest_of(cursor)?;
    demand(rt, are_two(alloc, schema, &rest)?, "an eight and a nine");
    Ok(())
}

/// What is left behind the first row is given at once.
fn check_rest(rt: &impl Abort, alloc: Global) -> Result<(), StripeFault> {
    let schema = schema_of(alloc, "struct<n:bigint>")?;
    // three numbers from 7 on, each one more than the one before
    let (info, bytes) = stripe_of(alloc, &[0x00, 0x01, 0x0e], &THREE_BYTES, 3)?;
    let mut cursor = cursor_of(alloc, &schema, info, &bytes)?;
    check_next(rt, alloc, &schema, &mut cursor, r#"{"n":7}"#)?;
    check_left(rt, alloc, &schema, cursor)
}

/// What a stripe of as many numbers as bytes of data is refused for, by its rows and by their texts. What a cursor
/// answers behind its end or its refusal is looked at there.
fn check_end(
    rt: &impl Abort,
    alloc: Global,
    schema: &Schema,
    data: &[u8],
    footer: &[u8],
    wanted: Option<StripeFault>,
) -> Result<(), StripeFault> {
    let (info, bytes) = stripe_of(alloc, data, footer, data.len() as u64)?;
    let found = refusal(lines_one_by_one(alloc, schema, info, &bytes).err())?;
    same_fault(rt, found, wanted);
    let found = refusal(lines_straight(alloc, schema, info, &bytes).err())?;
    same_fault(rt, found, wanted);
    Ok(())
}

/// A stripe that ends, and one that is refused.
fn check_ends(rt: &impl Abort, alloc: Global) -> Result<(), StripeFault> {
    let schema = schema_of(alloc, "struct<n:bigint>")?;
    check_end(rt, alloc, &schema, &[0x00, 0x00, 0x0e], &THREE_BYTES, None)?;
    let fault = StripeFault::Run(1, StreamKind::Data, RunFault::Short(3));
    let broken = [0x00, 0x00, 0x0e, 0xff];
    check_end(rt, alloc, &schema, &broken, &FOUR_BYTES, Some(fault))
}

fn check_all(rt: &impl Abort, alloc: Global) -> Result<(), StripeFault> {
    check_ends(rt, alloc)?;
    check_broken(rt, alloc)?;
    check_rest(rt, alloc)
}

#[test]
fn cursors(rt: HostRuntime) {
    passes(&rt, check_all(&rt, rt.alloc()));
}
