//! The lines that a stripe's rows print as, all at once, one by one, or with no row made.
ghost use Rattle.std.specs.Prelude.{◌≡◌, OnOk};
ghost use Rattle.orc_json_printer.specs.LaidOut.{IsLaidOut};
ghost use Rattle.orc_stripe_reader.specs.Cursors.{row_type};

use crate::calls::{cursor_of, next_row, next_text, rows_of};
use orc_directory::StripeFault;
use orc_json::RowPrinter;
use orc_json_printer::layout::Layout;
use orc_stripe_reader::RowCursor;
use orc_types::{Schema, fits, row_to_json};
use orc_values::Row;
use orc_wire::StripeInfo;
use std::alloc::Global;

/// The line that a row prints as.
pub fn line_of(alloc: Global, schema: &Schema, row: &Row<'_>) -> Result<String, StripeFault> {
    if !fits(schema, row) {
        return Err(StripeFault::BadDirectory);
    }
    match row_to_json(alloc, schema, row) {
        Ok(json) => Ok(json.to_string(alloc)?),
        Err(_) => Err(StripeFault::OutOfMemory),
    }
}

/// The lines that the rows of a stripe's bytes print as.
pub fn lines_at_once(
    alloc: Global,
    schema: &Schema,
    info: StripeInfo,
    bytes: &[u8],
) -> Result<Vec<String>, StripeFault> {
    let rows = rows_of(alloc, schema, info, bytes)?;
    let mut lines = Vec::new(alloc);
    put_lines(alloc, schema, &rows, &mut lines)?;
    Ok(lines)
}

/// Appends the line of each row.
fn put_lines(
    alloc: Global,
    schema: &Schema,
    rows: &[Row<'_>],
    lines: &mut Vec<String>,
) -> Result<(), StripeFault> {
    for row in rows {
        lines.push(line_of(alloc, schema, row)?)?;
    }
    Ok(())
}

/// What no stripe is refused for: the answer where a cursor does what none should.
const WRONG: StripeFault = StripeFault::OutOfRange(usize::MAX);

/// The same lines by a cursor. At the end it is asked once more; where it refuses, twice more. Where it answers
/// otherwise than it should then, the answer is a fault that no stripe has.
pub fn lines_one_by_one(
    alloc: Global,
    schema: &Schema,
    info: StripeInfo,
    bytes: &[u8],
) -> Result<Vec<String>, StripeFault> {
    let mut cursor = cursor_of(alloc, schema, info, bytes)?;
    let mut lines = Vec::new(alloc);
    put_each(alloc, schema, &mut cursor, info.number_of_rows, &mut lines)?;
    Ok(lines)
}

/// Appends the line of each of so many rows, behind which there are no others.
fn put_each(
    alloc: Global,
    schema: &Schema,
    cursor: &mut RowCursor<'_>,
    count: u64,
    lines: &mut Vec<String>,
) -> Result<(), StripeFault> {
    for _ in 0..count {
        put_next(alloc, schema, cursor, lines)?;
    }
    see_end(cursor)?;
    see_end(cursor)
}

/// Appends the line of the next row.
fn put_next(
    alloc: Global,
    schema: &Schema,
    cursor: &mut RowCursor<'_>,
    lines: &mut Vec<String>,
) -> Result<(), StripeFault> {
    match next_row(cursor) {
        Ok(Some(row)) => {
            lines.push(line_of(alloc, schema, &row)?)?;
            Ok(())
        }
        Ok(None) => Err(WRONG),
        Err(fault) => Err(refused(cursor, fault)),
    }
}

/// The cursor says that there are no more rows.
fn see_end(cursor: &mut RowCursor<'_>) -> Result<(), StripeFault> {
    match next_row(cursor) {
        Ok(None) => Ok(()),
        Ok(Some(_)) => Err(WRONG),
        Err(fault) => Err(refused(cursor, fault)),
    }
}

/// The fault of a cursor that was refused, and is so from then on.
fn refused(cursor: &mut RowCursor<'_>, fault: StripeFault) -> StripeFault {
    if has_failed(cursor) && has_failed(cursor) {
        fault
    } else {
        WRONG
    }
}

/// Whether the cursor says that it was refused before.
fn has_failed(cursor: &mut RowCursor<'_>) -> bool {
    matches!(next_row(cursor), Err(StripeFault::Failed))
}

/// The same lines straight from the columns' readers, with no row made. At the end the cursor is asked once more; where
/// it refuses, twice more.
pub fn lines_straight(
    alloc: Global,
    schema: &Schema,
    info: StripeInfo,
    bytes: &[u8],
) -> Result<Vec<String>, StripeFault> {
    let printer = RowPrinter::new(alloc, schema)?;
    let Some(layout) = printer.layout() else {
        return Err(WRONG);
    };
    let mut cursor = cursor_of(alloc, schema, info, bytes)?;
    let mut lines = Vec::new(alloc);
    put_each_text(alloc, layout, &mut cursor, info.number_of_rows, &mut lines)?;
    Ok(lines)
}

/// Appends the text of each of so many rows, behind which there are no others.
fn put_each_text(
    alloc: Global,
    layout: &Layout,
    cursor: &mut RowCursor<'_>,
    count: u64,
    lines: &mut Vec<String>,
) -> Result<(), StripeFault>
    requires { IsLaidOut (row_type cursor.old) layout.now }
{
    for _ in 0..count {
        put_next_text(alloc, layout, cursor, lines)?;
    }
    see_text_end(alloc, layout, cursor)?;
    see_text_end(alloc, layout, cursor)
}

/// Appends the text of the next row.
fn put_next_text(
    alloc: Global,
    layout: &Layout,
    cursor: &mut RowCursor<'_>,
    lines: &mut Vec<String>,
) -> Result<(), StripeFault>
    requires { IsLaidOut (row_type cursor.old) layout.now }
    ensures { OnOk result (row_type cursor.new ≡ row_type cursor.old) }
{
    let mut text = Vec::new(alloc);
    match next_text(cursor, layout, &mut text) {
        Ok(true) => match std::str::from_utf8(&text) {
            Ok(line) => {
                lines.push(String::from_str(alloc, line)?)?;
                Ok(())
            }
            Err(_) => Err(WRONG),
        },
        Ok(false) => Err(WRONG),
        Err(fault) => Err(refused(cursor, fault)),
    }
}

/// The cursor says that there are no more rows, and appends nothing.
fn see_text_end(
    alloc: Global,
    layout: &Layout,
    cursor: &mut RowCursor<'_>,
) -> Result<(), StripeFault>
    requires { IsLaidOut (row_type cursor.old) layout.now }
    ensures { OnOk result (row_type cursor.new ≡ row_type cursor.old) }
{
    let mut text = Vec::new(alloc);
    let is_row = match next_text(cursor, layout, &mut text) {
        Ok(is_row) => is_row,
        Err(fault) => return Err(refused(cursor, fault)),
    };
    if is_row || !text.is_empty() {
        return Err(WRONG);
    }
    Ok(())
}
