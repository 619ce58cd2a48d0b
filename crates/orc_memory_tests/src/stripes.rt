//! Stripes that are written, and read from a group on.
ghost use Rattle.std.specs.Prelude.{◌≡◌, true, IfOk};
ghost use Rattle.orc_values.specs.Fits.{RowsFit, fits};
ghost use Rattle.orc_values.specs.Views.{view, views};

use crate::assertions::{demand, same, same_bytes};
use crate::sevens::{has_number, have_numbers, schema_of};
use orc_rle::Rle;
use orc_stripe::{Options, RowCursor, StripeFault, StripeOut, StripeView, are_few, write_stripe};
use orc_test_kit::SEVENS;
use orc_types::{Schema, row_from_json};
use orc_values::Row;
use serde_json::Value as Json;
use std::alloc::Global;
use std::process::Abort;

/// A schema of one number, once there is memory for it.
fn schema(alloc: Global) -> Result<Schema, StripeFault> {
    match schema_of(alloc, "struct<n:bigint>") {
        Ok(schema) => Ok(schema),
        Err(_) => Err(StripeFault::OutOfMemory),
    }
}

/// The row that a line spells.
fn row_of(alloc: Global, schema: &Schema, line: &str) -> Result<Row<'static>, StripeFault>
    ensures { IfOk result (λ row. fits (view row) schema.now ≡ true) }
{
    let Ok(json) = Json::from_str(alloc, line) else {
        return Err(StripeFault::OutOfMemory);
    };
    match row_from_json(alloc, schema, &json) {
        Ok(row) => Ok(row),
        Err(_) => Err(StripeFault::OutOfMemory),
    }
}

/// The rows that the lines spell.
fn rows_of(alloc: Global, schema: &Schema, lines: &[&str]) -> Result<Vec<Row<'static>>, StripeFault>
    ensures { IfOk result (λ rows. RowsFit schema.now (views rows.items)) }
{
    let mut rows = Vec::new(alloc);
    for line in lines {
        rows.push(row_of(alloc, schema, line)?)?;
    }
    Ok(rows)
}

/// The same, once there is memory for them.
fn made_rows(
    alloc: Global,
    schema: &Schema,
    lines: &[&str],
) -> Result<Vec<Row<'static>>, StripeFault>
    ensures { IfOk result (λ rows. RowsFit schema.now (views rows.items)) }
{
    match rows_of(alloc, schema, lines) {
        Err(_) => rows_of(alloc, schema, lines),
        rows => rows,
    }
}

/// `write_stripe` of these rows, in groups of so many, once they are counted.
fn write(
    alloc: Global,
    schema: &Schema,
    stride: u32,
    rows: &[Row<'_>],
) -> Result<StripeOut, StripeFault>
    requires { RowsFit schema.now (views rows.now) }
{
    if !are_few(alloc, schema, rows)? {
        return Err(StripeFault::TooMany(0));
    }
    match Options::new(Rle::One, stride, 10) {
        Some(options) => write_stripe(alloc, schema, &options, rows),
        None => Err(StripeFault::BadDirectory),
    }
}

/// The same, and the rows are written again where memory was refused.
fn write_again(
    rt: &impl Abort,
    alloc: Global,
    schema: &Schema,
    stride: u32,
    rows: &[Row<'_>],
) -> Result<StripeOut, StripeFault>
    requires { RowsFit schema.now (views rows.now) }
{
    match write(alloc, schema, stride, rows) {
        Ok(out) => Ok(out),
        Err(fault) => {
            same(rt, &fault, &StripeFault::OutOfMemory);
            write(alloc, schema, stride, rows)
        }
    }
}

/// The stripe of the rows that the lines spell, once there is memory for it.
fn written(
    rt: &impl Abort,
    alloc: Global,
    schema: &Schema,
    stride: u32,
    lines: &[&str],
) -> Result<StripeOut, StripeFault> {
    let rows = made_rows(alloc, schema, lines)?;
    write_again(rt, alloc, schema, stride, &rows)
}

/// The rows are written again.
#[test]
fn a_stripe_is_written(rt: HostRuntime) -> Result<(), StripeFault> {
    let schema = schema(rt.alloc())?;
    let out = written(&rt, rt.alloc(), &schema, 0, &[r#"{"n":7}"#; 3])?;
    same_bytes(&rt, &out.bytes, &SEVENS[3..22]);
    same(&rt, &out.info.data_length, &3);
    same(&rt, &out.info.footer_length, &16);
    Ok(())
}

/// Six rows in two groups.
static LINES: [&str; 6] = [
    r#"{"n":7}"#,
    r#"{"n":7}"#,
    r#"{"n":7}"#,
    r#"{"n":9}"#,
    r#"{"n":9}"#,
    r#"{"n":9}"#,
];

// The next three calls have no contract, so that what those of a stripe promise is no part of each caller's proof.

/// The view of a stripe in groups of three.
fn opened<'a>(
    alloc: Global,
    schema: &'a Schema,
    out: &'a StripeOut,
) -> Result<StripeView<'a>, StripeFault> {
    StripeView::open(alloc, schema, out.info, 3, &out.bytes)
}

/// Whether the view gives all rows.
fn gives_all(alloc: Global, view: &StripeView<'_>) -> Result<bool, StripeFault> {
    let rows = view.rows(alloc)?;
    Ok(have_numbers(&rows, &[7, 7, 7, 9, 9, 9]))
}

/// The next row of a cursor.
fn next_row<'a>(cursor: &mut RowCursor<'a>) -> Result<Option<Row<'a>>, StripeFault> {
    cursor.next()
}

/// The view of a stripe in groups of three, once there is memory for it.
fn view_of<'a>(
    alloc: Global,
    schema: &'a Schema,
    out: &'a StripeOut,
) -> Result<StripeView<'a>, StripeFault> {
    match opened(alloc, schema, out) {
        Err(_) => opened(alloc, schema, out),
        view => view,
    }
}

/// Whether the view gives all rows, once there is memory for them.
fn has_all(alloc: Global, view: &StripeView<'_>) -> Result<bool, StripeFault> {
    match gives_all(alloc, view) {
        Err(_) => gives_all(alloc, view),
        answer => answer,
    }
}

/// Whether the cursor's next row is a nine.
fn gives_nine(cursor: &mut RowCursor<'_>) -> Result<bool, StripeFault> {
    match next_row(cursor)? {
        Some(row) => Ok(has_number(&row, 9)),
        None => Ok(false),
    }
}

/// Whether the cursor gives three nines, and no more rows.
fn gives_nines(cursor: &mut RowCursor<'_>) -> Result<bool, StripeFault> {
    for _ in 0..3 {
        if !gives_nine(cursor)? {
            return Ok(false);
        }
    }
    Ok(next_row(cursor)?.is_none())
}

/// The same of a cursor that has to refuse all rows once it refused one.
fn gives_or_fails(cursor: &mut RowCursor<'_>) -> Result<bool, StripeFault> {
    let answer = gives_nines(cursor);
    if answer.is_err() && next_row(cursor).err() != Some(StripeFault::Failed) {
        return Ok(false);
    }
    answer
}

/// Whether a cursor at the second group gives its rows. Where it refuses one, it has to refuse all from then on.
fn has_nines(alloc: Global, view: &StripeView<'_>) -> Result<bool, StripeFault> {
    let mut cursor = view.cursor_at(alloc, 1)?;
    gives_or_fails(&mut cursor)
}

/// The view gives its rows where a cursor was refused memory, and another cursor those of the group.
fn check_group(rt: &impl Abort, alloc: Global, view: &StripeView<'_>) -> Result<(), StripeFault> {
    match has_nines(alloc, view) {
        Ok(given) => demand(rt, given, "rows of the group"),
        Err(fault) => {
            same(rt, &fault, &StripeFault::OutOfMemory);
            demand(rt, has_all(alloc, view)?, "all rows");
            demand(rt, has_nines(alloc, view)?, "rows of the group again");
        }
    }
    Ok(())
}

/// The view gives its rows, and another cursor those of the group.
#[test]
fn rows_from_a_group(rt: HostRuntime) -> Result<(), StripeFault> {
    let schema = schema(rt.alloc())?;
    let out = written(&rt, rt.alloc(), &schema, 3, &LINES)?;
    let view = view_of(rt.alloc(), &schema, &out)?;
    check_group(&rt, rt.alloc(), &view)
}
