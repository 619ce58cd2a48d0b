//! Stripes as they are written.
ghost use Rattle.std.specs.Prelude.{◌≡◌, true, IfOk};
ghost use Rattle.orc_values.specs.Fits.{RowsFit, fits};
ghost use Rattle.orc_values.specs.Views.{view, views};

use crate::assertions::{demand, passes};
use orc_json::RowReader;
use orc_rle::Rle;
use orc_stripe::{Options, StripeFault, StripeOut, are_few, write_stripe};
use orc_test_kit::schema_of;
use orc_types::Schema;
use orc_values::Row;
use std::alloc::Global;
use std::process::Abort;

/// Three rows of the number 7, in groups of two.
pub(crate) static STRIPE: [u8; 91] = [
    0x0a, 0x06, 0x12, 0x04, 0x08, 0x02, 0x50, 0x00, 0x0a, 0x06, 0x12, 0x04, 0x08, 0x01, 0x50, 0x00,
    0x0a, 0x12, 0x0a, 0x02, 0x00, 0x00, 0x12, 0x0c, 0x08, 0x02, 0x12, 0x06, 0x08, 0x0e, 0x10, 0x0e,
    0x18, 0x1c, 0x50, 0x00, 0x0a, 0x12, 0x0a, 0x02, 0x00, 0x02, 0x12, 0x0c, 0x08, 0x01, 0x12, 0x06,
    0x08, 0x0e, 0x10, 0x0e, 0x18, 0x0e, 0x50, 0x00, 0x00, 0x00, 0x0e, 0x0a, 0x06, 0x08, 0x06, 0x10,
    0x00, 0x18, 0x10, 0x0a, 0x06, 0x08, 0x06, 0x10, 0x01, 0x18, 0x28, 0x0a, 0x06, 0x08, 0x01, 0x10,
    0x01, 0x18, 0x03, 0x12, 0x02, 0x08, 0x00, 0x12, 0x02, 0x08, 0x00,
];

/// A stripe without rows, which no file is written with: indexes of no bytes.
static NO_ROWS: [u8; 24] = [
    0x0a, 0x06, 0x08, 0x06, 0x10, 0x00, 0x18, 0x00, 0x0a, 0x06, 0x08, 0x06, 0x10, 0x01, 0x18, 0x00,
    0x12, 0x02, 0x08, 0x00, 0x12, 0x02, 0x08, 0x00,
];

/// The row that a line spells.
fn row_of(alloc: Global, schema: &Schema, line: &str) -> Result<Row<'static>, StripeFault>
    ensures { IfOk result (λ row. fits (view row) schema.now ≡ true) }
{
    match RowReader::new(alloc).read_row(alloc, schema, line.as_bytes()) {
        Ok(row) => Ok(row),
        Err(_) => Err(StripeFault::OutOfMemory),
    }
}

/// The rows that the lines spell.
fn rows_of(alloc: Global, schema: &Schema, lines: &str) -> Result<Vec<Row<'static>>, StripeFault>
    ensures { IfOk result (λ rows. RowsFit schema.now (views rows.items)) }
{
    let mut rows = Vec::new(alloc);
    for line in lines.lines() {
        rows.push(row_of(alloc, schema, line)?)?;
    }
    Ok(rows)
}

/// The stripe of the rows, with a row index of groups of that many rows.
fn stripe_of_rows(
    alloc: Global,
    schema: &Schema,
    rle: Rle,
    stride: u32,
    rows: &[Row<'_>],
) -> Result<StripeOut, StripeFault>
    requires { RowsFit schema.now (views rows.now) }
{
    if !are_few(alloc, schema, rows)? {
        return Err(StripeFault::TooMany(0));
    }
    match Options::new(rle, stride, 10) {
        Some(options) => write_stripe(alloc, schema, &options, rows),
        None => Err(StripeFault::BadDirectory),
    }
}

/// The stripe of the rows that the lines spell, with a row index of groups of that many rows.
pub(crate) fn written(
    alloc: Global,
    schema: &Schema,
    rle: Rle,
    stride: u32,
    lines: &str,
) -> Result<StripeOut, StripeFault> {
    let rows = rows_of(alloc, schema, lines)?;
    stripe_of_rows(alloc, schema, rle, stride, &rows)
}

/// The rows of the first stripe.
static SEVENS: &str = r#"{"n":7}
{"n":7}
{"n":7}"#;

fn check_written(rt: &impl Abort, alloc: Global) -> Result<(), StripeFault> {
    let schema = schema_of(alloc, "struct<n:bigint>")?;
    let out = written(alloc, &schema, Rle::One, 2, SEVENS)?;
    demand(
        rt,
        out.bytes.as_slice() == STRIPE.as_slice(),
        "three sevens",
    );
    let none = written(alloc, &schema, Rle::One, 2, "")?;
    demand(rt, none.bytes.as_slice() == NO_ROWS.as_slice(), "no rows");
    Ok(())
}

#[test]
fn stripes_written(rt: HostRuntime) {
    passes(&rt, check_written(&rt, rt.alloc()));
}

/// A stride, the number of rows of a stripe, and whether there are such options.
static OPTIONS: [(u32, u32, bool); 8] = [
    (0, 1, true),
    (0, 2_147_483_647, true),
    (0, 0, false),
    (0, 2_147_483_648, false),
    (1, 1, true),
    (4_294_967_295, 10, true),
    (1, 0, false),
    (10_000, 4_294_967_295, false),
];

fn check_options(rt: &impl Abort, stride: u32, stripe_rows: u32, made: bool) {
    let options = Options::new(Rle::Two, stride, stripe_rows);
    assert!(rt; options.is_some() == made, "{stride} {stripe_rows}");
}

#[test]
fn options_made(rt: HostRuntime) {
    for (stride, stripe_rows, made) in &OPTIONS {
        check_options(&rt, *stride, *stripe_rows, *made);
    }
}
