//! The calls that stripes are read by. Their contracts speak of a cursor's row type alone, so that a layout is known to be one
//! of it. What the called ones promise is long, and would be a part of the proof of each test that makes them, of which the
//! proof says nothing but that it is safe.
ghost use Rattle.std.specs.Prelude.{◌≡◌, IfOk};
ghost use Rattle.orc_json_printer.specs.LaidOut.{IsLaidOut};
ghost use Rattle.orc_stripe_reader.specs.Cursors.{row_type};

use orc_directory::StripeFault;
use orc_json_printer::layout::Layout;
use orc_stripe_reader::{RowCursor, StripeView};
use orc_types::Schema;
use orc_values::Row;
use orc_wire::StripeInfo;
use std::alloc::Global;

/// The schema of a text that has one.
pub fn schema_of(alloc: Global, text: &str) -> Result<Schema, StripeFault> {
    match Schema::parse(alloc, text) {
        Ok(schema) => Ok(schema),
        Err(_) => Err(StripeFault::OutOfMemory),
    }
}

/// The view of a stripe's bytes, as of a file without a stride.
fn view_of<'a>(
    alloc: Global,
    schema: &'a Schema,
    info: StripeInfo,
    bytes: &'a [u8],
) -> Result<StripeView<'a>, StripeFault>
    ensures { IfOk result (λ view. view.schema ≡ schema.now) }
{
    StripeView::open(alloc, schema, info, 0, bytes)
}

/// The rows of a stripe's bytes, all at once.
pub fn rows_of<'a>(
    alloc: Global,
    schema: &'a Schema,
    info: StripeInfo,
    bytes: &'a [u8],
) -> Result<Vec<Row<'a>>, StripeFault> {
    let view = view_of(alloc, schema, info, bytes)?;
    view.rows(alloc)
}

/// A cursor at the first row of a stripe's bytes.
pub fn cursor_of<'a>(
    alloc: Global,
    schema: &'a Schema,
    info: StripeInfo,
    bytes: &'a [u8],
) -> Result<RowCursor<'a>, StripeFault>
    ensures { IfOk result (λ cursor. row_type cursor ≡ schema.now) }
{
    let view = view_of(alloc, schema, info, bytes)?;
    view.cursor(alloc)
}

/// The next row of a cursor; at the end `None`.
pub fn next_row<'a>(cursor: &mut RowCursor<'a>) -> Result<Option<Row<'a>>, StripeFault> {
    cursor.next()
}

/// Puts the text of a cursor's next row, by a layout of its rows' type; at the end `false`.
pub fn next_text(
    cursor: &mut RowCursor<'_>,
    layout: &Layout,
    out: &mut Vec<u8>,
) -> Result<bool, StripeFault>
    requires { IsLaidOut (row_type cursor.old) layout.now }
    ensures { row_type cursor.new ≡ row_type cursor.old }
{
    cursor.push_next(layout, out)
}

/// All rows that a cursor has still to give.
pub fn rest_of<'a>(cursor: RowCursor<'a>) -> Result<Vec<Row<'a>>, StripeFault> {
    cursor.rest()
}
