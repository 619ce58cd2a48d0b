//! What the page of orc_stripe shows, line by line: the rows of a stripe's bytes.
use super::{THREE_BYTES, stripe_of};
use crate::assertions::{demand, passes};
use orc_stripe::{StripeFault, StripeView};
use orc_test_kit::schema_of;
use orc_types::Schema;
use orc_values::{Row, Value};
use orc_wire::StripeInfo;
use std::alloc::Global;
use std::process::Abort;

/// The rows of a stripe, whose texts and bytes are borrowed from the stripe's own.
fn rows_of_stripe<'a>(
    alloc: Global,
    schema: &'a Schema,
    info: StripeInfo,
    bytes: &'a [u8],
) -> Result<Vec<Row<'a>>, StripeFault> {
    let view = StripeView::open(alloc, schema, info, 0, bytes)?;
    view.rows(alloc)
}

/// Whether the row's one cell is 7.
fn is_seven(row: &Row<'_>) -> bool {
    let Some(Value::Struct(cells)) = row else {
        return false;
    };
    matches!(cells.as_slice(), [Some(Value::Int(7))])
}

/// Whether these are three such rows.
fn are_three_sevens(rows: &[Row<'_>]) -> bool {
    match rows {
        [a, b, c] => is_seven(a) && is_seven(b) && is_seven(c),
        _ => false,
    }
}

fn check_page(rt: &impl Abort, alloc: Global) -> Result<(), StripeFault> {
    let schema = schema_of(alloc, "struct<n:bigint>")?;
    let (info, bytes) = stripe_of(alloc, &[0x00, 0x00, 0x0e], &THREE_BYTES, 3)?;
    let rows = rows_of_stripe(alloc, &schema, info, &bytes)?;
    demand(rt, are_three_sevens(&rows), "three sevens");
    Ok(())
}

#[test]
fn rows_of_the_page(rt: HostRuntime) {
    passes(&rt, check_page(&rt, rt.alloc()));
}
