//! Texts and bytes of rows are slices of the stripe, entries of a dictionary included.
use super::{ONE_BYTE, ONE_WORD, stripe_of};
use crate::assertions::{demand, passes};
use orc_stripe::StripeFault;
use orc_test_kit::{rows_of, schema_of};
use orc_values::{Row, Value};
use std::alloc::Global;
use std::borrow::{CowSlice, CowStr};
use std::process::Abort;

/// The text of a schema, data, footer and number of rows, each of which has the text, or the byte, `a`.
static CASES: [(&'static str, &'static [u8], &'static [u8], u64); 3] = [
    ("struct<s:string>", &[0x61, 0xff, 0x01], &ONE_BYTE, 1),
    ("struct<s:binary>", &[0x61, 0xff, 0x01], &ONE_BYTE, 1),
    (
        "struct<s:string>",
        &[0xfe, 0x00, 0x00, 0xff, 0x01, 0x61],
        &ONE_WORD,
        2,
    ),
];

/// Whether the row's one cell is borrowed, and says `a`.
fn is_borrowed(row: &Row<'_>) -> bool {
    let Some(Value::Struct(cells)) = row else {
        return false;
    };
    let [cell] = cells.as_slice() else {
        return false;
    };
    match cell {
        Some(Value::Text(CowStr::Borrowed(text))) => *text == "a",
        Some(Value::Bytes(CowSlice::Borrowed(bytes))) => *bytes == b"a".as_slice(),
        _ => false,
    }
}

/// Whether the cell of each row is.
fn are_borrowed(rows: &[Row<'_>]) -> bool {
    for row in rows {
        if !is_borrowed(row) {
            return false;
        }
    }
    true
}

fn check_stripe(
    rt: &impl Abort,
    alloc: Global,
    text: &str,
    data: &[u8],
    footer: &[u8],
    count: u64,
) -> Result<(), StripeFault> {
    let schema = schema_of(alloc, text)?;
    let (info, bytes) = stripe_of(alloc, data, footer, count)?;
    let rows = rows_of(alloc, &schema, info, &bytes)?;
    let holds = rows.len() as u64 == count && are_borrowed(&rows);
    demand(rt, holds, text);
    Ok(())
}

fn check_borrowed(rt: &impl Abort, alloc: Global) -> Result<(), StripeFault> {
    for (text, data, footer, count) in &CASES {
        check_stripe(rt, alloc, text, data, footer, *count)?;
    }
    Ok(())
}

#[test]
fn texts_are_borrowed(rt: HostRuntime) {
    passes(&rt, check_borrowed(&rt, rt.alloc()));
}
