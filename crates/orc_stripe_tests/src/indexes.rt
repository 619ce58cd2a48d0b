//! Row indexes by the calls that no command makes, and what stripes are refused for that no file leads to.
use crate::assertions::{demand, passes, refusal, same_fault};
use crate::writing::{STRIPE, written};
use orc_rle::{Rle, RunFault};
use orc_stripe::{RowCursor, Spot, StreamKind, StripeFault, StripeOut, StripeView};
use orc_test_kit::schema_of;
use orc_types::Schema;
use orc_wire::StripeInfo;
use std::alloc::Global;
use std::process::Abort;

// The next calls have no contract here: what the called ones promise is long, and would be a part of the proof of each
// function that makes them.

/// The view of a stripe's bytes.
pub(crate) fn view_of<'a>(
    alloc: Global,
    schema: &'a Schema,
    info: StripeInfo,
    stride: u32,
    bytes: &'a [u8],
) -> Result<StripeView<'a>, StripeFault> {
    StripeView::open(alloc, schema, info, stride, bytes)
}

/// A cursor at the first row of a group.
pub(crate) fn cursor_from<'a>(
    alloc: Global,
    view: &StripeView<'a>,
    group: u64,
) -> Result<RowCursor<'a>, StripeFault> {
    view.cursor_at(alloc, group)
}

/// What a group of a stripe's bytes is refused for.
fn group_refusal(
    alloc: Global,
    schema: &Schema,
    info: StripeInfo,
    bytes: &[u8],
    stride: u32,
    group: u64,
) -> Result<Option<StripeFault>, StripeFault> {
    let view = view_of(alloc, schema, info, stride, bytes)?;
    refusal(cursor_from(alloc, &view, group).err())
}

/// What the rows of a stripe's bytes are refused for, or the bytes themselves.
fn rows_refusal(
    alloc: Global,
    schema: &Schema,
    info: StripeInfo,
    bytes: &[u8],
) -> Result<Option<StripeFault>, StripeFault> {
    match view_of(alloc, schema, info, 2, bytes) {
        Ok(view) => refusal(view.rows(alloc).err()),
        Err(fault) => refusal(Some(fault)),
    }
}

/// What the view of a stripe is refused a column's index for.
fn index_refusal(
    alloc: Global,
    schema: &Schema,
    info: StripeInfo,
    stride: u32,
    bytes: &[u8],
    column: usize,
) -> Result<Option<StripeFault>, StripeFault> {
    let view = view_of(alloc, schema, info, stride, bytes)?;
    Ok(view.index(alloc, column).err())
}

/// Which positions of a column are right, as a view of the stripe's bytes answers.
fn right_of(
    alloc: Global,
    schema: &Schema,
    info: StripeInfo,
    stride: u32,
    bytes: &[u8],
    column: usize,
) -> Result<Vec<bool>, StripeFault> {
    if column >= schema.width() {
        return Err(StripeFault::BadDirectory);
    }
    let view = StripeView::open(alloc, schema, info, stride, bytes)?;
    view.positions_right(alloc, column)
}

/// What a file's tail says of that stripe.
fn info_of(rows: u64) -> StripeInfo {
    StripeInfo {
        offset: 3,
        index_length: 56,
        data_length: 3,
        footer_length: 32,
        number_of_rows: rows,
    }
}

/// The stripe's bytes with another one at a place.
fn with_byte(alloc: Global, place: usize, value: u8) -> Result<Vec<u8>, StripeFault> {
    let mut changed = Vec::new(alloc);
    changed.extend_from_slice(&STRIPE)?;
    match changed.get_mut(place) {
        Some(byte) => *byte = value,
        None => return Err(StripeFault::BadDirectory),
    }
    Ok(changed)
}

/// The first of two positions is right, and the second one is so or not.
fn are_right(found: &[bool], last: bool) -> bool {
    match found {
        [first, second] => *first && *second == last,
        _ => false,
    }
}

/// The positions of column 1 are right; the second one isn't, where it passes a value less.
fn check_right(rt: &impl Abort, alloc: Global, schema: &Schema) -> Result<(), StripeFault> {
    let right = right_of(alloc, schema, info_of(3), 2, &STRIPE, 1)?;
    demand(rt, are_right(&right, true), "right positions");
    let bytes = with_byte(alloc, 41, 1)?;
    let wrong = right_of(alloc, schema, info_of(3), 2, &bytes, 1)?;
    demand(rt, are_right(&wrong, false), "a wrong position");
    Ok(())
}

/// There is no index, neither to be read nor to be checked.
fn check_none(
    rt: &impl Abort,
    alloc: Global,
    schema: &Schema,
    bytes: &[u8],
    (stride, column): (u32, usize),
    spot: Spot,
) -> Result<(), StripeFault> {
    let wanted = Some(StripeFault::NoIndex(spot));
    let found = index_refusal(alloc, schema, info_of(3), stride, bytes, column)?;
    same_fault(rt, found, wanted);
    let answer = right_of(alloc, schema, info_of(3), stride, bytes, column);
    let found = refusal(answer.err())?;
    same_fault(rt, found, wanted);
    Ok(())
}

/// Rows without an index, a column without one, whose stream is said to be a filter, and one of two entries for one group.
fn check_missing(rt: &impl Abort, alloc: Global, schema: &Schema) -> Result<(), StripeFault> {
    check_none(rt, alloc, schema, &STRIPE, (0, 1), Spot::Stripe)?;
    let bytes = with_byte(alloc, 62, 7)?;
    check_none(rt, alloc, schema, &bytes, (2, 0), Spot::Column(0))?;
    let answer = right_of(alloc, schema, info_of(3), 3, &STRIPE, 1);
    let found = refusal(answer.err())?;
    same_fault(rt, found, Some(StripeFault::BadPosition(Spot::Column(1))));
    Ok(())
}

/// A group of a number that no command line has, more rows than a file's stripe may have, and fewer bytes than its parts have.
fn check_refusals(rt: &impl Abort, alloc: Global, schema: &Schema) -> Result<(), StripeFault> {
    let found = group_refusal(alloc, schema, info_of(3), &STRIPE, 2, u64::MAX)?;
    same_fault(rt, found, Some(StripeFault::BadPosition(Spot::Stripe)));
    let found = group_refusal(alloc, schema, info_of(0x8000_0000), &STRIPE, 2, 0)?;
    same_fault(rt, found, Some(StripeFault::TooMany(0)));
    let found = rows_refusal(alloc, schema, info_of(0x8000_0000), &STRIPE)?;
    same_fault(rt, found, Some(StripeFault::TooMany(0)));
    let found = rows_refusal(alloc, schema, info_of(3), &STRIPE[..90])?;
    same_fault(rt, found, Some(StripeFault::BadDirectory));
    Ok(())
}

/// Lists, maps and structs in groups of two rows, some of them null, so that each column has another number of cells before
/// its groups.
static NESTED: &str = r#"{"l":[1,2,3],"m":[["a",true]],"s":{"d":"2020-01-01"},"n":7}
{"l":null,"m":[],"s":null,"n":null}
{"l":[4],"m":null,"s":{"d":null},"n":8}
{"l":[],"m":[["b",false],["c",null]],"s":{"d":"2020-01-02"},"n":9}
{"l":[5,6],"m":[["d",true]],"s":null,"n":10}"#;

/// All three positions are right.
fn three_right(found: &[bool]) -> bool {
    match found {
        [first, second, third] => *first && *second && *third,
        _ => false,
    }
}

/// The stripe with another last byte of its data.
fn broken(mut out: StripeOut) -> Result<StripeOut, StripeFault> {
    let end = out
        .bytes
        .len()
        .saturating_sub(out.info.footer_length as usize);
    match out.bytes.get_mut(end.saturating_sub(1)) {
        Some(byte) => *byte = 0x80,
        None => return Err(StripeFault::BadDirectory),
    }
    Ok(out)
}

/// The positions that are written are right in each column.
fn check_nested(rt: &impl Abort, alloc: Global) -> Result<(), StripeFault> {
    let schema = schema_of(
        alloc,
        "struct<l:array<bigint>,m:map<string,boolean>,s:struct<d:date>,n:bigint>",
    )?;
    let out = written(alloc, &schema, Rle::Two, 2, NESTED)?;
    for column in 0..schema.width() {
        let right = right_of(alloc, &schema, out.info, 2, &out.bytes, column)?;
        demand(rt, three_right(&right), "written positions");
    }
    let out = broken(out)?;
    check_broken(rt, alloc, &schema, &out)
}

/// Where the last column's numbers break off, no position is told right, of whatever column.
fn check_broken(
    rt: &impl Abort,
    alloc: Global,
    schema: &Schema,
    out: &StripeOut,
) -> Result<(), StripeFault> {
    let wanted = StripeFault::Run(8, StreamKind::Data, RunFault::Short(0));
    for column in 0..schema.width() {
        let answer = right_of(alloc, schema, out.info, 2, &out.bytes, column);
        same_fault(rt, refusal(answer.err())?, Some(wanted));
    }
    Ok(())
}

fn check_all(rt: &impl Abort, alloc: Global) -> Result<(), StripeFault> {
    let schema = schema_of(alloc, "struct<n:bigint>")?;
    check_right(rt, alloc, &schema)?;
    check_missing(rt, alloc, &schema)?;
    check_refusals(rt, alloc, &schema)?;
    check_nested(rt, alloc)
}

#[test]
fn indexes(rt: HostRuntime) {
    passes(&rt, check_all(&rt, rt.alloc()));
}
