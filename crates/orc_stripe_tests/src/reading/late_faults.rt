//! Stripes that are broken behind a group's positions: a cursor there answers the rows before the fault, which names its
//! run.
use super::cursors::{check_next, next_fault};
use super::stripe_of;
use crate::assertions::{passes, refusal, same_fault};
use crate::indexes::{cursor_from, view_of};
use orc_rle::RunFault;
use orc_stripe::{StreamKind, StripeFault};
use orc_test_kit::schema_of;
use orc_wire::StripeInfo;
use std::alloc::Global;
use std::process::Abort;

/// A schema's text, the stride, how many rows; the indexes of both columns, of two groups, the data of column 1 and the
/// footer; the rows of the second group that come, a line each, and what the next one is refused for.
type Case = (
    &'static str,
    u32,
    u64,
    &'static [u8],
    &'static [u8],
    &'static [u8],
    &'static str,
    RunFault,
);

static CASES: [Case; 4] = [
    // three times 7, and four times 9: one too many
    (
        "struct<n:bigint>",
        4,
        6,
        &[
            0x0a, 0x00, 0x0a, 0x00, 0x0a, 0x04, 0x0a, 0x02, 0x00, 0x00, 0x0a, 0x04, 0x0a, 0x02,
            0x00, 0x04,
        ],
        &[0x00, 0x00, 0x0e, 0x01, 0x00, 0x12],
        &[
            0x0a, 0x06, 0x08, 0x06, 0x10, 0x00, 0x18, 0x04, 0x0a, 0x06, 0x08, 0x06, 0x10, 0x01,
            0x18, 0x0c, 0x0a, 0x06, 0x08, 0x01, 0x10, 0x01, 0x18, 0x06, 0x12, 0x02, 0x08, 0x00,
            0x12, 0x02, 0x08, 0x00,
        ],
        "{\"n\":9}\n{\"n\":9}",
        RunFault::TooMany(3),
    ),
    // the last byte is no run
    (
        "struct<n:bigint>",
        4,
        7,
        &[
            0x0a, 0x00, 0x0a, 0x00, 0x0a, 0x04, 0x0a, 0x02, 0x00, 0x00, 0x0a, 0x04, 0x0a, 0x02,
            0x00, 0x04,
        ],
        &[0x00, 0x00, 0x0e, 0x00, 0x00, 0x12, 0x00],
        &[
            0x0a, 0x06, 0x08, 0x06, 0x10, 0x00, 0x18, 0x04, 0x0a, 0x06, 0x08, 0x06, 0x10, 0x01,
            0x18, 0x0c, 0x0a, 0x06, 0x08, 0x01, 0x10, 0x01, 0x18, 0x07, 0x12, 0x02, 0x08, 0x00,
            0x12, 0x02, 0x08, 0x00,
        ],
        "{\"n\":9}\n{\"n\":9}",
        RunFault::Short(6),
    ),
    // four bytes where three are left
    (
        "struct<n:tinyint>",
        4,
        6,
        &[
            0x0a, 0x00, 0x0a, 0x00, 0x0a, 0x04, 0x0a, 0x02, 0x00, 0x00, 0x0a, 0x04, 0x0a, 0x02,
            0x00, 0x04,
        ],
        &[0x00, 0x07, 0x01, 0x09],
        &[
            0x0a, 0x06, 0x08, 0x06, 0x10, 0x00, 0x18, 0x04, 0x0a, 0x06, 0x08, 0x06, 0x10, 0x01,
            0x18, 0x0c, 0x0a, 0x06, 0x08, 0x01, 0x10, 0x01, 0x18, 0x04, 0x12, 0x02, 0x08, 0x00,
            0x12, 0x02, 0x08, 0x00,
        ],
        "{\"n\":9}\n{\"n\":9}",
        RunFault::TooMany(2),
    ),
    // three bytes of ones, and four of zeros: the last one is too many
    (
        "struct<b:boolean>",
        46,
        48,
        &[
            0x0a, 0x00, 0x0a, 0x00, 0x0a, 0x05, 0x0a, 0x03, 0x00, 0x00, 0x00, 0x0a, 0x05, 0x0a,
            0x03, 0x00, 0x05, 0x06,
        ],
        &[0x00, 0xff, 0x01, 0x00],
        &[
            0x0a, 0x06, 0x08, 0x06, 0x10, 0x00, 0x18, 0x04, 0x0a, 0x06, 0x08, 0x06, 0x10, 0x01,
            0x18, 0x0e, 0x0a, 0x06, 0x08, 0x01, 0x10, 0x01, 0x18, 0x04, 0x12, 0x02, 0x08, 0x00,
            0x12, 0x02, 0x08, 0x00,
        ],
        "{\"b\":false}\n{\"b\":false}",
        RunFault::TooMany(2),
    ),
];

/// The record of a stripe with an index, and its bytes.
fn indexed_stripe(
    alloc: Global,
    index: &[u8],
    data: &[u8],
    footer: &[u8],
    rows: u64,
) -> Result<(StripeInfo, Vec<u8>), StripeFault> {
    let mut parts = Vec::new(alloc);
    parts.extend_from_slice(index)?;
    parts.extend_from_slice(data)?;
    let (info, bytes) = stripe_of(alloc, &parts, footer, rows)?;
    let info = StripeInfo {
        index_length: index.len() as u64,
        data_length: data.len() as u64,
        ..info
    };
    Ok((info, bytes))
}

/// The rows come from the second group on, and then the fault.
fn check_case(rt: &impl Abort, alloc: Global, case: &Case) -> Result<(), StripeFault> {
    let (text, stride, rows, index, data, footer, lines, fault) = case;
    let schema = schema_of(alloc, text)?;
    let (info, bytes) = indexed_stripe(alloc, index, data, footer, *rows)?;
    let view = view_of(alloc, &schema, info, *stride, &bytes)?;
    let mut cursor = cursor_from(alloc, &view, 1)?;
    check_next(rt, alloc, &schema, &mut cursor, lines)?;
    let found = refusal(next_fault(&mut cursor))?;
    let wanted = StripeFault::Run(1, StreamKind::Data, *fault);
    same_fault(rt, found, Some(wanted));
    Ok(())
}

fn check_all(rt: &impl Abort, alloc: Global) -> Result<(), StripeFault> {
    for case in &CASES {
        check_case(rt, alloc, case)?;
    }
    Ok(())
}

#[test]
fn faults_behind_positions(rt: HostRuntime) {
    passes(&rt, check_all(&rt, rt.alloc()));
}
