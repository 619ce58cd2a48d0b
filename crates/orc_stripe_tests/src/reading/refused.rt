//! What stripes are refused for by a cursor's rows and by their texts: the program tells another call's refusal.
use super::{FOUR_BYTES, ONE_BYTE, ONE_WORD, THREE_BYTES, stripe_of};
use crate::assertions::{passes, refusal, same_fault};
use orc_rle::RunFault;
use orc_stripe::{StreamKind, StripeFault};
use orc_test_kit::{lines_one_by_one, lines_straight, schema_of};
use std::alloc::Global;
use std::process::Abort;

/// A schema's text, the data and the footer of a stripe without an index, how many rows, and the refusal.
type Case = (&'static str, &'static [u8], &'static [u8], u64, StripeFault);

/// LENGTH of column 1 with six bytes, three columns DIRECT.
const LONG_LIST: [u8; 20] = [
    0x0a, 0x06, 0x08, 0x02, 0x10, 0x01, 0x18, 0x06, 0x12, 0x02, 0x08, 0x00, 0x12, 0x02, 0x08, 0x00,
    0x12, 0x02, 0x08, 0x00,
];

/// No streams, both columns DIRECT.
const NO_STREAMS: [u8; 8] = [0x12, 0x02, 0x08, 0x00, 0x12, 0x02, 0x08, 0x00];

/// DATA of column 1 with six bytes, both columns DIRECT.
const SIX_BYTES: [u8; 16] = [
    0x0a, 0x06, 0x08, 0x01, 0x10, 0x01, 0x18, 0x06, 0x12, 0x02, 0x08, 0x00, 0x12, 0x02, 0x08, 0x00,
];

/// PRESENT of column 1 with two bytes, both columns DIRECT.
const TWO_MARKS: [u8; 16] = [
    0x0a, 0x06, 0x08, 0x00, 0x10, 0x01, 0x18, 0x02, 0x12, 0x02, 0x08, 0x00, 0x12, 0x02, 0x08, 0x00,
];

/// DATA, LENGTH and DICTIONARY_DATA of a column of texts with two entries.
const TWO_WORDS: [u8; 34] = [
    0x0a, 0x06, 0x08, 0x01, 0x10, 0x01, 0x18, 0x02, 0x0a, 0x06, 0x08, 0x02, 0x10, 0x01, 0x18, 0x03,
    0x0a, 0x06, 0x08, 0x03, 0x10, 0x01, 0x18, 0x02, 0x12, 0x02, 0x08, 0x00, 0x12, 0x04, 0x08, 0x01,
    0x10, 0x02,
];

static REFUSED: [Case; 21] = [
    // a value more than the rows
    (
        "struct<n:bigint>",
        &[0x00, 0x00, 0x0e],
        &THREE_BYTES,
        2,
        StripeFault::Run(1, StreamKind::Data, RunFault::TooMany(0)),
    ),
    // an index of no entry
    (
        "struct<s:string>",
        &[0xfe, 0x00, 0x01, 0xff, 0x01, 0x61],
        &ONE_WORD,
        2,
        StripeFault::BadIndex(1),
    ),
    // a run more than the rows
    (
        "struct<n:bigint>",
        &[0x01, 0x00, 0x0e, 0x00, 0x00, 0x12],
        &SIX_BYTES,
        6,
        StripeFault::Run(1, StreamKind::Data, RunFault::TooMany(3)),
    ),
    // bytes that are no run, behind three rows
    (
        "struct<n:bigint>",
        &[0x00, 0x00, 0x0e, 0xff],
        &FOUR_BYTES,
        4,
        StripeFault::Run(1, StreamKind::Data, RunFault::Short(3)),
    ),
    // a row more than the values
    (
        "struct<n:bigint>",
        &[0x00, 0x00, 0x0e],
        &THREE_BYTES,
        4,
        StripeFault::Run(1, StreamKind::Data, RunFault::TooFew(3)),
    ),
    // 2^31 as an int
    (
        "struct<n:int>",
        &[0xff, 0x80, 0x80, 0x80, 0x80, 0x10],
        &SIX_BYTES,
        1,
        StripeFault::OutOfRange(1),
    ),
    // no values of a boolean
    (
        "struct<b:boolean>",
        &[],
        &NO_STREAMS,
        1,
        StripeFault::Run(1, StreamKind::Data, RunFault::TooFew(0)),
    ),
    // marks of no row
    (
        "struct<b:boolean>",
        &[0xff, 0x00],
        &TWO_MARKS,
        0,
        StripeFault::Run(1, StreamKind::Present, RunFault::TooMany(0)),
    ),
    // a text that is no UTF-8
    (
        "struct<s:string>",
        &[0xe9, 0xff, 0x01],
        &ONE_BYTE,
        1,
        StripeFault::NotUtf8(1, StreamKind::Data),
    ),
    // a length past the bytes
    (
        "struct<s:string>",
        &[0x61, 0xff, 0x02],
        &ONE_BYTE,
        1,
        StripeFault::LengthSum(1, StreamKind::Data),
    ),
    // a byte that no length has
    (
        "struct<s:binary>",
        &[0x61, 0xff, 0x00],
        &ONE_BYTE,
        1,
        StripeFault::LengthSum(1, StreamKind::Data),
    ),
    // an entry of a dictionary that is no UTF-8, and is named
    (
        "struct<s:string>",
        &[0xff, 0x01, 0xfe, 0x01, 0x01, 0x61, 0xe9],
        &TWO_WORDS,
        1,
        StripeFault::NotUtf8(1, StreamKind::DictionaryData),
    ),
    // three lengths of two entries
    (
        "struct<s:string>",
        &[0xff, 0x00, 0x00, 0x00, 0x01, 0x61, 0x62],
        &TWO_WORDS,
        1,
        StripeFault::Run(1, StreamKind::Length, RunFault::TooMany(0)),
    ),
    // 2^31 elements of one list
    (
        "struct<a:array<int>>",
        &[0xff, 0x80, 0x80, 0x80, 0x80, 0x08],
        &LONG_LIST,
        1,
        StripeFault::TooMany(1),
    ),
    // 2^31 pairs of one map
    (
        "struct<m:map<int,int>>",
        &[0xff, 0x80, 0x80, 0x80, 0x80, 0x08],
        &[
            0x0a, 0x06, 0x08, 0x02, 0x10, 0x01, 0x18, 0x06, 0x12, 0x02, 0x08, 0x00, 0x12, 0x02,
            0x08, 0x00, 0x12, 0x02, 0x08, 0x00, 0x12, 0x02, 0x08, 0x00,
        ],
        1,
        StripeFault::TooMany(1),
    ),
    // a key fewer than the pairs
    (
        "struct<m:map<int,int>>",
        &[0xff, 0x02, 0xff, 0x02, 0xfe, 0x02, 0x04],
        &[
            0x0a, 0x06, 0x08, 0x02, 0x10, 0x01, 0x18, 0x02, 0x0a, 0x06, 0x08, 0x01, 0x10, 0x02,
            0x18, 0x02, 0x0a, 0x06, 0x08, 0x01, 0x10, 0x03, 0x18, 0x03, 0x12, 0x02, 0x08, 0x00,
            0x12, 0x02, 0x08, 0x00, 0x12, 0x02, 0x08, 0x00, 0x12, 0x02, 0x08, 0x00,
        ],
        1,
        StripeFault::Run(2, StreamKind::Data, RunFault::TooFew(2)),
    ),
    // a value more than the pairs
    (
        "struct<m:map<int,int>>",
        &[0xff, 0x02, 0xfe, 0x02, 0x04, 0xfd, 0x02, 0x04, 0x06],
        &[
            0x0a, 0x06, 0x08, 0x02, 0x10, 0x01, 0x18, 0x02, 0x0a, 0x06, 0x08, 0x01, 0x10, 0x02,
            0x18, 0x03, 0x0a, 0x06, 0x08, 0x01, 0x10, 0x03, 0x18, 0x04, 0x12, 0x02, 0x08, 0x00,
            0x12, 0x02, 0x08, 0x00, 0x12, 0x02, 0x08, 0x00, 0x12, 0x02, 0x08, 0x00,
        ],
        1,
        StripeFault::Run(3, StreamKind::Data, RunFault::TooMany(0)),
    ),
    // a map more than the lengths
    (
        "struct<m:map<int,int>>",
        &[0xff, 0x00],
        &[
            0x0a, 0x06, 0x08, 0x02, 0x10, 0x01, 0x18, 0x02, 0x12, 0x02, 0x08, 0x00, 0x12, 0x02,
            0x08, 0x00, 0x12, 0x02, 0x08, 0x00, 0x12, 0x02, 0x08, 0x00,
        ],
        2,
        StripeFault::Run(1, StreamKind::Length, RunFault::TooFew(2)),
    ),
    // a number missing in the column that comes last by its name
    (
        "struct<b:int,a:int>",
        &[0xff, 0x02, 0xfe, 0x04, 0x06],
        &[
            0x0a, 0x06, 0x08, 0x01, 0x10, 0x01, 0x18, 0x02, 0x0a, 0x06, 0x08, 0x01, 0x10, 0x02,
            0x18, 0x03, 0x12, 0x02, 0x08, 0x00, 0x12, 0x02, 0x08, 0x00, 0x12, 0x02, 0x08, 0x00,
        ],
        2,
        StripeFault::Run(1, StreamKind::Data, RunFault::TooFew(2)),
    ),
    // a number left over there
    (
        "struct<b:int,a:int>",
        &[0xfe, 0x02, 0x04, 0xff, 0x04],
        &[
            0x0a, 0x06, 0x08, 0x01, 0x10, 0x01, 0x18, 0x03, 0x0a, 0x06, 0x08, 0x01, 0x10, 0x02,
            0x18, 0x02, 0x12, 0x02, 0x08, 0x00, 0x12, 0x02, 0x08, 0x00, 0x12, 0x02, 0x08, 0x00,
        ],
        1,
        StripeFault::Run(1, StreamKind::Data, RunFault::TooMany(0)),
    ),
    // no UTF-8 in the column that comes first by its name
    (
        "struct<b:int,a:string>",
        &[0xff, 0x02, 0xff, 0xff, 0x01],
        &[
            0x0a, 0x06, 0x08, 0x01, 0x10, 0x01, 0x18, 0x02, 0x0a, 0x06, 0x08, 0x01, 0x10, 0x02,
            0x18, 0x01, 0x0a, 0x06, 0x08, 0x02, 0x10, 0x02, 0x18, 0x02, 0x12, 0x02, 0x08, 0x00,
            0x12, 0x02, 0x08, 0x00, 0x12, 0x02, 0x08, 0x00,
        ],
        1,
        StripeFault::NotUtf8(2, StreamKind::Data),
    ),
];

/// The rows are refused so, one by one and with none made.
fn check_case(rt: &impl Abort, alloc: Global, case: &Case) -> Result<(), StripeFault> {
    let (text, data, footer, rows, wanted) = case;
    let schema = schema_of(alloc, text)?;
    let (info, bytes) = stripe_of(alloc, data, footer, *rows)?;
    let found = refusal(lines_one_by_one(alloc, &schema, info, &bytes).err())?;
    same_fault(rt, found, Some(*wanted));
    let found = refusal(lines_straight(alloc, &schema, info, &bytes).err())?;
    same_fault(rt, found, Some(*wanted));
    Ok(())
}

fn check_all(rt: &impl Abort, alloc: Global) -> Result<(), StripeFault> {
    for case in &REFUSED {
        check_case(rt, alloc, case)?;
    }
    Ok(())
}

#[test]
fn refused_stripes(rt: HostRuntime) {
    passes(&rt, check_all(&rt, rt.alloc()));
}
