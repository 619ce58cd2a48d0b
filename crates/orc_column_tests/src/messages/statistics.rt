//! Tests of the statistics of columns: each kind of record, with parts that are missing.
use super::*;

/// A record of each kind, some with a part missing, and 2^64-1 values, with what is written; a record
/// without a part isn't.
static COLUMNS: [(&'static [u8], &'static [u8]); 13] = [
    (
        &[
            0x08, 0x03, 0x12, 0x06, 0x08, 0x0e, 0x10, 0x0e, 0x18, 0x2a, 0x50, 0x00,
        ],
        &[
            0x08, 0x03, 0x12, 0x06, 0x08, 0x0e, 0x10, 0x0e, 0x18, 0x2a, 0x50, 0x00,
        ],
    ),
    (
        &[0x08, 0x03, 0x22, 0x05, 0x0a, 0x00, 0x12, 0x01, 0x62],
        &[0x08, 0x03, 0x22, 0x05, 0x0a, 0x00, 0x12, 0x01, 0x62],
    ),
    (
        &[
            0x08, 0xff, 0xff, 0xff, 0xff, 0xff, 0xff, 0xff, 0xff, 0xff, 0x01, 0x2a, 0x03, 0x0a,
            0x01, 0x05, 0x50, 0x01,
        ],
        &[
            0x08, 0xff, 0xff, 0xff, 0xff, 0xff, 0xff, 0xff, 0xff, 0xff, 0x01, 0x2a, 0x03, 0x0a,
            0x01, 0x05, 0x50, 0x01,
        ],
    ),
    (
        &[0x08, 0x01, 0x3a, 0x06, 0x08, 0xfe, 0xff, 0xff, 0xff, 0x0f],
        &[0x08, 0x01, 0x3a, 0x06, 0x08, 0xfe, 0xff, 0xff, 0xff, 0x0f],
    ),
    (
        &[0x08, 0x01, 0x42, 0x02, 0x08, 0x0a],
        &[0x08, 0x01, 0x42, 0x02, 0x08, 0x0a],
    ),
    // both texts and their lengths' sum
    (
        &[
            0x08, 0x02, 0x22, 0x08, 0x0a, 0x01, 0x61, 0x12, 0x01, 0x62, 0x18, 0x04,
        ],
        &[
            0x08, 0x02, 0x22, 0x08, 0x0a, 0x01, 0x61, 0x12, 0x01, 0x62, 0x18, 0x04,
        ],
    ),
    // two buckets, read unpacked
    (
        &[0x08, 0x0c, 0x2a, 0x05, 0x08, 0x05, 0x08, 0xac, 0x02],
        &[0x08, 0x0c, 0x2a, 0x05, 0x0a, 0x03, 0x05, 0xac, 0x02],
    ),
    (&[0x08, 0x00], &[0x08, 0x00]),
    (&[0x08, 0x01, 0x12, 0x00], &[0x08, 0x01]),
    // numbers of children, in another order with the total told twice, the total alone, and none
    (
        &[
            0x08, 0x04, 0x50, 0x01, 0x62, 0x06, 0x08, 0x00, 0x10, 0x02, 0x18, 0x05,
        ],
        &[
            0x08, 0x04, 0x50, 0x01, 0x62, 0x06, 0x08, 0x00, 0x10, 0x02, 0x18, 0x05,
        ],
    ),
    (
        &[
            0x62, 0x08, 0x18, 0x07, 0x10, 0x02, 0x08, 0x00, 0x18, 0x05, 0x08, 0x04,
        ],
        &[0x08, 0x04, 0x62, 0x06, 0x08, 0x00, 0x10, 0x02, 0x18, 0x05],
    ),
    (
        &[0x08, 0x00, 0x62, 0x02, 0x18, 0x05],
        &[0x08, 0x00, 0x62, 0x02, 0x18, 0x05],
    ),
    (&[0x08, 0x04, 0x62, 0x00], &[0x08, 0x04]),
];

static NO_COLUMNS: [(&'static [u8], WireFault); 9] = [
    (&[0x12, 0x00, 0x12, 0x00], WireFault::RepeatedMessage(2)),
    (
        &[0x12, 0x00, 0x12, 0x01, 0x80],
        WireFault::RepeatedMessage(2),
    ),
    (&[0x08, 0x03, 0x12, 0x05, 0x08], WireFault::Short(2)),
    (&[0x08, 0x03, 0x12, 0x02, 0x08, 0x80], WireFault::Short(4)),
    (
        &[0x3a, 0x06, 0x08, 0x80, 0x80, 0x80, 0x80, 0x10],
        WireFault::ValueRange(2),
    ),
    (&[0x62, 0x00, 0x62, 0x00], WireFault::RepeatedMessage(2)),
    (
        &[
            0x08, 0x04, 0x50, 0x01, 0x62, 0x06, 0x08, 0x00, 0x10, 0x02, 0x18, 0x05, 0x62, 0x01,
            0x80,
        ],
        WireFault::RepeatedMessage(12),
    ),
    (&[0x62, 0x02, 0x08, 0x80], WireFault::Short(2)),
    (&[0x62, 0x03, 0x08, 0x01, 0x80], WireFault::Short(4)),
];

#[test]
fn stripes(rt: HostRuntime) -> Result<(), Fail> {
    let metadata = &[
        0x0a, 0x14, 0x0a, 0x04, 0x08, 0x03, 0x50, 0x00, 0x0a, 0x0c, 0x08, 0x03, 0x12, 0x06, 0x08,
        0x0e, 0x10, 0x0e, 0x18, 0x2a, 0x50, 0x00,
    ];
    // of a file without stripes, of one and of two
    let twice = [*metadata, *metadata];
    let all = twice.as_flattened();
    check_metadata(&rt, rt.alloc(), &all[..0], 0)?;
    check_metadata(&rt, rt.alloc(), &all[..22], 1)?;
    check_metadata(&rt, rt.alloc(), all, 2)?;
    Ok(())
}

/// The text is of statistics of so many stripes, and is written so again.
fn check_metadata(
    rt: &impl Abort,
    alloc: Global,
    text: &[u8],
    stripes: usize,
) -> Result<(), WireFault> {
    let (message, out) = both_ways::<Metadata>(alloc, text)?;
    check_same(
        rt,
        "stripes",
        &message.stripe_stats.as_slice().len(),
        &stripes,
    );
    check_list(rt, "metadata again", &out, text);
    Ok(())
}

/// Two groups of rows, of which one has statistics.
static INDEX: [u8; 27] = [
    0x0a, 0x12, 0x0a, 0x02, 0x00, 0x00, 0x12, 0x0c, 0x08, 0x02, 0x12, 0x06, 0x08, 0x02, 0x10, 0x04,
    0x18, 0x06, 0x50, 0x00, 0x0a, 0x05, 0x0a, 0x03, 0x05, 0xac, 0x02,
];

#[test]
fn indexes(rt: HostRuntime) -> Result<(), Fail> {
    check_index(&rt, rt.alloc())?;
    check_unpacked(&rt, rt.alloc())?;
    Ok(())
}

fn check_index(rt: &impl Abort, alloc: Global) -> Result<(), WireFault> {
    let (index, out) = both_ways::<RowIndexMsg>(alloc, &INDEX)?;
    check_list(rt, "an index again", &out, &INDEX);
    check_entries(rt, index.entries.as_slice());
    Ok(())
}

/// The positions of the index's two entries.
fn check_entries(rt: &impl Abort, entries: &[RowIndexEntry]) {
    let positions: [&[u64]; 2] = [&[0, 0], &[5, 300]];
    check_same(rt, "entries", &entries.len(), &2);
    for (entry, answer) in entries.iter().zip(positions) {
        check_list(rt, "positions", entry.positions.as_slice(), answer);
    }
}

/// Positions unpacked, packed and unpacked again.
fn check_unpacked(rt: &impl Abort, alloc: Global) -> Result<(), WireFault> {
    let unpacked = [0x08, 0x00, 0x0a, 0x02, 0xac, 0x02, 0x08, 0x05];
    let entry = read_message::<RowIndexEntry>(alloc, &unpacked)?;
    check_list(rt, "positions", entry.positions.as_slice(), &[0, 300, 5]);
    Ok(())
}

#[test]
fn columns(rt: HostRuntime) -> Result<(), Fail> {
    let alloc = rt.alloc();
    for (text, canonical) in COLUMNS {
        check_written::<ColumnStats>(&rt, alloc, text, canonical);
    }
    check_only_sum(&rt, alloc)?;
    check_refused::<ColumnStats>(&rt, alloc, &NO_COLUMNS);
    Ok(())
}

/// A sum alone, and a field that isn't known, whose bytes are no message.
fn check_only_sum(rt: &impl Abort, alloc: Global) -> Result<(), WireFault> {
    let only_sum = [0x12, 0x02, 0x18, 0x01, 0x6a, 0x03, 0x08, 0x01, 0x80];
    let stats = read_message::<ColumnStats>(alloc, &only_sum)?;
    check_same(rt, "values", &stats.number_of_values, &0);
    check_same(rt, "nulls", &stats.has_null, &None);
    let integers = IntegerStatistics {
        minimum: None,
        maximum: None,
        sum: Some(-1),
    };
    check_same(rt, "integers", &stats.int_statistics, &Some(integers));
    Ok(())
}

/// Texts of a row index's entry, and the fault of each, if it has one.
static TESTED: [(&'static [u8], Option<WireFault>); 10] = [
    (&[], None),
    // positions 0 and 300, packed, and statistics of integers with a minimum
    (
        &[
            0x0a, 0x03, 0x00, 0xac, 0x02, 0x12, 0x06, 0x08, 0x02, 0x12, 0x02, 0x08, 0x02,
        ],
        None,
    ),
    // a field that isn't known, with bytes that are no message
    (&[0x08, 0x05, 0x6a, 0x03, 0x08, 0x01, 0x80], None),
    // a varint without its end, among packed positions, and as a number of values
    (
        &[0x08, 0x01, 0x0a, 0x02, 0x00, 0x80],
        Some(WireFault::Short(2)),
    ),
    (
        &[0x0a, 0x01, 0x00, 0x12, 0x02, 0x08, 0x80],
        Some(WireFault::Short(5)),
    ),
    // wire type 3, in the entry and in its statistics
    (&[0x08, 0x01, 0x13], Some(WireFault::BadWireType(2))),
    (
        &[0x12, 0x03, 0x08, 0x01, 0x0b],
        Some(WireFault::BadWireType(4)),
    ),
    // statistics twice, and statistics of integers twice within them
    (
        &[0x12, 0x00, 0x12, 0x00],
        Some(WireFault::RepeatedMessage(2)),
    ),
    (
        &[0x12, 0x06, 0x08, 0x01, 0x12, 0x00, 0x12, 0x00],
        Some(WireFault::RepeatedMessage(6)),
    ),
    // buckets whose second count, packed, has no end
    (
        &[0x12, 0x07, 0x2a, 0x05, 0x08, 0x01, 0x0a, 0x01, 0x80],
        Some(WireFault::Short(6)),
    ),
];

/// What a test of the text answers.
fn check_tested<M: Message>(rt: &impl Abort, what: &str, text: &[u8], fault: Option<WireFault>) {
    check_same(rt, what, &M::is_message(text).err(), &fault);
}

#[test]
fn tested(rt: HostRuntime) -> Result<(), Fail> {
    for (text, fault) in TESTED {
        check_tested::<RowIndexEntry>(&rt, "an entry", text, fault);
    }
    check_tested::<RowIndexMsg>(&rt, "an index", &INDEX, None);
    let cut = Some(WireFault::Short(20));
    check_tested::<RowIndexMsg>(&rt, "an index cut off", &INDEX[..26], cut);
    // 2^32, and a type without its kind
    let large = [0x08, 0x80, 0x80, 0x80, 0x80, 0x10];
    let range = Some(WireFault::ValueRange(0));
    check_tested::<Encoding>(&rt, "a kind", &large, range);
    check_tested::<TypeMsg>(&rt, "a type", &[0x10, 0x01], Some(WireFault::Missing));
    Ok(())
}
