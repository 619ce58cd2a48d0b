//! How many rows a stripe may have at most. Structs are counted at once.

use orc_column_walk::walk_columns;
use orc_directory::{Located, StripeFault, check_directory, locate};
use orc_types::Schema;
use orc_values::Tree;
use orc_wire::{Message, StripeFooter};
use std::alloc::Global;

/// The encodings of four columns, and no stream.
const FOOTER: &[u8] = &[
    0x12, 0x02, 0x08, 0x00, 0x12, 0x02, 0x08, 0x00, 0x12, 0x02, 0x08, 0x00, 0x12, 0x02, 0x08, 0x00,
];

/// The schema of a text that has one.
fn schema_of(alloc: Global, text: &str) -> Result<Schema, StripeFault> {
    match Schema::parse(alloc, text) {
        Ok(schema) => Ok(schema),
        Err(_) => Err(StripeFault::OutOfMemory),
    }
}

/// The footer of bytes that are one.
fn footer_of(alloc: Global, bytes: &[u8]) -> Result<StripeFooter, StripeFault> {
    match StripeFooter::read(alloc, bytes) {
        Ok(footer) => Ok(footer),
        Err(_) => Err(StripeFault::OutOfMemory),
    }
}

/// The verdict on a stripe of so many rows.
fn verdict(
    alloc: Global,
    schema: &Schema,
    data: &[u8],
    footer: &StripeFooter,
    rows: u64,
) -> Result<(), StripeFault> {
    let width = schema.width();
    if let Err(fault) = check_directory(
        alloc,
        width,
        data.len() as u64,
        footer.streams.as_slice(),
    ) {
        return Err(fault);
    }
    if footer.columns.as_slice().len() < width {
        return Err(StripeFault::BadEncoding(width));
    }
    let located = locate(alloc, footer, data)?;
    walk_columns(alloc, schema.tree(), footer, &located, rows)
}

/// The verdict on so many rows of structs in structs.
fn structs(alloc: Global, rows: u64) -> Result<(), StripeFault> {
    let schema = schema_of(alloc, "struct<s:struct<>,t:struct<u:struct<>>>")?;
    let footer = footer_of(alloc, FOOTER)?;
    verdict(alloc, &schema, &[], &footer, rows)
}

#[test]
fn most_rows(rt: HostRuntime) {
    assert!(&rt; structs(rt.alloc(), 2147483647) == Ok(()));
    assert!(&rt; structs(rt.alloc(), 2147483648) == Err(StripeFault::TooMany(0)));
}
