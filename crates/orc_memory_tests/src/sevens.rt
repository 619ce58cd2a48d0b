//! What several tests hand to their calls.
use orc_test_kit::{FailSink, Full};
use orc_types::{Schema, TypeFault};
use orc_values::{Row, Value};
use std::alloc::{AllocError, Global};

/// `Schema::parse`, without its contract.
fn parsed(alloc: Global, text: &str) -> Result<Schema, TypeFault> {
    Schema::parse(alloc, text)
}

/// A schema of this text, once there is memory for it.
pub(crate) fn schema_of(alloc: Global, text: &str) -> Result<Schema, TypeFault> {
    match parsed(alloc, text) {
        Err(TypeFault::OutOfMemory) => parsed(alloc, text),
        made => made,
    }
}

/// An output with room for any file here, once there is memory for it. It wants none later.
pub(crate) fn output(alloc: Global) -> Result<FailSink, AllocError> {
    match FailSink::new(alloc, 200, 200, Full::Fails) {
        Err(AllocError) => FailSink::new(alloc, 200, 200, Full::Fails),
        made => made,
    }
}

/// The number that a value is.
fn int_of(value: &Row<'_>) -> Option<i64> {
    match value {
        Some(Value::Int(number)) => Some(*number),
        _ => None,
    }
}

/// The number in a struct with one field.
fn number(row: &Row<'_>) -> Option<i64> {
    let Some(Value::Struct(fields)) = row else {
        return None;
    };
    match fields.as_slice() {
        [field] => int_of(field),
        _ => None,
    }
}

/// Whether a row has this number.
pub(crate) fn has_number(row: &Row<'_>, wanted: i64) -> bool {
    number(row) == Some(wanted)
}

/// Whether the rows have these numbers.
pub(crate) fn have_numbers(rows: &[Row<'_>], wanted: &[i64]) -> bool {
    if rows.len() != wanted.len() {
        return false;
    }
    for (row, wanted) in rows.iter().zip(wanted) {
        if !has_number(row, *wanted) {
            return false;
        }
    }
    true
}
