//! Copies of rows that borrow nothing.
ghost use Rattle.std.specs.Prelude.{◌≡◌, IfOk, map};
ghost use Rattle.orc_values.specs.Views.{view, views, paired, cell_of_value};

use crate::value::{MapPair, Row, Value};
use std::alloc::{AllocError, Global};
use std::borrow::{CowSlice, CowStr};

/// Returns a copy of a row that owns its texts and bytes, so it outlives what the row was borrowed from.
///
/// # Errors
///
/// `AllocError`, if there is no memory.
pub fn owned(alloc: Global, row: &Row<'_>) -> Result<Row<'static>, AllocError>
    // The returned copy is the same row.
    ensures { IfOk result (λ copy. view copy ≡ view row.now) }
{
    match row {
        None => Ok(None),
        Some(value) => Ok(Some(owned_value(alloc, value)?)),
    }
}

/// Returns a copy of a value that owns its texts and bytes.
#[cycle(copying)]
fn owned_value(alloc: Global, value: &Value<'_>) -> Result<Value<'static>, AllocError>
    ensures { IfOk result (λ copy. cell_of_value copy ≡ cell_of_value value.now) }
{
    match value {
        Value::Bool(truth) => Ok(Value::Bool(*truth)),
        Value::Int(number) => Ok(Value::Int(*number)),
        Value::Date(day) => Ok(Value::Date(*day)),
        Value::Text(text) => Ok(Value::Text(CowStr::Owned(String::from_str(
            alloc,
            text.as_str(),
        )?))),
        Value::Bytes(octets) => Ok(Value::Bytes(CowSlice::Owned(octets.as_slice().to_vec(alloc)?))),
        Value::List(items) => Ok(Value::List(owned_rows(alloc, items)?)),
        Value::Struct(items) => Ok(Value::Struct(owned_rows(alloc, items)?)),
        Value::Map(pairs) => Ok(Value::Map(owned_pairs(alloc, pairs)?)),
    }
}

/// Returns copies of rows that own their texts and bytes.
#[cycle(copying)]
fn owned_rows(alloc: Global, rows: &Vec<Row<'_>>) -> Result<Vec<Row<'static>>, AllocError>
    ensures { IfOk result (λ copies. views copies.items ≡ views rows.now.items) }
{
    let mut copies = Vec::new(alloc);
    for row in rows {
        let copy = match row {
            None => None,
            Some(value) => Some(owned_value(alloc, value)?),
        };
        copies.push(copy)?;
    }
    Ok(copies)
}

/// Returns copies of pairs that own their texts and bytes.
#[cycle(copying)]
fn owned_pairs(alloc: Global, pairs: &Vec<MapPair<'_>>) -> Result<Vec<MapPair<'static>>, AllocError>
    ensures { IfOk result (λ copies. map paired copies.items ≡ map paired pairs.now.items) }
{
    let mut copies = Vec::new(alloc);
    for pair in pairs {
        let key = match &pair.key {
            None => None,
            Some(value) => Some(owned_value(alloc, value)?),
        };
        let value = match &pair.value {
            None => None,
            Some(value) => Some(owned_value(alloc, value)?),
        };
        copies.push(MapPair { key, value })?;
    }
    Ok(copies)
}
