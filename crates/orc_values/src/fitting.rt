//! Tests whether a value is one of a type.
ghost use Rattle.std.specs.Prelude.{◌≡◌, map};
ghost use Rattle.orc_values.specs.Cells.{text, bytes, cells_of, pairs_of};
ghost use Rattle.orc_values.specs.Views.{view, views, paired, cell_of_value, shape, fields as fields_view};
ghost use Rattle.orc_values.specs.Fits as spec;

use crate::kind::Scalar;
use crate::tree::{Field, Tree};
use crate::value::{MapPair, Row, Value};

/// Returns whether a number is in the range of a column's kind, which is 8, 16, 32 or 64 bits with the sign. A kind
/// that has no whole numbers has no range.
pub fn int_fits(kind: Scalar, number: i64) -> bool
    // The call returns true if and only if `number` is in the range of `kind`, which has 8, 16, 32 or 64 bits with
    // the sign for `Byte`, `Short`, `Int` or `Long`; no number is in the range of another kind.
    ensures { result ≡ spec.int_fits kind number }
{
    match kind {
        Scalar::Byte => -128 <= number && number <= 127,
        Scalar::Short => -32768 <= number && number <= 32767,
        Scalar::Int => -2147483648 <= number && number <= 2147483647,
        Scalar::Long => true,
        Scalar::Boolean | Scalar::String | Scalar::Binary | Scalar::Date => false,
    }
}

/// Returns whether bytes are a value of the kind. Each byte is below 256, which needs no test.
fn bytes_fit(kind: Scalar, octets: &[u8]) -> bool
    ensures { result ≡ spec.atom_fits kind (bytes octets.now) }
{
    matches!(kind, Scalar::Binary)
}

/// Returns whether a text is a value of the kind. Each `str` is UTF-8, which needs no test.
fn text_fits(kind: Scalar, content: &str) -> bool
    ensures { result ≡ spec.atom_fits kind (text content.now) }
{
    matches!(kind, Scalar::String)
}

/// Returns whether a value is one of a kind that contains no other type.
fn scalar_fits(kind: Scalar, value: &Value<'_>) -> bool
    ensures { result ≡ spec.scalar_fits kind (cell_of_value value.now) }
{
    match value {
        Value::Bool(_) => matches!(kind, Scalar::Boolean),
        Value::Int(number) => int_fits(kind, *number),
        Value::Date(day) => {
            // (a day is an `i32`, so it fits the 32 bits of a date)
            let _day = *day;
            matches!(kind, Scalar::Date)
        }
        Value::Text(content) => text_fits(kind, content.as_str()),
        Value::Bytes(octets) => bytes_fit(kind, octets.as_slice()),
        Value::List(_) | Value::Struct(_) | Value::Map(_) => false,
    }
}

/// Returns whether a value is one of a type: it has the type's shape, any part of it may be null, and whole numbers
/// are in the ranges of their kinds. Each `str` is UTF-8, which needs no test.
#[cycle(value)]
pub fn value_fits(tree: &Tree, value: &Value<'_>) -> bool
    // The call returns true if and only if `value` has the type's shape, in which any part may be null, and each
    // whole number in it is in the range of its kind.
    ensures { result ≡ spec.fits (cell_of_value value.now) (shape tree.now) }
{
    match tree {
        Tree::Scalar(kind, _) => scalar_fits(*kind, value),
        Tree::List(element, _) => match value {
            Value::List(items) => all_fit(element, items),
            _ => false,
        },
        Tree::Map(key, value_tree, _) => match value {
            Value::Map(pairs) => pairs_fit(key, value_tree, pairs),
            _ => false,
        },
        Tree::Struct(fields, _) => match value {
            Value::Struct(items) => each_fits(fields, items),
            _ => false,
        },
    }
}

/// Returns whether all the rows are of the type.
#[cycle(value)]
fn all_fit(tree: &Tree, rows: &Vec<Row<'_>>) -> bool
    ensures { result ≡ spec.all_fit (cells_of (views rows.now.items)) (shape tree.now) }
{
    for row in rows {
        if let Some(value) = row {
            if !value_fits(tree, value) {
                return false;
            }
        }
    }
    true
}

/// Returns whether the key of a pair is of the type.
#[cycle(value)]
fn key_fits(tree: &Tree, pair: &MapPair<'_>) -> bool
    ensures { result ≡ spec.fits (view pair.now.key) (shape tree.now) }
{
    match &pair.key {
        None => true,
        Some(value) => value_fits(tree, value),
    }
}

/// Returns whether the value of a pair is of the type.
#[cycle(value)]
fn mapped_fits(tree: &Tree, pair: &MapPair<'_>) -> bool
    ensures { result ≡ spec.fits (view pair.now.value) (shape tree.now) }
{
    match &pair.value {
        None => true,
        Some(value) => value_fits(tree, value),
    }
}

/// Returns whether the keys of the pairs are of one type and the values of another.
#[cycle(value)]
fn pairs_fit(key: &Tree, value: &Tree, pairs: &Vec<MapPair<'_>>) -> bool
    ensures { result ≡ spec.pairs_fit (pairs_of (map paired pairs.now.items)) (shape key.now) (shape value.now) }
{
    for pair in pairs {
        if !key_fits(key, pair) {
            return false;
        }
        if !mapped_fits(value, pair) {
            return false;
        }
    }
    true
}

/// Returns whether there is one row for each field, and each row is of its field's type.
#[cycle(value)]
fn each_fits(fields: &Vec<Field>, rows: &Vec<Row<'_>>) -> bool
    ensures { result ≡ spec.each_fits (cells_of (views rows.now.items)) (fields_view fields.now.items) }
{
    if fields.len() != rows.len() {
        return false;
    }
    for (i, row) in rows.iter().enumerate() {
        let field = &fields[i];
        if let Some(value) = row {
            if !value_fits(&field.tree, value) {
                return false;
            }
        }
    }
    true
}
