//! JSON of the values that contain no other, read and printed.
ghost use Rattle.std.specs.Prelude.{◌≡◌, IfOk, IfErr};
ghost use Rattle.serde_json.specs.Data.{number as json_number, string as json_string};
ghost use Rattle.serde_json.specs.View.{view as json_view, number_view};
ghost use Rattle.orc_values.specs.Cells.{bytes};
ghost use Rattle.orc_values.specs.Views.{view, cell_of_value};
ghost use Rattle.orc_json_rows.specs.JsonLeaves as spec;
ghost use Rattle.orc_values.specs.declared.kind.Scalar.TheVariants as kinds;

use crate::day_text::{day_of_text, day_text, has_text};
use crate::json_fault::JsonFault;
use hex::FromHexError;
use orc_values::{Row, Scalar, Value, int_fits};
use serde_json::{Number, Value as Json};
use std::alloc::{AllocError, Global};
use std::borrow::{CowSlice, CowStr};

/// The value that a value of JSON spells under a kind, and null for null: true and false under
/// BOOLEAN; integers under BYTE, SHORT, INT and LONG; strings under STRING; pairs of hexadecimal
/// digits under BINARY; `YYYY-MM-DD` or a number of days under DATE.
///
/// Refusals: `WrongShape`, `Range`, `BadDate`, `BadHex`, each where it stands; `OutOfMemory`.
pub(crate) fn leaf_from_json(
    alloc: Global,
    kind: Scalar,
    json: &Json,
) -> Result<Row<'static>, JsonFault>
    ensures found { IfOk result (λ row. spec.ScalarSpells kind (json_view json.now) (view row)) }
    ensures fault { IfErr result (λ fault. spec.LeafFault kind (json_view json.now) fault) }
{
    match json {
        Json::Null => Ok(None),
        Json::Bool(truth) => if matches!(kind, Scalar::Boolean) {
            Ok(Some(Value::Bool(*truth)))
        } else {
            Err(JsonFault::WrongShape)
        },
        Json::Number(number) => from_number(kind, number),
        Json::String(text) => leaf_from_text(alloc, kind, text.as_str()),
        Json::Array(_) | Json::Object(_) => Err(JsonFault::WrongShape),
    }
}

/// Whether values of the kind are written as numbers.
fn takes_numbers(kind: Scalar) -> bool
    ensures { result ≡ spec.takes_numbers kind }
{
    match kind {
        Scalar::Byte | Scalar::Short | Scalar::Int | Scalar::Long | Scalar::Date => true,
        Scalar::Boolean | Scalar::String | Scalar::Binary => false,
    }
}

/// The value that a number spells.
fn from_number(kind: Scalar, number: &Number) -> Result<Row<'static>, JsonFault>
    ensures found { IfOk result (λ row. spec.ScalarSpells kind (json_number (number_view number.now)) (view row)) }
    ensures fault { IfErr result (λ fault. spec.LeafFault kind (json_number (number_view number.now)) fault) }
{
    if !takes_numbers(kind) {
        return Err(JsonFault::WrongShape);
    }
    // A number of 64 bits without a sign may lie above every kind's range.
    let Some(integer) = number.as_i128() else {
        return Err(JsonFault::WrongShape);
    };
    let Ok(integer) = i64::try_from(integer) else {
        return Err(JsonFault::Range);
    };
    if matches!(kind, Scalar::Date) {
        return match i32::try_from(integer) {
            Ok(day) => Ok(Some(Value::Date(day))),
            Err(_) => Err(JsonFault::Range),
        };
    }
    if int_fits(kind, integer) {
        Ok(Some(Value::Int(integer)))
    } else {
        Err(JsonFault::Range)
    }
}

/// The value that a string of JSON spells under a kind: its text under STRING, the bytes of its pairs of hexadecimal digits
/// under BINARY, the day of its `YYYY-MM-DD` under DATE.
///
/// Refusals: `WrongShape`, `BadDate`, `BadHex`, each where it stands; `OutOfMemory`.
pub fn leaf_from_text(alloc: Global, kind: Scalar, text: &str) -> Result<Row<'static>, JsonFault>
    // What is read is a value of the kind that the string of JSON spells.
    ensures found { IfOk result (λ row. spec.ScalarSpells kind (json_string text.now) (view row)) }
    // A refusal is true of the string under this kind, or is want of memory.
    ensures fault { IfErr result (λ fault. spec.LeafFault kind (json_string text.now) fault) }
{
    match kind {
        Scalar::String => Ok(Some(Value::Text(CowStr::Owned(String::from_str(alloc, text)?)))),
        Scalar::Binary => from_hex(alloc, text),
        Scalar::Date => match day_of_text(text) {
            Some(day) => Ok(Some(Value::Date(day))),
            None => Err(JsonFault::BadDate),
        },
        Scalar::Boolean | Scalar::Byte | Scalar::Short | Scalar::Int | Scalar::Long => {
            Err(JsonFault::WrongShape)
        }
    }
}

/// The bytes that hexadecimal digits spell.
fn from_hex(alloc: Global, text: &str) -> Result<Row<'static>, JsonFault>
    ensures found { IfOk result (λ row. spec.ScalarSpells kinds.Binary (json_string text.now) (view row)) }
    ensures fault { IfErr result (λ fault. spec.LeafFault kinds.Binary (json_string text.now) fault) }
{
    match hex::decode(alloc, text) {
        Ok(bytes) => Ok(Some(Value::Bytes(CowSlice::Owned(bytes)))),
        Err(FromHexError::OutOfMemory) => Err(JsonFault::OutOfMemory),
        Err(_) => Err(JsonFault::BadHex),
    }
}

/// The value of JSON for a value that contains no other: a date as `YYYY-MM-DD` in the years 0001
/// to 9999 and as a number else, bytes as hexadecimal digits in lower case.
///
/// Refusal: memory that ran out.
pub(crate) fn leaf_to_json(alloc: Global, value: &Value<'_>) -> Result<Json, AllocError>
    requires { spec.IsLeaf (cell_of_value value.now) }
    ensures found { IfOk result (λ json. spec.LeafPrints (cell_of_value value.now) (json_view json)) }
{
    match value {
        Value::Bool(truth) => Ok(Json::Bool(*truth)),
        Value::Int(number) => Ok(Json::from(*number)),
        Value::Date(day) => date_to_json(alloc, *day),
        Value::Text(text) => Ok(Json::String(String::from_str(alloc, text.as_str())?)),
        Value::Bytes(bytes) => bytes_to_json(alloc, bytes.as_slice()),
        Value::List(_) | Value::Struct(_) | Value::Map(_) => unreachable!(),
    }
}

/// The value of JSON for a date.
fn date_to_json(alloc: Global, day: i32) -> Result<Json, AllocError>
    ensures found { IfOk result (λ json. json_view json ≡ spec.date_json day) }
{
    if has_text(day) {
        Ok(Json::String(day_text(alloc, day)?))
    } else {
        Ok(Json::from(day))
    }
}

/// The value of JSON for bytes.
fn bytes_to_json(alloc: Global, octets: &[u8]) -> Result<Json, AllocError>
    ensures found { IfOk result (λ json. json_view json ≡ spec.atom_json (bytes octets.now)) }
{
    Ok(Json::String(hex::encode(alloc, octets)?))
}
