//! Values that contain no other value: each is one token (RFC 8259, "Values", "Numbers", "Strings").
ghost use Rattle.std.specs.Prelude.{◌≡◌, ◌<◌, ℕ, length, Some, OnOk, option_map, string_bytes};
ghost use Rattle.json.specs.Reads.{token_of};
ghost use Rattle.serde_json.specs.Data.{Data, boolean, number, string};
ghost use Rattle.serde_json.specs.Read.{number_of};
ghost use Rattle.orc_values.specs.Cells.{leaf, text as spec_text};
ghost use Rattle.orc_json_rows.specs.JsonLeaves.{IsInteger, ScalarSpells};
ghost use Rattle.orc_values.specs.declared.kind.Scalar.TheVariants.{Date};
ghost use Rattle.orc_values.specs.Views.{view};
ghost use Rattle.orc_json_reader.specs.Fronts.{token_data, ValueFront};

use crate::integers::integer_of;
use crate::old_room::is_text_kept;
use crate::unread::Unread;
use json::{Reader, Token};
use orc_json_rows::{JsonFault, leaf_from_text};
use orc_values::{Row, Scalar, Value, int_fits};
use std::alloc::{AllocError, Global};
use std::borrow::CowStr;

/// Puts the value of the kind that true or false spells.
fn put_bool(kind: Scalar, truth: bool, cell: &mut Row<'static>) -> Result<(), Unread>
    ensures { OnOk result (ScalarSpells kind (boolean truth) (view cell.new)) }
{
    if !matches!(kind, Scalar::Boolean) {
        return Err(Unread::Declined);
    }
    *cell = Some(Value::Bool(truth));
    Ok(())
}

/// Puts the date that an integer spells.
fn put_day(integer: i64, cell: &mut Row<'static>) -> Result<(), Unread>
    ensures { OnOk result ((d : Data) → IsInteger d integer → ScalarSpells Date d (view cell.new)) }
{
    let Ok(day) = i32::try_from(integer) else {
        return Err(Unread::Declined);
    };
    *cell = Some(Value::Date(day));
    Ok(())
}

/// Puts the value of the kind that an integer spells.
fn put_integer(kind: Scalar, integer: i64, cell: &mut Row<'static>) -> Result<(), Unread>
    ensures { OnOk result ((d : Data) → IsInteger d integer → ScalarSpells kind d (view cell.new)) }
{
    if matches!(kind, Scalar::Date) {
        return put_day(integer, cell);
    }
    if !int_fits(kind, integer) {
        return Err(Unread::Declined);
    }
    *cell = Some(Value::Int(integer));
    Ok(())
}

/// Puts the value of the kind that a number spells.
// (out of line, as are the texts: otherwise `read_scalar` would clear the room of all their locals for each value)
#[inline(never)]
fn put_number(kind: Scalar, text: &str, cell: &mut Row<'static>) -> Result<(), Unread>
    ensures { OnOk result
        ((d : Data) × (option_map number (number_of text.now) ≡ Some d) × ScalarSpells kind d (view cell.new)) }
{
    match integer_of(text) {
        Some(integer) => put_integer(kind, integer, cell),
        None => Err(Unread::Declined),
    }
}

/// Puts a text over an old row, in the room of the old row's text if that is kept.
#[inline(never)]
fn write_text(alloc: Global, text: &str, cell: &mut Row<'static>) -> Result<(), AllocError>
    ensures { OnOk result (view cell.new ≡ leaf (spec_text text.now)) }
{
    if let Some(Value::Text(CowStr::Owned(old))) = cell {
        if is_text_kept(old.capacity(), text.len()) {
            old.clear();
            return old.push_str(text);
        }
    }
    *cell = Some(Value::Text(CowStr::Owned(String::from_str(alloc, text)?)));
    Ok(())
}

/// Puts the value that a string spells, of any kind but STRING.
#[inline(never)]
fn put_spelled(
    alloc: Global,
    kind: Scalar,
    text: &str,
    cell: &mut Row<'static>,
) -> Result<(), Unread>
    ensures { OnOk result (ScalarSpells kind (string text.now) (view cell.new)) }
{
    match leaf_from_text(alloc, kind, text) {
        Ok(row) => {
            *cell = row;
            Ok(())
        }
        Err(JsonFault::OutOfMemory) => Err(Unread::OutOfMemory),
        Err(_) => Err(Unread::Declined),
    }
}

/// Puts the value of the kind that a string spells.
fn put_string(
    alloc: Global,
    kind: Scalar,
    text: &str,
    cell: &mut Row<'static>,
) -> Result<(), Unread>
    ensures { OnOk result (ScalarSpells kind (string text.now) (view cell.new)) }
{
    if matches!(kind, Scalar::String) {
        write_text(alloc, text, cell)?;
        return Ok(());
    }
    put_spelled(alloc, kind, text, cell)
}

/// Reads the value of the kind that a single token spells. Null is null, whatever the kind.
fn read_leaf(
    alloc: Global,
    kind: Scalar,
    token: Token<'_>,
    cell: &mut Row<'static>,
) -> Result<(), Unread>
    ensures { OnOk result
        ((d : Data) × (token_data (token_of token.entry) ≡ Some d) × ScalarSpells kind d (view cell.new)) }
{
    match token {
        Token::Null => {
            *cell = None;
            Ok(())
        }
        Token::Bool(truth) => put_bool(kind, truth, cell),
        Token::Number(text) => put_number(kind, text, cell),
        Token::String(text) => put_string(alloc, kind, text, cell),
        Token::BeginObject
        | Token::EndObject
        | Token::BeginArray
        | Token::EndArray
        | Token::Key(_)
        | Token::Bad => Err(Unread::Declined),
    }
}

/// Reads the value of the kind that the next value spells.
// (out of line, as its siblings of the other types: otherwise `read_value` would clear the room of all their locals for each value)
#[inline(never)]
pub(crate) fn read_scalar(
    alloc: Global,
    kind: Scalar,
    reader: &mut Reader<'_>,
    cell: &mut Row<'static>,
) -> Result<(), Unread>
    ensures found { OnOk result ((depth : ℕ)
        → ValueFront (λ d. ScalarSpells kind d (view cell.new)) depth reader.old reader.new) }
    ensures shorter { OnOk result (length reader.new < length reader.old) }
{
    match reader.next() {
        Some(token) => read_leaf(alloc, kind, token, cell),
        None => Err(Unread::Declined),
    }
}
