//! Reads rows from the tokens of a text, down the tree of types (RFC 8259, "Values", "Objects", "Arrays"; types by the ORC
//! specification, "Types"). What isn't followed is declined, without a reason.
//!
//! Each row is read over one that is no longer needed, so that the room of its texts and lists is used again. Contracts say what
//! the new row is, whatever the old one was. After an error the cell may hold parts of both.
ghost use Rattle.std.specs.Prelude.{◌≡◌, ◌<◌, length, map, true, OnOk};
ghost use Rattle.orc_values.specs.Cells.{cells_of, pairs_of};
ghost use Rattle.orc_json_rows.specs.FieldNames.{is_distinct, are_distinct, all_differ};
ghost use Rattle.orc_json_rows.specs.JsonRows.{OrNull, JsonSpells, EachSpells, ArraySpells, PairSpells, PairsSpell, MapSpells, FieldsSpell, ObjectSpells};
ghost use Rattle.orc_values.specs.Shapes.{names_of};
ghost use Rattle.orc_values.specs.Views.{view, views, paired, shape, fields as fields_view};
ghost use Rattle.orc_json_reader.specs.Fronts.{ValueFront, ItemsFront, MembersFront, MembersSpell};

use crate::field_places::{come_to, end_at};
use crate::leaf_reading::read_scalar;
use crate::old_room::{
    cut_pairs, cut_rows, make_list, make_map, make_pair_room, make_row_room, make_struct,
};
use crate::unread::Unread;
use json::{Reader, Token};
use orc_values::{Field, MapPair, Row, Tree, Value};
use std::alloc::Global;

/// Reads the row that the next value spells, over the row in the cell. Arrays and objects may nest `depth` deep, the value itself
/// included.
///
/// # Errors
///
/// - `Declined`: the next value spells no row of the type, or is spelled in a way that isn't followed here. Read the text's
///   value (`row_from_json`) to find the row or the fault.
/// - `OutOfMemory`: memory ran out.
#[cycle(reading)]
pub fn read_value(
    alloc: Global,
    tree: &Tree,
    depth: usize,
    reader: &mut Reader<'_>,
    cell: &mut Row<'static>,
) -> Result<(), Unread>
    requires { is_distinct (shape tree.now) ≡ true }
    // If no struct of the type names a field twice and the call succeeds, then the tokens began with a value in which arrays
    // and objects nest at most `depth` deep, this value spells the new cell under the type, and the tokens after it, which are
    // fewer than before, are left.
    ensures found { OnOk result
        (ValueFront (λ d. JsonSpells (shape tree.now) d (view cell.new)) depth reader.old reader.new) }
    ensures shorter { OnOk result (length reader.new < length reader.old) }
{
    match tree {
        Tree::Scalar(kind, _) => read_scalar(alloc, *kind, reader, cell),
        Tree::List(element, _) => read_list(alloc, element, depth, reader, cell),
        Tree::Map(key, value, _) => read_map(alloc, key, value, depth, reader, cell),
        Tree::Struct(fields, _) => read_struct(alloc, fields, depth, reader, cell),
    }
}

/// Reads the row of a LIST that the next value spells, which is null or an array.
#[cycle(reading)]
#[inline(never)]
fn read_list(
    alloc: Global,
    element: &Tree,
    depth: usize,
    reader: &mut Reader<'_>,
    cell: &mut Row<'static>,
) -> Result<(), Unread>
    requires { is_distinct (shape element.now) ≡ true }
    ensures found { OnOk result (ValueFront
        (λ d. OrNull d (view cell.new) (ArraySpells (JsonSpells (shape element.now)) d (view cell.new))) depth reader.old reader.new) }
    ensures shorter { OnOk result (length reader.new < length reader.old) }
{
    match reader.next() {
        Some(Token::Null) => {
            *cell = None;
            Ok(())
        }
        Some(Token::BeginArray) if depth > 0 => {
            make_list(alloc, cell);
            match cell {
                Some(Value::List(rows)) => read_elements(alloc, element, depth - 1, reader, rows),
                _ => Err(Unread::Declined),
            }
        }
        _ => Err(Unread::Declined),
    }
}

/// Reads the row of a MAP that the next value spells, which is null or an array of arrays of two.
#[cycle(reading)]
#[inline(never)]
fn read_map(
    alloc: Global,
    key: &Tree,
    value: &Tree,
    depth: usize,
    reader: &mut Reader<'_>,
    cell: &mut Row<'static>,
) -> Result<(), Unread>
    requires keys { is_distinct (shape key.now) ≡ true }
    requires values { is_distinct (shape value.now) ≡ true }
    ensures found { OnOk result (ValueFront
        (λ d. OrNull d (view cell.new) (MapSpells (JsonSpells (shape key.now)) (JsonSpells (shape value.now)) d (view cell.new)))
        depth reader.old reader.new) }
    ensures shorter { OnOk result (length reader.new < length reader.old) }
{
    match reader.next() {
        Some(Token::Null) => {
            *cell = None;
            Ok(())
        }
        Some(Token::BeginArray) if depth > 0 => {
            make_map(alloc, cell);
            match cell {
                Some(Value::Map(pairs)) => read_pairs(alloc, key, value, depth - 1, reader, pairs),
                _ => Err(Unread::Declined),
            }
        }
        _ => Err(Unread::Declined),
    }
}

/// Reads the row of a STRUCT that the next value spells, which is null or an object.
#[cycle(reading)]
#[inline(never)]
fn read_struct(
    alloc: Global,
    fields: &Vec<Field>,
    depth: usize,
    reader: &mut Reader<'_>,
    cell: &mut Row<'static>,
) -> Result<(), Unread>
    requires names { all_differ (names_of (fields_view fields.now.items)) ≡ true }
    requires distinct { are_distinct (fields_view fields.now.items) ≡ true }
    ensures found { OnOk result (ValueFront (λ d. OrNull d (view cell.new)
        (ObjectSpells (names_of (fields_view fields.now.items))
        (λ cs. FieldsSpell (fields_view fields.now.items) d cs) d (view cell.new))) depth reader.old reader.new) }
    ensures shorter { OnOk result (length reader.new < length reader.old) }
{
    match reader.next() {
        Some(Token::Null) => {
            *cell = None;
            Ok(())
        }
        Some(Token::BeginObject) if depth > 0 => {
            make_struct(alloc, cell, fields.len())?;
            match cell {
                Some(Value::Struct(rows)) if rows.len() == fields.len() => {
                    read_fields(alloc, fields, depth - 1, reader, rows)
                }
                _ => Err(Unread::Declined),
            }
        }
        _ => Err(Unread::Declined),
    }
}

/// Reads the rows that an array's elements spell, up to its closing bracket.
#[cycle(reading)]
fn read_elements(
    alloc: Global,
    tree: &Tree,
    depth: usize,
    reader: &mut Reader<'_>,
    rows: &mut Vec<Row<'static>>,
) -> Result<(), Unread>
    requires { is_distinct (shape tree.now) ≡ true }
    ensures found { OnOk result (ItemsFront
        (λ ds. EachSpells (JsonSpells (shape tree.now)) ds (cells_of (views rows.new.items))) depth reader.old reader.new) }
    ensures shorter { OnOk result (length reader.new < length reader.old) }
{
    let mut count = 0;
    'elements: while !reader.take_end_array() {
        make_row_room(rows, count)?;
        read_value(alloc, tree, depth, reader, &mut rows[count])?;
        count += 1;
    }
    cut_rows(rows, count);
    Ok(())
}

/// Reads the key and the value that the next value spells, an array of two.
#[cycle(reading)]
fn read_pair(
    alloc: Global,
    key: &Tree,
    value: &Tree,
    depth: usize,
    reader: &mut Reader<'_>,
    pair: &mut MapPair<'static>,
) -> Result<(), Unread>
    requires keys { is_distinct (shape key.now) ≡ true }
    requires values { is_distinct (shape value.now) ≡ true }
    ensures found { OnOk result (ValueFront
        (λ d. PairSpells (JsonSpells (shape key.now)) (JsonSpells (shape value.now)) d (view pair.new.key) (view pair.new.value))
        depth reader.old reader.new) }
    ensures shorter { OnOk result (length reader.new < length reader.old) }
{
    let Some(Token::BeginArray) = reader.next() else {
        return Err(Unread::Declined);
    };
    if depth == 0 {
        return Err(Unread::Declined);
    }
    read_value(alloc, key, depth - 1, reader, &mut pair.key)?;
    read_value(alloc, value, depth - 1, reader, &mut pair.value)?;
    if !reader.take_end_array() {
        return Err(Unread::Declined);
    }
    Ok(())
}

/// Reads the pairs that an array's elements spell, up to its closing bracket.
#[cycle(reading)]
fn read_pairs(
    alloc: Global,
    key: &Tree,
    value: &Tree,
    depth: usize,
    reader: &mut Reader<'_>,
    pairs: &mut Vec<MapPair<'static>>,
) -> Result<(), Unread>
    requires keys { is_distinct (shape key.now) ≡ true }
    requires values { is_distinct (shape value.now) ≡ true }
    ensures found { OnOk result (ItemsFront
        (λ ds. PairsSpell (JsonSpells (shape key.now)) (JsonSpells (shape value.now)) ds (pairs_of (map paired pairs.new.items)))
        depth reader.old reader.new) }
    ensures shorter { OnOk result (length reader.new < length reader.old) }
{
    let mut count = 0;
    'pairs: while !reader.take_end_array() {
        make_pair_room(pairs, count)?;
        read_pair(alloc, key, value, depth, reader, &mut pairs[count])?;
        count += 1;
    }
    cut_pairs(pairs, count);
    Ok(())
}

/// Reads the rows of a struct's fields that an object's members spell, up to its closing brace. If a key comes twice, its last
/// value counts. If a field's key is missing, the field is null.
#[cycle(reading)]
fn read_fields(
    alloc: Global,
    fields: &Vec<Field>,
    depth: usize,
    reader: &mut Reader<'_>,
    rows: &mut Vec<Row<'static>>,
) -> Result<(), Unread>
    requires names { all_differ (names_of (fields_view fields.now.items)) ≡ true }
    requires distinct { are_distinct (fields_view fields.now.items) ≡ true }
    requires as_many { length rows.old.items ≡ length fields.now.items }
    ensures found { OnOk result (MembersFront
        (λ ms. MembersSpell (fields_view fields.now.items) ms (cells_of (views rows.new.items))) depth reader.old reader.new) }
    ensures shorter { OnOk result (length reader.new < length reader.old) }
{
    // rows before this place are read, or null if no key has named them yet; those from it on are the old ones
    let mut next = 0;
    'members: while let Some(name) = reader.next_key()? {
        let Some(place) = come_to(fields, name, &mut next, rows) else {
            return Err(Unread::Declined);
        };
        read_value(alloc, &fields[place].tree, depth, reader, &mut rows[place])?;
    }
    end_at(rows, next);
    Ok(())
}
