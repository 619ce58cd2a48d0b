//! JSON to rows.
ghost use Rattle.std.specs.Prelude.{◌≡◌, ◌≢◌, IfOk, IfErr, MatchOption, true, map};
ghost use Rattle.serde_json.specs.Data.{array, item, no_items};
ghost use Rattle.serde_json.specs.View.{view as json_view, items_view};
ghost use Rattle.orc_values.specs.Cells.{cells_of, pairs_of};
ghost use Rattle.orc_values.specs.Views.{view, views, paired, shape, fields as fields_view};
ghost use Rattle.orc_values.specs.Shapes.{names_of};
ghost use Rattle.orc_json_rows.specs.FieldNames.{is_distinct as spec_distinct, are_distinct};
ghost use Rattle.orc_json_rows.specs.KnownKeys.{count_keys};
ghost use Rattle.orc_json_rows.specs.JsonRows.{JsonSpells, EachSpells, PairsSpell, PairSpells, FieldsSpell};
ghost use Rattle.orc_json_rows.specs.JsonFaults.{FaultAt, PairFault, Somewhere, IsNoPair, InElement, InField};
ghost use Rattle.orc_json_rows.specs.declared.json_fault.JsonFault.TheVariants as fault;

use crate::json_fault::JsonFault;
use crate::json_leaf::leaf_from_json;
use orc_values::{Field, MapPair, Row, Tree, Value};
use serde_json::Value as Json;
use std::alloc::Global;

/// The row that the JSON value spells.
#[cycle(reading)]
pub fn row_of(alloc: Global, tree: &Tree, json: &Json) -> Result<Row<'static>, JsonFault>
    requires { spec_distinct (shape tree.now) ≡ true }
    // If no struct of the type names a field twice, then the JSON value spells a returned row under the type.
    ensures found { IfOk result (λ row. JsonSpells (shape tree.now) (json_view json.now) (view row)) }
    // If no struct of the type names a field twice and the error isn't `OutOfMemory`, then the JSON value, or a
    // value inside it that has a type in the tree, has this fault.
    ensures fault { IfErr result (λ e. e ≢ fault.OutOfMemory
        → Somewhere (FaultAt e) (shape tree.now) (json_view json.now)) }
{
    match tree {
        Tree::Scalar(kind, _) => leaf_from_json(alloc, *kind, json),
        Tree::List(element, _) => match json {
            Json::Null => Ok(None),
            Json::Array(items) => Ok(Some(Value::List(elements_of(alloc, element, items)?))),
            _ => Err(JsonFault::WrongShape),
        },
        Tree::Map(key, value, _) => match json {
            Json::Null => Ok(None),
            Json::Array(items) => Ok(Some(Value::Map(pairs_from(alloc, key, value, items)?))),
            _ => Err(JsonFault::WrongShape),
        },
        Tree::Struct(fields, _) => match json {
            Json::Null => Ok(None),
            Json::Object(members) => {
                let (rows, known) = fields_of(alloc, fields, json)?;
                if known != members.len() {
                    return Err(JsonFault::UnknownField);
                }
                Ok(Some(Value::Struct(rows)))
            }
            _ => Err(JsonFault::WrongShape),
        },
    }
}

/// The rows that the elements of an array spell.
#[cycle(reading)]
fn elements_of(
    alloc: Global,
    tree: &Tree,
    items: &Vec<Json>,
) -> Result<Vec<Row<'static>>, JsonFault>
    requires { spec_distinct (shape tree.now) ≡ true }
    ensures found { IfOk result
        (λ rows. EachSpells (JsonSpells (shape tree.now)) (items_view items.now.items) (cells_of (views rows.items))) }
    ensures fault { IfErr result (λ e. e ≢ fault.OutOfMemory
        → InElement (Somewhere (FaultAt e) (shape tree.now)) (array (items_view items.now.items))) }
{
    let mut rows = Vec::with_capacity(alloc, items.len())?;
    for item in items {
        rows.push(row_of(alloc, tree, item)?)?;
    }
    Ok(rows)
}

/// The parts of an array of two.
fn two_of(json: &Json) -> Option<(&Json, &Json)>
    ensures { MatchOption result (IsNoPair (json_view json.now))
        (λ p. json_view json.now ≡ array (item (json_view p.0.now) (item (json_view p.1.now) no_items))) }
{
    let Json::Array(items) = json else {
        return None;
    };
    let items = items.as_slice();
    if items.len() != 2 {
        return None;
    }
    Some((&items[0], &items[1]))
}

/// The key and the value that an array of two spells.
#[cycle(reading)]
fn pair_from(
    alloc: Global,
    key: &Tree,
    value: &Tree,
    json: &Json,
) -> Result<MapPair<'static>, JsonFault>
    requires keys { spec_distinct (shape key.now) ≡ true }
    requires values { spec_distinct (shape value.now) ≡ true }
    ensures found { IfOk result (λ pair. PairSpells (JsonSpells (shape key.now)) (JsonSpells (shape value.now))
        (json_view json.now) (view pair.key) (view pair.value)) }
    ensures fault { IfErr result (λ e. e ≢ fault.OutOfMemory
        → PairFault e (shape key.now) (shape value.now) (json_view json.now)) }
{
    let Some((first, second)) = two_of(json) else {
        return Err(JsonFault::WrongShape);
    };
    let key = row_of(alloc, key, first)?;
    let value = row_of(alloc, value, second)?;
    Ok(MapPair { key, value })
}

/// The pairs that the elements of an array spell.
#[cycle(reading)]
fn pairs_from(
    alloc: Global,
    key: &Tree,
    value: &Tree,
    items: &Vec<Json>,
) -> Result<Vec<MapPair<'static>>, JsonFault>
    requires keys { spec_distinct (shape key.now) ≡ true }
    requires values { spec_distinct (shape value.now) ≡ true }
    ensures found { IfOk result (λ pairs. PairsSpell (JsonSpells (shape key.now)) (JsonSpells (shape value.now))
        (items_view items.now.items) (pairs_of (map paired pairs.items))) }
    ensures fault { IfErr result (λ e. e ≢ fault.OutOfMemory
        → InElement (PairFault e (shape key.now) (shape value.now)) (array (items_view items.now.items))) }
{
    let mut pairs = Vec::with_capacity(alloc, items.len())?;
    for item in items {
        pairs.push(pair_from(alloc, key, value, item)?)?;
    }
    Ok(pairs)
}

/// The rows that an object spells, field by field, and how many of the fields it has.
#[cycle(reading)]
fn fields_of(
    alloc: Global,
    fields: &Vec<Field>,
    json: &Json,
) -> Result<(Vec<Row<'static>>, usize), JsonFault>
    requires { are_distinct (fields_view fields.now.items) ≡ true }
    ensures found { IfOk result
        (λ read. FieldsSpell (fields_view fields.now.items) (json_view json.now) (cells_of (views read.0.items))) }
    ensures known { IfOk result
        (λ read. read.1 ≡ count_keys (names_of (fields_view fields.now.items)) (json_view json.now)) }
    ensures fault { IfErr result (λ e. e ≢ fault.OutOfMemory
        → InField (FaultAt e) (fields_view fields.now.items) (json_view json.now)) }
{
    let mut rows = Vec::with_capacity(alloc, fields.len())?;
    let mut known = 0;
    for field in fields {
        let row = match json.get(field.name.as_str()) {
            None => None,
            Some(member) => {
                known += 1;
                row_of(alloc, &field.tree, member)?
            }
        };
        rows.push(row)?;
    }
    Ok((rows, known))
}
