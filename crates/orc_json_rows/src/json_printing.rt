//! Rows to JSON.
ghost use Rattle.std.specs.Prelude.{◌≡◌, IfOk, OnOk, true, map};
ghost use Rattle.serde_json.specs.Data.{no_members, put as spec_put};
ghost use Rattle.serde_json.specs.View.{view as json_view, members_view};
ghost use Rattle.orc_values.specs.Cells.{cells_of, pairs_of};
ghost use Rattle.orc_values.specs.Fits.{fits, all_fit, pairs_fit, each_fits};
ghost use Rattle.orc_values.specs.Views.{view, views, paired, shape, fields as fields_view};
ghost use Rattle.orc_json_rows.specs.JsonPrinting as spec;

use crate::json_leaf::leaf_to_json;
use orc_values::{Field, MapPair, Row, Tree, Value};
use serde_json::{Map, Value as Json};
use std::alloc::{AllocError, Global};

/// The JSON of a row of the type.
#[cycle(printing)]
pub fn json_of(alloc: Global, tree: &Tree, row: &Row<'_>) -> Result<Json, AllocError>
    requires { fits (view row.now) (shape tree.now) ≡ true }
    // If the row fits the type, then the returned JSON is the row's JSON under the type.
    ensures { IfOk result (λ json. json_view json ≡ spec.json_of (shape tree.now) (view row.now)) }
{
    let Some(value) = row else {
        return Ok(Json::Null);
    };
    match tree {
        Tree::Scalar(_, _) => leaf_to_json(alloc, value),
        Tree::List(element, _) => match value {
            Value::List(rows) => Ok(Json::Array(array_of(alloc, element, rows)?)),
            _ => unreachable!(),
        },
        Tree::Map(key, value_tree, _) => match value {
            Value::Map(pairs) => Ok(Json::Array(pairs_to(alloc, key, value_tree, pairs)?)),
            _ => unreachable!(),
        },
        Tree::Struct(fields, _) => match value {
            Value::Struct(rows) => Ok(Json::Object(object_of(alloc, fields, rows)?)),
            _ => unreachable!(),
        },
    }
}

/// The elements of a list's array.
#[cycle(printing)]
fn array_of(alloc: Global, tree: &Tree, rows: &Vec<Row<'_>>) -> Result<Vec<Json>, AllocError>
    requires { all_fit (cells_of (views rows.now.items)) (shape tree.now) ≡ true }
    ensures { IfOk result
        (λ array. map json_view array.items ≡ map (spec.json_of (shape tree.now)) (views rows.now.items)) }
{
    let mut array = Vec::new(alloc);
    for row in rows {
        array.push(json_of(alloc, tree, row)?)?;
    }
    Ok(array)
}

/// The members of a struct's object.
#[cycle(printing)]
fn object_of(
    alloc: Global,
    fields: &Vec<Field>,
    rows: &Vec<Row<'_>>,
) -> Result<Map<String, Json>, AllocError>
    requires { each_fits (cells_of (views rows.now.items)) (fields_view fields.now.items) ≡ true }
    ensures { IfOk result (λ object. members_view object.entries
        ≡ spec.members_json (fields_view fields.now.items) (cells_of (views rows.now.items)) no_members) }
{
    let mut object = Map::new(alloc);
    for (i, field) in fields.iter().enumerate() {
        let json = json_of(alloc, &field.tree, &rows[i])?;
        put(alloc, &mut object, field.name.as_str(), json)?;
    }
    Ok(object)
}

/// The arrays of two of a map's array.
#[cycle(printing)]
fn pairs_to(
    alloc: Global,
    key: &Tree,
    value: &Tree,
    pairs: &Vec<MapPair<'_>>,
) -> Result<Vec<Json>, AllocError>
    requires { pairs_fit (pairs_of (map paired pairs.now.items)) (shape key.now) (shape value.now) ≡ true }
    ensures { IfOk result (λ array. map json_view array.items
        ≡ map (λ p. spec.pair_json (spec.json_of (shape key.now) p.0) (spec.json_of (shape value.now) p.1))
        (map paired pairs.now.items)) }
{
    let mut array = Vec::new(alloc);
    for pair in pairs {
        let first = json_of(alloc, key, &pair.key)?;
        let second = json_of(alloc, value, &pair.value)?;
        array.push(two(alloc, first, second)?)?;
    }
    Ok(array)
}

/// An array of two.
fn two(alloc: Global, first: Json, second: Json) -> Result<Json, AllocError>
    ensures { IfOk result (λ json. json_view json ≡ spec.pair_json (json_view first) (json_view second)) }
{
    let mut items = Vec::new(alloc);
    items.push(first)?;
    items.push(second)?;
    Ok(Json::Array(items))
}

/// Puts a value at a key.
pub(crate) fn put(
    alloc: Global,
    object: &mut Map<String, Json>,
    key: &str,
    json: Json,
) -> Result<(), AllocError>
    ensures { OnOk result (members_view object.new.entries
        ≡ spec_put key.now (json_view json) (members_view object.old.entries)) }
{
    let key = String::from_str(alloc, key)?;
    drop(object.insert(key, json)?);
    Ok(())
}
