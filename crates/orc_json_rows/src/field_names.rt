//! The names of a struct's fields: whether one is given twice.
ghost use Rattle.std.specs.Prelude.{◌≡◌, IfOk, is_some, true};
ghost use Rattle.serde_json.specs.Find.{get_member};
ghost use Rattle.serde_json.specs.View.{members_view};
ghost use Rattle.orc_values.specs.Shapes.{names_of};
ghost use Rattle.orc_values.specs.Views.{shape, fields as fields_view};
ghost use Rattle.orc_json_rows.specs.FieldNames as spec;

use crate::json_printing::put;
use orc_values::{Field, Tree};
use serde_json::{Map, Value as Json};
use std::alloc::{AllocError, Global};

/// Whether some member has the key. It is looked up.
fn has_key(members: &Map<String, Json>, key: &str) -> bool
    ensures { result ≡ is_some (get_member key.now (members_view members.now.entries)) }
{
    members.contains_key(key)
}

/// Whether no two of the fields have the same name: each is looked up among those before it.
fn all_differ(alloc: Global, fields: &[Field]) -> Result<bool, AllocError>
    ensures { IfOk result (λ differ. differ ≡ spec.all_differ (names_of (fields_view fields.now))) }
{
    let mut seen = Map::new(alloc);
    for field in fields {
        let name = field.name.as_str();
        if has_key(&seen, name) {
            return Ok(false);
        }
        put(alloc, &mut seen, name, Json::Null)?;
    }
    Ok(true)
}

/// Whether no struct names a field twice.
#[cycle(distinct)]
pub fn is_distinct(alloc: Global, tree: &Tree) -> Result<bool, AllocError>
    // Unless memory is refused, the answer is whether no struct of the type names a field twice.
    ensures { IfOk result (λ distinct. distinct ≡ spec.is_distinct (shape tree.now)) }
{
    match tree {
        Tree::Scalar(_, _) => Ok(true),
        Tree::List(element, _) => is_distinct(alloc, element),
        Tree::Map(key, value, _) => {
            if !is_distinct(alloc, key)? {
                return Ok(false);
            }
            is_distinct(alloc, value)
        }
        Tree::Struct(fields, _) => {
            if !all_differ(alloc, fields)? {
                return Ok(false);
            }
            are_distinct(alloc, fields)
        }
    }
}

/// Whether no struct in the fields names a field twice.
#[cycle(distinct)]
fn are_distinct(alloc: Global, fields: &[Field]) -> Result<bool, AllocError>
    ensures { IfOk result (λ distinct. distinct ≡ spec.are_distinct (fields_view fields.now)) }
{
    for field in fields {
        if !is_distinct(alloc, &field.tree)? {
            return Ok(false);
        }
    }
    Ok(true)
}
