//! A schema's tree to the list of its types, in pre-order.
ghost use Rattle.std.specs.Prelude.{◌≡◌, ◌+◌, ◌<◌, ◌^◌, ◌++◌, [], ◌∷◌, IfOk, OnOk, length};
ghost use Rattle.orc_values.specs.Shapes.{map_of, width, widths, names_of as spec_names, starts as spec_starts};
ghost use Rattle.orc_wire.specs.Types.{types as spec_types, fields_types};
ghost use Rattle.orc_values.specs.Views.{shape, fields as fields_view};

use crate::copies::copy_bytes;
use orc_values::{Field, LIST, MAP, STRUCT, Tree, width_of};
use orc_wire::{Bytes, Items, TypeMsg};
use std::alloc::{AllocError, Global};

/// Where the types of the fields begin, if the first begins there.
fn starts_of(alloc: Global, fields: &[Field], from: usize) -> Result<Vec<u32>, AllocError>
    requires { from + widths (fields_view fields.now) < 2 ^ 32 }
    ensures { IfOk result (λ starts. starts.items ≡ spec_starts (fields_view fields.now) from) }
{
    let mut starts = Vec::with_capacity(alloc, fields.len())?;
    let mut next = from;
    for field in fields {
        starts.push(next as u32)?;
        next += width_of(&field.tree);
    }
    Ok(starts)
}

/// The names of the fields.
fn names_of(alloc: Global, fields: &[Field]) -> Result<Vec<Bytes>, AllocError>
    ensures { IfOk result (λ names. names.items ≡ spec_names (fields_view fields.now)) }
{
    let mut names = Vec::with_capacity(alloc, fields.len())?;
    for field in fields {
        names.push(Items::from_vec(copy_bytes(alloc, field.name.as_bytes())?))?;
    }
    Ok(names)
}

/// A type of these parts, which keeps these bytes.
fn type_msg(
    alloc: Global,
    kind: u32,
    subtypes: Vec<u32>,
    names: Vec<Bytes>,
    kept: &[u8],
) -> Result<TypeMsg, AllocError>
    ensures { IfOk result
        (λ t. t ≡ record { kind = kind; subtypes = subtypes.items; field_names = names.items; kept = kept.now }) }
{
    Ok(TypeMsg {
        kind,
        subtypes: Items::from_vec(subtypes),
        field_names: Items::from_vec(names),
        kept: Items::from_vec(copy_bytes(alloc, kept)?),
    })
}

/// A map's type: its key's types begin at a place and are so many, and its value's types follow them.
fn map_msg(alloc: Global, next: usize, width: usize, kept: &[u8]) -> Result<TypeMsg, AllocError>
    requires { next + width < 2 ^ 32 }
    ensures { IfOk result (λ t. t
        ≡ record { kind = 11; subtypes = next ∷ (next + width) ∷ []; field_names = []; kept = kept.now }) }
{
    let mut subtypes = Vec::new(alloc);
    subtypes.push(next as u32)?;
    subtypes.push((next + width) as u32)?;
    type_msg(alloc, MAP, subtypes, Vec::new(alloc), kept)
}

/// Adds one type, made of these parts.
fn push_type(
    alloc: Global,
    types: &mut Vec<TypeMsg>,
    kind: u32,
    subtypes: Vec<u32>,
    names: Vec<Bytes>,
    kept: &[u8],
) -> Result<(), AllocError>
    ensures { OnOk result (types.new.items ≡ types.old.items
        ++ record { kind = kind; subtypes = subtypes.items; field_names = names.items; kept = kept.now } ∷ []) }
{
    types.push(type_msg(alloc, kind, subtypes, names, kept)?)?;
    Ok(())
}

/// Adds a list's type. Its element's types follow it.
fn push_list(alloc: Global, types: &mut Vec<TypeMsg>, kept: &[u8]) -> Result<(), AllocError>
    requires { length types.old.items + 1 < 2 ^ 32 }
    ensures { OnOk result (types.new.items ≡ types.old.items
        ++ record { kind = 10; subtypes = (length types.old.items + 1) ∷ []; field_names = []; kept = kept.now } ∷ []) }
{
    let next = types.len() + 1;
    let subtypes = [next as u32].to_vec(alloc)?;
    push_type(alloc, types, LIST, subtypes, Vec::new(alloc), kept)
}

/// Adds a struct's type. Its fields' types follow it.
fn push_struct(
    alloc: Global,
    types: &mut Vec<TypeMsg>,
    fields: &[Field],
    kept: &[u8],
) -> Result<(), AllocError>
    requires { length types.old.items + (1 + widths (fields_view fields.now)) < 2 ^ 32 }
    ensures { OnOk result (types.new.items ≡ types.old.items
        ++ record {
          kind = 12;
          subtypes = spec_starts (fields_view fields.now) (length types.old.items + 1);
          field_names = spec_names (fields_view fields.now);
          kept = kept.now;
        } ∷ []) }
{
    let next = types.len() + 1;
    let subtypes = starts_of(alloc, fields, next)?;
    let names = names_of(alloc, fields)?;
    push_type(alloc, types, STRUCT, subtypes, names, kept)
}

/// Adds the types of a tree, in pre-order.
#[cycle(list)]
fn list_tree(alloc: Global, types: &mut Vec<TypeMsg>, tree: &Tree) -> Result<(), AllocError>
    requires { length types.old.items + width (shape tree.now) < 2 ^ 32 }
    ensures { OnOk result (types.new.items ≡ types.old.items ++ spec_types (shape tree.now) (length types.old.items)) }
{
    match tree {
        Tree::Scalar(kind, kept) => {
            push_type(
                alloc,
                types,
                kind.number(),
                Vec::new(alloc),
                Vec::new(alloc),
                kept,
            )
        }
        Tree::List(element, kept) => {
            push_list(alloc, types, kept)?;
            list_tree(alloc, types, element)
        }
        Tree::Map(key, value, kept) => list_map(alloc, types, key, value, kept),
        Tree::Struct(fields, kept) => {
            push_struct(alloc, types, fields, kept)?;
            list_fields(alloc, types, fields)
        }
    }
}

/// Adds the types of a map, in pre-order.
#[cycle(list)]
fn list_map(
    alloc: Global,
    types: &mut Vec<TypeMsg>,
    key: &Tree,
    value: &Tree,
    kept: &[u8],
) -> Result<(), AllocError>
    requires { length types.old.items + (1 + (width (shape key.now) + width (shape value.now))) < 2 ^ 32 }
    ensures { OnOk result (types.new.items ≡ types.old.items
        ++ spec_types (map_of (shape key.now) (shape value.now) kept.now) (length types.old.items)) }
{
    let message = map_msg(alloc, types.len() + 1, width_of(key), kept)?;
    types.push(message)?;
    list_tree(alloc, types, key)?;
    list_tree(alloc, types, value)?;
    Ok(())
}

/// Adds the types of the fields, one field after the other.
#[cycle(list)]
fn list_fields(alloc: Global, types: &mut Vec<TypeMsg>, fields: &[Field]) -> Result<(), AllocError>
    requires { length types.old.items + widths (fields_view fields.now) < 2 ^ 32 }
    ensures { OnOk result (types.new.items ≡ types.old.items
        ++ fields_types (fields_view fields.now) (length types.old.items)) }
{
    for field in fields {
        list_tree(alloc, types, &field.tree)?;
    }
    Ok(())
}

/// The types of a tree, in pre-order.
pub(crate) fn types_of(alloc: Global, tree: &Tree) -> Result<Vec<TypeMsg>, AllocError>
    requires { width (shape tree.now) < 2 ^ 32 }
    ensures { IfOk result (λ types. types.items ≡ spec_types (shape tree.now) 0) }
{
    let mut types = Vec::new(alloc);
    list_tree(alloc, &mut types, tree)?;
    Ok(types)
}
