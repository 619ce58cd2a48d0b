//! A list of types in pre-order to the tree of a schema.
ghost use Rattle.std.specs.Prelude.{◌≡◌, ◌<◌, ◌↔◌, IsTrue, IfOk, IfErr, IfSome, slice_get, option_map, [], ◌∷◌, length, get_or};
ghost use Rattle.std.specs.List.{AllByRecursion};
ghost use Rattle.orc_values.specs.Kinds.{IsKind};
ghost use Rattle.orc_types.specs.Schemas.{HasTypes, AllKept};
ghost use Rattle.orc_types.specs.Faults.{TypesFault};
ghost use Rattle.orc_types.specs.Preorder.{HasKeyAt, Found, FoundFields, PlaceFault, FieldsPlaceFault};
ghost use Rattle.orc_values.specs.Views.{shape, fields as fields_view};

use crate::copies::copy_bytes;
use orc_trees::{MOST_LEVELS, TypeFault, name_of};
use orc_values::{Field, LIST, MAP, STRUCT, Scalar, Tree};
use orc_wire::TypeMsg;
use std::alloc::Global;

/// The most types that a schema has.
pub(crate) const MOST_TYPES: usize = 4096;

/// The type at a place.
fn type_at(types: &[TypeMsg], at: usize) -> Option<&TypeMsg>
    ensures node { option_map (λ t. t.now) result ≡ slice_get types.now at }
    ensures below { IfSome result (λ _. at < usize.MAX) }
{
    types.get(at)
}

/// Whether a type has one subtype, which begins at a place, and no name.
fn has_one_subtype(t: &TypeMsg, next: usize) -> bool
    ensures { IsTrue result ↔ ((t.now.subtypes ≡ next ∷ []) × (t.now.field_names ≡ [])) }
{
    let subtypes = t.subtypes.as_slice();
    subtypes.len() == 1 && t.field_names.as_slice().len() == 0 && subtypes[0] as usize == next
}

/// Whether a type has two subtypes, the first of which begins at a place, and no name.
fn has_key_at(t: &TypeMsg, next: usize) -> bool
    ensures { IsTrue result ↔ HasKeyAt t.now next }
{
    let subtypes = t.subtypes.as_slice();
    subtypes.len() == 2 && t.field_names.as_slice().len() == 0 && subtypes[0] as usize == next
}

/// Whether the second of two subtypes of a type begins at a place.
fn has_value_at(t: &TypeMsg, next: usize) -> bool
    requires { length t.now.subtypes ≡ 2 }
    ensures { IsTrue result ↔ (get_or t.now.subtypes 1 0 ≡ next) }
{
    let subtypes = t.subtypes.as_slice();
    subtypes[1] as usize == next
}

/// Whether a type has no subtype and no name.
fn has_no_subtype(t: &TypeMsg) -> bool
    ensures { IsTrue result ↔ ((t.now.subtypes ≡ []) × (t.now.field_names ≡ [])) }
{
    t.subtypes.as_slice().len() == 0 && t.field_names.as_slice().len() == 0
}

/// The tree whose types begin at a place, and where they end, if it has at most that many levels.
#[cycle(subtree)]
fn subtree(
    alloc: Global,
    types: &[TypeMsg],
    at: usize,
    levels: u32,
) -> Result<(Tree, usize), TypeFault>
    ensures found { IfOk result (λ found. Found types.now at levels (shape found.0) found.1) }
    ensures fault { IfErr result (PlaceFault types.now at levels) }
{
    let Some(t) = type_at(types, at) else {
        return Err(TypeFault::BadTree);
    };
    if levels == 0 {
        return Err(TypeFault::TooDeep);
    }
    let next = at + 1;
    let kept = copy_bytes(alloc, t.kept.as_slice())?;
    if t.kind == LIST {
        if !has_one_subtype(t, next) {
            return Err(TypeFault::BadTree);
        }
        let (element, end) = boxed_subtree(alloc, types, next, levels - 1)?;
        return Ok((Tree::List(element, kept), end));
    }
    if t.kind == MAP {
        if !has_key_at(t, next) {
            return Err(TypeFault::BadTree);
        }
        let (key, middle) = boxed_subtree(alloc, types, next, levels - 1)?;
        if !has_value_at(t, middle) {
            return Err(TypeFault::BadTree);
        }
        let (value, end) = boxed_subtree(alloc, types, middle, levels - 1)?;
        return Ok((Tree::Map(key, value, kept), end));
    }
    if t.kind == STRUCT {
        let (fields, end) = subtree_fields(alloc, types, t, next, levels - 1)?;
        return Ok((Tree::Struct(fields, kept), end));
    }
    let Some(kind) = Scalar::from_number(t.kind) else {
        return Err(TypeFault::UnsupportedKind(t.kind));
    };
    if !has_no_subtype(t) {
        return Err(TypeFault::BadTree);
    }
    Ok((Tree::Scalar(kind, kept), next))
}

/// Reads the tree whose types begin at a place. Returns it in a box, and the place after its types.
#[cycle(subtree)]
fn boxed_subtree(
    alloc: Global,
    types: &[TypeMsg],
    at: usize,
    levels: u32,
) -> Result<(Box<Tree>, usize), TypeFault>
    ensures found { IfOk result (λ found. Found types.now at levels (shape found.0.value) found.1) }
    ensures fault { IfErr result (PlaceFault types.now at levels) }
{
    let (tree, end) = subtree(alloc, types, at, levels)?;
    Ok((Box::new(alloc, tree)?, end))
}

/// The fields of a struct, whose types begin at a place, and where they end.
#[cycle(subtree)]
fn subtree_fields(
    alloc: Global,
    types: &[TypeMsg],
    t: &TypeMsg,
    from: usize,
    levels: u32,
) -> Result<(Vec<Field>, usize), TypeFault>
    ensures found { IfOk result (λ found. FoundFields types.now from levels t.now.subtypes t.now.field_names
        (fields_view found.0.items) found.1) }
    ensures fault { IfErr result (FieldsPlaceFault types.now from levels t.now.subtypes t.now.field_names) }
{
    let subtypes = t.subtypes.as_slice();
    let names = t.field_names.as_slice();
    if subtypes.len() != names.len() {
        return Err(TypeFault::BadTree);
    }
    let mut fields = Vec::new(alloc);
    let mut next = from;
    for (i, subtype) in subtypes.iter().enumerate() {
        let name = name_of(alloc, names[i].as_slice())?;
        if *subtype as usize != next {
            return Err(TypeFault::BadTree);
        }
        let (tree, end) = subtree(alloc, types, next, levels)?;
        fields.push(Field { name, tree })?;
        next = end;
    }
    Ok((fields, next))
}

/// Tests that each type has a kind that a column can have.
fn test_kinds(types: &[TypeMsg]) -> Result<(), TypeFault>
    ensures found { IfOk result (λ _. AllByRecursion (λ t. IsKind t.kind) types.now) }
    ensures fault { IfErr result (TypesFault types.now) }
{
    for t in types {
        if t.kind != LIST
            && t.kind != STRUCT
            && t.kind != MAP
            && Scalar::from_number(t.kind).is_none()
        {
            return Err(TypeFault::UnsupportedKind(t.kind));
        }
    }
    Ok(())
}

/// The tree of a schema's types.
pub(crate) fn tree_of(alloc: Global, types: &[TypeMsg]) -> Result<Tree, TypeFault>
    requires { AllKept types.now }
    ensures found { IfOk result (λ tree. HasTypes (shape tree) types.now) }
    ensures fault { IfErr result (TypesFault types.now) }
{
    let Some(root) = type_at(types, 0) else {
        return Err(TypeFault::RootNotStruct);
    };
    if root.kind != STRUCT {
        return Err(TypeFault::RootNotStruct);
    }
    if types.len() > MOST_TYPES {
        return Err(TypeFault::TooMany);
    }
    test_kinds(types)?;
    let (tree, end) = subtree(alloc, types, 0, MOST_LEVELS)?;
    if end != types.len() {
        return Err(TypeFault::BadTree);
    }
    Ok(tree)
}
