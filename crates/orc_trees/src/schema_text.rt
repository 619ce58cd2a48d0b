//! The text of a type, such as `struct<a:int,b:array<string>>`, written and read.
ghost use Rattle.std.specs.Prelude.{◌↔◌, IsTrue, ◌≡◌, ◌≢◌, ◌++◌, ℕ, List, [], IfOk, IfErr, IfSome, IfNone, OnOk, MatchOption, true, string_bytes};
ghost use Rattle.orc_values.specs.Shapes.{IsStruct};
ghost use Rattle.orc_trees.specs.SchemaText as spec;
ghost use Rattle.orc_trees.specs.TextFaults.{TextFault};
ghost use Rattle.orc_trees.specs.TextFronts.{IsTypeFront, IsFieldFront, IsFieldsFront, FrontFault, SignedFault, FieldFault, FieldsFault};
ghost use Rattle.orc_values.specs.declared.kind.Scalar.{Scalar};
ghost use Rattle.orc_values.specs.Views.{shape, fields as fields_view};

use crate::fault::TypeFault;
use crate::name_text::{name_from, put_name};
use crate::words::{add, text_behind};
use orc_values::{Field, Scalar, Tree};
use std::alloc::{AllocError, Global};

/// The most levels that a schema has.
pub const MOST_LEVELS: u32 = 32;

/// The kinds that have a name of their own.
const SCALARS: [Scalar; 8] = [
    Scalar::Boolean,
    Scalar::Byte,
    Scalar::Short,
    Scalar::Int,
    Scalar::Long,
    Scalar::String,
    Scalar::Binary,
    Scalar::Date,
];

/// The name of a kind.
fn kind_name(kind: Scalar) -> &'static str
    ensures { result.now ≡ spec.kind_name kind }
{
    match kind {
        Scalar::Boolean => "boolean",
        Scalar::Byte => "tinyint",
        Scalar::Short => "smallint",
        Scalar::Int => "int",
        Scalar::Long => "bigint",
        Scalar::String => "string",
        Scalar::Binary => "binary",
        Scalar::Date => "date",
    }
}

/// Adds the text of a type at the end.
///
/// # Errors
///
/// `AllocError` if there is no memory for it.
#[cycle(put)]
pub fn put_tree(text: &mut String, tree: &Tree) -> Result<(), AllocError>
    // Unless memory runs out, `text` is what it was, with the type's text after it.
    ensures { OnOk result (string_bytes text.new ≡ string_bytes text.old ++ spec.text (shape tree.now)) }
{
    match tree {
        Tree::Scalar(kind, _) => { add(text, kind_name(*kind)) }
        Tree::List(element, _) => {
            add(text, "array<")?;
            put_tree(text, element)?;
            add(text, ">")
        }
        Tree::Map(key, value, _) => {
            add(text, "map<")?;
            put_tree(text, key)?;
            add(text, ",")?;
            put_tree(text, value)?;
            add(text, ">")
        }
        Tree::Struct(fields, _) => {
            add(text, "struct<")?;
            put_fields(text, fields)?;
            add(text, ">")
        }
    }
}

/// Adds the text of a field.
#[cycle(put)]
fn put_field(text: &mut String, first: bool, field: &Field) -> Result<(), AllocError>
    ensures { OnOk result (string_bytes text.new ≡ string_bytes text.old
        ++ spec.comma first
        ++ spec.name_text (string_bytes field.now.name)
        ++ spec.colon
        ++ spec.text (shape field.now.tree)) }
{
    if !first {
        add(text, ",")?;
    }
    put_name(text, field.name.as_str())?;
    add(text, ":")?;
    put_tree(text, &field.tree)
}

/// Adds the text of the fields.
#[cycle(put)]
fn put_fields(text: &mut String, fields: &Vec<Field>) -> Result<(), AllocError>
    ensures { OnOk result (string_bytes text.new ≡ string_bytes text.old
        ++ spec.fields_text true (fields_view fields.now.items)) }
{
    for (i, field) in fields.iter().enumerate() {
        put_field(text, i == 0, field)?;
    }
    Ok(())
}

/// What stands behind the comma that each field but the first has in front.
fn text_behind_comma<'t>(text: &'t str, first: bool) -> Option<&'t str>
    ensures { MatchOption result ((rest : List ℕ) → text.now ≢ spec.comma first ++ rest)
        (λ rest. text.now ≡ spec.comma first ++ rest.now) }
{
    if first {
        Some(text)
    } else {
        text_behind(text, ",")
    }
}

/// The kind whose name a text begins with, and what stands behind it.
fn kind_from(text: &str) -> Option<(Scalar, &str)>
    ensures found { IfSome result (λ found. text.now ≡ spec.kind_name found.0 ++ found.1.now) }
    ensures none { IfNone result ((kind : Scalar) (rest : List ℕ) → text.now ≢ spec.kind_name kind ++ rest) }
{
    for kind in SCALARS {
        if let Some(rest) = text_behind(text, kind_name(kind)) {
            return Some((kind, rest));
        }
    }
    None
}

/// The type whose text stands in front, if it has at most that many levels, and the rest. In a text
/// that is read from the front, `BadText` has the number of bytes that are left where it goes wrong.
#[cycle(front)]
fn tree_from<'t>(alloc: Global, text: &'t str, levels: u32) -> Result<(Tree, &'t str), TypeFault>
    ensures found { IfOk result (λ found. IsTypeFront text.now levels (shape found.0) found.1.now) }
    ensures fault { IfErr result (FrontFault text.now levels) }
{
    if levels == 0 {
        return Err(TypeFault::TooDeep);
    }
    if let Some(inner) = text_behind(text, "array<") {
        let (element, rest) = tree_before(alloc, inner, ">", levels - 1)?;
        return Ok((Tree::List(element, Vec::new(alloc)), rest));
    }
    if let Some(inner) = text_behind(text, "map<") {
        let (key, second) = tree_before(alloc, inner, ",", levels - 1)?;
        let (value, rest) = tree_before(alloc, second, ">", levels - 1)?;
        return Ok((Tree::Map(key, value, Vec::new(alloc)), rest));
    }
    if let Some(inner) = text_behind(text, "struct<") {
        let (fields, rest) = fields_from(alloc, inner, levels - 1)?;
        return Ok((Tree::Struct(fields, Vec::new(alloc)), rest));
    }
    let Some((kind, rest)) = kind_from(text) else {
        return Err(TypeFault::BadText(text.len()));
    };
    Ok((Tree::Scalar(kind, Vec::new(alloc)), rest))
}

/// Reads the type at the front and the sign after it. Returns the type, in a box, and the bytes after the sign.
#[cycle(front)]
fn tree_before<'t>(
    alloc: Global,
    text: &'t str,
    sign: &str,
    levels: u32,
) -> Result<(Box<Tree>, &'t str), TypeFault>
    ensures found { IfOk result (λ found. IsTypeFront text.now levels (shape found.0.value) (sign.now ++ found.1.now)) }
    ensures fault { IfErr result (SignedFault text.now sign.now levels) }
{
    let (tree, left) = tree_from(alloc, text, levels)?;
    let tree = Box::new(alloc, tree)?;
    match text_behind(left, sign) {
        Some(rest) => Ok((tree, rest)),
        None => Err(TypeFault::BadText(left.len())),
    }
}

/// The field whose text stands in front, and the rest.
#[cycle(front)]
fn field_from<'t>(
    alloc: Global,
    text: &'t str,
    first: bool,
    levels: u32,
) -> Result<(Field, &'t str), TypeFault>
    ensures found { IfOk result
        (λ found. IsFieldFront text.now first levels (string_bytes found.0.name) (shape found.0.tree) found.1.now) }
    ensures fault { IfErr result (FieldFault text.now first levels) }
{
    let Some(named) = text_behind_comma(text, first) else {
        return Err(TypeFault::BadText(text.len()));
    };
    let (name, inner) = name_from(alloc, named)?;
    let (tree, rest) = tree_from(alloc, inner, levels)?;
    Ok((Field { name, tree }, rest))
}

/// The fields whose text stands in front, up to the bracket that closes it, and the rest.
#[cycle(front)]
fn fields_from<'t>(
    alloc: Global,
    text: &'t str,
    levels: u32,
) -> Result<(Vec<Field>, &'t str), TypeFault>
    ensures found { IfOk result (λ found. IsFieldsFront text.now levels (fields_view found.0.items) found.1.now) }
    ensures fault { IfErr result (FieldsFault text.now levels) }
{
    let mut fields = Vec::new(alloc);
    let mut left = text;
    loop {
        if let Some(rest) = text_behind(left, ">") {
            return Ok((fields, rest));
        }
        let (field, rest) = field_from(alloc, left, fields.is_empty(), levels)?;
        fields.push(field)?;
        left = rest;
    }
}

/// Returns whether a type is a STRUCT.
pub fn is_struct(tree: &Tree) -> bool
    // The answer is whether the type is a STRUCT.
    ensures { IsTrue result ↔ IsStruct (shape tree.now) }
{
    matches!(tree, Tree::Struct(_, _))
}

/// The fault with its place counted from the front of the text.
fn fault_from_front(text: &str, fault: TypeFault) -> TypeFault
    requires { FrontFault text.now 32 fault }
    ensures { FrontFault text.now 32 result }
{
    match fault {
        TypeFault::BadText(left) => TypeFault::BadText(text.len() - left),
        other => other,
    }
}

/// Reads the text of a type, which has at most 32 levels.
///
/// # Errors
///
/// `BadText` with the place where the text goes wrong, or where a wrong name begins; `TooDeep` above 32 levels;
/// `OutOfMemory`.
pub fn whole_tree(alloc: Global, text: &str) -> Result<Tree, TypeFault>
    // `text` is the text of a returned type, which has at most 32 levels, whose names are UTF-8, and whose types keep no
    // other fields.
    ensures found { IfOk result (λ tree. IsTypeFront text.now 32 (shape tree) []) }
    // An error is `TooDeep`, `TooMany`, `RootNotStruct`, `BadText` or `OutOfMemory`. `TooDeep` comes only if `text`
    // begins with 32 types that are open, one inside the other. `TooMany` comes only if `text` is the text of a type
    // that has more than 4,096 types in all. `RootNotStruct` comes only if `text` is the text of a type other than a
    // STRUCT. `BadText` has a place of at most the length of `text`, and comes only if `text` isn't the text of any
    // type. The names of these types are UTF-8, and the types keep no other fields.
    ensures fault { IfErr result (TextFault text.now) }
{
    match tree_from(alloc, text, MOST_LEVELS) {
        Ok((tree, rest)) => {
            if rest.is_empty() {
                Ok(tree)
            } else {
                Err(TypeFault::BadText(text.len() - rest.len()))
            }
        }
        Err(fault) => Err(fault_from_front(text, fault)),
    }
}
