//! How the rows of a type are printed.
ghost use Rattle.std.specs.Prelude.{◌≡◌, ◌<◌, ◌^◌, ◌++◌, ◌∷◌, [], true, IfOk, length, map};
ghost use Rattle.json.specs.Print.{quoted};
ghost use Rattle.serde_json.specs.Written.{comma_if};
ghost use Rattle.orc_values.specs.Shapes.{width, widths};
ghost use Rattle.orc_values.specs.Views.{shape, fields as fields_view, name_and_type};
ghost use Rattle.orc_json_rows.specs.FieldNames.{is_distinct};
ghost use Rattle.orc_json_printer.specs.LaidOut.{IsLaidOut, AreColumnsOf, AreMembersOf, AreAllPlaces, AreFieldPlaces, AreMembersLaidOut, count_of, member_places};
ghost use Rattle.orc_json_printer.specs.Layouts.{text_by, member_parts, struct_text};
ghost use Rattle.orc_json_printer.specs.Texts.{Prints, PrintsStruct, ArePlacesInOrder, AreWithin, entry_places};

use crate::quoted::push_quoted;
use orc_values::{Field, Tree, width_of};
use std::alloc::{AllocError, Global};
use std::collections::BTreeMap;

/// How the rows of a type are printed. A struct has its members, in the order of their names, and for each field, in the order
/// of the type, the columns from which readers of columns read it.
#[cycle(layout)]
#[derive(Drop)]
pub enum Layout {
    Leaf,
    List(Box<Layout>),
    Map(Box<PairLayout>),
    Struct(Vec<Member>, Vec<FieldColumns>),
}

/// A member of a struct: its key with quotes and a colon, and with a comma before it unless it comes first; its field's place
/// among the fields; and how its value is printed.
#[cycle(layout)]
#[derive(Drop)]
pub struct Member {
    pub key: Vec<u8>,
    pub place: usize,
    pub layout: Layout,
}

/// A field of a struct: which of the members it is, how many columns of the struct's fields come before its own, and how many
/// columns it has.
#[derive(Clone, Copy)]
pub struct FieldColumns {
    pub member: usize,
    pub first: usize,
    pub count: usize,
}

/// How each key of a map is printed, and each value.
#[cycle(layout)]
#[derive(Drop)]
pub struct PairLayout {
    pub key: Layout,
    pub value: Layout,
}

/// The text of a key, with a comma before it where it comes later.
fn key_text(alloc: Global, name: &str, later: bool) -> Result<Vec<u8>, AllocError>
    ensures { IfOk result (λ key. key.items ≡ comma_if later ++ (quoted name.now ++ 58 ∷ [])) }
{
    let mut key = Vec::new(alloc);
    if later {
        key.push(b',')?;
    }
    push_quoted(name, &mut key)?;
    key.push(b':')?;
    Ok(key)
}

/// Returns the layout of a type, by which its rows are printed.
///
/// # Errors
///
/// It fails only if memory runs out.
#[cycle(laying)]
pub fn layout_of(alloc: Global, tree: &Tree) -> Result<Layout, AllocError>
    requires { width (shape tree.now) < 2 ^ 64 }
    // If the type has fewer than 2^64 columns, then the returned layout's text of each row that fits the type is the
    // row's JSON, without blanks.
    ensures text { IfOk result (λ layout. Prints (text_by layout) (shape tree.now)) }
    // If the type has fewer than 2^64 columns and no struct in it names a field twice, then the returned layout is one of
    // the type: its parts are those of the type, and each struct's members and columns are those of its fields.
    ensures laid_out { IfOk result (λ layout. is_distinct (shape tree.now) ≡ true → IsLaidOut (shape tree.now) layout) }
{
    match tree {
        Tree::Scalar(_, _) => Ok(Layout::Leaf),
        Tree::List(element, _) => Ok(Layout::List(Box::new(alloc, layout_of(alloc, element)?)?)),
        Tree::Map(key, value, _) => {
            let key = layout_of(alloc, key)?;
            let value = layout_of(alloc, value)?;
            Ok(Layout::Map(Box::new(alloc, PairLayout { key, value })?))
        }
        Tree::Struct(fields, _) => {
            let members = members_of(alloc, fields)?;
            let columns = columns_of(alloc, fields, &members)?;
            Ok(Layout::Struct(members, columns))
        }
    }
}

/// How the fields of a struct are printed, in the order of their names.
#[cycle(laying)]
fn members_of(alloc: Global, fields: &Vec<Field>) -> Result<Vec<Member>, AllocError>
    requires { widths (fields_view fields.now.items) < 2 ^ 64 }
    ensures text { IfOk result
        (λ members. PrintsStruct (struct_text (member_parts members.items)) (map name_and_type fields.now.items)) }
    ensures places { IfOk result (λ members. AreFieldPlaces (fields_view fields.now.items) (member_places members.items)) }
    ensures laid_out { IfOk result (λ members. AreMembersLaidOut (map name_and_type fields.now.items) members.items) }
{
    let places = places_of(alloc, fields)?;
    let mut members = Vec::new(alloc);
    let mut later = false;
    for (name, place) in places.iter() {
        let field = &fields[*place];
        let key = key_text(alloc, name.as_str(), later)?;
        let layout = layout_of(alloc, &field.tree)?;
        members.push(Member {
            key,
            place: *place,
            layout,
        })?;
        later = true;
    }
    Ok(members)
}

/// The columns of each field, and which of the members it is.
fn columns_of(
    alloc: Global,
    fields: &Vec<Field>,
    members: &Vec<Member>,
) -> Result<Vec<FieldColumns>, AllocError>
    requires { widths (fields_view fields.now.items) < 2 ^ 64 }
    ensures columns { IfOk result (λ columns. AreColumnsOf (fields_view fields.now.items) 0 columns.items) }
    ensures members { IfOk result (λ columns.
        AreAllPlaces (count_of (fields_view fields.now.items)) (member_places members.now.items)
        → AreMembersOf columns.items 0 (member_parts members.now.items)) }
{
    let mut columns = one_by_one(alloc, fields)?;
    for (i, member) in members.iter().enumerate() {
        if member.place < columns.len() {
            let own = columns[member.place];
            columns[member.place] = FieldColumns { member: i, ..own };
        }
    }
    Ok(columns)
}

/// The columns of each field, as if each were the first of the members.
fn one_by_one(alloc: Global, fields: &[Field]) -> Result<Vec<FieldColumns>, AllocError>
    requires { widths (fields_view fields.now) < 2 ^ 64 }
    ensures { IfOk result (λ columns. AreColumnsOf (fields_view fields.now) 0 columns.items) }
{
    let mut columns = Vec::new(alloc);
    let mut first: usize = 0;
    for field in fields {
        let count = width_of(&field.tree);
        columns.push(FieldColumns {
            member: 0,
            first,
            count,
        })?;
        first += count;
    }
    Ok(columns)
}

/// The places of the fields, in the order of their names.
fn places_of(alloc: Global, fields: &Vec<Field>) -> Result<BTreeMap<String, usize>, AllocError>
    ensures order { IfOk result (λ places. ArePlacesInOrder (map name_and_type fields.now.items) places.entries) }
    ensures within { IfOk result (λ places. AreWithin (length fields.now.items) places.entries) }
    ensures once { IfOk result (λ places. AreFieldPlaces (fields_view fields.now.items) (entry_places places.entries)) }
{
    let mut places = BTreeMap::new(alloc);
    for (i, field) in fields.iter().enumerate() {
        let name = String::from_str(alloc, field.name.as_str())?;
        places.insert(name, i)?;
    }
    Ok(places)
}
