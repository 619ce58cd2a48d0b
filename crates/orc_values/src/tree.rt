//! Types with all that they contain. A type's columns are numbered in pre-order.
ghost use Rattle.std.specs.Prelude.{◌≡◌, ◌<◌, ◌^◌};
ghost use Rattle.orc_values.specs.Shapes.{width, widths, shape_at, shape_within};
ghost use Rattle.orc_values.specs.Views.{shape, fields as fields_view};

use crate::kind::Scalar;

/// A type with all that it contains. Each type keeps the bytes of those fields of its message that have no meaning
/// here, unchanged.
#[cycle(tree)]
#[derive(Debug, Drop)]
pub enum Tree {
    Scalar(Scalar, Vec<u8>),
    List(Box<Tree>, Vec<u8>),
    /// The type of the keys, then the type of the values.
    Map(Box<Tree>, Box<Tree>, Vec<u8>),
    Struct(Vec<Field>, Vec<u8>),
}

/// A field of a struct.
#[cycle(tree)]
#[derive(Debug, Drop)]
pub struct Field {
    pub name: String,
    pub tree: Tree,
}

/// Returns the number of columns of a type, itself included.
#[cycle(widths)]
pub fn width_of(tree: &Tree) -> usize
    requires { width (shape tree.now) < 2 ^ 64 }
    // If a type has fewer than 2^64 columns, then the returned number is that of its columns, itself included.
    ensures { result ≡ width (shape tree.now) }
{
    match tree {
        Tree::Scalar(_, _) => 1,
        Tree::List(element, _) => 1 + width_of(element),
        Tree::Map(key, value, _) => 1 + width_of(key) + width_of(value),
        Tree::Struct(fields, _) => 1 + widths_of(fields),
    }
}

/// Returns the number of columns of some fields.
#[cycle(widths)]
fn widths_of(fields: &[Field]) -> usize
    requires { widths (fields_view fields.now) < 2 ^ 64 }
    ensures { result ≡ widths (fields_view fields.now) }
{
    match fields {
        [] => 0,
        [first, others @ ..] => width_of(&first.tree) + widths_of(others),
    }
}

/// Returns the type of one of a type's columns, by the column's number in pre-order.
#[cycle(trees)]
pub fn tree_at(tree: &Tree, column: usize) -> &Tree
    requires few { width (shape tree.now) < 2 ^ 64 }
    requires there { column < width (shape tree.now) }
    // If a type has fewer than 2^64 columns and `column` is below their number, then the returned type is that of the
    // column with this number in pre-order.
    ensures { shape result.now ≡ shape_at (shape tree.now) column }
{
    if column == 0 {
        return tree;
    }
    match tree {
        Tree::Scalar(_, _) => tree,
        Tree::List(element, _) => tree_at(element, column - 1),
        Tree::Map(key, value, _) => {
            let width = width_of(key);
            if column - 1 < width {
                tree_at(key, column - 1)
            } else {
                tree_at(value, column - 1 - width)
            }
        }
        Tree::Struct(fields, _) => tree_within(fields, column - 1),
    }
}

/// Returns the type of one of the columns of some fields, by the column's number in pre-order.
#[cycle(trees)]
fn tree_within(fields: &[Field], column: usize) -> &Tree
    requires few { widths (fields_view fields.now) < 2 ^ 64 }
    requires there { column < widths (fields_view fields.now) }
    ensures { shape result.now ≡ shape_within (fields_view fields.now) column }
{
    match fields {
        [] => unreachable!(),
        [first, others @ ..] => {
            let width = width_of(&first.tree);
            if column < width {
                tree_at(&first.tree, column)
            } else {
                tree_within(others, column - width)
            }
        }
    }
}
