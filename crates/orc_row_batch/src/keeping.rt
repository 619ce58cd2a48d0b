//! How a row enters the columns: each of its cells is added at the end of its column.
ghost use Rattle.std.specs.Prelude.{◌≡◌, ◌+◌, ◌≤◌, ◌<◌, [], ◌∷◌, length, map, IfOk, OnOk};
ghost use Rattle.orc_values.specs.Shapes.{width, widths};
ghost use Rattle.orc_values.specs.Views.{view, views, paired, shape, fields as fields_view};
ghost use Rattle.orc_row_batch.specs.Batch.{kept_columns};
ghost use Rattle.orc_row_batch.specs.Keeping.{AddsOne, AddsCells, AddsFields};

use crate::vector::ColumnVector;
use orc_values::{Field, MapPair, Row, Tree, own_of, pairs_of, parts_of, width_of};
use std::alloc::AllocError;

/// Adds a cell without its children to a column.
fn keep_one(
    columns: &mut Vec<ColumnVector>,
    column: usize,
    cell: &Row<'_>,
) -> Result<(), AllocError>
    requires { column < length columns.old.items }
    ensures kept { OnOk result (AddsOne column (view cell.now) (kept_columns columns.old.items) (kept_columns columns.new.items)) }
    ensures wide { length columns.new.items ≡ length columns.old.items }
{
    columns[column].push(own_of(cell))
}

/// Keeps a cell of the type `tree`, whose columns begin at `column`, and all cells within it. Returns the column after
/// those of `tree`.
#[cycle(keeping)]
pub(crate) fn keep_cell(
    tree: &Tree,
    cell: &Row<'_>,
    column: usize,
    columns: &mut Vec<ColumnVector>,
) -> Result<usize, AllocError>
    requires { column + width (shape tree.now) ≤ length columns.old.items }
    ensures kept { OnOk result (AddsCells (shape tree.now) column (view cell.now ∷ [])
        (kept_columns columns.old.items) (kept_columns columns.new.items)) }
    ensures next { IfOk result (λ next. next ≡ column + width (shape tree.now)) }
    ensures wide { length columns.new.items ≡ length columns.old.items }
{
    keep_one(columns, column, cell)?;
    match tree {
        Tree::Scalar(_, _) => Ok(column + 1),
        Tree::List(element, _) => keep_elements(element, parts_of(cell), column + 1, columns),
        Tree::Map(key, value, _) => {
            let values = keep_keys(key, pairs_of(cell), column + 1, columns)?;
            keep_values(value, pairs_of(cell), values, columns)
        }
        Tree::Struct(fields, _) => keep_fields(fields, parts_of(cell), column + 1, columns),
    }
}

/// Keeps the elements of a list.
#[cycle(keeping)]
fn keep_elements(
    element: &Tree,
    parts: &[Row<'_>],
    column: usize,
    columns: &mut Vec<ColumnVector>,
) -> Result<usize, AllocError>
    requires { column + width (shape element.now) ≤ length columns.old.items }
    ensures kept { OnOk result (AddsCells (shape element.now) column (views parts.now)
        (kept_columns columns.old.items) (kept_columns columns.new.items)) }
    ensures next { IfOk result (λ next. next ≡ column + width (shape element.now)) }
    ensures wide { length columns.new.items ≡ length columns.old.items }
{
    for part in parts {
        keep_cell(element, part, column, columns)?;
    }
    Ok(column + width_of(element))
}

/// Keeps the keys of a map.
#[cycle(keeping)]
fn keep_keys(
    key: &Tree,
    pairs: &[MapPair<'_>],
    column: usize,
    columns: &mut Vec<ColumnVector>,
) -> Result<usize, AllocError>
    requires { column + width (shape key.now) ≤ length columns.old.items }
    ensures kept { OnOk result (AddsCells (shape key.now) column (map (λ p. p.0) (map paired pairs.now))
        (kept_columns columns.old.items) (kept_columns columns.new.items)) }
    ensures next { IfOk result (λ next. next ≡ column + width (shape key.now)) }
    ensures wide { length columns.new.items ≡ length columns.old.items }
{
    for pair in pairs {
        keep_cell(key, &pair.key, column, columns)?;
    }
    Ok(column + width_of(key))
}

/// Keeps the values of a map.
#[cycle(keeping)]
fn keep_values(
    value: &Tree,
    pairs: &[MapPair<'_>],
    column: usize,
    columns: &mut Vec<ColumnVector>,
) -> Result<usize, AllocError>
    requires { column + width (shape value.now) ≤ length columns.old.items }
    ensures kept { OnOk result (AddsCells (shape value.now) column (map (λ p. p.1) (map paired pairs.now))
        (kept_columns columns.old.items) (kept_columns columns.new.items)) }
    ensures next { IfOk result (λ next. next ≡ column + width (shape value.now)) }
    ensures wide { length columns.new.items ≡ length columns.old.items }
{
    for pair in pairs {
        keep_cell(value, &pair.value, column, columns)?;
    }
    Ok(column + width_of(value))
}

/// Keeps the fields of a struct. A null struct has none.
#[cycle(keeping)]
fn keep_fields(
    fields: &[Field],
    parts: &[Row<'_>],
    column: usize,
    columns: &mut Vec<ColumnVector>,
) -> Result<usize, AllocError>
    requires { column + widths (fields_view fields.now) ≤ length columns.old.items }
    ensures kept { OnOk result (AddsFields (fields_view fields.now) column (views parts.now)
        (kept_columns columns.old.items) (kept_columns columns.new.items)) }
    ensures next { IfOk result (λ next. next ≡ column + widths (fields_view fields.now)) }
    ensures wide { length columns.new.items ≡ length columns.old.items }
{
    let mut next = column;
    for (place, field) in fields.iter().enumerate() {
        match parts.get(place) {
            Some(part) => next = keep_cell(&field.tree, part, next, columns)?,
            None => next += width_of(&field.tree),
        }
    }
    Ok(next)
}
