//! Counts the cells that each column has in rows.
ghost use Rattle.std.specs.Prelude.{◌≡◌, ◌+◌, ◌≤◌, ◌<◌, ◌^◌, ◌∷◌, [], true, false, length, map, replicate, IfOk};
ghost use Rattle.std.specs.Bool.{OnTrue, OnFalse};
ghost use Rattle.orc_values.specs.Shapes.{width, widths};
ghost use Rattle.orc_values.specs.Views.{view, views, paired, shape, fields as fields_view};
ghost use Rattle.orc_file_writer.specs.Counts.{with_row, are_few};
ghost use Rattle.orc_file_writer.specs.Counting.{CountsOne, CountsCells, CountsFields};

use orc_types::Schema;
use orc_values::{CELL_LIMIT, Field, MapPair, Row, Tree, pairs_of, parts_of, width_of};
use std::alloc::{AllocError, Global};

/// Counts one cell more, up to the limit.
fn count_one(counts: &mut Vec<u64>, column: usize)
    requires { column < length counts.old.items }
    ensures { CountsOne column counts.old.items counts.new.items }
{
    if counts[column] < CELL_LIMIT {
        counts[column] += 1;
    }
}

/// Counts a cell of the type `tree`, whose columns begin at `column`, and all cells within it. Returns the column after
/// those of `tree`.
#[cycle(counting)]
fn count_cell(tree: &Tree, cell: &Row<'_>, column: usize, counts: &mut Vec<u64>) -> usize
    requires { column + width (shape tree.now) ≤ length counts.old.items }
    ensures cells { CountsCells (shape tree.now) column (view cell.now ∷ []) counts.old.items counts.new.items }
    ensures next { result ≡ column + width (shape tree.now) }
{
    count_one(counts, column);
    match tree {
        Tree::Scalar(_, _) => column + 1,
        Tree::List(element, _) => count_elements(element, parts_of(cell), column + 1, counts),
        Tree::Map(key, value, _) => {
            let values = count_keys(key, pairs_of(cell), column + 1, counts);
            count_values(value, pairs_of(cell), values, counts)
        }
        Tree::Struct(fields, _) => count_fields(fields, parts_of(cell), column + 1, counts),
    }
}

/// Counts the elements of a list.
#[cycle(counting)]
fn count_elements(element: &Tree, parts: &[Row<'_>], column: usize, counts: &mut Vec<u64>) -> usize
    requires { column + width (shape element.now) ≤ length counts.old.items }
    ensures cells { CountsCells (shape element.now) column (views parts.now) counts.old.items counts.new.items }
    ensures next { result ≡ column + width (shape element.now) }
{
    for part in parts {
        count_cell(element, part, column, counts);
    }
    column + width_of(element)
}

/// Counts the keys of a map.
#[cycle(counting)]
fn count_keys(key: &Tree, pairs: &[MapPair<'_>], column: usize, counts: &mut Vec<u64>) -> usize
    requires { column + width (shape key.now) ≤ length counts.old.items }
    ensures cells { CountsCells (shape key.now) column (map (λ p. p.0) (map paired pairs.now))
        counts.old.items counts.new.items }
    ensures next { result ≡ column + width (shape key.now) }
{
    for pair in pairs {
        count_cell(key, &pair.key, column, counts);
    }
    column + width_of(key)
}

/// Counts the values of a map.
#[cycle(counting)]
fn count_values(value: &Tree, pairs: &[MapPair<'_>], column: usize, counts: &mut Vec<u64>) -> usize
    requires { column + width (shape value.now) ≤ length counts.old.items }
    ensures cells { CountsCells (shape value.now) column (map (λ p. p.1) (map paired pairs.now))
        counts.old.items counts.new.items }
    ensures next { result ≡ column + width (shape value.now) }
{
    for pair in pairs {
        count_cell(value, &pair.value, column, counts);
    }
    column + width_of(value)
}

/// Counts the fields of a struct. A null struct has none.
#[cycle(counting)]
fn count_fields(fields: &[Field], parts: &[Row<'_>], column: usize, counts: &mut Vec<u64>) -> usize
    requires { column + widths (fields_view fields.now) ≤ length counts.old.items }
    ensures cells { CountsFields (fields_view fields.now) column (views parts.now) counts.old.items counts.new.items }
    ensures next { result ≡ column + widths (fields_view fields.now) }
{
    let mut next = column;
    for (place, field) in fields.iter().enumerate() {
        match parts.get(place) {
            Some(part) => next = count_cell(&field.tree, part, next, counts),
            None => next += width_of(&field.tree),
        }
    }
    next
}

/// Puts the counts with one row more, up to the limit, into `sums`. Returns whether all are below the limit.
pub(crate) fn count_row(schema: &Schema, row: &Row<'_>, counts: &[u64], sums: &mut Vec<u64>) -> bool
    requires wide { length counts.now ≡ width schema.now }
    requires room { length sums.old.items ≡ width schema.now }
    ensures few { OnTrue result ((sums.new.items ≡ with_row schema.now 0 (view row.now) counts.now)
        × (are_few sums.new.items ≡ true)) }
    ensures many { OnFalse result (are_few (with_row schema.now 0 (view row.now) counts.now) ≡ false) }
    ensures wide { length sums.new.items ≡ width schema.now }
{
    sums.copy_from_slice(counts);
    count_cell(schema.tree(), row, 0, sums);
    sums.iter().all(|count| *count < CELL_LIMIT)
}

/// Makes counts of no cells for each column.
pub(crate) fn no_cells(alloc: Global, width: usize) -> Result<Vec<u64>, AllocError>
    ensures { IfOk result (λ counts. counts.items ≡ replicate width 0) }
{
    vec![in alloc; 0u64; width]
}

/// Sets the count of each column to 0.
pub(crate) fn reset(counts: &mut Vec<u64>)
    ensures { counts.new.items ≡ replicate (length counts.old.items) 0 }
{
    counts.fill(0);
}
