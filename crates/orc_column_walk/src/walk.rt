//! All columns of a stripe, one after the other, in the order of their numbers: a column, and then those below it.
ghost use Rattle.std.specs.Prelude.{◌≡◌, ◌≢◌, ◌+◌, ◌<◌, ◌≤◌, ℕ, Bool, List, length, IfOk, IfErr, OnOk};
ghost use Rattle.orc_values.specs.Cells.{Cell, values};
ghost use Rattle.orc_values.specs.Shapes.{width, widths};
ghost use Rattle.orc_values.specs.Views.{shape, fields as fields_view};
ghost use Rattle.orc_column_reader.specs.Faults.{RowsFault};
ghost use Rattle.orc_directory.specs.Located.{AreLocated};
ghost use Rattle.orc_column_reader.specs.Stripe.{SpellRows, columns_of};
ghost use Rattle.orc_values.specs.Limits.{cell_limit};
ghost use Rattle.orc_directory.specs.declared.fault.StripeFault.TheVariants.{OutOfMemory};
ghost use Rattle.orc_column_walk.specs.OwnColumns.{IsOwnColumn, OwnDown, OwnWithin};
ghost use Rattle.orc_column_walk.specs.OwnFaults.{SpellsNoCells, RefusedDown, RefusedWithin};
ghost use Rattle.orc_column_walk.specs.OwnLeft.{children};

use crate::marks::count_values;
use crate::values::read_values;
use orc_column_reader::reader_of;
use orc_directory::{Located, StripeFault};
use orc_values::{Field, MOST_CELLS, Tree};
use orc_wire::StripeFooter;
use std::alloc::Global;

/// Reads a column of `count` cells from its own streams, and returns how many children they have.
fn read_column(
    alloc: Global,
    tree: &Tree,
    column: usize,
    footer: &StripeFooter,
    located: &Located<'_>,
    count: usize,
) -> Result<usize, StripeFault>
    requires there { column < length footer.now.columns }
    requires located { AreLocated (length footer.now.columns) footer.now.streams
        located.now.bytes.now located.now.slices.items }
    requires few { count < cell_limit }
    ensures found { IfOk result (λ below. (own : List Cell)
        × IsOwnColumn (shape tree.now) (columns_of footer.now located.now.bytes.now column) count own
        × (below ≡ children (shape tree.now) (values own))) }
    ensures few { IfOk result (λ below. below < cell_limit) }
    ensures fault { IfErr result (λ cause. cause ≢ OutOfMemory
        → (all : Bool)
        × SpellsNoCells (shape tree.now) (columns_of footer.now located.now.bytes.now column) column all count cause) }
{
    match reader_of(alloc, tree, column, footer, located) {
        Ok(mut reader) => match count_values(column, &mut reader.present, count) {
            Ok(values) => match read_values(tree, &mut reader.source, values) {
                Ok(below) => Ok(below),
                Err(fault) => Err(fault),
            },
            Err(fault) => Err(fault),
        },
        Err(fault) => Err(fault),
    }
}

/// Reads a column of `count` cells, and then those below it, each with as many cells as the one above has children.
/// Returns the number of the column that comes next.
#[cycle(walking)]
fn walk_tree(
    alloc: Global,
    tree: &Tree,
    column: usize,
    footer: &StripeFooter,
    located: &Located<'_>,
    count: usize,
) -> Result<usize, StripeFault>
    requires there { column + width (shape tree.now) ≤ length footer.now.columns }
    requires located { AreLocated (length footer.now.columns) footer.now.streams
        located.now.bytes.now located.now.slices.items }
    requires few { count < cell_limit }
    ensures found { OnOk result
        (OwnDown (shape tree.now) (columns_of footer.now located.now.bytes.now) column count) }
    ensures next { IfOk result (λ next. next ≡ column + width (shape tree.now)) }
    ensures fault { IfErr result (λ cause. cause ≢ OutOfMemory
        → (all : Bool)
        × RefusedDown (shape tree.now) (columns_of footer.now located.now.bytes.now) column all count cause) }
{
    match read_column(alloc, tree, column, footer, located, count) {
        Ok(below) => match tree {
            Tree::Scalar(_, _) => Ok(column + 1),
            Tree::List(element, _) => {
                match walk_tree(alloc, element, column + 1, footer, located, below) {
                    Ok(next) => Ok(next),
                    Err(fault) => Err(fault),
                }
            }
            Tree::Map(key, value, _) => {
                match walk_tree(alloc, key, column + 1, footer, located, below) {
                    Ok(second) => match walk_tree(alloc, value, second, footer, located, below) {
                        Ok(next) => Ok(next),
                        Err(fault) => Err(fault),
                    },
                    Err(fault) => Err(fault),
                }
            }
            Tree::Struct(fields, _) => {
                match walk_fields(alloc, fields, column + 1, footer, located, below) {
                    Ok(next) => Ok(next),
                    Err(fault) => Err(fault),
                }
            }
        },
        Err(fault) => Err(fault),
    }
}

/// Reads the columns of the fields of `count` structs, one field after the other, and returns the number of the
/// column that comes next.
#[cycle(walking)]
fn walk_fields(
    alloc: Global,
    fields: &[Field],
    column: usize,
    footer: &StripeFooter,
    located: &Located<'_>,
    count: usize,
) -> Result<usize, StripeFault>
    requires there { column + widths (fields_view fields.now) ≤ length footer.now.columns }
    requires located { AreLocated (length footer.now.columns) footer.now.streams
        located.now.bytes.now located.now.slices.items }
    requires few { count < cell_limit }
    ensures found { OnOk result
        (OwnWithin (fields_view fields.now) (columns_of footer.now located.now.bytes.now) column count) }
    ensures next { IfOk result (λ next. next ≡ column + widths (fields_view fields.now)) }
    ensures fault { IfErr result (λ cause. cause ≢ OutOfMemory
        → (all : Bool)
        × RefusedWithin (fields_view fields.now) (columns_of footer.now located.now.bytes.now) column
        all count cause) }
{
    let mut next = column;
    for field in fields {
        match walk_tree(alloc, &field.tree, next, footer, located, count) {
            Ok(after) => next = after,
            Err(fault) => return Err(fault),
        }
    }
    Ok(next)
}

/// Reads a stripe's columns, one after the other, and tests that they store `rows` rows of the type (ORC
/// specification, "Column Encodings"). No row is made. The cells of a struct's column without PRESENT aren't read one
/// by one, so the time depends only on the bytes and the columns.
///
/// # Errors
///
/// - The errors of a stripe's rows, column by column: that of the first column that doesn't store as many cells as
///   the column above has children.
/// - `TooMany(0)`, if there are more than 2,147,483,647 rows.
/// - `OutOfMemory`.
pub fn walk_columns(
    alloc: Global,
    tree: &Tree,
    footer: &StripeFooter,
    located: &Located<'_>,
    rows: u64,
) -> Result<(), StripeFault>
    requires there { width (shape tree.now) ≤ length footer.now.columns }
    requires located { AreLocated (length footer.now.columns) footer.now.streams
        located.now.bytes.now located.now.slices.items }
    // If the columns of the type have encodings in `footer`, `located` has the streams that `footer` names, and the
    // call succeeds, then there are `rows` rows of the type which the columns store, and the columns store nothing
    // more.
    ensures found { OnOk result ((cells : List Cell)
        × SpellRows (shape tree.now) (columns_of footer.now located.now.bytes.now) rows cells) }
    // If the columns of the type have encodings in `footer`, `located` has the streams that `footer` names, and the
    // call fails other than with `OutOfMemory`, then the columns don't store `rows` rows of the type; the error is
    // `TooMany(0)` with at least 2^31 rows, or the error of a column that needs as many cells as the columns above
    // store for it.
    ensures fault { IfErr result (λ cause. cause ≢ OutOfMemory
        → RowsFault (shape tree.now) (columns_of footer.now located.now.bytes.now) rows cause) }
{
    if rows > MOST_CELLS {
        return Err(StripeFault::TooMany(0));
    }
    match walk_tree(alloc, tree, 0, footer, located, rows as usize) {
        Ok(_) => Ok(()),
        Err(fault) => Err(fault),
    }
}
