//! A column without those below it, and the groups of its cells.
ghost use Rattle.std.specs.Prelude.{◌≡◌, ◌≢◌, ◌<◌, Bool, List, length, IfOk, IfErr};
ghost use Rattle.orc_values.specs.Cells.{Cell};
ghost use Rattle.orc_values.specs.Views.{shape};
ghost use Rattle.orc_directory.specs.Located.{AreLocated};
ghost use Rattle.orc_column_reader.specs.Stripe.{columns_of};
ghost use Rattle.orc_values.specs.Limits.{cell_limit};
ghost use Rattle.orc_directory.specs.declared.fault.StripeFault.TheVariants.{OutOfMemory};
ghost use Rattle.orc_row_groups.specs.Bounds.{AreBounds, bound_at};
ghost use Rattle.orc_column_walk.specs.ColumnFound.{IsColumnFound};
ghost use Rattle.orc_column_walk.specs.OwnColumns.{IsOwnColumn};
ghost use Rattle.orc_column_walk.specs.OwnFaults.{SpellsNoCells};
ghost use Rattle.orc_column_walk.specs.OwnLeft.{OwnValuesLeft};
ghost use Rattle.orc_column_walk.specs.Passed.{HavePassedValues, AreValueBounds};
ghost use Rattle.orc_column_reader.specs.ReaderFaults.{ValuesMeet};

use crate::found::ColumnFound;
use crate::group_values::{GroupBounds, find_values};
use crate::marks::{ValueBounds, count_values_by_group};
use crate::struct_groups::find_structs;
use orc_column_reader::{ValueSource, reader_of};
use orc_directory::{Located, StripeFault};
use orc_values::Tree;
use orc_wire::StripeFooter;
use std::alloc::Global;

/// Reads all values of a column, by its marks, and counts them group by group. Structs have no values to read.
fn find_column(
    alloc: Global,
    tree: &Tree,
    source: &mut ValueSource<'_>,
    count: usize,
    bounds: &[usize],
    marked: ValueBounds,
) -> Result<ColumnFound, StripeFault>
    requires few { count < cell_limit }
    requires bounds { AreBounds count bounds.now }
    requires first { bound_at count bounds.now 0 ≡ 0 }
    requires values { AreValueBounds count bounds.now marked.values marked.before.items }
    ensures found { IfOk result (λ found. (read : List Cell)
        × (length read ≡ marked.values)
        × OwnValuesLeft (shape tree.now) source.old read
        × ((cells : List Cell) → HavePassedValues count bounds.now marked.before.items read cells
        → IsColumnFound (shape tree.now) cells bounds.now found)) }
    ensures none { IfErr result (λ fault. fault ≢ OutOfMemory
        → (read : List Cell) → OwnValuesLeft (shape tree.now) source.old read → length read ≡ marked.values → ⊥) }
    ensures fault { IfErr result (λ cause. cause ≢ OutOfMemory
        → (all : Bool) × ValuesMeet (shape tree.now) source.old all marked.values cause) }
{
    if let Tree::Struct(_, _) = tree {
        return Ok(find_structs(alloc, count, bounds, marked)?);
    }
    let groups = GroupBounds {
        count,
        bounds,
        values: marked.values,
        value_bounds: &marked.before,
    };
    find_values(alloc, tree, source, groups)
}

/// Reads a column of `count` cells from its own streams, to their ends, and counts the cells: the column's statistic,
/// that of each group, and what comes before each group; and how many cells the columns right below have, and how
/// many of these come before each group. `bounds` are how many of the cells come before each group (ORC
/// specification, "Column Statistics" and "Row Group Index").
///
/// # Errors
///
/// - The errors of a stripe's rows that are about this column.
/// - `OutOfMemory`.
pub fn read_groups(
    alloc: Global,
    tree: &Tree,
    column: usize,
    footer: &StripeFooter,
    located: &Located<'_>,
    count: usize,
    bounds: &[usize],
) -> Result<ColumnFound, StripeFault>
    requires there { column < length footer.now.columns }
    requires located { AreLocated (length footer.now.columns) footer.now.streams
        located.now.bytes.now located.now.slices.items }
    requires few { count < cell_limit }
    requires bounds { AreBounds count bounds.now }
    requires first { bound_at count bounds.now 0 ≡ 0 }
    // If `column` has an encoding in `footer`, `located` has the streams that `footer` names, `count` is below 2^31,
    // `bounds` begin with 0, never fall and are at most `count`, and the call succeeds, then the column's own streams
    // store exactly `count` cells, without children, and what is returned about the column and about each group is
    // right for these cells.
    ensures found { IfOk result (λ found. (own : List Cell)
        × IsOwnColumn (shape tree.now) (columns_of footer.now located.now.bytes.now column) count own
        × IsColumnFound (shape tree.now) own bounds.now found) }
    // If the call succeeds, then a column right below has fewer than 2^31 cells.
    ensures few { IfOk result (λ found. found.below < cell_limit) }
    // If `column` has an encoding in `footer`, `located` has the streams that `footer` names, `count` is below 2^31,
    // `bounds` begin with 0, never fall and are at most `count`, and the call fails other than with `OutOfMemory`,
    // then the column's own streams don't store `count` cells, and the error is one of these streams.
    ensures fault { IfErr result (λ cause. cause ≢ OutOfMemory
        → (all : Bool)
        × SpellsNoCells (shape tree.now) (columns_of footer.now located.now.bytes.now column) column all count cause) }
{
    match reader_of(alloc, tree, column, footer, located) {
        Ok(mut reader) => {
            match count_values_by_group(alloc, column, &mut reader.present, count, bounds) {
                Ok(marked) => {
                    match find_column(alloc, tree, &mut reader.source, count, bounds, marked) {
                        Ok(found) => Ok(found),
                        Err(fault) => Err(fault),
                    }
                }
                Err(fault) => Err(fault),
            }
        }
        Err(fault) => Err(fault),
    }
}
