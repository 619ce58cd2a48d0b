//! The row index of a column.
ghost use Rattle.std.specs.Prelude.{◌≡◌, List, length, IfOk, OnOk, OnErr};
ghost use Rattle.orc_values.specs.Cells.{Cell};
ghost use Rattle.orc_values.specs.Views.{shape};
ghost use Rattle.orc_stats.specs.Kinds.{kind_of};
ghost use Rattle.orc_stats.specs.Statistics.{stat};
ghost use Rattle.orc_column_reader.specs.Starting.{AreStreams};
ghost use Rattle.orc_column_reader.specs.Stripe.{Streams};
ghost use Rattle.orc_row_groups.specs.Bounds.{AreBounds};
ghost use Rattle.orc_row_index.specs.OwnCells.{AreSpelledOwn};
ghost use Rattle.orc_row_groups.specs.OwnCells.{AreOwn};
ghost use Rattle.orc_row_index.specs.Positions.{AddsPositions};
ghost use Rattle.orc_row_index.specs.RowIndex.{IsWrittenIndex};

use crate::entries::put_entries;
use orc_column_reader::ColumnStreams;
use orc_stats::Stat;
use orc_values::{Own, Tree};
use std::alloc::{AllocError, Global};

/// Adds the bytes of a column's ROW_INDEX (ORC specification, "Row Group Index"), and returns the statistic of all
/// its cells. Each value is counted once, for its group. `bounds` are how many of the column's cells come before each
/// group. A group's entry has the positions after these cells, and the statistic of the cells from there to the next
/// bound, or to the end. The cells are given without their children.
///
/// The streams must store the cells, which must fit the column's type. The bounds must never fall and be at most the
/// number of cells.
///
/// # Errors
///
/// `AllocError`, if there is no memory. `out` stays as it was then.
pub fn put_index(
    alloc: Global,
    tree: &Tree,
    streams: &ColumnStreams<'_>,
    owns: &[Own<'_>],
    bounds: &[usize],
    out: &mut Vec<u8>,
) -> Result<Stat, AllocError>
    requires column { (cells : List Cell) × AreSpelledOwn (shape tree.now) streams.now owns.now cells }
    requires bounds { AreBounds (length owns.now) bounds.now }
    // If `owns` are cells without their children, the cells fit the type, `streams` store them, no bound is below the
    // one before it or above the number of cells, and the call succeeds, then the one written row index of these
    // cells and bounds was put at the end of `out`: for each group the writer's positions after the cells before it,
    // and its statistic.
    ensures index { (cells : List Cell) → AreSpelledOwn (shape tree.now) streams.now owns.now cells
        → OnOk result ((x : Streams) → AreStreams x streams.now
        → AddsPositions (IsWrittenIndex (shape tree.now) x cells bounds.now) out.old.items out.new.items) }
    // If `owns` are cells without their children, then the returned statistic is that of all these cells.
    ensures stat { (cells : List Cell) → AreOwn owns.now cells
        → IfOk result (λ found. found ≡ stat (kind_of (shape tree.now)) cells) }
    // If the call fails, then `out` stays as it was.
    ensures unchanged { OnErr result (out.new.items ≡ out.old.items) }
{
    let start = out.len();
    match put_entries(alloc, tree, streams, owns, bounds, out) {
        Ok(stat) => Ok(stat),
        Err(refused) => {
            out.truncate(start);
            Err(refused)
        }
    }
}
