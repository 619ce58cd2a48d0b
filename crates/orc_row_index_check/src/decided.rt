//! Whether the entries of a column's row index have right positions.
ghost use Rattle.std.specs.Prelude.{◌≡◌, ◌≢◌, ℕ, List, length, IfErr, MatchResult};
ghost use Rattle.orc_values.specs.Cells.{Cell};
ghost use Rattle.orc_values.specs.Views.{shape};
ghost use Rattle.orc_column_reader.specs.Starting.{AreStreams};
ghost use Rattle.orc_column_reader.specs.Stripe.{Streams, IsColumn};
ghost use Rattle.orc_directory.specs.declared.fault.StripeFault.TheVariants.{OutOfMemory};
ghost use Rattle.orc_row_groups.specs.Bounds.{AreBounds};
ghost use Rattle.orc_row_index_check.specs.ColumnTables.{ColumnFails};
ghost use Rattle.orc_row_index_check.specs.CountedBefore.{AreCountedBefore};
ghost use Rattle.orc_row_index_check.specs.Decided.{AreDecided};

use crate::column_table::tables_of;
use orc_column_reader::ColumnStreams;
use orc_directory::StripeFault;
use orc_row_groups::Counts;
use orc_row_index::{placed_streams, values_kind};
use orc_values::Tree;
use orc_wire::RowIndexEntry;
use std::alloc::Global;

/// Returns for each entry of a column's row index whether its positions are right: whether a reader goes on from
/// there with the cells after those that `counts` has for the entry's group (ORC specification, "Row Group Index").
/// Any right position is accepted, not only a writer's. No cells are needed, only their counts; an entry without
/// counts gets no answer.
///
/// Each stream is walked once. Looking up a position takes a search by halves, whatever it names.
///
/// # Errors
///
/// - `OutOfMemory`.
/// - `Run` with the column and one of its streams that have positions, if that is no stream of runs or has more than
///   2^64 - 1 values. This can't happen if the streams store cells.
pub fn positions_right_behind(
    alloc: Global,
    tree: &Tree,
    column: usize,
    streams: &ColumnStreams<'_>,
    counts: &[Counts],
    entries: &[RowIndexEntry],
) -> Result<Vec<bool>, StripeFault>
    // If the streams store cells of the type, and `counts` are those before each entry's group, for bounds of groups
    // of these cells, then the call returns for each entry whether its positions are right for a reader after the
    // cells before its group, or it fails with `OutOfMemory`.
    ensures right { (x : Streams) (cells : List Cell) (bounds : List ℕ) → AreStreams x streams.now
        → IsColumn (shape tree.now) x cells
        → AreBounds (length cells) bounds
        → AreCountedBefore counts.now cells bounds (length entries.now)
        → MatchResult result
        (λ right. AreDecided (shape tree.now) x cells bounds entries.now right.items)
        (λ fault. fault ≡ OutOfMemory) }
    // An error other than `OutOfMemory` is `Run` with `column` and PRESENT or the stream that has the runs of values.
    // The cause is that of the first run of the stream from the left that is invalid or goes past 2^64 - 1 values
    // (`TooMany` if it goes past them), or `TooFew` with the length of the stream, if it has fewer values.
    ensures fault { IfErr result (λ fault. fault ≢ OutOfMemory
        → (x : Streams) → AreStreams x streams.now
        → ColumnFails (shape tree.now) x column fault) }
{
    let placed = placed_streams(tree, streams);
    let kind = values_kind(tree, streams.has_dictionary);
    let tables = match tables_of(alloc, column, kind, &placed) {
        Ok(tables) => tables,
        Err(fault) => return Err(fault),
    };
    let mut right = Vec::with_capacity(alloc, entries.len())?;
    for (group, entry) in entries.iter().enumerate() {
        let Some(before) = counts.get(group) else {
            return Ok(right);
        };
        right.push(tables.right(entry.positions.as_slice(), *before))?;
    }
    Ok(right)
}
