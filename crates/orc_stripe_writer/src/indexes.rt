//! The row groups of a stripe, and how a column's row index is added to those of the stripe.
ghost use Rattle.std.specs.Prelude.{◌≡◌, ◌<◌, List, length, IfOk, OnOk};
ghost use Rattle.orc_values.specs.Cells.{Cell};
ghost use Rattle.orc_values.specs.Views.{shape};
ghost use Rattle.orc_stats.specs.Kinds.{kind_of};
ghost use Rattle.orc_stats.specs.Statistics.{stat};
ghost use Rattle.orc_column_reader.specs.Starting.{AreStreams};
ghost use Rattle.orc_column_reader.specs.Stripe.{Streams};
ghost use Rattle.orc_row_groups.specs.Bounds.{AreBounds};
ghost use Rattle.orc_row_index.specs.OwnCells.{AreSpelledOwn};
ghost use Rattle.orc_row_groups.specs.OwnCells.{AreOwn};
ghost use Rattle.orc_row_index.specs.RowIndex.{IsWrittenIndex};
ghost use Rattle.orc_stripe_writer.specs.Firsts.{firsts_of};
ghost use Rattle.orc_stripe_writer.specs.Indexes.{AddsIndex};

use crate::body::Body;
use orc_column_reader::ColumnStreams;
use orc_row_groups::group_starts;
use orc_row_index::put_index;
use orc_stats::Stat;
use orc_values::{Own, Tree};
use orc_wire::{ROW_INDEX, StreamMsg};
use std::alloc::{AllocError, Global};

/// Returns how many rows come before each group of the stripe. There is no group if the stride is 0.
pub(crate) fn first_rows(
    alloc: Global,
    stride: usize,
    rows: usize,
) -> Result<Vec<usize>, AllocError>
    ensures { IfOk result (λ found. found.items ≡ firsts_of stride rows) }
{
    if stride == 0 {
        return Ok(Vec::new(alloc));
    }
    group_starts(alloc, stride, rows)
}

/// Adds the row index of the next column, and its line in the directory. Returns the statistic of the column's cells.
pub(crate) fn put_column_index(
    alloc: Global,
    tree: &Tree,
    streams: &ColumnStreams<'_>,
    owns: &[Own<'_>],
    bounds: &[usize],
    out: &mut Body,
) -> Result<Stat, AllocError>
    requires column { (cells : List Cell) × AreSpelledOwn (shape tree.now) streams.now owns.now cells }
    requires bounds { AreBounds (length owns.now) bounds.now }
    ensures index { (cells : List Cell) → AreSpelledOwn (shape tree.now) streams.now owns.now cells
        → OnOk result ((x : Streams) → AreStreams x streams.now
        → AddsIndex (IsWrittenIndex (shape tree.now) x cells bounds.now) out.old out.new) }
    ensures stat { (cells : List Cell) → AreOwn owns.now cells
        → IfOk result (λ found. found ≡ stat (kind_of (shape tree.now)) cells) }
{
    let Ok(column) = u32::try_from(out.directory.len()) else {
        return Err(AllocError);
    };
    let start = out.bytes.len();
    let found = put_index(alloc, tree, streams, owns, bounds, &mut out.bytes)?;
    let length = out.bytes.len() - start;
    out.directory.push(StreamMsg {
        kind: ROW_INDEX,
        column,
        length: length as u64,
    })?;
    Ok(found)
}
