//! The reader of a column from its positions on.
ghost use Rattle.std.specs.Prelude.{◌≡◌, ◌≢◌, ◌++◌, ◌+◌, List, length, IfOk, IfErr, MatchResult};
ghost use Rattle.orc_values.specs.Cells.{Cell};
ghost use Rattle.orc_values.specs.Views.{shape};
ghost use Rattle.orc_column_reader.specs.Starting.{AreStreams};
ghost use Rattle.orc_column_reader.specs.Stripe.{Streams};
ghost use Rattle.orc_directory.specs.declared.fault.StripeFault.TheVariants.{OutOfMemory};
ghost use Rattle.orc_row_index.specs.Positions as spec;
ghost use Rattle.orc_row_index.specs.Walking.{runs, lent_bytes};
ghost use Rattle.orc_group_reader.specs.Columns.{ColumnIsLeft, Turns};
ghost use Rattle.orc_group_reader.specs.ReadersAt.{ColumnAt};
ghost use Rattle.orc_group_reader.specs.Refusals.{ColumnRefused};

use crate::faults::entering_fault;
use crate::marks::marks_from;
use crate::own::own_from;
use orc_column_reader::{ColumnReader, ColumnStreams};
use orc_directory::{Spot, StreamKind, StripeFault};
use orc_row_index::{PlacedStreams, placed_streams};
use orc_values::Tree;
use std::alloc::Global;

/// Returns how many numbers a position in plain bytes has, if a column has them.
fn octets_size(content: Option<&[u8]>) -> usize
    ensures { result ≡ spec.octets_size (lent_bytes content.entry) }
{
    match content {
        Some(_) => 1,
        None => 0,
    }
}

/// Returns how many numbers the positions of a column have.
fn positions_size(placed: &PlacedStreams<'_>) -> usize
    ensures { result ≡ spec.position_size (runs placed.now.present)
        + (spec.octets_size (lent_bytes placed.now.content) + spec.position_size (runs placed.now.own)) }
{
    placed.present.position_size() + (octets_size(placed.content) + placed.own.position_size())
}

/// Returns the reader of a column, without those below it, from its positions on.
///
/// # Errors
///
/// - `BadPosition` with the column, if there are more or fewer positions than its streams have.
/// - `BadPosition` with a stream in which its position doesn't lie.
/// - `Run`, if there is an invalid run at a position.
/// - The errors of a dictionary.
/// - `OutOfMemory`, which is the only error if the positions are right.
pub(crate) fn reader_at<'a>(
    alloc: Global,
    tree: &Tree,
    column: usize,
    streams: &ColumnStreams<'a>,
    positions: &[u64],
) -> Result<ColumnReader<'a>, StripeFault>
    ensures left { (x y : Streams) (before after : List Cell)
        → AreStreams y streams.now
        → Turns (shape tree.now) x y before after positions.now
        → MatchResult result (λ reader. ColumnIsLeft (shape tree.now) reader after) (λ fault. fault ≡ OutOfMemory) }
    ensures at { IfOk result (λ reader. (x : Streams) → AreStreams x streams.now
        → ColumnAt (shape tree.now) x column positions.now reader) }
    ensures fault { IfErr result (λ cause. cause ≢ OutOfMemory
        → (x : Streams) → AreStreams x streams.now
        → ColumnRefused (shape tree.now) x column positions.now cause) }
{
    let placed = placed_streams(tree, streams);
    if positions.len() != positions_size(&placed) {
        return Err(StripeFault::BadPosition(Spot::Column(column)));
    }
    let (first, last) = positions.split_at(placed.present.position_size());
    let present = match marks_from(streams.present, first) {
        Ok(present) => present,
        Err(fault) => return Err(entering_fault(column, StreamKind::Present, fault)),
    };
    match own_from(alloc, tree, column, streams, last) {
        Ok(source) => Ok(ColumnReader::of(present, source)),
        Err(fault) => Err(fault),
    }
}
