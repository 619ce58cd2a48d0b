//! The source of a column's values from its positions on.
ghost use Rattle.std.specs.Prelude.{◌≡◌, ◌≢◌, ◌++◌, ℕ, List, IfOk, IfErr, MatchResult};
ghost use Rattle.orc_values.specs.Cells.{Cell, values};
ghost use Rattle.orc_values.specs.Views.{shape};
ghost use Rattle.orc_column_reader.specs.Starting.{AreStreams};
ghost use Rattle.orc_column_reader.specs.Stripe.{Streams};
ghost use Rattle.orc_directory.specs.declared.fault.StripeFault.TheVariants.{OutOfMemory};
ghost use Rattle.orc_row_index.specs.Positions.{octets_position};
ghost use Rattle.orc_row_groups.specs.Counts.{octets};
ghost use Rattle.orc_row_index.specs.RunStreams.{value_bytes};
ghost use Rattle.orc_group_reader.specs.Columns.{OwnTurns, EnteredValuesLeft};
ghost use Rattle.orc_group_reader.specs.ReadersAt.{SourceAt};
ghost use Rattle.orc_group_reader.specs.Refusals.{OwnRefused};

use crate::entered::enter;
use crate::entries::column_entries;
use crate::faults::entering_fault;
use crate::octets::octets_from;
use crate::value_source::source_from;
use orc_column_reader::{ColumnStreams, ValueSource};
use orc_directory::{Spot, StreamKind, StripeFault};
use orc_row_index::{placed_streams, values_kind};
use orc_values::Tree;
use std::alloc::Global;

/// Returns the source of a column's values, from the positions of its streams besides PRESENT on.
///
/// # Errors
///
/// - `BadPosition` with a stream in which its position doesn't lie.
/// - `Run`, if there is an invalid run at a position.
/// - The errors of a dictionary.
/// - `OutOfMemory`, which is the only error if the positions are right.
pub(crate) fn own_from<'a>(
    alloc: Global,
    tree: &Tree,
    column: usize,
    streams: &ColumnStreams<'a>,
    positions: &[u64],
) -> Result<ValueSource<'a>, StripeFault>
    ensures left { (x y : Streams) (before after : List Cell) (last : List ℕ)
        → AreStreams y streams.now
        → OwnTurns (shape tree.now) x y before after last
        → positions.now ≡ octets_position (value_bytes (shape tree.now) x) (octets before) ++ last
        → MatchResult result
        (λ source. EnteredValuesLeft (shape tree.now) source (values after))
        (λ fault. fault ≡ OutOfMemory) }
    ensures at { IfOk result (λ source. (x : Streams) → AreStreams x streams.now
        → SourceAt (shape tree.now) x column positions.now source) }
    ensures fault { IfErr result (λ cause. cause ≢ OutOfMemory
        → (x : Streams) → AreStreams x streams.now
        → OwnRefused (shape tree.now) x column positions.now cause) }
{
    let placed = placed_streams(tree, streams);
    let Some(cut) = octets_from(placed.content, positions) else {
        return Err(StripeFault::BadPosition(Spot::Stream(column, StreamKind::Data)));
    };
    let own = match enter(&placed.own, cut.positions) {
        Ok(own) => own,
        Err(fault) => {
            let kind = values_kind(tree, streams.has_dictionary);
            return Err(entering_fault(column, kind, fault));
        }
    };
    match column_entries(alloc, tree, column, streams) {
        Ok(entries) => Ok(source_from(column, own, cut.rest, entries)),
        Err(fault) => Err(fault),
    }
}
