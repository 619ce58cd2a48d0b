//! Tests whether a column's row index is the one that a writer writes.
ghost use Rattle.std.specs.Prelude.{◌≡◌, ◌<◌, ℕ, Some, List, length, true, IfOk};
ghost use Rattle.orc_values.specs.Cells.{Cell};
ghost use Rattle.orc_values.specs.Fits.{RowsFit};
ghost use Rattle.orc_values.specs.Views.{shape};
ghost use Rattle.orc_column_reader.specs.Starting.{AreStreams};
ghost use Rattle.orc_column_reader.specs.Stripe.{Streams};
ghost use Rattle.orc_values.specs.Limits.{cell_limit};
ghost use Rattle.orc_row_index.specs.RowIndex.{IsWrittenIndex};
ghost use Rattle.orc_row_index.specs.Walking.{lent_bytes};
ghost use Rattle.orc_check.specs.OwnGroups.{AreGroupsOf, HaveCells};

use orc_column_reader::ColumnStreams;
use orc_column_walk::GroupFound;
use orc_row_index::{Walk, placed_streams, put_entry};
use orc_values::Tree;
use std::alloc::{AllocError, Global};

/// Returns whether the bytes are the row index that is written of these groups. The call writes each entry and compares
/// the bytes, so it decodes none. A written row index has no findings.
///
/// The groups must be those of cells that the column's own streams spell.
///
/// # Errors
///
/// `AllocError` if there is no memory.
pub(crate) fn is_written(
    alloc: Global,
    tree: &Tree,
    streams: &ColumnStreams<'_>,
    groups: &[GroupFound],
    index: Option<&[u8]>,
) -> Result<bool, AllocError>
    requires { (x : Streams) × AreStreams x streams.now × HaveCells (shape tree.now) x groups.now }
    ensures { IfOk result (λ written. written ≡ true
        → (x : Streams) (cells : List Cell) (bounds : List ℕ)
        → AreStreams x streams.now
        → RowsFit (shape tree.now) cells → length cells < cell_limit
        → AreGroupsOf (shape tree.now) x cells bounds groups.now
        → (bytes : List ℕ)
        × (lent_bytes index.entry ≡ Some bytes)
        × IsWrittenIndex (shape tree.now) x cells bounds bytes) }
{
    let Some(bytes) = index else {
        return Ok(false);
    };
    let placed = placed_streams(tree, streams);
    let mut walk = Walk::start();
    // one vector for the bytes of each entry, and one for its positions
    let mut entry = Vec::new(alloc);
    let mut room = Vec::new(alloc);
    let mut rest = bytes;
    for group in groups {
        entry.clear();
        walk = put_entry(
            alloc,
            &placed,
            walk,
            group.before,
            &group.stat,
            &mut room,
            &mut entry,
        )?;
        let Some(behind) = rest.strip_prefix(&entry) else {
            return Ok(false);
        };
        rest = behind;
    }
    Ok(rest.is_empty())
}
