//! The entry of a group in a row index, as it is written.
ghost use Rattle.std.specs.Prelude.{◌≡◌, List, IfOk, OnOk, OnErr};
ghost use Rattle.orc_values.specs.Cells.{Cell};
ghost use Rattle.orc_stats.specs.Messages as spec;
ghost use Rattle.orc_row_index.specs.EntryText.{IsEntryText};
ghost use Rattle.orc_row_index.specs.Positions.{AddsPositions};
ghost use Rattle.orc_row_index.specs.Walking.{runs, lent_bytes, HavePositions, WalkedBefore};
ghost use Rattle.orc_row_groups.specs.Counts.{AreCounted};

use crate::placed::{PlacedStreams, put_positions};
use crate::walk::Walk;
use orc_row_groups::Counts;
use orc_stats::Stat;
use orc_wire::{ColumnStats, Items, Message, RowIndexEntry};
use std::alloc::{AllocError, Global};
use std::mem::replace;

/// The field number of an entry in a row index.
const ENTRY: u32 = 1;

/// Returns the message of a statistic.
#[inline(always)]
fn message_of(alloc: Global, stat: &Stat) -> Result<ColumnStats, AllocError>
    ensures { IfOk result (λ message. message ≡ spec.message_of stat.now) }
{
    match stat.put(alloc) {
        Ok(message) => Ok(message),
        Err(_) => Err(AllocError),
    }
}

/// Adds the bytes of a group's entry to those of a column's row index (ORC specification, "Row Group Index"): the
/// positions after the counted cells, and the group's statistic. Returns how far the streams are walked then. `room`
/// is for the numbers of the positions; what it contains is dropped.
///
/// `counts` must be those of cells whose values the streams have, and the walk must have come no further than these
/// cells.
///
/// # Errors
///
/// `AllocError`, if there is no memory. `out` stays as it was then.
#[inline(always)]
pub fn put_entry(
    alloc: Global,
    placed: &PlacedStreams<'_>,
    from: Walk,
    counts: Counts,
    stat: &Stat,
    room: &mut Vec<u64>,
    out: &mut Vec<u8>,
) -> Result<Walk, AllocError>
    requires { (before : List Cell)
        × AreCounted counts before
        × HavePositions (runs placed.now.present) (lent_bytes placed.now.content) (runs placed.now.own) before
        × WalkedBefore (runs placed.now.present) (runs placed.now.own) from before }
    // If `counts` are those of cells whose values the streams have, the walk has come no further than these cells,
    // and the call succeeds, then the canonical text of one entry was put at the end of `out`: the writer's positions
    // after these cells, and `stat`.
    ensures entry { (before : List Cell) → AreCounted counts before
        → HavePositions (runs placed.now.present) (lent_bytes placed.now.content) (runs placed.now.own) before
        → OnOk result (AddsPositions (IsEntryText (runs placed.now.present) (lent_bytes placed.now.content)
        (runs placed.now.own) before stat.now) out.old.items out.new.items) }
    // If the call succeeds, then the returned walk has come no further than cells of which `counts` are the counts.
    ensures walked { IfOk result (λ walk. (before : List Cell)
        → AreCounted counts before
        → WalkedBefore (runs placed.now.present) (runs placed.now.own) walk before) }
    // If the call fails, then `out` stays as it was.
    ensures unchanged { OnErr result (out.new.items ≡ out.old.items) }
{
    room.clear();
    let walk = put_positions(placed, from, counts, room)?;
    let entry = RowIndexEntry {
        positions: Items::from_vec(replace(room, Vec::new(alloc))),
        statistics: Some(message_of(alloc, stat)?),
    };
    let put = entry.put_within(ENTRY, out);
    *room = entry.positions.into_vec();
    match put {
        Ok(()) => Ok(walk),
        Err(_) => Err(AllocError),
    }
}
