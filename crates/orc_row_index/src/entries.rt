//! The entries of a column's row index, group by group, and the statistic of the column's cells.
ghost use Rattle.std.specs.Prelude.{◌≡◌, List, length, IfOk, OnOk};
ghost use Rattle.orc_wire.specs.CanonicalText.{KeepsFront};
ghost use Rattle.orc_values.specs.Cells.{Cell};
ghost use Rattle.orc_values.specs.Views.{shape};
ghost use Rattle.orc_stats.specs.Kinds.{kind_of};
ghost use Rattle.orc_stats.specs.Statistics.{stat};
ghost use Rattle.orc_column_reader.specs.Starting.{AreStreams};
ghost use Rattle.orc_column_reader.specs.Stripe.{Streams};
ghost use Rattle.orc_row_groups.specs.Bounds.{AreBounds};
ghost use Rattle.orc_row_index.specs.OwnCells.{AreSpelledOwn};
ghost use Rattle.orc_row_groups.specs.OwnCells.{AreOwn};
ghost use Rattle.orc_row_index.specs.Positions.{AddsPositions};
ghost use Rattle.orc_row_index.specs.RowIndex.{IsWrittenIndex};

use crate::entry_text::put_entry;
use crate::placed::placed_streams;
use crate::tallies::{statistic_of, tally_of};
use crate::walk::Walk;
use orc_column_reader::ColumnStreams;
use orc_row_groups::{Counts, counts_behind, group_end, group_start, owns_between};
use orc_stats::{Bins, Bools, Children, Counted, Dates, Ints, Plain, Stat, StatKind, Tally, Texts};
use orc_values::{Own, Tree};
use std::alloc::{AllocError, Global};

/// Adds the entries, counted with one kind of tally. The statistic of all cells is joined from those of the groups
/// and that of the cells before the first group.
fn put_groups<'r, T: Tally<'r>>(
    alloc: Global,
    tree: &Tree,
    streams: &ColumnStreams<'_>,
    owns: &[Own<'r>],
    bounds: &[usize],
    out: &mut Vec<u8>,
) -> Result<Stat, AllocError>
    requires kind { T.kind ≡ kind_of (shape tree.now) }
    requires column { (cells : List Cell) × AreSpelledOwn (shape tree.now) streams.now owns.now cells }
    requires bounds { AreBounds (length owns.now) bounds.now }
    ensures index { (cells : List Cell) → AreSpelledOwn (shape tree.now) streams.now owns.now cells
        → OnOk result ((x : Streams) → AreStreams x streams.now
        → AddsPositions (IsWrittenIndex (shape tree.now) x cells bounds.now) out.old.items out.new.items) }
    ensures stat { (cells : List Cell) → AreOwn owns.now cells
        → IfOk result (λ found. found ≡ stat (kind_of (shape tree.now)) cells) }
    ensures front { KeepsFront out.old.items out.new.items }
{
    let placed = placed_streams(tree, streams);
    let before = owns_between(owns, 0, group_start(bounds, 0, owns.len()));
    let mut counts = counts_behind(Counts::none(), before);
    let mut whole: T = tally_of(before);
    let mut walk = Walk::start();
    let mut room = Vec::new(alloc);
    for group in 0..bounds.len() {
        let end = group_end(bounds, group, owns.len());
        let cells = owns_between(owns, bounds[group], end);
        let tally: T = tally_of(cells);
        walk = put_entry(
            alloc,
            &placed,
            walk,
            counts,
            &statistic_of(alloc, &tally)?,
            &mut room,
            out,
        )?;
        counts = counts_behind(counts, cells);
        whole.join(&tally);
    }
    statistic_of(alloc, &whole)
}

/// Adds the bytes of the entries of a column's row index, one for each bound, and returns the statistic of the cells.
/// Each cell is counted once, for its group.
///
/// # Errors
///
/// `AllocError`, if there is no memory. A part of the bytes may have been added then.
pub(crate) fn put_entries(
    alloc: Global,
    tree: &Tree,
    streams: &ColumnStreams<'_>,
    owns: &[Own<'_>],
    bounds: &[usize],
    out: &mut Vec<u8>,
) -> Result<Stat, AllocError>
    requires column { (cells : List Cell) × AreSpelledOwn (shape tree.now) streams.now owns.now cells }
    requires bounds { AreBounds (length owns.now) bounds.now }
    ensures index { (cells : List Cell) → AreSpelledOwn (shape tree.now) streams.now owns.now cells
        → OnOk result ((x : Streams) → AreStreams x streams.now
        → AddsPositions (IsWrittenIndex (shape tree.now) x cells bounds.now) out.old.items out.new.items) }
    ensures stat { (cells : List Cell) → AreOwn owns.now cells
        → IfOk result (λ found. found ≡ stat (kind_of (shape tree.now)) cells) }
    ensures front { KeepsFront out.old.items out.new.items }
{
    match StatKind::of_type(tree) {
        StatKind::Plain => put_groups::<Counted<Plain>>(alloc, tree, streams, owns, bounds, out),
        StatKind::Ints => put_groups::<Counted<Ints>>(alloc, tree, streams, owns, bounds, out),
        StatKind::Bools => put_groups::<Counted<Bools>>(alloc, tree, streams, owns, bounds, out),
        StatKind::Dates => put_groups::<Counted<Dates>>(alloc, tree, streams, owns, bounds, out),
        StatKind::Texts => put_groups::<Counted<Texts<'_>>>(
            alloc, tree, streams, owns, bounds, out,
        ),
        StatKind::Bins => put_groups::<Counted<Bins>>(alloc, tree, streams, owns, bounds, out),
        StatKind::Children => {
            put_groups::<Counted<Children>>(alloc, tree, streams, owns, bounds, out)
        }
    }
}
