//! Checks the row index of a column, which has an entry for each row group.
ghost use Rattle.std.specs.Prelude.{◌≡◌, ◌<◌, ℕ, false, List, length, map, get_or, OnOk, IfOk};
ghost use Rattle.orc_values.specs.Cells.{Cell};
ghost use Rattle.orc_values.specs.Fits.{RowsFit};
ghost use Rattle.orc_values.specs.Shapes.{width};
ghost use Rattle.orc_values.specs.Views.{shape};
ghost use Rattle.orc_column_reader.specs.Stripe.{Streams, columns_of};
ghost use Rattle.orc_values.specs.Limits.{cell_limit};
ghost use Rattle.orc_column_walk.specs.declared.found.GroupFound.{GroupFound as Group};
ghost use Rattle.orc_row_index_check.specs.Decided.{AreDecided};
ghost use Rattle.orc_check.specs.Findings.{AddsFindings, IndexedColumn, OfGroups, OfIndex};
ghost use Rattle.orc_check.specs.Needed.{MayBeWhole};
ghost use Rattle.orc_check.specs.OwnGroups.{HaveCells};
ghost use Rattle.orc_check.specs.Walking.{HasStripeParts, AreGroups, AreColumnGroupsFound};

use crate::entries::entry_tells;
use crate::finding::Finding;
use crate::needed::may_be_whole;
use crate::open_stripe::OpenStripe;
use crate::reports::report;
use crate::written_index::is_written;
use orc_column_reader::streams_of;
use orc_column_walk::GroupFound;
use orc_row_groups::Counts;
use orc_row_index_check::positions_right_behind;
use orc_stripe_reader::read_index;
use orc_values::Tree;
use orc_wire::RowIndexEntry;
use std::alloc::{AllocError, Global};

/// Takes from each group the counts of the cells before it.
fn counts_before(alloc: Global, groups: &[GroupFound]) -> Result<Vec<Counts>, AllocError>
    ensures { IfOk result (λ counts. counts.items ≡ map (λ (group : Group). group.before) groups.now) }
{
    let mut counts = Vec::new(alloc);
    for group in groups {
        counts.push(group.before)?;
    }
    Ok(counts)
}

/// Returns whether the positions of a group are right.
fn is_right(right: &[bool], group: usize) -> bool
    ensures { result ≡ get_or right.now group false }
{
    match right.get(group) {
        Some(right) => *right,
        None => false,
    }
}

/// Adds the findings of each group.
fn check_groups(
    number: usize,
    column: usize,
    tree: &Tree,
    groups: &[GroupFound],
    entries: &[RowIndexEntry],
    right: &[bool],
    found: &mut Vec<Finding>,
) -> Result<(), AllocError>
    requires many { length entries.now ≡ length groups.now }
    ensures { OnOk result ((streams : Streams) (cells : List Cell) (bounds : List ℕ) →
        let x : IndexedColumn = record {
          shape = shape tree.now;
          streams = streams;
          cells = cells;
          bounds = bounds;
          entries = entries.now;
        } in
        RowsFit x.shape cells → length cells < cell_limit
        → AreGroups x.shape cells bounds groups.now
        → AreDecided x.shape streams cells bounds entries.now right.now
        → AddsFindings (OfGroups x number column) found.old.items found.new.items) }
{
    for group in 0..entries.len() {
        let tells = entry_tells(tree, &entries[group], &groups[group].stat);
        report(tells, Finding::IndexStatistic(number, column, group), found)?;
        report(
            is_right(right, group),
            Finding::IndexPosition(number, column, group),
            found,
        )?;
    }
    Ok(())
}

/// Adds the findings of a column's row index. `groups` are those of the rows if the row index may have an entry for
/// each of these; else they aren't used.
pub(crate) fn check_index(
    alloc: Global,
    stripe: &OpenStripe<'_, '_>,
    tree: &Tree,
    column: usize,
    groups: &[GroupFound],
    found: &mut Vec<Finding>,
) -> Result<(), AllocError>
    requires laid_out { HasStripeParts stripe.now }
    requires there { column < width stripe.now.view.now.schema }
    requires own { HaveCells (shape tree.now) (columns_of stripe.now.view.now.footer stripe.now.view.now.bytes column)
        groups.now }
    ensures { OnOk result ((rows : List Cell) → 0 < stripe.now.view.now.stride
        → length rows ≡ stripe.now.view.now.info.number_of_rows
        → (MayBeWhole stripe.now.view.now column
        → AreColumnGroupsFound stripe.now.view.now rows column (shape tree.now) groups.now)
        → AddsFindings (OfIndex stripe.now.view.now stripe.now.number rows column) found.old.items found.new.items) }
{
    let finding = Finding::IndexEntries(stripe.number, column);
    if !may_be_whole(stripe, column) {
        return report(false, finding, found);
    }
    let text = &stripe.texts[column];
    let streams = streams_of(column, stripe.view.footer(), &stripe.located);
    if is_written(alloc, tree, &streams, groups, text.bytes)? {
        return Ok(());
    }
    let Some(message) = read_index(alloc, text)? else {
        return report(false, finding, found);
    };
    let entries = message.entries.as_slice();
    if entries.len() != groups.len() {
        return report(false, finding, found);
    }
    let counts = counts_before(alloc, groups)?;
    let Ok(right) = positions_right_behind(alloc, tree, column, &streams, &counts, entries) else {
        return Err(AllocError);
    };
    check_groups(stripe.number, column, tree, groups, entries, &right, found)
}
