//! Checks the columns of a stripe one after the other, each from its own streams. No row is made.
ghost use Rattle.std.specs.Prelude.{◌≡◌, ◌≢◌, ◌<◌, ◌≤◌, ◌+◌, ◌++◌, ◌∷◌, [], Bool, List, slice_get, OnOk, IfOk, IfErr};
ghost use Rattle.orc_stats.specs.Known.{known_as, told_body};
ghost use Rattle.orc_values.specs.Cells.{Cell, values};
ghost use Rattle.orc_values.specs.Shapes.{width, widths};
ghost use Rattle.orc_values.specs.Views.{shape, fields as fields_view};
ghost use Rattle.orc_column_reader.specs.Faults.{RowsFault};
ghost use Rattle.orc_column_reader.specs.Stripe.{IsStripe, columns_of};
ghost use Rattle.orc_directory.specs.declared.fault.StripeFault.TheVariants.{OutOfMemory};
ghost use Rattle.orc_row_groups.specs.Bounds.{AreBounds, bound_at};
ghost use Rattle.orc_column_walk.specs.OwnColumns.{IsOwnColumn, OwnDown, OwnWithin};
ghost use Rattle.orc_column_walk.specs.OwnFaults.{SpellsNoCells, RefusedDown, RefusedWithin};
ghost use Rattle.orc_column_walk.specs.OwnLeft.{children};
ghost use Rattle.orc_row_groups.specs.Groups.{starts_of_groups};
ghost use Rattle.orc_check.specs.declared.finding.Finding.{Finding as Reported};
ghost use Rattle.orc_check.specs.Checking.{HaveKnown};
ghost use Rattle.orc_check.specs.Findings.{AddsFindings, OfEach, OfColumn};
ghost use Rattle.orc_check.specs.Needed.{NeedGroups};
ghost use Rattle.orc_check.specs.OwnGroups.{HaveCells};
ghost use Rattle.orc_check.specs.Walking.{HasStripeParts, AreGrouped, ComesNext, FieldsComeNext, AreChildGroups, IsFoundInRows, AreColumnsChecked};

use crate::agreeing::{keep_told, tells};
use crate::finding::Finding;
use crate::needed::need_groups;
use crate::open_stripe::OpenStripe;
use crate::reports::report;
use crate::row_index::check_index;
use orc_column_walk::{ColumnFound, read_groups};
use orc_directory::StripeFault;
use orc_row_groups::group_starts;
use orc_stats::Stat;
use orc_stripe_reader::StripeView;
use orc_values::{Field, MOST_CELLS, Tree, width_of};
use orc_wire::Items;
use std::alloc::{AllocError, Global};

/// How many cells a column has, and how many of them come before each group.
#[derive(Drop)]
struct CellGroups {
    count: usize,
    bounds: Vec<usize>,
}

/// Returns how many rows come before each group. If the groups of no column are needed, all rows count as one group.
fn firsts_of(
    alloc: Global,
    stripe: &OpenStripe<'_, '_>,
    rows: usize,
) -> Result<Vec<usize>, AllocError>
    requires laid_out { HasStripeParts stripe.now }
    ensures bounds { IfOk result (λ firsts. AreBounds rows firsts.items) }
    ensures first { IfOk result (λ firsts. bound_at rows firsts.items 0 ≡ 0) }
    ensures needed { IfOk result (λ firsts. NeedGroups stripe.now.view.now 0 (width stripe.now.view.now.schema)
        → firsts.items ≡ starts_of_groups stripe.now.view.now.stride rows) }
{
    if need_groups(stripe, 0, stripe.texts.len()) {
        return group_starts(alloc, stripe.view.stride() as usize, rows);
    }
    Vec::from_elem(alloc, 0, 1)
}

/// Returns how many of a column's cells come before each group. If neither the column's groups are needed nor those of
/// a column below it, all cells count as one group.
fn group_bounds<'c>(
    stripe: &OpenStripe<'_, '_>,
    tree: &Tree,
    column: usize,
    cells: &'c CellGroups,
) -> &'c [usize]
    requires laid_out { HasStripeParts stripe.now }
    requires there { column + width (shape tree.now) ≤ width stripe.now.view.now.schema }
    requires grouped { AreGrouped cells.now }
    ensures bounds { AreBounds cells.now.count result.now }
    ensures first { bound_at cells.now.count result.now 0 ≡ 0 }
    ensures needed { NeedGroups stripe.now.view.now column (column + width (shape tree.now))
        → result.now ≡ cells.now.bounds.items }
{
    if need_groups(stripe, column, column + width_of(tree)) {
        return cells.bounds.as_slice();
    }
    &[0]
}

/// Adds the findings of a column.
fn check_column(
    alloc: Global,
    stripe: &OpenStripe<'_, '_>,
    tree: &Tree,
    column: usize,
    read: &ColumnFound,
    found: &mut Vec<Finding>,
) -> Result<(), AllocError>
    requires laid_out { HasStripeParts stripe.now }
    requires there { column < width stripe.now.view.now.schema }
    requires own { HaveCells (shape tree.now) (columns_of stripe.now.view.now.footer stripe.now.view.now.bytes column)
        read.now.groups.items }
    ensures { OnOk result ((rows : List Cell) → IsFoundInRows stripe.now.view.now rows column (shape tree.now) read.now
        → AddsFindings (OfColumn stripe.now.view.now stripe.now.told.now stripe.now.number rows column)
        found.old.items found.new.items) }
{
    report(
        tells(stripe.told, column, &read.stat),
        Finding::StripeStatistic(stripe.number, column),
        found,
    )?;
    if stripe.view.stride() > 0 {
        check_index(alloc, stripe, tree, column, &read.groups, found)?;
    }
    Ok(())
}

/// Adds a column's statistic to the list, without the element counts that the stored one doesn't have. Returns the
/// number of cells of the column's children.
fn put_stat(
    read: ColumnFound,
    told: &[Stat],
    column: usize,
    stats: &mut Vec<Stat>,
) -> Result<CellGroups, AllocError>
    ensures stat { OnOk result (stats.new.items ≡ stats.old.items
        ++ known_as (told_body (slice_get told.now column)) read.stat ∷ []) }
    ensures below { IfOk result
        (λ below. (below.count ≡ read.below) × (below.bounds.items ≡ read.bounds_below.items)) }
{
    let mut stat = read.stat;
    keep_told(&mut stat, told, column);
    stats.push(stat)?;
    Ok(CellGroups {
        count: read.below,
        bounds: read.bounds_below,
    })
}

/// Reads a column that has `cells.count` cells, and adds its findings and its statistic. Returns the number of cells of
/// the column's children.
fn add_column(
    alloc: Global,
    stripe: &OpenStripe<'_, '_>,
    tree: &Tree,
    column: usize,
    cells: &CellGroups,
    found: &mut Vec<Finding>,
    stats: &mut Vec<Stat>,
) -> Result<CellGroups, StripeFault>
    requires laid_out { HasStripeParts stripe.now }
    requires there { column + width (shape tree.now) ≤ width stripe.now.view.now.schema }
    requires grouped { AreGrouped cells.now }
    ensures found { IfOk result (λ below. (own : List Cell)
        × IsOwnColumn (shape tree.now) (columns_of stripe.now.view.now.footer stripe.now.view.now.bytes column)
        cells.now.count own
        × (below.count ≡ children (shape tree.now) (values own))) }
    ensures grouped { IfOk result AreGrouped }
    ensures rows { IfOk result (λ below. (rows here : List Cell)
        → ComesNext stripe.now.view.now rows column (shape tree.now) here cells.now
        → AreChildGroups stripe.now.view.now column (shape tree.now) here cells.now below) }
    ensures checked { OnOk result ((rows here : List Cell) (before : List Reported)
        → ComesNext stripe.now.view.now rows column (shape tree.now) here cells.now
        → AreColumnsChecked stripe.now.view.now stripe.now.told.now stripe.now.number rows column before
        found.old.items stats.old.items
        → AreColumnsChecked stripe.now.view.now stripe.now.told.now stripe.now.number rows (column + 1) before
        found.new.items stats.new.items) }
    ensures fault { IfErr result (λ cause. cause ≢ OutOfMemory
        → (all : Bool)
        × SpellsNoCells (shape tree.now) (columns_of stripe.now.view.now.footer stripe.now.view.now.bytes column)
        column all cells.now.count cause) }
{
    let read = read_groups(
        alloc,
        tree,
        column,
        stripe.view.footer(),
        &stripe.located,
        cells.count,
        group_bounds(stripe, tree, column, cells),
    )?;
    check_column(alloc, stripe, tree, column, &read, found)?;
    let below = put_stat(read, stripe.told, column, stats)?;
    Ok(below)
}

/// Checks a column that has `cells.count` cells, and then the columns below it, each for as many cells as its parent
/// has children. Returns the number of the next column.
#[cycle(walking)]
fn check_tree(
    alloc: Global,
    stripe: &OpenStripe<'_, '_>,
    tree: &Tree,
    column: usize,
    cells: &CellGroups,
    found: &mut Vec<Finding>,
    stats: &mut Vec<Stat>,
) -> Result<usize, StripeFault>
    requires laid_out { HasStripeParts stripe.now }
    requires there { column + width (shape tree.now) ≤ width stripe.now.view.now.schema }
    requires grouped { AreGrouped cells.now }
    ensures found { OnOk result (OwnDown (shape tree.now)
        (columns_of stripe.now.view.now.footer stripe.now.view.now.bytes) column cells.now.count) }
    ensures next { IfOk result (λ next. next ≡ column + width (shape tree.now)) }
    ensures checked { OnOk result ((rows here : List Cell) (before : List Reported)
        → ComesNext stripe.now.view.now rows column (shape tree.now) here cells.now
        → AreColumnsChecked stripe.now.view.now stripe.now.told.now stripe.now.number rows column before
        found.old.items stats.old.items
        → AreColumnsChecked stripe.now.view.now stripe.now.told.now stripe.now.number rows
        (column + width (shape tree.now)) before found.new.items stats.new.items) }
    ensures fault { IfErr result (λ cause. cause ≢ OutOfMemory
        → (all : Bool)
        × RefusedDown (shape tree.now) (columns_of stripe.now.view.now.footer stripe.now.view.now.bytes) column
        all cells.now.count cause) }
{
    let below = add_column(alloc, stripe, tree, column, cells, found, stats)?;
    match tree {
        Tree::Scalar(_, _) => Ok(column + 1),
        Tree::List(element, _) => {
            check_tree(alloc, stripe, element, column + 1, &below, found, stats)
        }
        Tree::Map(key, value, _) => {
            let second = check_tree(alloc, stripe, key, column + 1, &below, found, stats)?;
            check_tree(alloc, stripe, value, second, &below, found, stats)
        }
        Tree::Struct(fields, _) => {
            check_fields(alloc, stripe, fields, column + 1, &below, found, stats)
        }
    }
}

/// Checks the columns of the fields of `cells.count` structs, one field after the other. Returns the number of the next
/// column.
#[cycle(walking)]
fn check_fields(
    alloc: Global,
    stripe: &OpenStripe<'_, '_>,
    fields: &[Field],
    column: usize,
    cells: &CellGroups,
    found: &mut Vec<Finding>,
    stats: &mut Vec<Stat>,
) -> Result<usize, StripeFault>
    requires laid_out { HasStripeParts stripe.now }
    requires there { column + widths (fields_view fields.now) ≤ width stripe.now.view.now.schema }
    requires grouped { AreGrouped cells.now }
    ensures found { OnOk result (OwnWithin (fields_view fields.now)
        (columns_of stripe.now.view.now.footer stripe.now.view.now.bytes) column cells.now.count) }
    ensures next { IfOk result (λ next. next ≡ column + widths (fields_view fields.now)) }
    ensures checked { OnOk result ((rows : List Cell) (structs : List (List Cell)) (before : List Reported)
        → FieldsComeNext stripe.now.view.now rows column (fields_view fields.now) structs cells.now
        → AreColumnsChecked stripe.now.view.now stripe.now.told.now stripe.now.number rows column before
        found.old.items stats.old.items
        → AreColumnsChecked stripe.now.view.now stripe.now.told.now stripe.now.number rows
        (column + widths (fields_view fields.now)) before found.new.items stats.new.items) }
    ensures fault { IfErr result (λ cause. cause ≢ OutOfMemory
        → (all : Bool)
        × RefusedWithin (fields_view fields.now) (columns_of stripe.now.view.now.footer stripe.now.view.now.bytes)
        column all cells.now.count cause) }
{
    let mut next = column;
    for field in fields {
        next = check_tree(alloc, stripe, &field.tree, next, cells, found, stats)?;
    }
    Ok(next)
}

/// Reads a stripe's columns, adds their findings, and returns the statistics of their cells, without the element counts
/// that the stored ones don't have.
///
/// # Errors
///
/// - Those of a stripe's rows, here in the order of the columns: the fault of the first column that doesn't spell as
///   many cells as the column above it has children.
/// - `TooMany(0)` if there are more than 2,147,483,647 rows.
/// - `OutOfMemory` if there is no memory.
pub(crate) fn check_columns(
    alloc: Global,
    number: usize,
    told: &[Stat],
    view: &StripeView<'_>,
    found: &mut Vec<Finding>,
) -> Result<Items<Stat>, StripeFault>
    ensures found { IfOk result (λ stats. (rows : List Cell)
        × IsStripe view.now.schema view.now.info view.now.bytes rows
        × AddsFindings (OfEach (OfColumn view.now told.now number rows) (width view.now.schema))
        found.old.items found.new.items
        × HaveKnown view.now.schema told.now rows (width view.now.schema) stats) }
    ensures fault { IfErr result (λ cause. cause ≢ OutOfMemory
        → RowsFault view.now.schema (columns_of view.now.footer view.now.bytes) view.now.info.number_of_rows cause) }
{
    let rows = view.number_of_rows();
    if rows > MOST_CELLS {
        return Err(StripeFault::TooMany(0));
    }
    let located = view.locate(alloc)?;
    let texts = view.index_texts(alloc)?;
    let stripe = OpenStripe {
        number,
        told,
        view,
        located,
        texts,
    };
    let count = rows as usize;
    let bounds = firsts_of(alloc, &stripe, count)?;
    let cells = CellGroups { count, bounds };
    let columns = view.footer().columns.as_slice().len();
    let mut stats = Vec::with_capacity(alloc, columns)?;
    check_tree(alloc, &stripe, view.tree(), 0, &cells, found, &mut stats)?;
    Ok(Items::from_vec(stats))
}
