//! Counts what one column has before each row group, reading the columns on the path from the root to it. No row is
//! made.
ghost use Rattle.std.specs.Prelude.{◌≡◌, ◌<◌, ◌≤◌, ◌+◌, map, length, IfOk, IfErr};
ghost use Rattle.orc_values.specs.Shapes.{width, widths};
ghost use Rattle.orc_values.specs.Views.{shape, fields as fields_view};
ghost use Rattle.orc_directory.specs.Located.{AreLocated};
ghost use Rattle.orc_column_reader.specs.Stripe.{columns_of};
ghost use Rattle.orc_column_walk.specs.declared.found.GroupFound.{GroupFound as Group};
ghost use Rattle.orc_stripe_reader.specs.ColumnGroups.{AreGrouped, AreCountedIn, AreCountedWithin, Leads, IsMemoryIn, IsMemoryWithin};

use orc_column_walk::{GroupFound, read_groups};
use orc_directory::{Located, StripeFault};
use orc_row_groups::Counts;
use orc_values::{Field, Tree, width_of};
use orc_wire::StripeFooter;
use std::alloc::{AllocError, Global};

/// How many cells a column has, and how many of them come before each group.
#[derive(Drop)]
pub(crate) struct CellGroups {
    pub(crate) count: usize,
    pub(crate) bounds: Vec<usize>,
}

/// Takes from each group the counts of the cells before it.
fn counts_before(alloc: Global, groups: &[GroupFound]) -> Result<Vec<Counts>, AllocError>
    ensures { IfOk result (λ counts. counts.items ≡ map (λ (group : Group). group.before) groups.now) }
{
    let mut counts = Vec::new(alloc);
    for group in groups {
        counts.push(group.before)?;
    }
    Ok(counts)
}

/// A column that was read: the counts before each group, and the number of cells of its children.
#[derive(Drop)]
struct Level {
    counts: Vec<Counts>,
    below: CellGroups,
}

/// Reads a column that has `cells.count` cells.
fn read_level(
    alloc: Global,
    tree: &Tree,
    column: usize,
    footer: &StripeFooter,
    located: &Located<'_>,
    cells: &CellGroups,
) -> Result<Level, StripeFault>
    requires there { column < length footer.now.columns }
    requires located { AreLocated (length footer.now.columns) footer.now.streams
        located.now.bytes.now located.now.slices.items }
    requires grouped { AreGrouped cells.now }
    ensures counted { IfOk result (λ level. AreCountedIn (columns_of footer.now located.now.bytes.now) column
        (shape tree.now) cells.now column level.counts.items) }
    ensures below { IfOk result (λ level. Leads (columns_of footer.now located.now.bytes.now) column
        (shape tree.now) cells.now level.below) }
    ensures grouped { IfOk result (λ level. AreGrouped level.below) }
    ensures refused { IfErr result (IsMemoryIn (columns_of footer.now located.now.bytes.now) column
        (shape tree.now) cells.now) }
{
    let read = match read_groups(
        alloc,
        tree,
        column,
        footer,
        located,
        cells.count,
        &cells.bounds,
    ) {
        Ok(read) => read,
        Err(fault) => return Err(fault),
    };
    let counts = counts_before(alloc, &read.groups)?;
    let below = CellGroups {
        count: read.below,
        bounds: read.bounds_below,
    };
    Ok(Level { counts, below })
}

/// Counts the cells of `column` before each group. `column` is the column `first`, whose type is `tree`, or one below
/// it. Each column on the path is read for as many cells, in all and before each group, as its parent has children.
#[cycle(down)]
pub(crate) fn count_column(
    alloc: Global,
    tree: &Tree,
    first: usize,
    column: usize,
    footer: &StripeFooter,
    located: &Located<'_>,
    cells: &CellGroups,
) -> Result<Vec<Counts>, StripeFault>
    requires there { first + width (shape tree.now) ≤ length footer.now.columns }
    requires from { first ≤ column }
    requires below { column < first + width (shape tree.now) }
    requires located { AreLocated (length footer.now.columns) footer.now.streams
        located.now.bytes.now located.now.slices.items }
    requires grouped { AreGrouped cells.now }
    ensures found { IfOk result (λ counts. AreCountedIn (columns_of footer.now located.now.bytes.now) first
        (shape tree.now) cells.now column counts.items) }
    ensures refused { IfErr result (IsMemoryIn (columns_of footer.now located.now.bytes.now) first
        (shape tree.now) cells.now) }
{
    let level = match read_level(alloc, tree, first, footer, located, cells) {
        Ok(level) => level,
        Err(fault) => return Err(fault),
    };
    if column == first {
        return Ok(level.counts);
    }
    let cells = &level.below;
    match tree {
        Tree::Scalar(_, _) => unreachable!(),
        Tree::List(element, _) => {
            count_column(alloc, element, first + 1, column, footer, located, cells)
        }
        Tree::Map(key, value, _) => {
            let second = first + 1 + width_of(key);
            if column < second {
                count_column(alloc, key, first + 1, column, footer, located, cells)
            } else {
                count_column(alloc, value, second, column, footer, located, cells)
            }
        }
        Tree::Struct(fields, _) => {
            count_within(alloc, fields, first + 1, column, footer, located, cells)
        }
    }
}

/// Counts the cells of `column` before each group, if it is a column of the fields of `cells.count` structs.
#[cycle(down)]
fn count_within(
    alloc: Global,
    fields: &[Field],
    first: usize,
    column: usize,
    footer: &StripeFooter,
    located: &Located<'_>,
    cells: &CellGroups,
) -> Result<Vec<Counts>, StripeFault>
    requires there { first + widths (fields_view fields.now) ≤ length footer.now.columns }
    requires from { first ≤ column }
    requires below { column < first + widths (fields_view fields.now) }
    requires located { AreLocated (length footer.now.columns) footer.now.streams
        located.now.bytes.now located.now.slices.items }
    requires grouped { AreGrouped cells.now }
    ensures found { IfOk result (λ counts. AreCountedWithin (columns_of footer.now located.now.bytes.now) first
        (fields_view fields.now) cells.now column counts.items) }
    ensures refused { IfErr result (IsMemoryWithin (columns_of footer.now located.now.bytes.now) first
        (fields_view fields.now) cells.now) }
{
    let mut at = first;
    for field in fields {
        let next = at + width_of(&field.tree);
        if column < next {
            return count_column(alloc, &field.tree, at, column, footer, located, cells);
        }
        at = next;
    }
    unreachable!()
}
