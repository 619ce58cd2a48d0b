//! Writes the columns of rows, each before the columns below it: its streams, encoding, statistic and row index.
ghost use Rattle.std.specs.Prelude.{◌≡◌, ◌+◌, ◌<◌, ℕ, List, length, IfOk, OnOk};
ghost use Rattle.orc_values.specs.Shapes.{Shape, width, widths, shape_at};
ghost use Rattle.orc_values.specs.Cells.{Cell};
ghost use Rattle.orc_values.specs.Columns as spec;
ghost use Rattle.orc_values.specs.Fits.{RowsFit};
ghost use Rattle.orc_values.specs.Views.{shape, fields as fields_view};
ghost use Rattle.orc_row_batch.specs.Batch.{Holds, kept_rows};
ghost use Rattle.orc_stats.specs.Kinds.{kind_of};
ghost use Rattle.orc_stats.specs.Statistics.{stat};
ghost use Rattle.orc_column_reader.specs.Starting.{AreStreams};
ghost use Rattle.orc_column_reader.specs.Stripe.{Streams};
ghost use Rattle.orc_values.specs.Limits.{cell_limit};
ghost use Rattle.orc_row_groups.specs.Bounds.{AreBounds};
ghost use Rattle.orc_row_index.specs.OwnCells.{AreSpelledOwn};
ghost use Rattle.orc_row_groups.specs.OwnCells.{AreOwn};
ghost use Rattle.orc_row_index.specs.RowIndex.{IsWrittenIndex};
ghost use Rattle.orc_stripe_writer.specs.Firsts.{firsts_of};
ghost use Rattle.orc_row_groups.specs.Groups.{bounds_of};
ghost use Rattle.orc_stripe_writer.specs.IndexSteps.{AddsIndexIf};
ghost use Rattle.orc_stripe_writer.specs.Standing.{ColumnStands, FieldsStand, structs_in};
ghost use Rattle.orc_stripe_writer.specs.Subtrees.{HasWritten};

use crate::body::Body;
use crate::column_streams::column_streams;
use crate::indexes::put_column_index;
use crate::put_column::put_cells;
use orc_column_reader::ColumnStreams;
use orc_row_batch::{Options, RowBatch};
use orc_row_groups::{element_bounds, field_bounds, pair_bounds};
use orc_row_index::put_index;
use orc_stats::Stat;
use orc_types::Schema;
use orc_values::{Field, Own, Tree, width_of};
use orc_wire::Encoding;
use std::alloc::{AllocError, Global};

/// The columns of a stripe that are written so far: their streams, and apart from these their row indexes.
#[derive(Drop)]
pub(crate) struct Columns {
    pub(crate) body: Body,
    pub(crate) indexes: Body,
    pub(crate) encodings: Vec<Encoding>,
    pub(crate) stats: Vec<Stat>,
}

/// Returns the statistic of a column's cells, and adds the column's row index if the stride is above 0.
fn put_told(
    alloc: Global,
    stride: u32,
    tree: &Tree,
    streams: &ColumnStreams<'_>,
    owns: &[Own<'_>],
    bounds: &[usize],
    indexes: &mut Body,
) -> Result<Stat, AllocError>
    requires column { (cells : List Cell) × AreSpelledOwn (shape tree.now) streams.now owns.now cells }
    requires bounds { AreBounds (length owns.now) bounds.now }
    ensures index { (cells : List Cell) → AreSpelledOwn (shape tree.now) streams.now owns.now cells
        → OnOk result ((x : Streams) → AreStreams x streams.now
        → AddsIndexIf stride (IsWrittenIndex (shape tree.now) x cells bounds.now) indexes.old indexes.new) }
    ensures stat { (cells : List Cell) → AreOwn owns.now cells
        → IfOk result (λ found. found ≡ stat (kind_of (shape tree.now)) cells) }
{
    if stride == 0 {
        // an index of no groups has no bytes, so only the statistic is left
        return put_index(alloc, tree, streams, owns, &[], &mut Vec::new(alloc));
    }
    put_column_index(alloc, tree, streams, owns, bounds, indexes)
}

/// Adds the next column. `owns` are its cells without their children; each of the `bounds` is the number of cells
/// before a group.
fn put_column(
    alloc: Global,
    options: &Options,
    tree: &Tree,
    owns: &[Own<'_>],
    bounds: &[usize],
    out: &mut Columns,
) -> Result<(), AllocError>
    requires column { (cells : List Cell)
        × AreOwn owns.now cells × RowsFit (shape tree.now) cells × (length cells < cell_limit) }
    requires bounds { AreBounds (length owns.now) bounds.now }
    ensures { OnOk result ((s : Shape) (rows cells : List Cell) (c : ℕ)
        → AreOwn owns.now cells
        → RowsFit (shape tree.now) cells
        → HasWritten options.now.rle options.now.stride s rows c out.old
        → shape_at s c ≡ shape tree.now
        → spec.cells s c rows ≡ cells
        → bounds_of s c rows (firsts_of options.now.stride (length rows)) ≡ bounds.now
        → HasWritten options.now.rle options.now.stride s rows (c + 1) out.new) }
{
    let Ok(column) = u32::try_from(out.encodings.len()) else {
        return Err(AllocError);
    };
    let start = out.body.bytes.len();
    let listed = out.body.directory.len();
    let encoding = put_cells(alloc, options.rle(), tree, column, owns, &mut out.body)?;
    let (_, lines) = out.body.directory.split_at(listed);
    let (_, bytes) = out.body.bytes.split_at(start);
    let streams = column_streams(column, encoding, lines, bytes);
    let found = put_told(
        alloc,
        options.stride(),
        tree,
        &streams,
        owns,
        bounds,
        &mut out.indexes,
    )?;
    out.encodings.push(encoding)?;
    out.stats.push(found)?;
    Ok(())
}

/// The rows of a stripe as columns, and the options for writing them.
#[derive(Clone, Copy)]
pub(crate) struct Source<'a> {
    pub(crate) alloc: Global,
    pub(crate) options: &'a Options,
    pub(crate) schema: &'a Schema,
    pub(crate) batch: &'a RowBatch,
}

/// Adds a column and all columns below it. Each of the `bounds` is the number of the column's cells before a group.
#[cycle(columns)]
pub(crate) fn put_columns(
    source: Source<'_>,
    tree: &Tree,
    column: usize,
    bounds: &[usize],
    out: &mut Columns,
) -> Result<(), AllocError>
    requires held { Holds source.schema.now (kept_rows source.schema.now source.batch.now) source.batch.now }
    requires stands { ColumnStands source.schema.now (kept_rows source.schema.now source.batch.now)
        source.options.now.stride column (shape tree.now) bounds.now }
    requires written { HasWritten source.options.now.rle source.options.now.stride source.schema.now
        (kept_rows source.schema.now source.batch.now) column out.old }
    ensures { OnOk result (HasWritten source.entry.options.now.rle source.entry.options.now.stride source.entry.schema.now
        (kept_rows source.entry.schema.now source.entry.batch.now) (column + width (shape tree.now)) out.new) }
{
    let owns = source.batch.owns(source.alloc, column)?;
    put_column(source.alloc, source.options, tree, &owns, bounds, out)?;
    match tree {
        Tree::Scalar(_, _) => Ok(()),
        Tree::List(element, _) => {
            let below = element_bounds(source.alloc, &owns, bounds)?;
            drop(owns);
            put_columns(source, element, column + 1, &below, out)
        }
        Tree::Map(key, value, _) => {
            let below = pair_bounds(source.alloc, &owns, bounds)?;
            drop(owns);
            put_columns(source, key, column + 1, &below, out)?;
            put_columns(source, value, column + 1 + width_of(key), &below, out)
        }
        Tree::Struct(fields, _) => {
            let below = field_bounds(source.alloc, &owns, bounds)?;
            drop(owns);
            put_fields(source, fields, column, &below, out)
        }
    }
}

/// Adds the columns of the fields of the column `structs`, and all columns below them. Each of the `bounds` is the
/// number of structs before a group that aren't null.
#[cycle(columns)]
fn put_fields(
    source: Source<'_>,
    fields: &[Field],
    structs: usize,
    bounds: &[usize],
    out: &mut Columns,
) -> Result<(), AllocError>
    requires held { Holds source.schema.now (kept_rows source.schema.now source.batch.now) source.batch.now }
    requires stand { FieldsStand source.schema.now (kept_rows source.schema.now source.batch.now)
        source.options.now.stride (structs + 1) (fields_view fields.now)
        (structs_in source.schema.now (kept_rows source.schema.now source.batch.now) structs) bounds.now }
    requires written { HasWritten source.options.now.rle source.options.now.stride source.schema.now
        (kept_rows source.schema.now source.batch.now) (structs + 1) out.old }
    ensures { OnOk result (HasWritten source.entry.options.now.rle source.entry.options.now.stride source.entry.schema.now
        (kept_rows source.entry.schema.now source.entry.batch.now) (structs + 1 + widths (fields_view fields.now)) out.new) }
{
    let mut next = structs + 1;
    for field in fields {
        put_columns(source, &field.tree, next, bounds, out)?;
        next += width_of(&field.tree);
    }
    Ok(())
}
