//! From rows to the bytes of a stripe.
ghost use Rattle.std.specs.Prelude.{◌≡◌, ℕ, List, length, IfOk, IfErr};
ghost use Rattle.orc_rle.specs.declared.sign.Rle.{Rle};
ghost use Rattle.orc_values.specs.Shapes.{Shape, width};
ghost use Rattle.orc_values.specs.Cells.{Cell};
ghost use Rattle.orc_values.specs.Fits.{RowsFit};
ghost use Rattle.orc_values.specs.Views.{views};
ghost use Rattle.orc_row_batch.specs.Batch.{Holds, kept_rows};
ghost use Rattle.orc_column_reader.specs.Stripe.{IsStripe};
ghost use Rattle.orc_row_groups.specs.Groups.{starts_of_groups};
ghost use Rattle.orc_stripe_writer.specs.Indexes.{HaveIndexes};
ghost use Rattle.orc_stripe_writer.specs.WrittenStripe.{AreFew, indexed_columns, HasColumns, HaveStats, IsWrittenStripe};
ghost use Rattle.orc_stripe_writer.specs.Subtrees.{HasWritten};
ghost use Rattle.orc_directory.specs.declared.fault.StripeFault.TheVariants.{OutOfMemory};

use crate::body::Body;
use crate::columns::{Columns, Source, put_columns};
use crate::indexes::first_rows;
use orc_directory::StripeFault;
use orc_row_batch::{Options, RowBatch};
use orc_stats::Stat;
use orc_types::Schema;
use orc_values::Row;
use orc_wire::{Items, Message, StripeFooter, StripeInfo, whole_laws};
use std::alloc::{AllocError, Global};

/// A written stripe.
#[derive(Drop)]
pub struct StripeOut {
    /// The stripe's row indexes, data streams and footer.
    pub bytes: Vec<u8>,
    /// The lengths of these parts and the number of rows. The offset is 0.
    pub info: StripeInfo,
    /// The statistic of each column's cells, in the order of the schema's types.
    pub stats: Vec<Stat>,
}

/// Writes the streams of all columns, with their directory, encodings, statistics and row indexes.
fn all_columns(
    alloc: Global,
    options: &Options,
    schema: &Schema,
    batch: &RowBatch,
) -> Result<Columns, AllocError>
    requires held { Holds schema.now (kept_rows schema.now batch.now) batch.now }
    requires few { AreFew schema.now (kept_rows schema.now batch.now) }
    ensures { IfOk result (HasWritten options.now.rle options.now.stride schema.now
        (kept_rows schema.now batch.now) (width schema.now)) }
{
    let mut out = Columns {
        body: Body::new(alloc),
        indexes: Body::new(alloc),
        encodings: Vec::new(alloc),
        stats: Vec::new(alloc),
    };
    let bounds = first_rows(alloc, options.stride() as usize, batch.len())?;
    let source = Source {
        alloc,
        options,
        schema,
        batch,
    };
    put_columns(source, schema.tree(), 0, &bounds, &mut out)?;
    Ok(out)
}

/// Joins a stripe: the row indexes, then the streams, then the footer.
fn assemble(
    indexes: Body,
    streams: Vec<u8>,
    footer: StripeFooter,
    stats: Vec<Stat>,
    number_of_rows: u64,
) -> Result<StripeOut, AllocError>
    ensures written { IfOk result (λ out. (rle : Rle) (stride : ℕ) (s : Shape) (rows : List Cell)
        → length rows ≡ number_of_rows
        → (h : HasColumns rle s rows (width s) streams.items footer.streams footer.columns)
        → HaveIndexes s rows (starts_of_groups stride (length rows)) h.columns (indexed_columns stride (width s)) indexes
        → IsWrittenStripe rle stride s rows out.info out.bytes.items) }
    ensures stats { IfOk result (λ out. out.stats.items ≡ stats.items) }
{
    // for its contract alone: a directory reads back from its text if each of its encodings does
    whole_laws();
    let mut bytes = indexes.bytes;
    let mut lines = indexes.directory;
    let index_length = bytes.len();
    bytes.extend_from_slice(&streams)?;
    lines.extend_from_slice(footer.streams.as_slice())?;
    let front = bytes.len();
    let whole = StripeFooter {
        streams: Items::from_vec(lines),
        columns: footer.columns,
    };
    match whole.put(&mut bytes) {
        Ok(()) => {}
        Err(_) => return Err(AllocError),
    }
    let info = StripeInfo {
        offset: 0,
        index_length: index_length as u64,
        data_length: (front - index_length) as u64,
        footer_length: (bytes.len() - front) as u64,
        number_of_rows,
    };
    Ok(StripeOut { bytes, info, stats })
}

/// Writes a stripe of the rows of a batch, as `write_stripe` does of rows. The batch must hold rows of the schema, and
/// no column may have more than 2,147,483,647 cells.
///
/// # Errors
///
/// `OutOfMemory` if there is no memory.
pub fn write_batch(
    alloc: Global,
    schema: &Schema,
    options: &Options,
    batch: &RowBatch,
) -> Result<StripeOut, StripeFault>
    requires held { Holds schema.now (kept_rows schema.now batch.now) batch.now }
    requires few { AreFew schema.now (kept_rows schema.now batch.now) }
    // If the batch holds rows of `schema`, no column of them has more than 2,147,483,647 cells and the call succeeds,
    // then the written bytes are, with the returned `info`, a stripe of exactly these rows.
    ensures stripe { IfOk result (λ out. IsStripe schema.now out.info out.bytes.items (kept_rows schema.now batch.now)) }
    // If the batch holds rows of `schema`, no column of them has more than 2,147,483,647 cells and the call succeeds,
    // then the written bytes and the returned `info` are what the writer's rules make of the rows, with the version of
    // integer runs and the stride of `options`. The rules fix the order of row indexes, streams and columns, the
    // streams that are left out, encodings, dictionaries and runs, the row indexes if the stride is above 0, and the
    // offset 0.
    ensures written { IfOk result
        (λ out. IsWrittenStripe options.now.rle options.now.stride schema.now
        (kept_rows schema.now batch.now) out.info out.bytes.items) }
    // If the batch holds rows of `schema`, no column of them has more than 2,147,483,647 cells and the call succeeds,
    // then the returned `stats` have one statistic for each column, in the order of the columns, which is that of the
    // column's cells.
    ensures stats { IfOk result
        (λ out. HaveStats schema.now (kept_rows schema.now batch.now) (width schema.now) out.stats.items) }
    // If the batch holds rows of `schema` and no column of them has more than 2,147,483,647 cells, then the only error
    // is `OutOfMemory`.
    ensures refused { IfErr result (λ fault. fault ≡ OutOfMemory) }
{
    let columns = all_columns(alloc, options, schema, batch)?;
    let streams = columns.body.bytes;
    let footer = StripeFooter {
        streams: Items::from_vec(columns.body.directory),
        columns: Items::from_vec(columns.encodings),
    };
    Ok(assemble(
        columns.indexes,
        streams,
        footer,
        columns.stats,
        batch.len() as u64,
    )?)
}

/// Keeps the rows in a batch.
fn batch_of(alloc: Global, schema: &Schema, rows: &[Row<'_>]) -> Result<RowBatch, AllocError>
    requires { RowsFit schema.now (views rows.now) }
    ensures { IfOk result (Holds schema.now (views rows.now)) }
{
    let mut batch = RowBatch::new(alloc, schema.width())?;
    for row in rows {
        batch.push(schema.tree(), row)?;
    }
    Ok(batch)
}

/// Writes a stripe of the rows (ORC specification, "Stripes"). Each row must fit the schema, and no column may have
/// more than 2,147,483,647 cells. The stripe isn't placed in a file yet: its offset is 0.
///
/// If the stride is above 0, the stripe begins with the row indexes of all columns, in the order of the schema's types.
/// A row index has the column's positions and the statistic of its cells for each group of `stride` rows. The directory
/// lists a row index even if it has no bytes.
///
/// The streams of the columns follow in the order of the schema's types, those of each column in the order PRESENT,
/// DATA, LENGTH and DICTIONARY_DATA. A stream without bytes is left out, and so is PRESENT if no cell is null. A column
/// of texts gets a dictionary if it has a text and at least twice as many texts as distinct ones.
///
/// # Errors
///
/// `OutOfMemory` if there is no memory.
pub fn write_stripe(
    alloc: Global,
    schema: &Schema,
    options: &Options,
    rows: &[Row<'_>],
) -> Result<StripeOut, StripeFault>
    requires fit { RowsFit schema.now (views rows.now) }
    requires few { AreFew schema.now (views rows.now) }
    // If each row fits `schema`, no column has more than 2,147,483,647 cells and the call succeeds, then the written
    // bytes are, with the returned `info`, a stripe of exactly `rows`: they have a valid footer, and each column's
    // streams spell exactly the column's cells.
    ensures stripe { IfOk result (λ out. IsStripe schema.now out.info out.bytes.items (views rows.now)) }
    // If each row fits `schema`, no column has more than 2,147,483,647 cells and the call succeeds, then the written
    // bytes are laid out by the writer's rules: first the row indexes of all columns if the stride is above 0, next the
    // streams of all columns, those of each column in the order PRESENT, DATA, LENGTH and DICTIONARY_DATA, and last the
    // canonical text of the footer. The rules fix encodings, dictionaries and runs, and leave a column's stream out if
    // it has no bytes. The returned `info` has the lengths of these three parts, the number of rows, and the offset 0.
    ensures written { IfOk result
        (λ out. IsWrittenStripe options.now.rle options.now.stride schema.now
        (views rows.now) out.info out.bytes.items) }
    // If each row fits `schema`, no column has more than 2,147,483,647 cells and the call succeeds, then the returned
    // `stats` have one statistic for each column, in the order of the columns, which is that of the column's cells.
    ensures stats { IfOk result (λ out. HaveStats schema.now (views rows.now) (width schema.now) out.stats.items) }
    // If each row fits `schema` and no column has more than 2,147,483,647 cells, then the only error is `OutOfMemory`.
    ensures refused { IfErr result (λ fault. fault ≡ OutOfMemory) }
{
    let batch = batch_of(alloc, schema, rows)?;
    write_batch(alloc, schema, options, &batch)
}
