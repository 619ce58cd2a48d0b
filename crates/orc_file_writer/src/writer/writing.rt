//! From rows to a file.
ghost use Rattle.std.specs.Prelude.{◌≡◌, ◌+◌, ◌<◌, ◌≤◌, ◌⊎◌, ◌↔◌, ◌++◌, ◌∷◌, [], ℕ, List, Option, length, get_or, map, true, false, IfOk, IfErr, OnOk, OnErr, IsErrOf, MatchResult};
ghost use Rattle.orc_rle.specs.declared.sign.Rle.{Rle};
ghost use Rattle.orc_wire.specs.declared.stripe_info.StripeInfo.{StripeInfo};
ghost use Rattle.orc_values.specs.Shapes.{width};
ghost use Rattle.orc_types.specs.Schemas.{IsSchema};
ghost use Rattle.orc_values.specs.Cells.{Cell, cells_of};
ghost use Rattle.orc_values.specs.Columns as columns;
ghost use Rattle.orc_values.specs.Fits as fitting;
ghost use Rattle.orc_values.specs.Views.{view};
ghost use Rattle.orc_row_batch.specs.Batch.{kept_rows};
ghost use Rattle.orc_column_reader.specs.Stripe.{IsStripe};
ghost use Rattle.orc_stripe_writer.specs.WrittenStripe.{IsWrittenStripe, HaveStats};
ghost use Rattle.orc_io.specs.Devices.{appended};
ghost use Rattle.orc_io.specs.Leaves.{LeavesSink, HandsBackSink};
ghost use Rattle.orc_tail.specs.Stripes.{stripe_length, stripes_length, stripes_rows, most_stripes, most_rows, most_bytes};
ghost use Rattle.orc_file_writer.specs.Counts.{are_laid_with_few_rows, are_few, are_all_stats, with_row, PassesLimit};
ghost use Rattle.orc_file_writer.specs.Writing.{HasTaken, HasKept, HasPushed, HasFilled, IsCutOff, WroteWholeFile, PassesBytes};
ghost use Rattle.orc_file_writer.specs.Pushing.{AddsRow, TakesRow};
ghost use Rattle.orc_file_writer.specs.Progress.{progress};
ghost use Rattle.orc_tail.specs.declared.fault.FileFault.TheVariants as fault;

use crate::writer::Writer;
use crate::writer::counting::{count_row, no_cells, reset};
use crate::writer::file_end::{Stripes, end_file};
use orc_io::{Sink, write_all};
use orc_row_batch::{Options, RowBatch};
use orc_stats::Stat;
use orc_stripe_writer::{StripeOut, write_batch};
use orc_tail::{FileFault, MOST_BYTES, MOST_ROWS, MOST_STRIPES, Tail};
use orc_types::{Schema, fits};
use orc_values::Row;
use orc_wire::{Items, StripeInfo};
use std::alloc::Global;
use std::mem::swap;

impl<W: Sink> Writer<W> {
    /// Makes a writer of a file of this schema, without rows yet. It writes `ORC`.
    ///
    /// # Errors
    ///
    /// `WriteFailed` if a write to the output fails, and `OutOfMemory` if there is no memory. Each returns the output.
    pub fn new(
        alloc: Global,
        schema: Schema,
        options: Options,
        out: W,
    ) -> Result<Writer<W>, (FileFault, W)>
        // If the writer is made, then no row has been pushed to it, and its output has got exactly `ORC` from it if the
        // output's bytes are known.
        ensures pushed { IfOk result (λ w. HasPushed (progress W.told w) (W.told out) []) }
        // If the writer is made, then it has `schema` and `options`, and has not failed.
        ensures made { IfOk result (λ w. (w.schema ≡ schema) × (w.options ≡ options) × (w.failed ≡ false)) }
        // If the writer is made and the output's bytes are known, then the writer counts as many bytes as the output
        // has got from it.
        ensures taken { IfOk result (λ w. HasTaken (W.told out) (W.told w.out) w.written) }

        // An error is `WriteFailed` or `OutOfMemory`.
        ensures refused { IfErr result (λ e. (e.0 ≡ fault.WriteFailed) ⊎ (e.0 ≡ fault.OutOfMemory)) }
        // If the call fails and the output's bytes are known, then the output has got a prefix of a file
        // without rows.
        ensures cut { IfErr result (λ e. IsCutOff options schema (W.told out) (W.told e.1) []) }
        // The output's count of failures rises by one with `WriteFailed`, and stays the same after a success and after
        // any other error.
        ensures out { HandsBackSink W.failures fault.WriteFailed (λ w. w.out) out result }
    {
        schema.limit_laws();
        let mut out = out;
        let Ok(counts) = no_cells(alloc, schema.width()) else {
            return Err((FileFault::OutOfMemory, out));
        };
        let Ok(sums) = no_cells(alloc, schema.width()) else {
            return Err((FileFault::OutOfMemory, out));
        };
        let Ok(batch) = RowBatch::new(alloc, schema.width()) else {
            return Err((FileFault::OutOfMemory, out));
        };
        match write_all(&mut out, b"ORC") {
            Ok(()) => Ok(Writer {
                alloc,
                schema,
                options,
                out,
                infos: Vec::new(alloc),
                stats: Vec::new(alloc),
                written: 3,
                total: 0,
                batch,
                counts,
                sums,
                spare: None,
                failed: false,
            }),
            Err(_) => Err((FileFault::WriteFailed, out)),
        }
    }

    /// Makes a stripe of the rows of the open stripe, at its place in the file.
    fn stripe_of(&self) -> Result<StripeOut, FileFault>
        requires open { self.now.failed ≡ false }
        ensures stripe { IfOk result
            (λ out. IsStripe self.now.schema out.info out.bytes.items (kept_rows self.now.schema self.now.batch)) }
        ensures text { IfOk result
            (λ out. IsWrittenStripe self.now.options.rle self.now.options.stride self.now.schema
            (kept_rows self.now.schema self.now.batch) (record out.info { offset = 0 }) out.bytes.items) }
        ensures stats { IfOk result
            (λ out. HaveStats self.now.schema (kept_rows self.now.schema self.now.batch) (width self.now.schema) out.stats.items) }
        ensures place { IfOk result (λ out. out.info.offset ≡ self.now.written) }
        ensures few { IfOk result (λ out. stripes_length self.now.infos.items + length out.bytes.items ≤ most_bytes) }
        ensures schema { IsSchema self.now.schema }
        ensures limit { IsErrOf result fault.Limit
            → PassesBytes self.now.options self.now.schema self.now.infos.items
            (kept_rows self.now.schema self.now.batch) }
        ensures refused { IfErr result (λ e. (e ≡ fault.Limit) ⊎ (e ≡ fault.OutOfMemory)) }
    {
        self.schema.limit_laws();
        let Ok(out) = write_batch(self.alloc, &self.schema, &self.options, &self.batch) else {
            return Err(FileFault::OutOfMemory);
        };
        if out.bytes.len() as u64 > MOST_BYTES - (self.written - 3) {
            return Err(FileFault::Limit);
        }
        Ok(StripeOut {
            bytes: out.bytes,
            info: StripeInfo {
                offset: self.written,
                ..out.info
            },
            stats: out.stats,
        })
    }

    /// Writes a stripe of the rows of the open stripe. If this fails, the writer has failed.
    fn send(&mut self, stripe: StripeOut) -> Result<(), FileFault>
        requires open { self.old.failed ≡ false }
        requires begun { 0 < length (kept_rows self.old.schema self.old.batch) }
        requires stripe { IsStripe self.old.schema stripe.info stripe.bytes.items
            (kept_rows self.old.schema self.old.batch) }
        requires text { IsWrittenStripe self.old.options.rle self.old.options.stride self.old.schema
            (kept_rows self.old.schema self.old.batch) (record stripe.info { offset = 0 }) stripe.bytes.items }
        requires stats { HaveStats self.old.schema (kept_rows self.old.schema self.old.batch) (width self.old.schema)
            stripe.stats.items }
        requires place { stripe.info.offset ≡ self.old.written }
        requires few { stripes_length self.old.infos.items + length stripe.bytes.items ≤ most_bytes }
        requires schema { IsSchema self.old.schema }
        ensures kept { (first : Option (List ℕ)) (rows : List Cell)
            → length (kept_rows self.old.schema self.old.batch) ≡ self.old.options.stripe_rows
            → HasKept (progress W.told self.old) first rows
            → OnOk result (HasKept (record (progress W.told self.new) { kept = [] }) first rows) }
        ensures last { (first : Option (List ℕ)) (rows : List Cell)
            → length (kept_rows self.old.schema self.old.batch) ≤ self.old.options.stripe_rows
            → HasKept (progress W.told self.old) first rows
            → OnOk result (HasFilled (progress W.told self.new) first rows) }
        ensures cut { (first : Option (List ℕ)) (rows : List Cell)
            → length (kept_rows self.old.schema self.old.batch) ≤ self.old.options.stripe_rows
            → HasKept (progress W.told self.old) first rows
            → OnErr result (IsCutOff self.old.options self.old.schema first (W.told self.new.out) rows) }
        ensures taken { (first : Option (List ℕ)) → HasTaken first (W.told self.old.out) self.old.written
            → HasTaken first (W.told self.new.out) self.new.written }
        ensures empty { OnOk result (kept_rows self.new.schema self.new.batch ≡ []) }
        ensures same { (self.new.schema ≡ self.old.schema) × (self.new.options ≡ self.old.options) }
        ensures ok { OnOk result (self.new.failed ≡ false) }
        ensures failed { OnErr result (self.new.failed ≡ true) }
        ensures refused { IfErr result (λ e. (e ≡ fault.WriteFailed) ⊎ (e ≡ fault.OutOfMemory)) }
        ensures out { LeavesSink W.failures fault.WriteFailed self.old.out self.new.out result }
    {
        self.failed = true;
        match write_all(&mut self.out, &stripe.bytes) {
            Ok(()) => self.written += stripe.bytes.len() as u64,
            Err(taken) => {
                self.written += taken as u64;
                return Err(FileFault::WriteFailed);
            }
        }
        let Ok(()) = self.stats.push(Items::from_vec(stripe.stats)) else {
            return Err(FileFault::OutOfMemory);
        };
        let Ok(()) = self.infos.push(stripe.info) else {
            return Err(FileFault::OutOfMemory);
        };
        self.batch.clear();
        reset(&mut self.counts);
        self.failed = false;
        Ok(())
    }

    /// Writes the rows of the open stripe, of which there is at least one, as a stripe. If this fails, the writer has
    /// failed.
    fn close(&mut self) -> Result<(), FileFault>
        requires open { self.old.failed ≡ false }
        requires begun { 0 < length (kept_rows self.old.schema self.old.batch) }
        ensures kept { (first : Option (List ℕ)) (rows : List Cell)
            → length (kept_rows self.old.schema self.old.batch) ≡ self.old.options.stripe_rows
            → HasKept (progress W.told self.old) first rows
            → OnOk result (HasKept (record (progress W.told self.new) { kept = [] }) first rows) }
        ensures last { (first : Option (List ℕ)) (rows : List Cell)
            → length (kept_rows self.old.schema self.old.batch) ≤ self.old.options.stripe_rows
            → HasKept (progress W.told self.old) first rows
            → OnOk result (HasFilled (progress W.told self.new) first rows) }
        ensures cut { (first : Option (List ℕ)) (rows : List Cell)
            → length (kept_rows self.old.schema self.old.batch) ≤ self.old.options.stripe_rows
            → HasKept (progress W.told self.old) first rows
            → OnErr result (IsCutOff self.old.options self.old.schema first (W.told self.new.out) rows) }
        ensures taken { (first : Option (List ℕ)) → HasTaken first (W.told self.old.out) self.old.written
            → HasTaken first (W.told self.new.out) self.new.written }
        ensures empty { OnOk result (kept_rows self.new.schema self.new.batch ≡ []) }
        ensures same { (self.new.schema ≡ self.old.schema) × (self.new.options ≡ self.old.options) }
        ensures ok { OnOk result (self.new.failed ≡ false) }
        ensures failed { OnErr result (self.new.failed ≡ true) }
        ensures limit { IsErrOf result fault.Limit
            → PassesBytes self.old.options self.old.schema self.old.infos.items
            (kept_rows self.old.schema self.old.batch) }
        ensures refused { IfErr result (λ e. (e ≡ fault.WriteFailed) ⊎ ((e ≡ fault.Limit) ⊎ (e ≡ fault.OutOfMemory))) }
        ensures out { LeavesSink W.failures fault.WriteFailed self.old.out self.new.out result }
    {
        match self.stripe_of() {
            Ok(stripe) => self.send(stripe),
            Err(fault) => {
                self.failed = true;
                Err(fault)
            }
        }
    }

    /// Tests whether a row may be pushed. If it may, `sums` has the counts of cells with this row.
    fn admit(&mut self, row: &Row<'_>) -> Result<(), FileFault>
        ensures open { OnOk result (self.old.failed ≡ false) }
        ensures schema { IsSchema self.old.schema }
        ensures fits { OnOk result (fitting.fits (view row.now) self.old.schema ≡ true) }
        ensures stripes { OnOk result (length self.old.infos.items < most_stripes) }
        ensures rows { OnOk result (self.old.total < most_rows) }
        ensures counts { OnOk result (self.new.sums.items
            ≡ with_row self.old.schema 0 (view row.now) self.old.counts.items) }
        ensures few { OnOk result (are_few self.new.sums.items ≡ true) }
        ensures failed { IsErrOf result fault.Failed ↔ (self.old.failed ≡ true) }
        ensures shape { self.old.failed ≡ false → (IsErrOf result fault.RowShape
            ↔ (fitting.fits (view row.now) self.old.schema ≡ false)) }
        ensures limit { self.old.failed ≡ false → fitting.fits (view row.now) self.old.schema ≡ true
            → (IsErrOf result fault.Limit
            ↔ PassesLimit self.old.schema self.old.infos.items self.old.total self.old.counts.items
            (view row.now)) }
        ensures refused { IfErr result (λ e. (e ≡ fault.Failed) ⊎ ((e ≡ fault.RowShape) ⊎ (e ≡ fault.Limit))) }
        ensures same { (self.new.schema ≡ self.old.schema) × (self.new.options ≡ self.old.options) }
        ensures stays { (self.new.out ≡ self.old.out) × (self.new.written ≡ self.old.written)
            × (self.new.infos ≡ self.old.infos)
            × (self.new.stats ≡ self.old.stats) × (self.new.batch ≡ self.old.batch)
            × (self.new.counts ≡ self.old.counts)
            × (self.new.total ≡ self.old.total) × (self.new.failed ≡ self.old.failed) }
    {
        self.schema.limit_laws();
        if self.failed {
            return Err(FileFault::Failed);
        }
        if !fits(&self.schema, row) {
            return Err(FileFault::RowShape);
        }
        if self.infos.len() >= MOST_STRIPES || self.total >= MOST_ROWS {
            return Err(FileFault::Limit);
        }
        if !count_row(&self.schema, row, &self.counts, &mut self.sums) {
            return Err(FileFault::Limit);
        }
        Ok(())
    }

    /// Keeps a row that was admitted. If this fails, the writer has failed.
    fn keep(&mut self, row: &Row<'_>) -> Result<(), FileFault>
        requires open { self.old.failed ≡ false }
        requires fits { fitting.fits (view row.now) self.old.schema ≡ true }
        requires stripes { length self.old.infos.items < most_stripes }
        requires rows { self.old.total < most_rows }
        requires counts { self.old.sums.items ≡ with_row self.old.schema 0 (view row.now) self.old.counts.items }
        requires few { are_few self.old.sums.items ≡ true }
        ensures kept { OnOk result (kept_rows self.new.schema self.new.batch
            ≡ kept_rows self.old.schema self.old.batch ++ view row.now ∷ []) }
        ensures stands { (self.new.out ≡ self.old.out) × (self.new.written ≡ self.old.written)
            × (self.new.infos ≡ self.old.infos)
            × (self.new.stats ≡ self.old.stats) }
        ensures ok { OnOk result (self.new.failed ≡ false) }
        ensures failed { OnErr result (self.new.failed ≡ true) }
        ensures refused { IfErr result (λ e. e ≡ fault.OutOfMemory) }
        ensures same { (self.new.schema ≡ self.old.schema) × (self.new.options ≡ self.old.options) }
    {
        let kept = self.batch.len() as u64;
        let Ok(()) = self.batch.push(self.schema.tree(), row) else {
            // the batch may have a part of the row
            self.batch.clear();
            reset(&mut self.counts);
            self.total -= kept;
            self.failed = true;
            return Err(FileFault::OutOfMemory);
        };
        self.total += 1;
        swap(&mut self.counts, &mut self.sums);
        Ok(())
    }

    /// Adds a row that was admitted, and writes the stripe if this row fills it. If this fails, the writer has failed.
    fn add(&mut self, row: &Row<'_>) -> Result<(), FileFault>
        requires open { self.old.failed ≡ false }
        requires schema { IsSchema self.old.schema }
        requires fits { fitting.fits (view row.now) self.old.schema ≡ true }
        requires stripes { length self.old.infos.items < most_stripes }
        requires rows { self.old.total < most_rows }
        requires counts { self.old.sums.items ≡ with_row self.old.schema 0 (view row.now) self.old.counts.items }
        requires few { are_few self.old.sums.items ≡ true }
        ensures pushed { (first : Option (List ℕ)) (rows : List Cell)
            → HasPushed (progress W.told self.old) first rows
            → OnOk result (HasPushed (progress W.told self.new) first (rows ++ view row.now ∷ [])) }
        ensures taken { (first : Option (List ℕ)) → HasTaken first (W.told self.old.out) self.old.written
            → HasTaken first (W.told self.new.out) self.new.written }
        ensures same { (self.new.schema ≡ self.old.schema) × (self.new.options ≡ self.old.options) }
        ensures cut { (first : Option (List ℕ)) (rows : List Cell)
            → HasPushed (progress W.told self.old) first rows
            → OnErr result (IsCutOff self.old.options self.old.schema first (W.told self.new.out)
            (rows ++ view row.now ∷ [])) }
        ensures long { IsErrOf result fault.Limit
            → PassesBytes self.old.options self.old.schema self.old.infos.items
            (kept_rows self.old.schema self.old.batch
            ++ view row.now ∷ []) }
        ensures full { IsErrOf result fault.Limit → self.old.options.stripe_rows ≤ length
            (kept_rows self.old.schema self.old.batch) + 1 }
        ensures refused { IfErr result (λ e. (e ≡ fault.Limit) ⊎ ((e ≡ fault.WriteFailed) ⊎ (e ≡ fault.OutOfMemory))) }
        ensures ok { OnOk result (self.new.failed ≡ false) }
        ensures failed { OnErr result (self.new.failed ≡ true) }
        ensures out { LeavesSink W.failures fault.WriteFailed self.old.out self.new.out result }
    {
        self.keep(row)?;
        if self.batch.len() >= self.options.stripe_rows() as usize {
            return self.close();
        }
        Ok(())
    }

    /// Adds a row as `push` does, and takes it. `spare_row` hands it out again, so that its memory can be used for the
    /// next row.
    ///
    /// # Errors
    ///
    /// Those of `push`.
    pub fn push_owned(&mut self, row: Row<'static>) -> Result<(), FileFault>
        // If a list of rows has been pushed to the writer and this push succeeds, then the list with `row` added at its
        // end has been pushed: if the output's bytes are known, it has got from the writer exactly `ORC` and the full
        // stripes of these rows, and the writer keeps the rows after these stripes.
        ensures pushed { AddsRow (progress W.told self.old) (progress W.told self.new) (view row.entry) result }
        // The writer keeps its schema and its options. An error is `Failed`, `RowShape`, `Limit`, `WriteFailed` or
        // `OutOfMemory`. `Failed` comes if and only if the writer had failed before this push. If it had not failed,
        // `RowShape` comes if and only if `row` doesn't fit the schema. If it had not failed, `row` fits, and with
        // `row` a limit of stripes, of rows or of a column's cells in a stripe would be exceeded, then the error is
        // `Limit` and the writer has not failed. If a list of rows has been pushed to the writer, then by its counts
        // such a limit would be exceeded if and only if it would by these rows. `Limit` without the writer having
        // failed comes only if such a limit would be exceeded. `Limit` after which the writer has failed comes only if
        // `row` fills the open stripe and with this stripe the file's stripes would have more than 2^40 bytes. The
        // writer has failed after `WriteFailed`, after `OutOfMemory`, and if it had failed before; it has not failed
        // after a success or `RowShape`. After an error by which the writer did not fail, its output, stripes,
        // statistics, rows and counts are unchanged. If a list of rows has been pushed to the writer, the writer fails
        // by this push and the output's bytes are known, then the output has got a prefix of a file of the first n rows
        // of the list with `row` at its end, for some n. If the writer counted as many bytes as the output had got, it
        // still does. The output's count of failures rises by one with `WriteFailed`, and stays the same otherwise.
        ensures takes { TakesRow W.told W.failures self.old self.new (view row.entry) result }
    {
        let pushed = self.push(&row);
        self.spare = row;
        pushed
    }

    /// Adds a row. The writer copies its cells, so the row itself stays the caller's. If the row is the last one of a
    /// stripe, the stripe is written.
    ///
    /// # Errors
    ///
    /// These leave the writer as it was:
    ///
    /// - `Failed` if the writer failed in an earlier call;
    /// - `RowShape` if the row doesn't fit the schema;
    /// - `Limit` if a limit of stripes, of rows or of a column's cells in a stripe would be exceeded.
    ///
    /// After these the writer has failed, and the output has got a prefix of a file of the first n of the rows pushed,
    /// this row included, for some n:
    ///
    /// - `Limit` if the file's stripes would have too many bytes;
    /// - `WriteFailed` if a write to the output fails;
    /// - `OutOfMemory` if there is no memory.
    pub fn push(&mut self, row: &Row<'_>) -> Result<(), FileFault>
        // If a list of rows has been pushed to the writer and this push succeeds, then the list with `row` added at its
        // end has been pushed: if the output's bytes are known, it has got from the writer exactly `ORC` and the full
        // stripes of these rows, and the writer keeps the rows after these stripes.
        ensures pushed { AddsRow (progress W.told self.old) (progress W.told self.new) (view row.now) result }
        // The writer keeps its schema and its options. An error is `Failed`, `RowShape`, `Limit`, `WriteFailed` or
        // `OutOfMemory`. `Failed` comes if and only if the writer had failed before this push. If it had not failed,
        // `RowShape` comes if and only if `row` doesn't fit the schema. If it had not failed, `row` fits, and with
        // `row` a limit of stripes, of rows or of a column's cells in a stripe would be exceeded, then the error is
        // `Limit` and the writer has not failed. If a list of rows has been pushed to the writer, then by its counts
        // such a limit would be exceeded if and only if it would by these rows. `Limit` without the writer having
        // failed comes only if such a limit would be exceeded. `Limit` after which the writer has failed comes only if
        // `row` fills the open stripe and with this stripe the file's stripes would have more than 2^40 bytes. The
        // writer has failed after `WriteFailed`, after `OutOfMemory`, and if it had failed before; it has not failed
        // after a success or `RowShape`. After an error by which the writer did not fail, its output, stripes,
        // statistics, rows and counts are unchanged. If a list of rows has been pushed to the writer, the writer fails
        // by this push and the output's bytes are known, then the output has got a prefix of a file of the first n rows
        // of the list with `row` at its end, for some n. If the writer counted as many bytes as the output had got, it
        // still does. The output's count of failures rises by one with `WriteFailed`, and stays the same otherwise.
        ensures takes { TakesRow W.told W.failures self.old self.new (view row.now) result }
    {
        self.admit(row)?;
        self.add(row)
    }

    /// Returns the row that was given to the writer last, so that its memory can be used again; null if there was none
    /// since the last call. Its contents are no longer needed.
    pub fn spare_row(&mut self) -> Row<'static>
        // What the writer has written, kept and counted is unchanged: its output, its stripes and their
        // statistics, the rows of the open stripe, the counts of bytes, rows and cells, and whether it has
        // failed.
        ensures progress { progress W.told self.new ≡ progress W.told self.old }
        ensures stays { (self.new.out ≡ self.old.out) × (self.new.written ≡ self.old.written)
            × (self.new.infos ≡ self.old.infos)
            × (self.new.stats ≡ self.old.stats) × (self.new.batch ≡ self.old.batch)
            × (self.new.counts ≡ self.old.counts)
            × (self.new.total ≡ self.old.total) × (self.new.failed ≡ self.old.failed) }
        // The writer keeps its schema and its options.
        ensures same { (self.new.schema ≡ self.old.schema) × (self.new.options ≡ self.old.options) }
    {
        self.spare.take()
    }

    /// Returns the schema of the rows.
    pub fn schema(&self) -> &Schema
        // Returns the writer's schema.
        ensures { result.now ≡ self.now.schema }
    {
        &self.schema
    }

    /// Returns the output as it is. The rows of the open stripe aren't written, nor is a tail.
    pub fn into_out(self) -> W
        // Returns the writer's output as it is.
        ensures { result ≡ self.out }
    {
        self.out
    }

    /// Writes the rows of the open stripe, if there are any, as the file's last stripe.
    fn close_rest(&mut self) -> Result<(), FileFault>
        requires open { self.old.failed ≡ false }
        ensures last { (first : Option (List ℕ)) (rows : List Cell)
            → HasPushed (progress W.told self.old) first rows
            → OnOk result (HasFilled (progress W.told self.new) first rows) }
        ensures cut { (first : Option (List ℕ)) (rows : List Cell)
            → HasPushed (progress W.told self.old) first rows
            → OnErr result (IsCutOff self.old.options self.old.schema first (W.told self.new.out) rows) }
        ensures empty { OnOk result (kept_rows self.new.schema self.new.batch ≡ []) }
        ensures ok { OnOk result (self.new.failed ≡ false) }
        ensures same { (self.new.schema ≡ self.old.schema) × (self.new.options ≡ self.old.options) }
        ensures limit { IsErrOf result fault.Limit
            → PassesBytes self.old.options self.old.schema self.old.infos.items
            (kept_rows self.old.schema self.old.batch) }
        ensures begun { OnErr result (0 < length (kept_rows self.old.schema self.old.batch)) }
        ensures refused { IfErr result (λ e. (e ≡ fault.WriteFailed) ⊎ ((e ≡ fault.Limit) ⊎ (e ≡ fault.OutOfMemory))) }
        ensures out { LeavesSink W.failures fault.WriteFailed self.old.out self.new.out result }
    {
        if self.batch.len() == 0 {
            return Ok(());
        }
        self.close()
    }

    /// Writes the last stripe, if rows are left for it, and the tail (ORC specification, "File Tail"). Returns the tail
    /// and the output.
    ///
    /// # Errors
    ///
    /// Each returns the output:
    ///
    /// - `Failed` if the writer failed in an earlier call;
    /// - `Limit` if the file's stripes would have too many bytes;
    /// - `WriteFailed` if a write to the output fails;
    /// - `OutOfMemory` if there is no memory.
    pub fn finish(self) -> Result<(Tail, W), (FileFault, W)>
        // If a list of rows has been pushed to the writer, the call succeeds and the output's bytes are known, then the
        // output has got the file that is written of these rows, and this file's tail is returned. The file has fewer
        // than 2^64 bytes.
        ensures whole { (first : Option (List ℕ)) (rows : List Cell)
            → HasPushed (progress W.told self) first rows
            → IfOk result (λ done. WroteWholeFile self.options self.schema done.0 first (W.told done.1) rows) }

        // The error is `Failed` if and only if the writer had failed in an earlier call, and with it the output is
        // returned unchanged.
        ensures failed { IfErr result (λ e. e.0 ≡ fault.Failed → self.failed ≡ true) }
        ensures stands { self.failed ≡ true → MatchResult result (λ _. ⊥)
            (λ e. (e.0 ≡ fault.Failed) × (e.1 ≡ self.out)) }
        // If the error is `Limit`, then the open stripe has a row, and with this stripe the file's stripes
        // would have more than 2^40 bytes.
        ensures long { IfErr result (λ e. e.0 ≡ fault.Limit
            → PassesBytes self.options self.schema self.infos.items (kept_rows self.schema self.batch)) }
        ensures begun { IfErr result (λ e. e.0 ≡ fault.Limit → 0 < length (kept_rows self.schema self.batch)) }
        // An error is `Failed`, `Limit`, `WriteFailed` or `OutOfMemory`.
        ensures refused { IfErr result (λ e. (e.0 ≡ fault.Failed)
            ⊎ ((e.0 ≡ fault.Limit) ⊎ ((e.0 ≡ fault.WriteFailed) ⊎ (e.0 ≡ fault.OutOfMemory)))) }
        // If a list of rows has been pushed to the writer, the writer had not failed, the call fails and the output's
        // bytes are known, then the output has got a prefix of a file of the first n rows of the list, for some n.
        ensures cut { (first : Option (List ℕ)) (rows : List Cell)
            → HasPushed (progress W.told self) first rows
            → self.failed ≡ false
            → IfErr result (λ e. IsCutOff self.options self.schema first (W.told e.1) rows) }
        // The output's count of failures rises by one with `WriteFailed`, and stays the same after a success and after
        // any other error.
        ensures out { HandsBackSink W.failures fault.WriteFailed (λ done. done.1) self.out result }
    {
        let mut writer = self;
        if writer.failed {
            return Err((FileFault::Failed, writer.out));
        }
        match writer.close_rest() {
            Ok(()) => {}
            Err(fault) => return Err((fault, writer.out)),
        }
        let Writer {
            alloc,
            schema,
            options,
            out,
            infos,
            stats,
            total,
            ..
        } = writer;
        let mut out = out;
        let stripes = Stripes {
            infos,
            stats,
            rows: total,
        };
        match end_file(alloc, options, schema, stripes, &mut out) {
            Ok(tail) => Ok((tail, out)),
            Err(fault) => Err((fault, out)),
        }
    }
}
