//! Reads and checks the row indexes of a stripe.
ghost use Rattle.std.specs.Prelude.{◌≡◌, ◌≢◌, ◌<◌, ◌⊎◌, ℕ, List, true, false, None, length, IfOk, IfErr, IfSome, MatchResult};
ghost use Rattle.orc_values.specs.Cells.{Cell};
ghost use Rattle.orc_values.specs.Shapes.{width};
ghost use Rattle.orc_wire.specs.declared.row_index.RowIndexMsg.{RowIndexMsg as IndexMessage};
ghost use Rattle.orc_wire.specs.StreamKinds.{ROW_INDEX};
ghost use Rattle.orc_directory.specs.Directory.{has_stream, have_room, is_stream_of, slice};
ghost use Rattle.orc_column_reader.specs.Faults.{RowsFault};
ghost use Rattle.orc_directory.specs.Located.{AreLocated};
ghost use Rattle.orc_column_reader.specs.Stripe.{IsStripe, SpellRows, columns_of};
ghost use Rattle.orc_values.specs.Limits.{cell_limit};
ghost use Rattle.orc_directory.specs.declared.fault.StripeFault.TheVariants.{OutOfMemory};
ghost use Rattle.orc_stripe_reader.specs.ColumnGroups.{AreCountedOf};
ghost use Rattle.orc_stripe_reader.specs.RowIndexes.{HasIndex, IndexFault, HasEachGroup, ArePositionsDecided, HasOtherEntries};

use crate::groups::{CellGroups, count_column};
use crate::view::StripeView;
use orc_column_reader::streams_of;
use orc_column_walk::walk_columns;
use orc_directory::{Located, Spot, StripeFault, wire_fault};
use orc_row_groups::{Counts, group_starts};
use orc_row_index_check::positions_right_behind;
use orc_values::tree_at;
use orc_wire::{Message, ROW_INDEX, RowIndexMsg, StreamMsg};
use std::alloc::Global;

/// Returns whether the stream is the row index of the column.
fn is_index(stream: &StreamMsg, column: usize) -> bool
    ensures { result ≡ is_stream_of column ROW_INDEX stream.now }
{
    stream.column as usize == column && stream.kind == ROW_INDEX
}

/// Returns the bytes of a column's row index, if the directory lists one.
fn index_bytes<'a>(column: usize, streams: &[StreamMsg], bytes: &'a [u8]) -> Option<&'a [u8]>
    requires { have_room (length bytes.now) streams.now ≡ true }
    ensures there { IfSome result (λ text. (has_stream column ROW_INDEX streams.now ≡ true)
        × (text.now ≡ slice column ROW_INDEX streams.now bytes.now)) }
    ensures missing { result ≡ None → has_stream column ROW_INDEX streams.now ≡ false }
{
    let mut left = bytes;
    for stream in streams {
        let (front, rest) = left.split_at(stream.length as usize);
        if is_index(stream, column) {
            return Some(front);
        }
        left = rest;
    }
    None
}

impl<'a> StripeView<'a> {
    /// Reads the message of a column's row index (ORC specification, "Row Group Index").
    ///
    /// # Errors
    ///
    /// - `NoIndex` of the stripe if the stride is 0, even if the column has a ROW_INDEX stream;
    /// - `NoIndex` of the column if the directory lists no such stream;
    /// - `Wire` if the stream's bytes are no valid message;
    /// - `OutOfMemory` if there is no memory.
    pub fn index(&self, alloc: Global, column: usize) -> Result<RowIndexMsg, StripeFault>
        // A returned message is the one that the bytes of the column's ROW_INDEX stream are; the directory lists this
        // stream, and the stride is above 0.
        ensures found { IfOk result (λ message. (0 < self.now.stride)
            × HasIndex self.now.footer self.now.bytes column message) }
        // If the stride is above 0 and the directory lists a ROW_INDEX stream of `column` whose bytes are a message,
        // then `index` returns this message, or fails with `OutOfMemory`.
        ensures only { (message : IndexMessage) → 0 < self.now.stride
            → HasIndex self.now.footer self.now.bytes column message
            → MatchResult result (λ found. found ≡ message) (λ fault. fault ≡ OutOfMemory) }
        // An error is `NoIndex`, `Wire` or `OutOfMemory`. `NoIndex` of the stripe comes only if the stride is 0.
        // `NoIndex` of `column` comes only if the stride is above 0 and the directory lists no ROW_INDEX stream of
        // `column`. `Wire` comes only if the stride is above 0 and the directory lists this stream, and names a fault
        // that the stream's bytes have.
        ensures fault { IfErr result (IndexFault self.now column) }
    {
        if self.stride == 0 {
            return Err(StripeFault::NoIndex(Spot::Stripe));
        }
        let Some(text) = index_bytes(column, self.footer.streams.as_slice(), self.bytes) else {
            return Err(StripeFault::NoIndex(Spot::Column(column)));
        };
        match RowIndexMsg::read(alloc, text) {
            Ok(message) => Ok(message),
            Err(fault) => Err(wire_fault(fault)),
        }
    }

    /// Finds the streams of all columns, and tests that they spell the stripe's rows. No row is made.
    fn walk(&self, alloc: Global) -> Result<Located<'a>, StripeFault>
        ensures found { IfOk result (λ located. AreLocated (length self.now.footer.columns)
            self.now.footer.streams located.bytes.now located.slices.items) }
        ensures same { IfOk result (λ located. located.bytes.now ≡ self.now.bytes) }
        ensures rows { IfOk result (λ _. (rows : List Cell)
            × IsStripe self.now.schema self.now.info self.now.bytes rows) }
        ensures fault { IfErr result (λ cause. cause ≢ OutOfMemory
            → RowsFault self.now.schema (columns_of self.now.footer self.now.bytes)
            self.now.info.number_of_rows cause) }
    {
        let located = self.locate(alloc)?;
        let (tree, rows) = (self.schema.tree(), self.info.number_of_rows);
        match walk_columns(alloc, tree, &self.footer, &located, rows) {
            Ok(()) => Ok(located),
            Err(fault) => Err(fault),
        }
    }

    /// Counts a column's cells before each group of the rows that the columns spell.
    fn column_counts(
        &self,
        alloc: Global,
        located: &Located<'_>,
        column: usize,
    ) -> Result<Vec<Counts>, StripeFault>
        requires there { column < width self.now.schema }
        requires located { AreLocated (length self.now.footer.columns) self.now.footer.streams
            located.now.bytes.now located.now.slices.items }
        requires same { located.now.bytes.now ≡ self.now.bytes }
        requires stride { 0 < self.now.stride }
        requires few { self.now.info.number_of_rows < cell_limit }
        ensures found { IfOk result (λ counts. (rows : List Cell)
            → SpellRows self.now.schema (columns_of self.now.footer self.now.bytes) self.now.info.number_of_rows rows
            → AreCountedOf self.now rows column counts.items) }
        ensures refused { IfErr result (λ fault. (rows : List Cell)
            → SpellRows self.now.schema (columns_of self.now.footer self.now.bytes) self.now.info.number_of_rows rows
            → fault ≡ OutOfMemory) }
    {
        let count = self.info.number_of_rows as usize;
        let bounds = group_starts(alloc, self.stride as usize, count)?;
        let cells = CellGroups { count, bounds };
        let tree = self.schema.tree();
        count_column(alloc, tree, 0, column, &self.footer, located, &cells)
    }

    /// Returns for each entry of a column's row index whether its positions are right: whether a reader goes on from
    /// them after the column's cells of all rows before the entry's group. All right positions count, not only those
    /// that a writer would give. The call reads all columns of the stripe, one after the other, and holds no row.
    ///
    /// `column` must be a column of the schema.
    ///
    /// # Errors
    ///
    /// - those of `rows`, here in the order of the columns;
    /// - then those of `index`;
    /// - `BadPosition` of the column if the row index doesn't have as many entries as the rows have groups;
    /// - `OutOfMemory` if there is no memory.
    pub fn positions_right(&self, alloc: Global, column: usize) -> Result<Vec<bool>, StripeFault>
        requires { column < width self.now.schema }
        // If the schema has `column`, then truth values are returned only if the view's bytes are a stripe of some
        // rows, the column has a row index with an entry for each group of these rows, and the stride is above 0.
        ensures index { IfOk result (λ _. (rows : List Cell) × (message : IndexMessage)
            × IsStripe self.now.schema self.now.info self.now.bytes rows
            × HasIndex self.now.footer self.now.bytes column message
            × HasEachGroup self.now (length rows) message × (0 < self.now.stride)) }
        // If the schema has `column`, the view's bytes are a stripe of some rows, the stride is above 0, and the column
        // has a row index that reads, then `positions_right` returns one truth value for each entry, or fails with
        // `OutOfMemory` or with `BadPosition` of `column`. A truth value says whether the entry's positions are right
        // for its group: whether a reader goes on from them after the column's cells of all rows before the group.
        // Truth values are returned only if the row index has an entry for each group of the rows, and `BadPosition`
        // only if it has another number of entries.
        ensures right { (rows : List Cell) (message : IndexMessage)
            → IsStripe self.now.schema self.now.info self.now.bytes rows
            → 0 < self.now.stride
            → HasIndex self.now.footer self.now.bytes column message
            → MatchResult result
            (λ right. HasEachGroup self.now (length rows) message
            × ArePositionsDecided self.now column rows message right.items)
            (λ fault. (fault ≡ OutOfMemory) ⊎ HasOtherEntries self.now column (length rows) fault) }
        // If the schema has `column` and `positions_right` fails with an error other than `OutOfMemory`, then the error
        // is a fault of the rows, of the column's row index, or of the number of its entries. A fault of the rows comes
        // only if the columns' streams don't spell as many rows of the schema as the stripe's record says: `TooMany(0)`
        // for 2^31 rows or more, or a fault that a column of the schema has in its streams. The other faults come only
        // if the view's bytes are a stripe of some rows: `NoIndex` for the stride 0 or a missing row index, `Wire` for
        // a row index that doesn't read, and `BadPosition` of `column` for another number of entries than the rows have
        // groups.
        ensures fault { IfErr result (λ cause. cause ≢ OutOfMemory
            → RowsFault self.now.schema (columns_of self.now.footer self.now.bytes) self.now.info.number_of_rows cause
            ⊎ ((rows : List Cell) × IsStripe self.now.schema self.now.info self.now.bytes rows
            × (IndexFault self.now column cause ⊎ HasOtherEntries self.now column (length rows) cause))) }
    {
        let rows = self.info.number_of_rows;
        let located = match self.walk(alloc) {
            Ok(located) => located,
            Err(fault) => return Err(fault),
        };
        let index = match self.index(alloc, column) {
            Ok(index) => index,
            Err(fault) => return Err(fault),
        };
        let entries = index.entries.as_slice();
        let groups = rows.div_ceil(self.stride as u64);
        if entries.len() as u64 != groups {
            return Err(StripeFault::BadPosition(Spot::Column(column)));
        }
        let counts = match self.column_counts(alloc, &located, column) {
            Ok(counts) => counts,
            Err(fault) => return Err(fault),
        };
        let streams = streams_of(column, &self.footer, &located);
        let tree = tree_at(self.schema.tree(), column);
        positions_right_behind(alloc, tree, column, &streams, &counts, entries)
    }
}
