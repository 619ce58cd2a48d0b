//! A cursor in the middle of a stripe, at the first row of a row group.
ghost use Rattle.std.specs.Prelude.{◌≡◌, ◌≢◌, ◌*◌, ◌<◌, ℕ, Some, List, drop, length, slice_get, IfOk, IfErr, MatchResult};
ghost use Rattle.orc_values.specs.Cells.{Cell};
ghost use Rattle.orc_values.specs.Shapes.{width};
ghost use Rattle.orc_wire.specs.declared.row_index.RowIndexEntry.{RowIndexEntry as IndexEntry};
ghost use Rattle.orc_column_reader.specs.Stripe.{Streams};
ghost use Rattle.orc_directory.specs.declared.fault.StripeFault.{StripeFault as Fault};
ghost use Rattle.orc_directory.specs.declared.fault.StripeFault.TheVariants.{OutOfMemory};
ghost use Rattle.orc_stripe_reader.specs.Cursors.{row_type, IsGoing, StandsFor, MeetsFault};
ghost use Rattle.orc_stripe_reader.specs.GroupCursors.{HasGroup, HasEntries, IsGroupEntry, EntryFault, EntriesFault, GroupFault, StartsGroup, IsEntered, SpellsFrom, MeetsFrom};

use crate::cursor::RowCursor;
use crate::view::StripeView;
use orc_directory::{Spot, StripeFault, locate};
use orc_group_reader::readers_at;
use orc_values::CELL_LIMIT;
use orc_wire::RowIndexEntry;
use std::alloc::Global;

impl<'a> StripeView<'a> {
    /// Returns the entry of a group in a column's row index.
    fn group_entry(
        &self,
        alloc: Global,
        column: usize,
        group: u64,
    ) -> Result<RowIndexEntry, StripeFault>
        requires { HasGroup self.now group }
        ensures found { IfOk result (IsGroupEntry self.now column group) }
        ensures only { (entry : IndexEntry) → IsGroupEntry self.now column group entry
            → MatchResult result (λ found. found ≡ entry) (λ fault. fault ≡ OutOfMemory) }
        ensures fault { IfErr result (EntryFault self.now column) }
    {
        let index = match self.index(alloc, column) {
            Ok(index) => index,
            Err(fault) => return Err(fault),
        };
        let mut entries = index.entries.into_vec();
        let groups = self.info.number_of_rows.div_ceil(self.stride as u64);
        if entries.len() as u64 != groups {
            return Err(StripeFault::BadPosition(Spot::Column(column)));
        }
        Ok(entries.swap_remove(group as usize))
    }

    /// Returns the entries of a group, one of each column.
    fn group_entries(&self, alloc: Global, group: u64) -> Result<Vec<RowIndexEntry>, StripeFault>
        requires { HasGroup self.now group }
        ensures counted { IfOk result (λ entries. length entries.items ≡ width self.now.schema) }
        ensures found { IfOk result (λ entries. (c : ℕ) (entry : IndexEntry)
            → slice_get entries.items c ≡ Some entry
            → IsGroupEntry self.now c group entry) }
        ensures only { IfOk result (λ entries. (c : ℕ) (found entry : IndexEntry)
            → slice_get entries.items c ≡ Some found
            → IsGroupEntry self.now c group entry → found ≡ entry) }
        ensures refused { IfErr result (λ fault. HasEntries self.now group → fault ≡ OutOfMemory) }
        ensures fault { IfErr result (λ cause. cause ≢ OutOfMemory → EntriesFault self.now cause) }
    {
        let mut entries = Vec::new(alloc);
        for column in 0..self.schema.width() {
            match self.group_entry(alloc, column, group) {
                Ok(entry) => entries.push(entry)?,
                Err(fault) => return Err(fault),
            }
        }
        Ok(entries)
    }

    /// Returns a cursor at the first row of a group, which is row `group * stride` of the stripe (ORC specification,
    /// "Row Group Index"). Each column is read from the positions on that its row index has for the group. The bytes of
    /// a stream before a position's offset have no effect on the rows, nor have the entries of other groups.
    /// Dictionaries are read whole.
    ///
    /// If the group's positions are right in columns that spell as many rows as the stripe has, the cursor gives these
    /// rows from the group's first one on, and then none, and it fails only for want of memory. These columns may be
    /// the stripe's own, or any others with the same encodings and dictionaries, with streams of the same lengths, and
    /// with the same bytes from the positions' offsets on. Columns of every kind can be entered, nested ones, ones with
    /// a dictionary, and in the middle of a run.
    ///
    /// # Errors
    ///
    /// - `NoIndex` of the stripe if the stride is 0, and for no other reason;
    /// - `TooMany(0)` if the stripe has more than 2,147,483,647 rows;
    /// - `BadPosition` of the stripe if it doesn't have the group;
    /// - `NoIndex` of a column that has no row index, and `Wire` if its bytes are no valid message;
    /// - `BadPosition` of a column if its row index doesn't have as many entries as there are groups, or if the group's
    ///   entry doesn't have as many positions as the column's streams need;
    /// - `BadPosition` of a stream if a position lies outside of it, and `Run` if no run can be decoded at the
    ///   position;
    /// - the errors of a dictionary;
    /// - `OutOfMemory` if there is no memory.
    ///
    /// All row indexes are read before any stream. So a fault of a row index or of its number of entries comes only if
    /// the stripe has the group, and a fault at an entry's positions comes only if each column has its entry of the
    /// group. An error that the cursor gives later is a fault of the columns' streams as they are from the positions
    /// on, with its place in the stream.
    pub fn cursor_at(&self, alloc: Global, group: u64) -> Result<RowCursor<'a>, StripeFault>
        // If the stripe has the group `group`, each column's row index has an entry for each group, and there are
        // columns' streams that spell as many rows as the stripe has, in which the positions in the entries of `group`
        // are right, and which have the encodings and dictionaries of the stripe's streams, their lengths, and their
        // bytes from the positions on, then `cursor_at` returns a cursor whose remaining rows are these rows from row
        // `group * stride` on, or fails with `OutOfMemory`. Right positions are those from which a reader goes on after
        // the column's cells of all rows before the group.
        ensures starts { (x : ℕ → Streams) (rows : List Cell) → StartsGroup self.now x rows group
            → MatchResult result
            (λ cursor. StandsFor cursor (drop (group * self.now.stride) rows))
            (λ fault. fault ≡ OutOfMemory) }
        // A returned cursor has not failed yet.
        ensures going { IfOk result IsGoing }
        // A cursor is returned only if the stride is above 0, the stripe has a row of the number `group * stride`, and
        // each column has a row index with an entry for each group.
        ensures there { IfOk result (λ _. HasGroup self.now group × HasEntries self.now group) }
        // A cursor is returned only if readers of all columns can stand at the positions in the entries of `group`:
        // each entry has as many positions as its column's streams have, each position lies in its stream, and each
        // dictionary reads.
        ensures entered { IfOk result (λ _. IsEntered self.now group) }
        // If rows are the remaining rows of a returned cursor, then the streams spell exactly these rows from the
        // positions in the entries of `group` on, and these are as many as the stripe has from row `group * stride` on.
        ensures found { IfOk result (λ cursor. (rows : List Cell) → StandsFor cursor rows
            → SpellsFrom self.now group rows) }
        // If the streams spell exactly some rows from the positions in the entries of `group` on, as many as the stripe
        // has from row `group * stride` on, then these rows are the remaining rows of a returned cursor.
        ensures stands { IfOk result (λ cursor. (rows : List Cell) → SpellsFrom self.now group rows
            → StandsFor cursor rows) }
        // The row type of a returned cursor is the view's schema.
        ensures of_type { IfOk result (λ cursor. row_type cursor ≡ self.now.schema) }
        // If the streams of a returned cursor, read for the rows still to come, have a fault, then the stripe's streams
        // have this fault when they are read from the positions in the entries of `group` on, for as many rows as the
        // stripe has from row `group * stride` on.
        ensures meets { IfOk result (λ cursor. (f : Fault) → MeetsFault cursor f → MeetsFrom self.now group f) }
        // If `cursor_at` fails with an error other than `OutOfMemory`, then the stripe doesn't have the group `group`
        // or has too many rows, or a column doesn't have an entry of the group, or each column has one and a column
        // can't be entered at its entry's positions. The first case gives `NoIndex` of the stripe for the stride 0,
        // else `TooMany(0)` for 2^31 rows or more, else `BadPosition` of the stripe. The second gives `NoIndex` or
        // `Wire` for a row index that is missing or doesn't read, and `BadPosition` of the column for another number of
        // entries than the stripe has groups. The third gives `BadPosition` of the column for another number of
        // positions than its streams have, or else `BadPosition` or `Run` of one of its streams, or a fault of its
        // dictionary.
        ensures fault { IfErr result (λ cause. cause ≢ OutOfMemory → GroupFault self.now group cause) }
    {
        let count = self.info.number_of_rows;
        if self.stride == 0 {
            return Err(StripeFault::NoIndex(Spot::Stripe));
        }
        if count >= CELL_LIMIT {
            return Err(StripeFault::TooMany(0));
        }
        let Some(first) = group.checked_mul(self.stride as u64) else {
            return Err(StripeFault::BadPosition(Spot::Stripe));
        };
        if first >= count {
            return Err(StripeFault::BadPosition(Spot::Stripe));
        }
        let entries = match self.group_entries(alloc, group) {
            Ok(entries) => entries,
            Err(fault) => return Err(fault),
        };
        let tree = self.schema.tree();
        let located = locate(alloc, &self.footer, self.bytes)?;
        match readers_at(alloc, tree, &self.footer, &located, &entries) {
            Ok(readers) => Ok(RowCursor {
                alloc,
                tree,
                readers,
                left: count - first,
                failed: false,
            }),
            Err(fault) => Err(fault),
        }
    }
}
