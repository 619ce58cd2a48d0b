//! The readers of all columns, each from its positions on.
ghost use Rattle.std.specs.Prelude.{◌≡◌, ◌≢◌, ℕ, List, length, IfOk, IfErr, MatchResult};
ghost use Rattle.orc_values.specs.Cells.{Cell};
ghost use Rattle.orc_values.specs.Shapes.{width};
ghost use Rattle.orc_values.specs.Views.{shape};
ghost use Rattle.orc_column_reader.specs.Columns.{CellsLeft};
ghost use Rattle.orc_directory.specs.Located.{AreLocated};
ghost use Rattle.orc_column_reader.specs.Stripe.{Streams, columns_of};
ghost use Rattle.orc_directory.specs.declared.fault.StripeFault.TheVariants.{OutOfMemory};
ghost use Rattle.orc_group_reader.specs.ReadersAt.{ReadersAt};
ghost use Rattle.orc_group_reader.specs.Rows.{EntriesRefused, RowsTurn};

use crate::reader::reader_at;
use orc_column_reader::{ColumnReader, streams_of};
use orc_directory::{Located, StripeFault};
use orc_values::{Tree, tree_at, width_of};
use orc_wire::{RowIndexEntry, StripeFooter};
use std::alloc::Global;

/// Returns the readers of all columns of a stripe, each from the positions of its entry on (ORC specification, "Row
/// Group Index"). What a stream has before its position's offset is not read. Dictionaries are read whole.
///
/// # Errors
///
/// - `BadPosition` with a column whose entry has more or fewer positions than its streams have.
/// - `BadPosition` with a stream in which its position doesn't lie.
/// - `Run`, if there is an invalid run at a position.
/// - The errors of a dictionary.
/// - `OutOfMemory`, which is the only error if the positions are right.
pub fn readers_at<'a>(
    alloc: Global,
    tree: &Tree,
    footer: &StripeFooter,
    located: &Located<'a>,
    entries: &[RowIndexEntry],
) -> Result<Vec<ColumnReader<'a>>, StripeFault>
    requires columns { width (shape tree.now) ≡ length footer.now.columns }
    requires located { AreLocated (length footer.now.columns) footer.now.streams
        located.now.bytes.now located.now.slices.items }
    requires entries { length entries.now ≡ width (shape tree.now) }
    // If the call succeeds, then it returns one reader for each column.
    ensures counted { IfOk result (λ readers. length readers.items ≡ width (shape tree.now)) }
    // If there are columns that store rows, the entries' positions are right in these columns after the first of the
    // rows, and the columns in `footer` and `located` have the same encodings and dictionaries and the same bytes
    // from the positions' offsets on, then the returned readers have the other rows left, or the call fails with
    // `OutOfMemory`.
    ensures left { (x : ℕ → Streams) (before after : List Cell)
        → RowsTurn (shape tree.now) x (columns_of footer.now located.now.bytes.now) before after entries.now
        → MatchResult result
        (λ readers. CellsLeft (shape tree.now) readers.items after)
        (λ fault. fault ≡ OutOfMemory) }
    // If the call succeeds, then each entry has as many positions as its column's streams have, each position lies in
    // its stream, and each returned reader is at the positions of its entry.
    ensures at { IfOk result (λ readers.
        ReadersAt (shape tree.now) (columns_of footer.now located.now.bytes.now) entries.now readers.items) }
    // An error other than `OutOfMemory` is one of a column at its entry: `BadPosition` with the column, if the entry
    // has more or fewer positions than the column's streams have; else `BadPosition` with a stream in which its
    // position doesn't lie, the error of an invalid run that is met from there on, or the error of the dictionary.
    ensures fault { IfErr result (λ cause. cause ≢ OutOfMemory
        → EntriesRefused (shape tree.now) (columns_of footer.now located.now.bytes.now) entries.now cause) }
{
    let mut readers = Vec::new(alloc);
    for column in 0..width_of(tree) {
        let own = tree_at(tree, column);
        let streams = streams_of(column, footer, located);
        match reader_at(
            alloc,
            own,
            column,
            &streams,
            entries[column].positions.as_slice(),
        ) {
            Ok(reader) => readers.push(reader)?,
            Err(fault) => return Err(fault),
        }
    }
    Ok(readers)
}
