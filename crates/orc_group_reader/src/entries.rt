//! The entries of a column's dictionary.
ghost use Rattle.std.specs.Prelude.{◌≡◌, ◌≢◌, IfOk, IfErr};
ghost use Rattle.orc_values.specs.Views.{shape};
ghost use Rattle.orc_column_reader.specs.Faults.{EntriesFail, DictionaryFails};
ghost use Rattle.orc_column_reader.specs.Starting.{AreStreams, HasNoDictionary, LacksEntries};
ghost use Rattle.orc_column_reader.specs.Stripe.{Streams};
ghost use Rattle.orc_directory.specs.declared.fault.StripeFault.TheVariants.{OutOfMemory};
ghost use Rattle.orc_group_reader.specs.Columns.{HasDictionaryEntries, EntriesOf};

use orc_column_reader::{ColumnStreams, Entry, entries_of};
use orc_directory::StripeFault;
use orc_values::{Scalar, Tree};
use std::alloc::Global;

/// Reads the dictionary of a column of texts, if it has one.
fn dictionary_of<'a>(
    alloc: Global,
    column: usize,
    streams: &ColumnStreams<'a>,
) -> Result<Option<Vec<Entry<'a>>>, StripeFault>
    ensures found { IfOk result (λ entries. (x : Streams) → AreStreams x streams.now
        → HasDictionaryEntries streams.now.has_dictionary x entries) }
    ensures none { IfErr result (λ fault. fault ≢ OutOfMemory
        → (x : Streams) → AreStreams x streams.now
        → LacksEntries streams.now.has_dictionary x) }
    ensures fault { IfErr result (λ cause. cause ≢ OutOfMemory
        → (x : Streams) → AreStreams x streams.now
        → EntriesFail streams.now.has_dictionary x column cause) }
{
    if !streams.has_dictionary {
        return Ok(None);
    }
    match entries_of(
        alloc,
        column,
        streams.version,
        streams.lengths,
        streams.dictionary_data,
        streams.dictionary_size,
    ) {
        Ok(entries) => Ok(Some(entries)),
        Err(fault) => Err(fault),
    }
}

/// Reads the dictionary of a column, if it has one. A dictionary has no positions and is read whole.
pub(crate) fn column_entries<'a>(
    alloc: Global,
    tree: &Tree,
    column: usize,
    streams: &ColumnStreams<'a>,
) -> Result<Option<Vec<Entry<'a>>>, StripeFault>
    ensures found { IfOk result (λ entries. (x : Streams) → AreStreams x streams.now
        → EntriesOf (shape tree.now) x entries) }
    ensures none { IfErr result (λ fault. fault ≢ OutOfMemory
        → (x : Streams) → AreStreams x streams.now
        → HasNoDictionary (shape tree.now) x) }
    ensures fault { IfErr result (λ cause. cause ≢ OutOfMemory
        → (x : Streams) → AreStreams x streams.now
        → DictionaryFails (shape tree.now) x column cause) }
{
    match tree {
        Tree::Scalar(Scalar::String, _) => dictionary_of(alloc, column, streams),
        _ => Ok(None),
    }
}
