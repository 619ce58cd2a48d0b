//! Readers of columns at the start of their streams, by a column's kind and encoding.

ghost use Rattle.std.specs.Prelude.{◌≡◌, ◌≢◌, ◌<◌, ℕ, true, None, List, length, IfOk, IfErr};
ghost use Rattle.orc_values.specs.Views.{shape};
ghost use Rattle.orc_column_reader.specs.Faults.{StringsFail, EntriesFail, ScalarEntriesFail, DictionaryFails, lengths_of};
ghost use Rattle.orc_directory.specs.Located.{AreLocated};
ghost use Rattle.orc_column_reader.specs.Starting.{DataStart, StringsStart, TextsStart, ScalarStart, SourceStart, OwnStart, LacksEntries, ScalarLacks, HasNoDictionary, AreStreams};
ghost use Rattle.orc_column_reader.specs.Stripe.{Streams, IsDictionary, encoding_at, columns_of, in_dictionary};
ghost use Rattle.orc_values.specs.Limits.{most_cells};
ghost use Rattle.orc_directory.specs.declared.fault.StripeFault.TheVariants.{OutOfMemory};
ghost use Rattle.orc_directory.specs.declared.fault.StreamKind.TheVariants.{DictionaryData};

use crate::bits::bits_of;
use crate::bytes::bytes_of;
use crate::column::{ColumnReader, ValueSource};
use crate::dictionary::entries_of;
use crate::marks::marks_of;
use crate::numbers::numbers_of;
use crate::version::version_of;
use orc_directory::{Located, StripeFault};
use orc_rle::{Rle, Sign};
use orc_values::{Scalar, Tree};
use orc_wire::{DATA, DICTIONARY_DATA, Encoding, LENGTH, PRESENT, StripeFooter};
use std::alloc::Global;

/// What the cells of a column are read from, by its encoding and the directory.
#[derive(Clone, Copy)]
pub struct ColumnStreams<'a> {
    pub version: Rle,
    pub has_dictionary: bool,
    pub dictionary_size: u32,
    pub present: &'a [u8],
    pub data: &'a [u8],
    pub lengths: &'a [u8],
    pub dictionary_data: &'a [u8],
}

/// Returns the encoding of a column.
fn encoding_of(column: usize, footer: &StripeFooter) -> Encoding
    requires there { column < length footer.now.columns }
    ensures { result ≡ encoding_at footer.now.columns column }
{
    footer.columns.as_slice()[column]
}

/// Returns the streams of a column.
pub fn streams_of<'a>(
    column: usize,
    footer: &StripeFooter,
    located: &Located<'a>,
) -> ColumnStreams<'a>
    requires there { column < length footer.now.columns }
    requires located { AreLocated (length footer.now.columns) footer.now.streams
        located.now.bytes.now located.now.slices.items }
    // If `column` has an encoding in `footer`, and `located` has the streams that `footer` names, then the returned
    // streams are the column's, with the version of runs, the use of a dictionary and the dictionary's size that its
    // encoding has.
    ensures { AreStreams (columns_of footer.now located.now.bytes.now column) result }
{
    let encoding = encoding_of(column, footer);
    ColumnStreams {
        version: version_of(encoding.kind),
        has_dictionary: encoding.is_dictionary(),
        dictionary_size: encoding.dictionary_size,
        present: located.stream(column, PRESENT),
        data: located.stream(column, DATA),
        lengths: located.stream(column, LENGTH),
        dictionary_data: located.stream(column, DICTIONARY_DATA),
    }
}

/// Returns the source of a column whose values are in DATA.
fn data_source<'a>(column: usize, streams: &ColumnStreams<'a>) -> ValueSource<'a>
    ensures start { (x : Streams) → AreStreams x streams.now → DataStart x result }
    ensures column { result.column ≡ column }
{
    ValueSource::of_streams(
        column,
        numbers_of(streams.version, Sign::Signed, streams.data),
        bytes_of(streams.data),
        bits_of(streams.data),
        streams.data,
        None,
    )
}

/// Returns the source of a column whose values have sizes in LENGTH.
fn sized_source<'a>(column: usize, streams: &ColumnStreams<'a>) -> ValueSource<'a>
    ensures byte_strings { (x : Streams) → AreStreams x streams.now → StringsStart x result }
    ensures no_entries { result.entries ≡ None }
    ensures room { result.room ≡ most_cells }
    ensures column { result.column ≡ column }
{
    let numbers = numbers_of(streams.version, Sign::Unsigned, streams.lengths);
    ValueSource::of_numbers(column, numbers, streams.data, None)
}

/// Returns the source of a column with a dictionary.
fn dictionary_source<'a>(
    alloc: Global,
    column: usize,
    streams: &ColumnStreams<'a>,
) -> Result<ValueSource<'a>, StripeFault>
    ensures found { IfOk result (λ source. (x : Streams)
        → AreStreams x streams.now
        → TextsStart true x source.entries source) }
    ensures none { IfErr result (λ fault. fault ≢ OutOfMemory
        → (x : Streams) → AreStreams x streams.now
        → (entries : List (List ℕ))
        → IsDictionary x entries → ⊥) }
    ensures column { IfOk result (λ source. source.column ≡ column) }
    ensures fault { IfErr result (λ cause. cause ≢ OutOfMemory → (x : Streams) → AreStreams x streams.now
        → StringsFail DictionaryData (lengths_of x) true x.encoding.dictionary_size (in_dictionary x) column cause) }
{
    let entries = entries_of(
        alloc,
        column,
        streams.version,
        streams.lengths,
        streams.dictionary_data,
        streams.dictionary_size,
    )?;
    let numbers = numbers_of(streams.version, Sign::Unsigned, streams.data);
    Ok(ValueSource::of_numbers(column, numbers, streams.data, Some(entries)))
}

/// Returns the source of a column of texts.
fn text_source<'a>(
    alloc: Global,
    column: usize,
    streams: &ColumnStreams<'a>,
) -> Result<ValueSource<'a>, StripeFault>
    ensures found { IfOk result (λ source. (x : Streams)
        → AreStreams x streams.now
        → TextsStart streams.now.has_dictionary x source.entries source) }
    ensures none { IfErr result (λ fault. fault ≢ OutOfMemory
        → (x : Streams) → AreStreams x streams.now
        → LacksEntries streams.now.has_dictionary x) }
    ensures column { IfOk result (λ source. source.column ≡ column) }
    ensures fault { IfErr result (λ cause. cause ≢ OutOfMemory → (x : Streams) → AreStreams x streams.now
        → EntriesFail streams.now.has_dictionary x column cause) }
{
    if streams.has_dictionary {
        dictionary_source(alloc, column, streams)
    } else {
        Ok(sized_source(column, streams))
    }
}

/// Returns the source of a column whose kind contains no other type.
fn scalar_source<'a>(
    alloc: Global,
    kind: Scalar,
    column: usize,
    streams: &ColumnStreams<'a>,
) -> Result<ValueSource<'a>, StripeFault>
    ensures found { IfOk result (λ source. (x : Streams) → AreStreams x streams.now → ScalarStart kind x source) }
    ensures none { IfErr result (λ fault. fault ≢ OutOfMemory
        → (x : Streams) → AreStreams x streams.now
        → ScalarLacks kind x) }
    ensures column { IfOk result (λ source. source.column ≡ column) }
    ensures fault { IfErr result (λ cause. cause ≢ OutOfMemory
        → (x : Streams) → AreStreams x streams.now
        → ScalarEntriesFail kind x column cause) }
{
    match kind {
        Scalar::String => text_source(alloc, column, streams),
        Scalar::Binary => Ok(sized_source(column, streams)),
        Scalar::Boolean => Ok(data_source(column, streams)),
        Scalar::Byte => Ok(data_source(column, streams)),
        Scalar::Short => Ok(data_source(column, streams)),
        Scalar::Int => Ok(data_source(column, streams)),
        Scalar::Long => Ok(data_source(column, streams)),
        Scalar::Date => Ok(data_source(column, streams)),
    }
}

/// Returns the source of a column, without those below it.
fn source_of<'a>(
    alloc: Global,
    tree: &Tree,
    column: usize,
    streams: &ColumnStreams<'a>,
) -> Result<ValueSource<'a>, StripeFault>
    ensures found { IfOk result (λ source. (x : Streams)
        → AreStreams x streams.now
        → SourceStart (shape tree.now) x source) }
    ensures none { IfErr result (λ fault. fault ≢ OutOfMemory
        → (x : Streams) → AreStreams x streams.now
        → HasNoDictionary (shape tree.now) x) }
    ensures column { IfOk result (λ source. source.column ≡ column) }
    ensures fault { IfErr result (λ cause. cause ≢ OutOfMemory
        → (x : Streams) → AreStreams x streams.now
        → DictionaryFails (shape tree.now) x column cause) }
{
    match tree {
        Tree::Scalar(kind, _) => scalar_source(alloc, *kind, column, streams),
        Tree::List(_, _) | Tree::Map(_, _, _) => Ok(sized_source(column, streams)),
        Tree::Struct(_, _) => Ok(data_source(column, streams)),
    }
}

/// Returns the reader of a column, without those below it, from the start of its streams. It reads the entries of the
/// dictionary, if there is one.
///
/// # Errors
///
/// Those of `entries_of`.
pub fn reader_of<'a>(
    alloc: Global,
    tree: &Tree,
    column: usize,
    footer: &StripeFooter,
    located: &Located<'a>,
) -> Result<ColumnReader<'a>, StripeFault>
    requires there { column < length footer.now.columns }
    requires located { AreLocated (length footer.now.columns) footer.now.streams
        located.now.bytes.now located.now.slices.items }
    // If `column` has an encoding in `footer`, and `located` has the streams that `footer` names, then the returned
    // reader is at the start of the column's streams and has the entries of its dictionary, if its encoding has one.
    ensures found { IfOk result (OwnStart (shape tree.now) (columns_of footer.now located.now.bytes.now column)) }
    // If the call fails other than with `OutOfMemory`, then the column is one of texts whose encoding has a
    // dictionary, and its streams store none of that size.
    ensures none { IfErr result (λ fault. fault ≢ OutOfMemory
        → HasNoDictionary (shape tree.now) (columns_of footer.now located.now.bytes.now column)) }
    // The returned reader has the column's number.
    ensures column { IfOk result (λ own. own.source.column ≡ column) }
    // An error other than `OutOfMemory` is one of the dictionary: of LENGTH's runs, or `LengthSum` with
    // DICTIONARY_DATA.
    ensures fault { IfErr result (λ cause. cause ≢ OutOfMemory
        → DictionaryFails (shape tree.now) (columns_of footer.now located.now.bytes.now column) column cause) }
{
    let streams = streams_of(column, footer, located);
    let source = source_of(alloc, tree, column, &streams)?;
    Ok(ColumnReader::of(marks_of(streams.present), source))
}
