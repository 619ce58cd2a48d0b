//! What a column's values are read from, made from its streams.

ghost use Rattle.std.specs.Prelude.{◌≡◌, []};
ghost use Rattle.orc_rle.specs.declared.sign.Rle.TheVariants.{One};
ghost use Rattle.orc_rle.specs.declared.sign.Sign.TheVariants.{Signed};
ghost use Rattle.orc_column_reader.specs.Starting.{NumbersStart, BytesStart, BitsStart};
ghost use Rattle.orc_values.specs.Limits.{most_cells};

use crate::bits::{Bits, bits_of};
use crate::bytes::{RunLengthBytes, bytes_of};
use crate::column::ValueSource;
use crate::entry::Entry;
use crate::numbers::{Numbers, numbers_of};
use crate::octets::Octets;
use orc_rle::{Rle, Sign};
use orc_values::MOST_CELLS;

/// Returns an empty stream of integers, for columns without one.
fn no_numbers() -> Numbers<'static>
    ensures { NumbersStart One Signed [] result }
{
    numbers_of(Rle::One, Sign::Signed, &[])
}

/// Returns an empty stream of bytes in runs.
fn no_bytes() -> RunLengthBytes<'static>
    ensures { BytesStart [] result }
{
    bytes_of(&[])
}

/// Returns an empty stream of booleans.
fn no_bits() -> Bits<'static>
    ensures { BitsStart [] result }
{
    bits_of(&[])
}

impl<'a> ValueSource<'a> {
    /// Returns the source of a column from all of its streams, of which nothing was read.
    #[inline(always)]
    pub(crate) fn of_streams(
        column: usize,
        numbers: Numbers<'a>,
        bytes: RunLengthBytes<'a>,
        bits: Bits<'a>,
        octets: &'a [u8],
        entries: Option<Vec<Entry<'a>>>,
    ) -> ValueSource<'a>
        ensures { result ≡ record {
          column = column;
          numbers = numbers.entry;
          bytes = bytes.entry;
          bits = bits.entry;
          octets = record { rest = octets.entry };
          entries = entries.entry;
          room = most_cells;
        } }
    {
        ValueSource {
            column,
            numbers,
            bytes,
            bits,
            octets: Octets::of(octets),
            entries,
            room: MOST_CELLS,
        }
    }

    /// Returns the source of a column without runs.
    #[inline(always)]
    pub fn without_runs(
        column: usize,
        octets: &'a [u8],
        entries: Option<Vec<Entry<'a>>>,
    ) -> ValueSource<'a>
        // The returned source has the given bytes, entries and number of the column, and room for the most cells that
        // a column may have.
        ensures octets { result.octets.rest.now ≡ octets.now }
        ensures entries { result.entries ≡ entries.entry }
        ensures column { result.column ≡ column }
        ensures room { result.room ≡ most_cells }
        // The returned source has only empty streams of runs.
        ensures numbers { NumbersStart One Signed [] result.numbers }
        ensures bytes { BytesStart [] result.bytes }
        ensures bits { BitsStart [] result.bits }
    {
        ValueSource::of_streams(column, no_numbers(), no_bytes(), no_bits(), octets, entries)
    }

    /// Returns the source of a column whose stream of runs has booleans.
    #[inline(always)]
    pub fn of_bits(
        column: usize,
        bits: Bits<'a>,
        octets: &'a [u8],
        entries: Option<Vec<Entry<'a>>>,
    ) -> ValueSource<'a>
        // The returned source has the given booleans.
        ensures bits { result.bits ≡ bits.entry }
        // The returned source has the given plain bytes, entries and number of the column, and room for the most
        // cells that a column may have.
        ensures octets { result.octets.rest.now ≡ octets.now }
        ensures entries { result.entries ≡ entries.entry }
        ensures column { result.column ≡ column }
        ensures room { result.room ≡ most_cells }
        // The returned source has empty streams of integers and of bytes in runs.
        ensures numbers { NumbersStart One Signed [] result.numbers }
        ensures bytes { BytesStart [] result.bytes }
    {
        ValueSource::of_streams(column, no_numbers(), no_bytes(), bits, octets, entries)
    }

    /// Returns the source of a column whose stream of runs has bytes.
    #[inline(always)]
    pub fn of_bytes(
        column: usize,
        bytes: RunLengthBytes<'a>,
        octets: &'a [u8],
        entries: Option<Vec<Entry<'a>>>,
    ) -> ValueSource<'a>
        // The returned source has the given bytes in runs.
        ensures bytes { result.bytes ≡ bytes.entry }
        // The returned source has the given plain bytes, entries and number of the column, and room for the most
        // cells that a column may have.
        ensures octets { result.octets.rest.now ≡ octets.now }
        ensures entries { result.entries ≡ entries.entry }
        ensures column { result.column ≡ column }
        ensures room { result.room ≡ most_cells }
        // The returned source has empty streams of integers and of booleans.
        ensures numbers { NumbersStart One Signed [] result.numbers }
        ensures bits { BitsStart [] result.bits }
    {
        ValueSource::of_streams(column, no_numbers(), bytes, no_bits(), octets, entries)
    }

    /// Returns the source of a column whose stream of runs has integers.
    #[inline(always)]
    pub fn of_numbers(
        column: usize,
        numbers: Numbers<'a>,
        octets: &'a [u8],
        entries: Option<Vec<Entry<'a>>>,
    ) -> ValueSource<'a>
        // The returned source has the given integers.
        ensures numbers { result.numbers ≡ numbers.entry }
        // The returned source has the given plain bytes, entries and number of the column, and room for the most
        // cells that a column may have.
        ensures octets { result.octets.rest.now ≡ octets.now }
        ensures entries { result.entries ≡ entries.entry }
        ensures column { result.column ≡ column }
        ensures room { result.room ≡ most_cells }
        // The returned source has empty streams of bytes in runs and of booleans.
        ensures bytes { BytesStart [] result.bytes }
        ensures bits { BitsStart [] result.bits }
    {
        ValueSource::of_streams(column, numbers, no_bytes(), no_bits(), octets, entries)
    }
}
