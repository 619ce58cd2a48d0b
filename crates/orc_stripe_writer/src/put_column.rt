//! Writes the streams of one column.
ghost use Rattle.std.specs.Prelude.{◌≡◌, map, IfOk, OnOk, ℕ, List};
ghost use Rattle.orc_rle.specs.declared.sign.Sign.TheVariants.{Unsigned};
ghost use Rattle.orc_rle.specs.Values.{AllInRange};
ghost use Rattle.orc_values.specs.Cells.{Cell, is_value, values};
ghost use Rattle.orc_values.specs.Shapes.{scalar};
ghost use Rattle.orc_values.specs.Views.{shape};
ghost use Rattle.orc_values.specs.Fits.{RowsFit};
ghost use Rattle.orc_row_groups.specs.OwnCells.{own_cells, AreOwn};
ghost use Rattle.orc_stripe_writer.specs.CellValues.{bools_in, number_bytes_in, ints_in, sizes_in};
ghost use Rattle.orc_stripe_writer.specs.Dictionary.{byte_strings, AreNamed};
ghost use Rattle.orc_stripe_writer.specs.WrittenStreams.{AreWrittenMarks};
ghost use Rattle.orc_stripe_writer.specs.WrittenColumn as spec;
ghost use Rattle.orc_stripe_writer.specs.WrittenColumn.{WritesBooleans, HasBytes, HasNumbers, HasStrings, HasDictionary, HasTexts, HasSizes, WritesValues};
ghost use Rattle.orc_stripe_writer.specs.Adding.{AddsStream, AddsValues, AddsColumn};
ghost use Rattle.orc_wire.specs.StreamKinds.{PRESENT};
ghost use Rattle.orc_column_reader.specs.Stripe.{plain as plain_encoding};

use crate::body::Body;
use crate::byte_string::ByteString;
use crate::cell_values::{
    are_all_values, bools_of, byte_string_lengths, byte_strings_of, ints_of, marks_in,
    number_bytes_of, sizes_of,
};
use crate::dictionary::{Dictionary, dictionary_of, entries_of};
use orc_rle::{Rle, Sign};
use orc_values::{Own, Scalar, Tree};
use orc_wire::{
    DATA, DICTIONARY, DICTIONARY_DATA, DICTIONARY_V2, DIRECT, DIRECT_V2, Encoding, LENGTH, PRESENT,
};
use std::alloc::{AllocError, Global};

/// Returns the encoding DIRECT or DIRECT_V2.
fn direct(rle: Rle) -> Encoding
    ensures { result ≡ spec.direct rle }
{
    match rle {
        Rle::One => Encoding {
            kind: DIRECT,
            dictionary_size: 0,
        },
        Rle::Two => Encoding {
            kind: DIRECT_V2,
            dictionary_size: 0,
        },
    }
}

/// Returns the encoding DICTIONARY or DICTIONARY_V2.
fn dictionary(rle: Rle, entries: u32) -> Encoding
    ensures { result ≡ spec.dictionary rle entries }
{
    match rle {
        Rle::One => Encoding {
            kind: DICTIONARY,
            dictionary_size: entries,
        },
        Rle::Two => Encoding {
            kind: DICTIONARY_V2,
            dictionary_size: entries,
        },
    }
}

/// Returns the encoding DIRECT, which a column without integers has in either version.
fn plain() -> Encoding
    ensures { result ≡ plain_encoding }
{
    Encoding {
        kind: DIRECT,
        dictionary_size: 0,
    }
}

/// Adds PRESENT, if a cell is null.
fn put_marks(
    alloc: Global,
    column: u32,
    owns: &[Own<'_>],
    body: &mut Body,
) -> Result<(), AllocError>
    ensures { OnOk result
        (AddsStream (AreWrittenMarks (map is_value (own_cells owns.now))) column PRESENT body.old body.new) }
{
    if are_all_values(owns) {
        return Ok(());
    }
    let marks = marks_in(alloc, owns)?;
    body.put_bits(column, PRESENT, &marks)
}

/// Adds DATA with booleans.
fn put_bools(
    alloc: Global,
    column: u32,
    owns: &[Own<'_>],
    body: &mut Body,
) -> Result<Encoding, AllocError>
    ensures { IfOk result (AddsValues (λ w. WritesBooleans w (bools_in (own_cells owns.now))) column body.old body.new) }
{
    let bools = bools_of(alloc, owns)?;
    body.put_bits(column, DATA, &bools)?;
    Ok(plain())
}

/// Adds DATA with numbers of 8 bits.
fn put_bytes(
    alloc: Global,
    column: u32,
    owns: &[Own<'_>],
    body: &mut Body,
) -> Result<Encoding, AllocError>
    ensures { IfOk result
        (AddsValues (λ w. HasBytes w (number_bytes_in (own_cells owns.now))) column body.old body.new) }
{
    let bytes = number_bytes_of(alloc, owns)?;
    body.put_bytes(column, DATA, &bytes)?;
    Ok(plain())
}

/// Adds DATA with numbers of more bits, or with dates.
fn put_numbers(
    alloc: Global,
    rle: Rle,
    column: u32,
    owns: &[Own<'_>],
    body: &mut Body,
) -> Result<Encoding, AllocError>
    ensures { IfOk result
        (AddsValues (λ w. HasNumbers rle w (ints_in (own_cells owns.now))) column body.old body.new) }
{
    let numbers = ints_of(alloc, owns)?;
    body.put_ints(rle, column, DATA, Sign::Signed, &numbers)?;
    Ok(direct(rle))
}

/// Adds DATA with the strings, and LENGTH with their lengths.
fn put_strings(
    alloc: Global,
    rle: Rle,
    column: u32,
    strings: &[ByteString<'_>],
    body: &mut Body,
) -> Result<Encoding, AllocError>
    ensures { IfOk result (AddsValues (λ w. HasStrings rle w (byte_strings strings.now)) column body.old body.new) }
{
    let lengths = byte_string_lengths(alloc, strings)?;
    body.put_byte_strings(column, DATA, strings)?;
    body.put_ints(rle, column, LENGTH, Sign::Unsigned, &lengths)?;
    Ok(direct(rle))
}

/// Adds DATA with the places of the texts in their dictionary, then LENGTH and DICTIONARY_DATA with the dictionary.
fn put_dictionary(
    alloc: Global,
    rle: Rle,
    column: u32,
    found: &Dictionary<'_>,
    body: &mut Body,
) -> Result<Encoding, AllocError>
    requires { AllInRange Unsigned found.now.places.items }
    ensures { IfOk result (λ encoding. (texts : List (List ℕ))
        → AreNamed (byte_strings found.now.entries.items) found.now.places.items texts
        → AddsValues (λ w. HasDictionary rle w (byte_strings found.now.entries.items) texts)
        column body.old body.new encoding) }
{
    let Ok(entries) = u32::try_from(found.entries.len()) else {
        return Err(AllocError);
    };
    let lengths = byte_string_lengths(alloc, &found.entries)?;
    body.put_ints(rle, column, DATA, Sign::Unsigned, &found.places)?;
    body.put_ints(rle, column, LENGTH, Sign::Unsigned, &lengths)?;
    body.put_byte_strings(column, DICTIONARY_DATA, &found.entries)?;
    Ok(dictionary(rle, entries))
}

/// Adds texts, with a dictionary if there are at least twice as many texts as distinct ones.
fn put_texts(
    alloc: Global,
    rle: Rle,
    column: u32,
    strings: &[ByteString<'_>],
    body: &mut Body,
) -> Result<Encoding, AllocError>
    ensures { IfOk result (AddsValues (λ w. HasTexts rle w (byte_strings strings.now)) column body.old body.new) }
{
    match entries_of(alloc, strings)? {
        Some(entries) => {
            let found = dictionary_of(alloc, entries, strings)?;
            put_dictionary(alloc, rle, column, &found, body)
        }
        None => put_strings(alloc, rle, column, strings, body),
    }
}

/// Adds LENGTH with the sizes of lists or maps.
fn put_sizes(
    alloc: Global,
    rle: Rle,
    column: u32,
    owns: &[Own<'_>],
    body: &mut Body,
) -> Result<Encoding, AllocError>
    ensures { IfOk result
        (AddsValues (λ w. HasSizes rle w (sizes_in (own_cells owns.now))) column body.old body.new) }
{
    let sizes = sizes_of(alloc, owns)?;
    body.put_ints(rle, column, LENGTH, Sign::Unsigned, &sizes)?;
    Ok(direct(rle))
}

/// Adds the streams of the values of a column that has no children.
fn put_scalars(
    alloc: Global,
    rle: Rle,
    kind: Scalar,
    column: u32,
    owns: &[Own<'_>],
    body: &mut Body,
) -> Result<Encoding, AllocError>
    ensures { (o : List ℕ) (cells : List Cell) → AreOwn owns.now cells → RowsFit (scalar kind o) cells
        → IfOk result (AddsValues (λ w. WritesValues rle w (scalar kind o) (values cells))
        column body.old body.new) }
{
    match kind {
        Scalar::Boolean => put_bools(alloc, column, owns, body),
        Scalar::Byte => put_bytes(alloc, column, owns, body),
        Scalar::Short => put_numbers(alloc, rle, column, owns, body),
        Scalar::Int => put_numbers(alloc, rle, column, owns, body),
        Scalar::Long => put_numbers(alloc, rle, column, owns, body),
        Scalar::Date => put_numbers(alloc, rle, column, owns, body),
        Scalar::String => {
            let strings = byte_strings_of(alloc, owns)?;
            put_texts(alloc, rle, column, &strings, body)
        }
        Scalar::Binary => {
            let strings = byte_strings_of(alloc, owns)?;
            put_strings(alloc, rle, column, &strings, body)
        }
    }
}

/// Adds the streams of a column's values.
fn put_values(
    alloc: Global,
    rle: Rle,
    tree: &Tree,
    column: u32,
    owns: &[Own<'_>],
    body: &mut Body,
) -> Result<Encoding, AllocError>
    ensures { (cells : List Cell) → AreOwn owns.now cells → RowsFit (shape tree.now) cells
        → IfOk result (AddsValues (λ w. WritesValues rle w (shape tree.now) (values cells))
        column body.old body.new) }
{
    match tree {
        Tree::Scalar(kind, _) => put_scalars(alloc, rle, *kind, column, owns, body),
        Tree::List(_, _) => put_sizes(alloc, rle, column, owns, body),
        Tree::Map(_, _, _) => put_sizes(alloc, rle, column, owns, body),
        Tree::Struct(_, _) => Ok(plain()),
    }
}

/// Adds the streams of a column: PRESENT if a cell is null, then the streams of its values. Returns the column's
/// encoding.
pub(crate) fn put_cells(
    alloc: Global,
    rle: Rle,
    tree: &Tree,
    column: u32,
    owns: &[Own<'_>],
    body: &mut Body,
) -> Result<Encoding, AllocError>
    ensures { (cells : List Cell) → AreOwn owns.now cells → RowsFit (shape tree.now) cells
        → IfOk result (AddsColumn rle (shape tree.now) cells column body.old body.new) }
{
    put_marks(alloc, column, owns, body)?;
    put_values(alloc, rle, tree, column, owns, body)
}
