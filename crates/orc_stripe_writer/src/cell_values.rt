//! The values of one kind among the cells of a column.
ghost use Rattle.std.specs.Prelude.{◌≡◌, ◌++◌, pos, map, length, IfOk, OnOk, option_map};
ghost use Rattle.std.specs.List.{list_all};
ghost use Rattle.orc_rle.specs.Values.{InRange, AllInRange};
ghost use Rattle.orc_rle.specs.declared.sign.Sign.TheVariants.{Signed, Unsigned};
ghost use Rattle.orc_values.specs.Cells.{is_value};
ghost use Rattle.orc_values.specs.Own.{own_cell};
ghost use Rattle.orc_column_reader.specs.Spellings.{size, concatenated};
ghost use Rattle.orc_stats.specs.Statistics as stats;
ghost use Rattle.orc_row_groups.specs.OwnCells.{own_cells};
ghost use Rattle.orc_stripe_writer.specs.CellValues as spec;
ghost use Rattle.orc_stripe_writer.specs.CellValues.{int_in, bytes_in, size_in, bools_in, ints_in, number_bytes_in, all_bytes_in, sizes_in};
ghost use Rattle.orc_stripe_writer.specs.Dictionary.{byte_strings};

use crate::byte_string::ByteString;
use orc_values::Own;
use std::alloc::{AllocError, Global};

/// Returns whether no cell is null.
pub(crate) fn are_all_values(owns: &[Own<'_>]) -> bool
    ensures { result ≡ list_all (λ m. m) (map is_value (own_cells owns.now)) }
{
    for own in owns {
        if own.is_null() {
            return false;
        }
    }
    true
}

/// Returns for each cell whether it isn't null.
pub(crate) fn marks_in(alloc: Global, owns: &[Own<'_>]) -> Result<Vec<bool>, AllocError>
    ensures { IfOk result (λ marks. marks.items ≡ map is_value (own_cells owns.now)) }
{
    let mut marks = Vec::with_capacity(alloc, owns.len())?;
    for own in owns {
        marks.push(!own.is_null())?;
    }
    Ok(marks)
}

/// Returns the truth value in a cell.
fn bool_of(own: Own<'_>) -> Option<bool>
    ensures { result ≡ stats.bool_of (own_cell own.entry) }
{
    match own {
        Own::Bool(bit) => Some(bit),
        _ => None,
    }
}

/// Returns the truth values among the cells.
pub(crate) fn bools_of(alloc: Global, owns: &[Own<'_>]) -> Result<Vec<bool>, AllocError>
    ensures { IfOk result (λ bools. bools.items ≡ bools_in (own_cells owns.now)) }
{
    let mut bools = Vec::with_capacity(alloc, owns.len())?;
    for own in owns {
        if let Some(bit) = bool_of(*own) {
            bools.push(bit)?;
        }
    }
    Ok(bools)
}

/// Returns the integer or the date's day in a cell.
fn int_of(own: Own<'_>) -> Option<i64>
    ensures { result ≡ int_in (own_cell own.entry) }
{
    match own {
        Own::Int(number) => Some(number),
        Own::Date(day) => Some(i64::from(day)),
        _ => None,
    }
}

/// Returns the integers, or the days of dates, among the cells.
pub(crate) fn ints_of(alloc: Global, owns: &[Own<'_>]) -> Result<Vec<i64>, AllocError>
    ensures ints { IfOk result (λ ints. ints.items ≡ ints_in (own_cells owns.now)) }
    ensures in_range { IfOk result (λ ints. AllInRange Signed ints.items) }
{
    let mut ints = Vec::with_capacity(alloc, owns.len())?;
    for own in owns {
        if let Some(number) = int_of(*own) {
            ints.push(number)?;
        }
    }
    Ok(ints)
}

/// Returns the byte that stores a signed number of 8 bits; 0 if the number doesn't fit.
fn byte_of(number: i64) -> u8
    ensures { result ≡ spec.byte_of number }
{
    let shifted = if number < 0 { number + 256 } else { number };
    u8::try_from(shifted).unwrap_or(0)
}

/// Returns the bytes that store the integers among the cells.
pub(crate) fn number_bytes_of(alloc: Global, owns: &[Own<'_>]) -> Result<Vec<u8>, AllocError>
    ensures { IfOk result (λ bytes. bytes.items ≡ number_bytes_in (own_cells owns.now)) }
{
    let mut bytes = Vec::with_capacity(alloc, owns.len())?;
    for own in owns {
        if let Some(number) = int_of(*own) {
            bytes.push(byte_of(number))?;
        }
    }
    Ok(bytes)
}

/// Returns the bytes of the text or of the byte string in a cell.
fn bytes_of<'r>(own: Own<'r>) -> Option<&'r [u8]>
    ensures { option_map (λ b. b.now) result ≡ bytes_in (own_cell own.entry) }
{
    match own {
        Own::Text(text) => Some(text.as_bytes()),
        Own::Bytes(bytes) => Some(bytes),
        _ => None,
    }
}

/// Returns the texts, or the byte strings, among the cells.
pub(crate) fn byte_strings_of<'r>(
    alloc: Global,
    owns: &[Own<'r>],
) -> Result<Vec<ByteString<'r>>, AllocError>
    ensures { IfOk result (λ strings. byte_strings strings.items ≡ all_bytes_in (own_cells owns.now)) }
{
    let mut strings = Vec::with_capacity(alloc, owns.len())?;
    for own in owns {
        if let Some(bytes) = bytes_of(*own) {
            strings.push(ByteString(bytes))?;
        }
    }
    Ok(strings)
}

/// Returns a length, or a place, as a number of a stream. None is above 2^63 - 1, so the call never fails.
pub(crate) fn number_of(length: usize) -> Result<i64, AllocError>
    ensures number { IfOk result (λ number. number ≡ pos length) }
    ensures in_range { IfOk result (λ number. InRange Unsigned number) }
{
    match i64::try_from(length) {
        Ok(number) => Ok(number),
        Err(_) => Err(AllocError),
    }
}

/// Returns the length of each string in bytes.
pub(crate) fn byte_string_lengths(
    alloc: Global,
    strings: &[ByteString<'_>],
) -> Result<Vec<i64>, AllocError>
    ensures lengths { IfOk result (λ found. found.items ≡ map size (byte_strings strings.now)) }
    ensures in_range { IfOk result (λ found. AllInRange Unsigned found.items) }
{
    let mut found = Vec::with_capacity(alloc, strings.len())?;
    for string in strings {
        found.push(number_of(string.0.len())?)?;
    }
    Ok(found)
}

/// Appends the strings, one after the other.
#[tactic(auto, using(crate::proofs::CellValuesLemmas::joined_is))]
pub(crate) fn append_byte_strings(
    strings: &[ByteString<'_>],
    out: &mut Vec<u8>,
) -> Result<(), AllocError>
    ensures { OnOk result (out.new.items ≡ out.old.items ++ concatenated (byte_strings strings.now)) }
{
    for string in strings {
        out.extend_from_slice(string.0)?;
    }
    Ok(())
}

/// Returns the number of elements of a list or of pairs of a map; `None` if the cell is null.
fn size_of(own: Own<'_>) -> Option<usize>
    ensures { result ≡ size_in (own_cell own.entry) }
{
    match own {
        Own::List(size) => Some(size as usize),
        Own::Map(size) => Some(size as usize),
        Own::Null => None,
        _ => Some(0),
    }
}

/// Returns the number of elements of each list, or of pairs of each map, that is not null.
pub(crate) fn sizes_of(alloc: Global, owns: &[Own<'_>]) -> Result<Vec<i64>, AllocError>
    ensures sizes { IfOk result (λ found. found.items ≡ sizes_in (own_cells owns.now)) }
    ensures in_range { IfOk result (λ found. AllInRange Unsigned found.items) }
{
    let mut found = Vec::with_capacity(alloc, owns.len())?;
    for own in owns {
        if let Some(size) = size_of(*own) {
            found.push(number_of(size)?)?;
        }
    }
    Ok(found)
}
