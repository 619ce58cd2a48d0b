//! Texts of a dictionary: its entries, and their indexes in DATA.

ghost use Rattle.std.specs.Prelude.{◌≡◌, ◌≢◌, ◌∷◌, ◌⊎◌, [], ℕ, suc, Bool, true, false, List, length, map, IfOk, IfErr, OnOk, OnErr};
ghost use Rattle.orc_values.specs.Cells.{Cell};
ghost use Rattle.orc_values.specs.Own.{own_cell, IsValueOf};
ghost use Rattle.orc_values.specs.declared.kind.Scalar.TheVariants as kinds;
ghost use Rattle.orc_column_reader.specs.Fronts.{Leaves, Lacks};
ghost use Rattle.orc_column_reader.specs.Numbers.{AreNumbers, NumbersLeft};
ghost use Rattle.orc_column_reader.specs.Spellings.{Standing, Sized};
ghost use Rattle.orc_column_reader.specs.Columns.{IsEntry, entry_bytes};
ghost use Rattle.orc_column_reader.specs.ValueFaults.{is_index, names_text};
ghost use Rattle.orc_column_reader.specs.Faults.{StringsFail};
ghost use Rattle.orc_column_reader.specs.ReaderFaults.{IndexesMeet};
ghost use Rattle.orc_column_reader.specs.Stripe.{Is};
ghost use Rattle.orc_directory.specs.declared.fault.StripeFault.TheVariants as fault;
ghost use Rattle.orc_directory.specs.declared.fault.StreamKind.TheVariants as stream;
ghost use Rattle.orc_rle.specs.declared.sign.Sign.TheVariants.{Unsigned};
ghost use Rattle.orc_directory.specs.declared.fault.StripeFault.{StripeFault as Fault};

use crate::byte_strings::{next_string, strings_end, strings_left};
use crate::entry::Entry;
use crate::numbers::{Numbers, numbers_of};
use crate::octets::Octets;
use crate::whole_numbers::next_number;
use orc_directory::{StreamKind, StripeFault};
use orc_rle::{Rle, Sign};
use orc_values::Own;
use std::alloc::Global;

/// Reads the entries of a dictionary (ORC specification, "Column Encodings").
///
/// # Errors
///
/// - `Run` with LENGTH, if its runs are invalid or don't have `size` values.
/// - `LengthSum`, if the lengths don't add up to the number of bytes.
/// - `OutOfMemory`.
pub fn entries_of<'a>(
    alloc: Global,
    column: usize,
    version: Rle,
    lengths: &'a [u8],
    bytes: &'a [u8],
    size: u32,
) -> Result<Vec<Entry<'a>>, StripeFault>
    // If the call succeeds, then it returns `size` entries; `lengths` are runs of exactly their lengths, and `bytes`
    // are exactly their bytes, one entry after the other.
    ensures found { IfOk result (λ entries. (length entries.items ≡ size)
        × Sized (AreNumbers version Unsigned lengths.now) (Is bytes.now) (map entry_bytes entries.items)) }
    // If the call fails other than with `OutOfMemory`, then `lengths` and `bytes` are not the lengths and the bytes
    // of any `size` entries.
    ensures none { IfErr result (λ cause. cause ≢ fault.OutOfMemory → (entries : List (List ℕ)) → length entries ≡ size
        → Sized (AreNumbers version Unsigned lengths.now) (Is bytes.now) entries → ⊥) }
    // If the call fails other than with `OutOfMemory`, then the error is one of LENGTH's runs, or it is `LengthSum`
    // with DICTIONARY_DATA, and the lengths that come first add up to more than the number of bytes, or all lengths
    // to less.
    ensures fault { IfErr result (λ cause. cause ≢ fault.OutOfMemory
        → StringsFail stream.DictionaryData (record { version = version; sign = Unsigned; bytes = lengths.now })
        true size bytes.now column cause) }
{
    let mut numbers = numbers_of(version, Sign::Unsigned, lengths);
    let mut octets = Octets::of(bytes);
    let mut entries = Vec::new(alloc);
    for taken in 0..size {
        let text = next_string(
            column,
            StreamKind::DictionaryData,
            &mut numbers,
            &mut octets,
        )?;
        entries.push(Entry::of(text))?;
    }
    if !strings_end(&numbers, &octets) {
        return Err(strings_left(column, StreamKind::DictionaryData, &numbers, &octets));
    }
    Ok(entries)
}

/// Returns the text at an index of a dictionary.
fn entry_value<'a>(
    column: usize,
    entries: &[Entry<'a>],
    number: i64,
) -> Result<Own<'a>, StripeFault>
    ensures found { IfOk result (λ v. IsEntry (map entry_bytes entries.now) number (own_cell v)) }
    ensures kind { IfOk result (λ v. IsValueOf kinds.String (own_cell v)) }
    ensures none { OnErr result ((c : Cell) → IsEntry (map entry_bytes entries.now) number c → ⊥) }
    ensures fault { IfErr result (λ cause.
        ((cause ≡ fault.BadIndex column) × (is_index (length entries.now) number ≡ false))
        ⊎ ((cause ≡ fault.NotUtf8 column stream.DictionaryData)
        × (names_text (map entry_bytes entries.now) number ≡ false))) }
{
    let Ok(index) = usize::try_from(number) else {
        return Err(StripeFault::BadIndex(column));
    };
    let Some(entry) = entries.get(index) else {
        return Err(StripeFault::BadIndex(column));
    };
    match entry.text {
        Some(text) => Ok(Own::Text(text)),
        None => Err(StripeFault::NotUtf8(column, StreamKind::DictionaryData)),
    }
}

/// Returns the next text of a column with a dictionary.
pub(crate) fn next_entry<'a>(
    column: usize,
    entries: &[Entry<'a>],
    numbers: &mut Numbers<'a>,
) -> Result<Own<'a>, StripeFault>
    ensures found { IfOk result
        (λ v. Leaves (Standing (IsEntry (map entry_bytes entries.now)) (NumbersLeft numbers.old))
        (Standing (IsEntry (map entry_bytes entries.now)) (NumbersLeft numbers.new)) (own_cell v ∷ [])) }
    ensures kind { IfOk result (λ v. IsValueOf kinds.String (own_cell v)) }
    ensures none { OnErr result (Lacks (Standing (IsEntry (map entry_bytes entries.now)) (NumbersLeft numbers.old)) 1) }
    ensures before { OnOk result ((all : Bool) (n : ℕ) (f : Fault)
        → IndexesMeet (map entry_bytes entries.now) numbers.new all n column f
        → IndexesMeet (map entry_bytes entries.now) numbers.old all (suc n) column f) }
    ensures fault { IfErr result (λ cause. cause ≢ fault.OutOfMemory
        → (n : ℕ) → IndexesMeet (map entry_bytes entries.now) numbers.old false (suc n) column cause) }
{
    let number = next_number(column, StreamKind::Data, numbers)?;
    entry_value(column, entries, number)
}
