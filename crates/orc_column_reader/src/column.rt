//! What is left of a column's streams: the next mark, value or size of a list or map, and whether values are left
//! over.

ghost use Rattle.std.specs.Prelude.{◌≡◌, ◌≢◌, ◌≤◌, ◌-◌, ◌∷◌, [], ℕ, suc, Bool, true, false, List, pos, IfOk, IfErr, OnOk, OnErr, MatchBool};
ghost use Rattle.orc_values.specs.Shapes.{Shape};
ghost use Rattle.orc_values.specs.Own.{own_cell, IsValueOf};
ghost use Rattle.orc_values.specs.declared.kind.Scalar.TheVariants as kinds;
ghost use Rattle.orc_column_reader.specs.Fronts.{Leaves, Precedes, Lacks};
ghost use Rattle.orc_column_reader.specs.Numbers.{NumbersLeft, NumbersFirst};
ghost use Rattle.orc_column_reader.specs.Bits.{BitsLeft};
ghost use Rattle.orc_column_reader.specs.Spellings.{Standing};
ghost use Rattle.orc_column_reader.specs.Columns.{MarksLeft, MarksFirst, ScalarLeft, ListsLeft, MapsLeft, IsBool};
ghost use Rattle.orc_column_reader.specs.RunsMet.{NumbersMeet, BitsMeet, MarksMeet};
ghost use Rattle.orc_column_reader.specs.Faults.{RunsFail};
ghost use Rattle.orc_column_reader.specs.RunFaults.{Always};
ghost use Rattle.orc_column_reader.specs.ReaderFaults.{PresentMeets, ScalarMeets, ListsMeet};
ghost use Rattle.orc_directory.specs.declared.fault.StripeFault.TheVariants as fault;
ghost use Rattle.orc_directory.specs.declared.fault.StreamKind.TheVariants as stream;
ghost use Rattle.orc_column_reader.specs.declared.column.ColumnReader.{ColumnReader as Reader};
ghost use Rattle.orc_rle.specs.declared.fault.RunFault.{RunFault as RunsFault};
ghost use Rattle.orc_directory.specs.declared.fault.StripeFault.{StripeFault as Fault};

use crate::bits::{Bits, bits_end, bits_left};
use crate::byte_strings::{next_binary, next_text, strings_end, strings_left};
use crate::bytes::{RunLengthBytes, bytes_end, bytes_left};
use crate::dictionary::next_entry;
pub use crate::entry::Entry;
use crate::marks::next_mark;
use crate::numbers::{Numbers, numbers_end, numbers_left};
use crate::octets::Octets;
use crate::whole_numbers::{next_byte, next_date, next_int, next_long, next_number};
use orc_directory::{StreamKind, StripeFault, run_fault};
use orc_values::{Own, Scalar};

/// What is left of the streams of a column besides PRESENT. Each kind of column uses some of them.
#[derive(Drop)]
pub struct ValueSource<'a> {
    pub column: usize,
    /// DATA of whole numbers and of indexes, or LENGTH of texts, byte strings, lists and maps.
    pub numbers: Numbers<'a>,
    /// DATA of whole numbers with 8 bits.
    pub bytes: RunLengthBytes<'a>,
    /// DATA of booleans.
    pub bits: Bits<'a>,
    /// DATA of texts and byte strings.
    pub octets: Octets<'a>,
    /// The dictionary, if the column has one.
    pub entries: Option<Vec<Entry<'a>>>,
    /// How many more elements the lists of the column may have, or how many more pairs its maps.
    pub room: u64,
}

/// What is left of the streams of a column.
#[derive(Drop)]
pub struct ColumnReader<'a> {
    pub present: Option<Bits<'a>>,
    pub source: ValueSource<'a>,
}

impl<'a> ColumnReader<'a> {
    /// Returns the reader of a column from its PRESENT, if it has one, and its other streams.
    #[inline(always)]
    pub fn of(present: Option<Bits<'a>>, source: ValueSource<'a>) -> ColumnReader<'a>
        // The returned reader has the given parts.
        ensures { result ≡ record { present = present.entry; source = source.entry } }
    {
        ColumnReader { present, source }
    }
}

/// Returns whether the column's next cell is not null.
///
/// # Errors
///
/// `Run` with PRESENT, if no mark is left or the next run is invalid.
pub fn next_present(reader: &mut ColumnReader<'_>) -> Result<bool, StripeFault>
    // If the call succeeds, then it returns whether the column's next cell is not null, and the marks that were left
    // before it are the returned one, followed by those left after it.
    ensures found { IfOk result
        (λ mark. Leaves (MarksLeft reader.old.present) (MarksLeft reader.new.present) (mark ∷ [])) }
    // If the call succeeds, then the column's other streams stay as they are.
    ensures source { OnOk result (reader.new.source ≡ reader.old.source) }
    // If the call succeeds, and marks come first in what is left after it, whatever follows them, then these came
    // first before it with the returned one in front.
    ensures first { IfOk result
        (λ mark. Precedes (MarksFirst reader.old.present) (MarksFirst reader.new.present) (mark ∷ [])) }
    // If the call fails, then PRESENT has no further mark.
    ensures none { OnErr result (Lacks (MarksLeft reader.old.present) 1) }
    // If the call succeeds, then each error that the reader meets after it with n marks to give is one that it met
    // before with n + 1.
    ensures before { OnOk result ((n : ℕ) (f : RunsFault)
        → MarksMeet reader.new.present n f
        → MarksMeet reader.old.present (suc n) f) }
    // If the call fails other than with `OutOfMemory`, then the error is one of PRESENT's runs that the reader meets
    // from its place before the call, whatever number of marks above 0 it has to give.
    ensures fault { IfErr result (λ cause. cause ≢ fault.OutOfMemory
        → (n : ℕ) → PresentMeets reader.old false (suc n) cause) }
{
    next_mark(reader.source.column, &mut reader.present)
}

/// Returns the next value of a column of booleans.
fn next_bool<'a>(column: usize, bits: &mut Bits<'a>) -> Result<Own<'a>, StripeFault>
    ensures found { IfOk result (λ v. Leaves (Standing IsBool (BitsLeft bits.old))
        (Standing IsBool (BitsLeft bits.new)) (own_cell v ∷ [])) }
    ensures kind { IfOk result (λ v. IsValueOf kinds.Boolean (own_cell v)) }
    ensures none { OnErr result (Lacks (Standing IsBool (BitsLeft bits.old)) 1) }
    ensures before { OnOk result ((all : Bool) (n : ℕ) (f : Fault)
        → RunsFail stream.Data column (Always all n (BitsMeet bits.new)) f
        → RunsFail stream.Data column (Always all (suc n) (BitsMeet bits.old)) f) }
    ensures fault { IfErr result (λ cause. cause ≢ fault.OutOfMemory
        → (n : ℕ) → RunsFail stream.Data column (Always false (suc n) (BitsMeet bits.old)) cause) }
{
    match bits.next() {
        Ok(bit) => Ok(Own::Bool(bit)),
        Err(fault) => Err(run_fault(column, StreamKind::Data, fault)),
    }
}

impl<'a> ValueSource<'a> {
    /// Returns the next value of a column whose kind contains no other type. It takes no memory.
    ///
    /// # Errors
    ///
    /// - `Run`, if no value is left or the next run is invalid.
    /// - `OutOfRange`, if a number is not in the range of the kind.
    /// - `LengthSum`, if fewer bytes are left than the length of a text or byte string says.
    /// - `NotUtf8`, if a text is not UTF-8.
    /// - `BadIndex`, if an index is not below the size of the dictionary.
    #[inline(always)]
    pub fn next_scalar(&mut self, kind: Scalar) -> Result<Own<'a>, StripeFault>
        // If the call succeeds, then the values of a column of `kind` that were left before it are the returned one,
        // followed by those left after it.
        ensures found { IfOk result
            (λ v. Leaves (ScalarLeft kind self.old) (ScalarLeft kind self.new) (own_cell v ∷ [])) }
        // If the call succeeds, then the returned value is one of `kind`.
        ensures kind { IfOk result (λ v. IsValueOf kind (own_cell v)) }
        // If the call fails, then the streams have no further value of `kind`.
        ensures none { OnErr result (Lacks (ScalarLeft kind self.old) 1) }
        // The column's number stays as it is.
        ensures column { self.new.column ≡ self.old.column }
        // If the call succeeds, then each error that the reader meets after it with n values to give is one that it
        // met before with n + 1.
        ensures before { OnOk result ((all : Bool) (n : ℕ) (f : Fault)
            → ScalarMeets kind self.new all n f
            → ScalarMeets kind self.old all (suc n) f) }
        // If the call fails other than with `OutOfMemory`, then the error is one that the reader meets from its place
        // before the call, whatever number of values above 0 it has to give.
        ensures fault { IfErr result (λ cause. cause ≢ fault.OutOfMemory
            → (n : ℕ) → ScalarMeets kind self.old false (suc n) cause) }
    {
        match kind {
            Scalar::Boolean => next_bool(self.column, &mut self.bits),
            Scalar::Byte => next_byte(self.column, &mut self.bytes),
            Scalar::Short => next_int(self.column, Scalar::Short, &mut self.numbers),
            Scalar::Int => next_int(self.column, Scalar::Int, &mut self.numbers),
            Scalar::Long => next_long(self.column, &mut self.numbers),
            Scalar::Date => next_date(self.column, &mut self.numbers),
            Scalar::Binary => next_binary(self.column, &mut self.numbers, &mut self.octets),
            Scalar::String => match &self.entries {
                None => next_text(self.column, &mut self.numbers, &mut self.octets),
                Some(entries) => next_entry(self.column, entries, &mut self.numbers),
            },
        }
    }
}

/// Returns the size of the next list or map, if there is room for it (ORC specification, "Column Encodings").
///
/// # Errors
///
/// - `Run` with LENGTH, if no size is left or the next run is invalid.
/// - `TooMany`, if there is no room for that many elements or pairs.
#[inline(always)]
pub fn next_size(source: &mut ValueSource<'_>) -> Result<u64, StripeFault>
    // If the call succeeds, then the numbers that LENGTH had left before it are the returned one, followed by those
    // left after it.
    ensures found { IfOk result
        (λ size. Leaves (NumbersLeft source.old.numbers) (NumbersLeft source.new.numbers) (pos size ∷ [])) }
    // If the call succeeds, and numbers come first in what LENGTH has left after it, whatever follows them, then
    // these came first before it with the returned one in front.
    ensures first { IfOk result
        (λ size. Precedes (NumbersFirst source.old.numbers) (NumbersFirst source.new.numbers) (pos size ∷ [])) }
    // If the call succeeds, then there was room for at least as many elements or pairs as the returned size, and the
    // room has become smaller by that number.
    ensures room { IfOk result (λ size. (size ≤ source.old.room) × (source.new.room ≡ source.old.room - size)) }
    // If the call fails, then there is no further list, whatever the columns below have.
    ensures none { OnErr result ((s : Shape) (below : List Reader) → Lacks (ListsLeft s source.old below) 1) }
    // If the call fails, then there is no further map, whatever the columns below have.
    ensures no_map { OnErr result ((k v : Shape) (below : List Reader) → Lacks (MapsLeft k v source.old below) 1) }
    // The column's number stays as it is.
    ensures column { source.new.column ≡ source.old.column }
    // If the call succeeds, then each error that the reader meets after it with n sizes to give is one that it met
    // before with n + 1.
    ensures before { OnOk result ((all : Bool) (n : ℕ) (f : Fault)
        → ListsMeet source.new all n f
        → ListsMeet source.old all (suc n) f) }
    // If the call fails other than with `OutOfMemory`, then the error is one, of LENGTH's runs or `TooMany` for sizes
    // without room, that the reader meets from its place before the call, whatever number of sizes above 0 it has to
    // give.
    ensures fault { IfErr result (λ cause. cause ≢ fault.OutOfMemory
        → (n : ℕ) → ListsMeet source.old false (suc n) cause) }
{
    let number = next_number(source.column, StreamKind::Length, &mut source.numbers)?;
    let Ok(size) = u64::try_from(number) else {
        return Err(StripeFault::TooMany(source.column));
    };
    if size > source.room {
        return Err(StripeFault::TooMany(source.column));
    }
    source.room -= size;
    Ok(size)
}

/// Returns whether no value is left of a column whose kind contains no other type.
pub fn scalar_end(source: &ValueSource<'_>, kind: Scalar) -> bool
    // The call returns true if and only if no value of a column of `kind` is left.
    ensures { MatchBool result (ScalarLeft kind source.now []) (ScalarLeft kind source.now [] → ⊥) }
{
    match kind {
        Scalar::Boolean => bits_end(&source.bits),
        Scalar::Byte => bytes_end(&source.bytes),
        Scalar::Short => numbers_end(&source.numbers),
        Scalar::Int => numbers_end(&source.numbers),
        Scalar::Long => numbers_end(&source.numbers),
        Scalar::Date => numbers_end(&source.numbers),
        Scalar::Binary => strings_end(&source.numbers, &source.octets),
        Scalar::String => match &source.entries {
            None => strings_end(&source.numbers, &source.octets),
            Some(_) => numbers_end(&source.numbers),
        },
    }
}

/// Returns the error of numbers that are left over in DATA.
fn data_left(source: &ValueSource<'_>) -> StripeFault
    requires more { NumbersLeft source.now.numbers [] → ⊥ }
    ensures { RunsFail stream.Data source.now.column (Always true 0 (NumbersMeet source.now.numbers)) result }
{
    run_fault(
        source.column,
        StreamKind::Data,
        numbers_left(&source.numbers),
    )
}

/// Returns the error of values that are left over, of a column whose kind contains no other type.
pub fn scalar_left(source: &ValueSource<'_>, kind: Scalar) -> StripeFault
    requires more { ScalarLeft kind source.now [] → ⊥ }
    // If something is left of the values of a column of `kind`, then the returned error is one that a reader meets
    // which must have given all values.
    ensures { ScalarMeets kind source.now true 0 result }
{
    match kind {
        Scalar::Boolean => run_fault(source.column, StreamKind::Data, bits_left(&source.bits)),
        Scalar::Byte => run_fault(source.column, StreamKind::Data, bytes_left(&source.bytes)),
        Scalar::Short => data_left(source),
        Scalar::Int => data_left(source),
        Scalar::Long => data_left(source),
        Scalar::Date => data_left(source),
        Scalar::Binary => strings_left(
            source.column,
            StreamKind::Data,
            &source.numbers,
            &source.octets,
        ),
        Scalar::String => match &source.entries {
            None => strings_left(
                source.column,
                StreamKind::Data,
                &source.numbers,
                &source.octets,
            ),
            Some(_) => data_left(source),
        },
    }
}
