//! Texts and byte strings, one after the other, with their lengths in LENGTH.

ghost use Rattle.std.specs.Prelude.{◌≡◌, ◌≢◌, ◌++◌, ◌∷◌, [], ℕ, suc, Bool, true, false, length, pos, IfOk, IfErr, OnOk, OnErr, MatchBool};
ghost use Rattle.orc_values.specs.Own.{own_cell, IsValueOf};
ghost use Rattle.orc_values.specs.declared.kind.Scalar.TheVariants as kinds;
ghost use Rattle.orc_column_reader.specs.Fronts.{Leaves, Precedes, Lacks};
ghost use Rattle.orc_column_reader.specs.Numbers.{NumbersLeft, NumbersFirst};
ghost use Rattle.orc_column_reader.specs.Octets.{OctetsLeft};
ghost use Rattle.orc_column_reader.specs.Spellings.{Standing, Sized};
ghost use Rattle.orc_column_reader.specs.Columns.{IsText, IsBinary};
ghost use Rattle.orc_column_reader.specs.ReaderFaults.{StringsMeet, TextMeets};
ghost use Rattle.orc_directory.specs.declared.fault.StripeFault.TheVariants as fault;
ghost use Rattle.orc_directory.specs.declared.fault.StreamKind.TheVariants as stream;
ghost use Rattle.orc_directory.specs.declared.fault.StripeFault.{StripeFault as Fault};

use crate::numbers::{Numbers, numbers_end, numbers_left};
use crate::octets::{Octets, octets_end};
use crate::whole_numbers::next_number;
use orc_directory::{StreamKind, StripeFault, run_fault};
use orc_values::Own;

/// Returns the next byte string, whose length is in LENGTH.
///
/// # Errors
///
/// - `Run` with LENGTH, if no length is left or the next run is invalid.
/// - `LengthSum`, if fewer bytes are left than the length says.
#[inline(always)]
pub fn next_string<'a>(
    column: usize,
    kind: StreamKind,
    numbers: &mut Numbers<'a>,
    octets: &mut Octets<'a>,
) -> Result<&'a [u8], StripeFault>
    // If the call succeeds, then the byte strings that were left before it are the returned one, followed by those
    // left after it.
    ensures found { IfOk result (λ bytes. Leaves (Sized (NumbersLeft numbers.old) (OctetsLeft octets.old))
        (Sized (NumbersLeft numbers.new) (OctetsLeft octets.new)) (bytes.now ∷ [])) }
    // If the call fails, then the streams have no further byte string.
    ensures none { OnErr result (Lacks (Sized (NumbersLeft numbers.old) (OctetsLeft octets.old)) 1) }
    // If the call succeeds, and numbers come first in what LENGTH has left after it, whatever follows them, then
    // these came first before it with the length of the returned bytes in front.
    ensures first { IfOk result
        (λ bytes. Precedes (NumbersFirst numbers.old) (NumbersFirst numbers.new) (pos (length bytes.now) ∷ [])) }
    // If the call succeeds, then the plain bytes that were left before it are the returned ones, followed by those
    // left after it.
    ensures bytes { IfOk result (λ bytes. octets.old.rest.now ≡ bytes.now ++ octets.new.rest.now) }
    // If the call succeeds, then each error that the reader meets after it with n byte strings to give is one that it
    // met before with n + 1.
    ensures before { OnOk result ((all : Bool) (n : ℕ) (f : Fault)
        → StringsMeet kind numbers.new octets.new all n column f
        → StringsMeet kind numbers.old octets.old all (suc n) column f) }
    // If the call fails other than with `OutOfMemory`, then the error is one, of LENGTH's runs or `LengthSum`, that
    // the reader meets from its place before the call, whatever number of byte strings above 0 it has to give.
    ensures fault { IfErr result (λ cause. cause ≢ fault.OutOfMemory
        → (n : ℕ) → StringsMeet kind numbers.old octets.old false (suc n) column cause) }
{
    let number = next_number(column, StreamKind::Length, numbers)?;
    let Ok(size) = u64::try_from(number) else {
        return Err(StripeFault::LengthSum(column, kind));
    };
    match octets.take(size) {
        Some(bytes) => Ok(bytes),
        None => Err(StripeFault::LengthSum(column, kind)),
    }
}

/// Returns whether no byte string is left.
pub fn strings_end(numbers: &Numbers<'_>, octets: &Octets<'_>) -> bool
    // The call returns true if and only if neither lengths nor bytes are left.
    ensures { MatchBool result (Sized (NumbersLeft numbers.now) (OctetsLeft octets.now) [])
        (Sized (NumbersLeft numbers.now) (OctetsLeft octets.now) [] → ⊥) }
{
    if !numbers_end(numbers) {
        return false;
    }
    if !octets_end(octets) {
        return false;
    }
    true
}

/// Returns the error of byte strings that are left over: of their lengths, or of the bytes.
pub fn strings_left(
    column: usize,
    kind: StreamKind,
    numbers: &Numbers<'_>,
    octets: &Octets<'_>,
) -> StripeFault
    requires more { Sized (NumbersLeft numbers.now) (OctetsLeft octets.now) [] → ⊥ }
    // If lengths or bytes are left over, then the returned error is one that a reader meets which must have given all
    // byte strings.
    ensures { StringsMeet kind numbers.now octets.now true 0 column result }
{
    if numbers_end(numbers) {
        return StripeFault::LengthSum(column, kind);
    }
    run_fault(column, StreamKind::Length, numbers_left(numbers))
}

/// Returns the next text, whose bytes are the next ones in DATA.
#[inline(always)]
pub(crate) fn next_text<'a>(
    column: usize,
    numbers: &mut Numbers<'a>,
    octets: &mut Octets<'a>,
) -> Result<Own<'a>, StripeFault>
    ensures found { IfOk result
        (λ v. Leaves (Standing IsText (Sized (NumbersLeft numbers.old) (OctetsLeft octets.old)))
        (Standing IsText (Sized (NumbersLeft numbers.new) (OctetsLeft octets.new))) (own_cell v ∷ [])) }
    ensures kind { IfOk result (λ v. IsValueOf kinds.String (own_cell v)) }
    ensures none { OnErr result
        (Lacks (Standing IsText (Sized (NumbersLeft numbers.old) (OctetsLeft octets.old))) 1) }
    ensures before { OnOk result ((all : Bool) (n : ℕ) (f : Fault) → TextMeets numbers.new octets.new all n column f
        → TextMeets numbers.old octets.old all (suc n) column f) }
    ensures fault { IfErr result (λ cause. cause ≢ fault.OutOfMemory
        → (n : ℕ) → TextMeets numbers.old octets.old false (suc n) column cause) }
{
    let bytes = next_string(column, StreamKind::Data, numbers, octets)?;
    match std::str::from_utf8(bytes) {
        Ok(text) => Ok(Own::Text(text)),
        Err(_) => Err(StripeFault::NotUtf8(column, StreamKind::Data)),
    }
}

/// Returns bytes as a value.
fn value_of<'a>(bytes: &'a [u8]) -> Own<'a>
    ensures { IsBinary bytes.now (own_cell result) }
{
    Own::Bytes(bytes)
}

/// Returns the next byte string of DATA as a value.
pub(crate) fn next_binary<'a>(
    column: usize,
    numbers: &mut Numbers<'a>,
    octets: &mut Octets<'a>,
) -> Result<Own<'a>, StripeFault>
    ensures found { IfOk result
        (λ v. Leaves (Standing IsBinary (Sized (NumbersLeft numbers.old) (OctetsLeft octets.old)))
        (Standing IsBinary (Sized (NumbersLeft numbers.new) (OctetsLeft octets.new))) (own_cell v ∷ [])) }
    ensures kind { IfOk result (λ v. IsValueOf kinds.Binary (own_cell v)) }
    ensures none { OnErr result
        (Lacks (Standing IsBinary (Sized (NumbersLeft numbers.old) (OctetsLeft octets.old))) 1) }
    ensures before { OnOk result ((all : Bool) (n : ℕ) (f : Fault)
        → StringsMeet stream.Data numbers.new octets.new all n column f
        → StringsMeet stream.Data numbers.old octets.old all (suc n) column f) }
    ensures fault { IfErr result (λ cause. cause ≢ fault.OutOfMemory
        → (n : ℕ) → StringsMeet stream.Data numbers.old octets.old false (suc n) column cause) }
{
    let bytes = next_string(column, StreamKind::Data, numbers, octets)?;
    Ok(value_of(bytes))
}
