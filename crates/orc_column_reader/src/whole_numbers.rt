//! Whole numbers and dates: integers in DATA, or bytes in DATA if the numbers have 8 bits.

ghost use Rattle.std.specs.Prelude.{◌≡◌, ◌≢◌, ◌∷◌, [], ℕ, suc, Bool, false, IfOk, IfErr, OnOk, OnErr};
ghost use Rattle.orc_values.specs.Own.{own_cell, IsValueOf};
ghost use Rattle.orc_values.specs.Fits.{int_fits as fits, signed_fits};
ghost use Rattle.orc_column_reader.specs.Fronts.{Leaves, Precedes, Lacks};
ghost use Rattle.orc_column_reader.specs.Numbers.{NumbersLeft, NumbersFirst};
ghost use Rattle.orc_column_reader.specs.Bytes.{BytesLeft};
ghost use Rattle.orc_column_reader.specs.Spellings.{Standing};
ghost use Rattle.orc_column_reader.specs.Columns.{IsByte, signed_byte, IsInt, IsDate};
ghost use Rattle.orc_column_reader.specs.RunsMet.{NumbersMeet, BytesMeet};
ghost use Rattle.orc_column_reader.specs.Faults.{RunsFail};
ghost use Rattle.orc_column_reader.specs.RunFaults.{Always};
ghost use Rattle.orc_column_reader.specs.ReaderFaults.{IntsMeet};
ghost use Rattle.orc_directory.specs.declared.fault.StripeFault.TheVariants as fault;
ghost use Rattle.orc_directory.specs.declared.fault.StreamKind.TheVariants as stream;
ghost use Rattle.orc_values.specs.declared.kind.Scalar.TheVariants as kinds;
ghost use Rattle.orc_rle.specs.declared.fault.RunFault.{RunFault as RunsFault};
ghost use Rattle.orc_directory.specs.declared.fault.StripeFault.{StripeFault as Fault};

use crate::bytes::RunLengthBytes;
use crate::numbers::Numbers;
use orc_directory::{StreamKind, StripeFault, run_fault};
use orc_values::{Own, Scalar, int_fits};

/// Returns the next number of a stream.
///
/// # Errors
///
/// `Run` with the stream, if no number is left or the next run is invalid.
#[inline(always)]
pub fn next_number(
    column: usize,
    kind: StreamKind,
    numbers: &mut Numbers<'_>,
) -> Result<i64, StripeFault>
    // If the call succeeds, then the numbers that were left before it are the returned one, followed by those left
    // after it.
    ensures found { IfOk result (λ n. Leaves (NumbersLeft numbers.old) (NumbersLeft numbers.new) (n ∷ [])) }
    // If the call succeeds, and numbers come first in what is left after it, whatever follows them, then these came
    // first before it with the returned one in front.
    ensures first { IfOk result (λ n. Precedes (NumbersFirst numbers.old) (NumbersFirst numbers.new) (n ∷ [])) }
    // If the call fails, then the stream has no further number.
    ensures none { OnErr result (Lacks (NumbersLeft numbers.old) 1) }
    // If the call succeeds, then each error that the reader meets after it with n numbers to give is one that it met
    // before with n + 1.
    ensures before { OnOk result ((n : ℕ) (f : RunsFault)
        → NumbersMeet numbers.new n f
        → NumbersMeet numbers.old (suc n) f) }
    // If the call fails other than with `OutOfMemory`, then the error is one of the stream's runs that the reader
    // meets from its place before the call, whatever number of numbers above 0 it has to give.
    ensures fault { IfErr result (λ cause. cause ≢ fault.OutOfMemory
        → (n : ℕ) → RunsFail kind column (Always false (suc n) (NumbersMeet numbers.old)) cause) }
{
    match numbers.next() {
        Ok(number) => Ok(number),
        Err(fault) => Err(run_fault(column, kind, fault)),
    }
}

/// Returns the next value of a column of whole numbers.
#[inline(always)]
pub(crate) fn next_int<'a>(
    column: usize,
    kind: Scalar,
    numbers: &mut Numbers<'a>,
) -> Result<Own<'a>, StripeFault>
    ensures found { IfOk result (λ v. Leaves (Standing (IsInt kind) (NumbersLeft numbers.old))
        (Standing (IsInt kind) (NumbersLeft numbers.new)) (own_cell v ∷ [])) }
    ensures kind { IfOk result (λ v. IsValueOf kind (own_cell v)) }
    ensures none { OnErr result (Lacks (Standing (IsInt kind) (NumbersLeft numbers.old)) 1) }
    ensures before { OnOk result ((all : Bool) (n : ℕ) (f : Fault) → IntsMeet (fits kind) numbers.new all n column f
        → IntsMeet (fits kind) numbers.old all (suc n) column f) }
    ensures fault { IfErr result (λ cause. cause ≢ fault.OutOfMemory
        → (n : ℕ) → IntsMeet (fits kind) numbers.old false (suc n) column cause) }
{
    let number = next_number(column, StreamKind::Data, numbers)?;
    if !int_fits(kind, number) {
        return Err(StripeFault::OutOfRange(column));
    }
    Ok(Own::Int(number))
}

/// Returns the next value of a column of whole numbers with 64 bits, which are all in range.
#[inline(always)]
pub(crate) fn next_long<'a>(
    column: usize,
    numbers: &mut Numbers<'a>,
) -> Result<Own<'a>, StripeFault>
    ensures found { IfOk result (λ v. Leaves (Standing (IsInt kinds.Long) (NumbersLeft numbers.old))
        (Standing (IsInt kinds.Long) (NumbersLeft numbers.new)) (own_cell v ∷ [])) }
    ensures kind { IfOk result (λ v. IsValueOf kinds.Long (own_cell v)) }
    ensures none { OnErr result (Lacks (Standing (IsInt kinds.Long) (NumbersLeft numbers.old)) 1) }
    ensures before { OnOk result ((all : Bool) (n : ℕ) (f : Fault)
        → RunsFail stream.Data column (Always all n (NumbersMeet numbers.new)) f
        → RunsFail stream.Data column (Always all (suc n) (NumbersMeet numbers.old)) f) }
    ensures fault { IfErr result (λ cause. cause ≢ fault.OutOfMemory
        → (n : ℕ) → RunsFail stream.Data column (Always false (suc n) (NumbersMeet numbers.old)) cause) }
{
    let number = next_number(column, StreamKind::Data, numbers)?;
    Ok(Own::Int(number))
}

/// Returns the next value of a column of dates.
pub(crate) fn next_date<'a>(
    column: usize,
    numbers: &mut Numbers<'a>,
) -> Result<Own<'a>, StripeFault>
    ensures found { IfOk result (λ v. Leaves (Standing IsDate (NumbersLeft numbers.old))
        (Standing IsDate (NumbersLeft numbers.new)) (own_cell v ∷ [])) }
    ensures kind { IfOk result (λ v. IsValueOf kinds.Date (own_cell v)) }
    ensures none { OnErr result (Lacks (Standing IsDate (NumbersLeft numbers.old)) 1) }
    ensures before { OnOk result ((all : Bool) (n : ℕ) (f : Fault)
        → IntsMeet (signed_fits 31) numbers.new all n column f
        → IntsMeet (signed_fits 31) numbers.old all (suc n) column f) }
    ensures fault { IfErr result (λ cause. cause ≢ fault.OutOfMemory
        → (n : ℕ) → IntsMeet (signed_fits 31) numbers.old false (suc n) column cause) }
{
    let number = next_number(column, StreamKind::Data, numbers)?;
    match i32::try_from(number) {
        Ok(day) => Ok(Own::Date(day)),
        Err(_) => Err(StripeFault::OutOfRange(column)),
    }
}

/// Returns the number that a byte stands for.
fn number_of(byte: u8) -> i64
    ensures { result ≡ signed_byte byte }
{
    if byte < 128 {
        i64::from(byte)
    } else {
        i64::from(byte) - 256
    }
}

/// Returns the next value of a column of whole numbers with 8 bits.
pub(crate) fn next_byte<'a>(
    column: usize,
    bytes: &mut RunLengthBytes<'a>,
) -> Result<Own<'a>, StripeFault>
    ensures found { IfOk result (λ v. Leaves (Standing IsByte (BytesLeft bytes.old))
        (Standing IsByte (BytesLeft bytes.new)) (own_cell v ∷ [])) }
    ensures kind { IfOk result (λ v. IsValueOf kinds.Byte (own_cell v)) }
    ensures none { OnErr result (Lacks (Standing IsByte (BytesLeft bytes.old)) 1) }
    ensures before { OnOk result ((all : Bool) (n : ℕ) (f : Fault)
        → RunsFail stream.Data column (Always all n (BytesMeet bytes.new)) f
        → RunsFail stream.Data column (Always all (suc n) (BytesMeet bytes.old)) f) }
    ensures fault { IfErr result (λ cause. cause ≢ fault.OutOfMemory
        → (n : ℕ) → RunsFail stream.Data column (Always false (suc n) (BytesMeet bytes.old)) cause) }
{
    match bytes.next() {
        Ok(byte) => Ok(Own::Int(number_of(byte))),
        Err(fault) => Err(run_fault(column, StreamKind::Data, fault)),
    }
}
