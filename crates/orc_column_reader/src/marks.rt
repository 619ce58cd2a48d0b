//! PRESENT: booleans that mark which cells are not null. A column without it has no nulls.

ghost use Rattle.std.specs.Prelude.{◌≢◌, ◌∷◌, [], ℕ, suc, IfOk, IfErr, OnOk, OnErr, MatchBool};
ghost use Rattle.orc_column_reader.specs.Fronts.{Leaves, Precedes, Lacks};
ghost use Rattle.orc_column_reader.specs.Columns.{MarksLeft, MarksFirst};
ghost use Rattle.orc_column_reader.specs.RunsMet.{MarksMeet};
ghost use Rattle.orc_column_reader.specs.Faults.{RunsFail};
ghost use Rattle.orc_column_reader.specs.Starting.{MarksStart};
ghost use Rattle.orc_directory.specs.declared.fault.StripeFault.TheVariants as fault;
ghost use Rattle.orc_directory.specs.declared.fault.StreamKind.TheVariants as stream;
ghost use Rattle.orc_rle.specs.declared.fault.RunFault.TheVariants as run;
ghost use Rattle.orc_rle.specs.declared.fault.RunFault.{RunFault as RunsFault};

use crate::bits::{Bits, bits_end, bits_left, bits_of};
use orc_directory::{StreamKind, StripeFault, run_fault};
use orc_rle::RunFault;

/// Returns a reader at the start of PRESENT, or none if it is empty.
pub(crate) fn marks_of(bytes: &[u8]) -> Option<Bits<'_>>
    ensures { MarksStart bytes.now result }
{
    if bytes.is_empty() {
        return None;
    }
    Some(bits_of(bytes))
}

/// Returns whether the next cell is not null.
///
/// # Errors
///
/// `Run` with PRESENT, if no mark is left or the next run is invalid.
pub fn next_mark(column: usize, present: &mut Option<Bits<'_>>) -> Result<bool, StripeFault>
    // If the call succeeds, then the marks that were left before it are the returned one, followed by those left
    // after it.
    ensures found { IfOk result (λ mark. Leaves (MarksLeft present.old) (MarksLeft present.new) (mark ∷ [])) }
    // If the call succeeds, and marks come first in what is left after it, whatever follows them, then these came
    // first before it with the returned one in front.
    ensures first { IfOk result (λ mark. Precedes (MarksFirst present.old) (MarksFirst present.new) (mark ∷ [])) }
    // If the call fails, then PRESENT has no further mark.
    ensures none { OnErr result (Lacks (MarksLeft present.old) 1) }
    // If the call succeeds, then each error that the reader meets after it with n marks to give is one that it met
    // before with n + 1.
    ensures before { OnOk result ((n : ℕ) (f : RunsFault)
        → MarksMeet present.new n f
        → MarksMeet present.old (suc n) f) }
    // If the call fails other than with `OutOfMemory`, then the error is one of PRESENT's runs that the reader meets
    // from its place before the call, whatever number of marks above 0 it has to give.
    ensures fault { IfErr result (λ cause. cause ≢ fault.OutOfMemory
        → RunsFail stream.Present column (λ f. (n : ℕ) → MarksMeet present.old (suc n) f) cause) }
{
    match present {
        None => Ok(true),
        Some(bits) => match bits.next() {
            Ok(mark) => Ok(mark),
            Err(fault) => Err(run_fault(column, StreamKind::Present, fault)),
        },
    }
}

/// Returns whether no mark is left.
pub fn marks_end(present: &Option<Bits<'_>>) -> bool
    // The call returns true if and only if no mark is left, which is so if there is no PRESENT.
    ensures { MatchBool result (MarksLeft present.now []) (MarksLeft present.now [] → ⊥) }
{
    match present {
        None => true,
        Some(bits) => bits_end(bits),
    }
}

/// Returns the error of marks that are left over.
pub fn marks_left(present: &Option<Bits<'_>>) -> RunFault
    requires more { MarksLeft present.now [] → ⊥ }
    // If marks are left over, then the returned error is one that a reader meets which must have given all marks, and
    // it is not `OutOfMemory`.
    ensures met { MarksMeet present.now 0 result }
    ensures no_memory { result ≢ run.OutOfMemory }
{
    match present {
        None => RunFault::TooMany(0),
        Some(bits) => bits_left(bits),
    }
}
