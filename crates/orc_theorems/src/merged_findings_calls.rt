//! Callers of `findings_of_merges`: they check files, join them, and check the joined file.
ghost use Rattle.std.specs.Prelude.{◌≡◌, ◌⊎◌, ◌∷◌, [], List, Some, IfOk, IfErr};
ghost use Rattle.orc_values.specs.Cells.{Cell};
ghost use Rattle.orc_file_reader.specs.FileRows.{FileIs};
ghost use Rattle.orc_tail.specs.declared.tail.Tail.{Tail};
ghost use Rattle.orc_tail.specs.declared.fault.FileFault.TheVariants as fault;
ghost use Rattle.orc_merger.specs.Outcomes.{WroteMerge};
ghost use Rattle.orc_merge_laws.specs.Grouping.{Wrote};
ghost use Rattle.orc_theorems.specs.Groupings.{first_two};
ghost use Rattle.orc_theorems.specs.Inputs.{AreFound, AreWithoutFinding};
ghost use Rattle.orc_theorems.specs.Refusals.{IsReadFault, IsJoinFault, IsStepsFault};

use crate::fault::CallFault;
use crate::memory::{FileInMemory, join_two};
use crate::merged_findings::findings_of_merges;
use crate::merging::merge_theorem;
use crate::merging_calls::join_in_steps;
use orc_check::{Finding, check, finding_laws};
use orc_file_reader::row_laws;
use orc_io::SliceSource;
use orc_tail::FileFault;
use std::alloc::Global;

/// The findings of two files, the file that they were joined into, and its findings.
#[derive(Drop)]
pub struct CheckedJoin {
    pub first: Vec<Finding>,
    pub second: Vec<Finding>,
    pub joined: FileInMemory,
    pub found: Vec<Finding>,
}

/// Returns the findings of a file in memory.
pub(crate) fn found_in(alloc: Global, bytes: &[u8]) -> Result<Vec<Finding>, FileFault>
    ensures found { IfOk result (λ found. AreFound bytes.now found.items) }
    ensures only { (tail : Tail) (rows : List Cell) → FileIs bytes.now tail rows
        → IfErr result (λ e. (e ≡ fault.OutOfMemory) ⊎ (e ≡ fault.SourceFailed)) }
    ensures refused { IfErr result (IsReadFault bytes.now) }
{
    let mut source = SliceSource::new(bytes);
    check(alloc, &mut source)
}

/// Checks two files, joins them, and checks the joined file. If neither has findings, then the joined file has none,
/// by clause `merged` of `findings_of_merges`.
///
/// # Errors
///
/// Fails if one of its three calls of `check` or its call of `merge` fails.
pub fn join_checked(alloc: Global, first: &[u8], second: &[u8]) -> Result<CheckedJoin, CallFault>
    // If the call succeeds, then `first` and `second` are files with rows, and the findings that are returned
    // for each are exactly its findings.
    ensures before { IfOk result (λ done. AreFound first.now done.first.items
        × AreFound second.now done.second.items) }
    // If the call succeeds, then the returned file is the merged file of `first` and `second`, with its tail,
    // and has fewer than 2^64 bytes.
    ensures merged { IfOk result (λ done.
        WroteMerge (first.now ∷ second.now ∷ []) done.joined.tail (Some []) (Some done.joined.bytes.items)) }
    // If the call succeeds, then the merged file has rows, and the findings that are returned for it are
    // exactly its findings.
    ensures after { IfOk result (λ done. AreFound done.joined.bytes.items done.found.items) }
    // If the call succeeds and returns no findings for `first` and `second`, then it returns no findings for
    // the merged file.
    ensures nothing { IfOk result (λ done. done.first.items ≡ [] → done.second.items ≡ [] → done.found.items ≡ []) }
    // An error in `File` is `OutOfMemory`, `SourceFailed`, or the reason why `first` or `second` isn't a file with
    // rows. An error in `Merge` is `SourceFailed`, `WriteFailed`, `OutOfMemory`, or the first fault of `first` and
    // `second` as inputs.
    ensures refused { IfErr result (IsJoinFault first.now second.now) }
{
    // each for its contract alone: the merged file of files without findings has no findings, a file has only one
    // list of findings, and the merged file of files with rows has rows
    findings_of_merges();
    finding_laws();
    merge_theorem();
    let found_first = found_in(alloc, first)?;
    let found_second = found_in(alloc, second)?;
    let joined = join_two(alloc, first, second)?;
    let found = found_in(alloc, &joined.bytes)?;
    Ok(CheckedJoin {
        first: found_first,
        second: found_second,
        joined,
        found,
    })
}

/// Joins three files in two steps, as `join_in_steps` does, and checks the joined file. If none of the three files has
/// findings, then the joined file has none, by clause `grouped` of `findings_of_merges`.
///
/// # Errors
///
/// Fails if one of its two calls of `merge` fails, or its call of `check`.
pub fn join_in_steps_checked(
    alloc: Global,
    first: &[u8],
    second: &[u8],
    third: &[u8],
) -> Result<(FileInMemory, Vec<Finding>), CallFault>
    // If the call succeeds, then `first` and `second` were merged, and what this wrote was merged with `third` into the
    // returned bytes.
    ensures wrote { IfOk result (λ done. Wrote (first_two first.now second.now third.now) done.0.bytes.items) }
    // If the call succeeds, then the joined file has rows, and the findings that are returned are exactly its findings.
    ensures after { IfOk result (λ done. AreFound done.0.bytes.items done.1.items) }
    // If the call succeeds, and the three files are files with rows and without findings, then no findings are
    // returned.
    ensures nothing { IfOk result (λ done. (parts : List (List Cell))
        → AreWithoutFinding (first.now ∷ second.now ∷ third.now ∷ []) parts → done.1.items ≡ []) }
    // If the three files are files with rows and without findings, then an error in `File` is `OutOfMemory` or
    // `SourceFailed`. An error in `Merge` is `SourceFailed`, `WriteFailed`, `OutOfMemory`, or the first fault of the
    // inputs of one of the two merges.
    ensures only { IfErr result (λ e. (parts : List (List Cell))
        → AreWithoutFinding (first.now ∷ second.now ∷ third.now ∷ []) parts
        → IsStepsFault first.now second.now third.now e) }
{
    // each for its contract alone: files without findings are joined in steps into one without findings, and a file has
    // only one tail, one list of rows and one list of findings
    findings_of_merges();
    finding_laws();
    row_laws();
    let joined = join_in_steps(alloc, first, second, third)?;
    let findings = found_in(alloc, &joined.bytes)?;
    Ok((joined, findings))
}
