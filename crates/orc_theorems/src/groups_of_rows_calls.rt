//! Callers of `reading_from_the_middle`. They check a file and, if it has no findings, print its rows from a group
//! on, or those of another file that may differ from it before the group.
ghost use Rattle.std.specs.Prelude.{◌≡◌, ◌≢◌, ℕ, List, [], drop, IsTrue, false, IfOk, IfErr};
ghost use Rattle.std.specs.Io.KnownBytes.{Appends};
ghost use Rattle.orc_values.specs.Cells.{Cell};
ghost use Rattle.orc_file_reader.specs.FileRows.{FileIs};
ghost use Rattle.orc_tail.specs.declared.tail.Tail.{Tail};
ghost use Rattle.orc_tail.specs.Tails.{IsTail};
ghost use Rattle.orc_check.specs.declared.finding.Finding.{Finding};
ghost use Rattle.orc_cli_output.specs.Output.{IsOutsideFile};
ghost use Rattle.orc_cli_rows.specs.Rows.{row_lines, HaveJson};
ghost use Rattle.orc_cli_rows.specs.FromGroup.{IsStartText, AreLinesFromGroup};
ghost use Rattle.orc_theorems.specs.Places.{IsPlace, rows_before};
ghost use Rattle.orc_theorems.specs.Inputs.{AreFound};
ghost use Rattle.orc_theorems.specs.BeforeGroups.{FileDiffersOnlyBefore};

use crate::groups_of_rows::reading_from_the_middle;
use crate::merged_findings_calls::found_in;
use orc_cli_output::CliFault;
use orc_cli_rows::rows_to;
use orc_file_reader::row_laws;
use orc_io::SliceSource;
use std::alloc::Global;
use std::io::Write;

/// Checks a file and, if it has no findings, prints its rows from a group of a stripe on. `from`, such as `2:0`,
/// names the stripe and the group. Returns whether the rows were printed. They are the file's rows from the group's
/// first row on, by clause `lines` of `reading_from_the_middle`. If the group exists and the rows have JSON, then no
/// fault of the file is the error, by its clause `only`.
///
/// # Errors
///
/// Fails if `check` or `rows_to` fails.
pub fn print_from<W: Write>(
    alloc: Global,
    bytes: &[u8],
    from: &str,
    out: &mut W,
) -> Result<bool, CliFault>
    // If `true` is returned, then `bytes` are a file with rows, `from` names a stripe and a group, and the output has
    // got exactly the lines of the file's rows from the group's first row on if the output's bytes are known.
    ensures lines { IfOk result (λ printed. IsTrue printed
        → (tail : Tail) × (rows : List Cell) × (stripe : ℕ) × (group : ℕ)
        × FileIs bytes.now tail rows × IsStartText from.now stripe group
        × Appends (W.contents out.old) (W.contents out.new)
        (row_lines tail.schema (drop (rows_before tail stripe group) rows))) }
    // If `false` is returned, then `bytes` are a file with rows and with at least one finding.
    ensures found { IfOk result (λ printed. printed ≡ false
        → (found : List Finding) × AreFound bytes.now found × (found ≢ [])) }
    // If `bytes` are a file with rows that have JSON, and `from` names a stripe and a group that the file has,
    // then an error is `WriteFailed`, `SourceFailed` or `OutOfMemory`.
    ensures only { IfErr result (λ e. (tail : Tail) (rows : List Cell) (stripe group : ℕ)
        → FileIs bytes.now tail rows → HaveJson tail.schema rows
        → IsStartText from.now stripe group
        → ((n g : ℕ) → IsStartText from.now n g → IsPlace tail n g)
        → IsOutsideFile e) }
{
    // for its contract alone: if a file has no findings, the rows printed from a group on are its rows from there on
    reading_from_the_middle();
    let found = found_in(alloc, bytes)?;
    if !found.is_empty() {
        return Ok(false);
    }
    match rows_to(alloc, SliceSource::new(bytes), Some(from), out) {
        Ok(_) => Ok(true),
        Err((fault, _)) => Err(fault),
    }
}

/// Checks a file and, if it has no findings, prints the rows of another file from a group of a stripe on. `from`,
/// such as `2:0`, names the stripe and the group. Returns whether the rows were printed. If the other file has the
/// same tail and differs from the checked one, in that stripe, only before the group's offsets, and in no later
/// stripe, then the lines are those of the checked file's rows, by clause `lines_alone` of `reading_from_the_middle`.
///
/// # Errors
///
/// Fails if `check` or `rows_to` fails.
pub fn print_other_from<W: Write>(
    alloc: Global,
    checked: &[u8],
    other: &[u8],
    from: &str,
    out: &mut W,
) -> Result<bool, CliFault>
    // If `true` is returned, then `other` has a tail, `from` names a stripe and a group, and the output has got
    // exactly the lines of `other` from this group on if the output's bytes are known. If `checked` is a file with
    // this tail and rows, and `other` differs from it, in this stripe, only before the offsets that the group's index
    // entries record, and in no later stripe, then these lines are those of the rows of `checked` from the group's
    // first row on.
    ensures lines { IfOk result (λ printed. IsTrue printed
        → (tail : Tail) × (lines : List ℕ) × (stripe : ℕ) × (group : ℕ)
        × IsTail other.now tail × IsStartText from.now stripe group
        × AreLinesFromGroup other.now tail stripe group lines
        × Appends (W.contents out.old) (W.contents out.new) lines
        × ((rows : List Cell) → FileIs checked.now tail rows
        → FileDiffersOnlyBefore checked.now tail stripe group other.now
        → lines ≡ row_lines tail.schema (drop (rows_before tail stripe group) rows))) }
    // If `false` is returned, then `checked` is a file with rows and with at least one finding.
    ensures found { IfOk result (λ printed. printed ≡ false
        → (found : List Finding) × AreFound checked.now found × (found ≢ [])) }
    // If `checked` is a file with rows that have JSON, `other` has its tail, `from` names a stripe and a group that
    // this tail has, and `other` differs from `checked`, in this stripe, only before the offsets that the group's index
    // entries record, and in no later stripe, then an error is `WriteFailed`, `SourceFailed` or `OutOfMemory`.
    ensures only { IfErr result (λ e. (tail : Tail) (rows : List Cell) (stripe group : ℕ)
        → FileIs checked.now tail rows → HaveJson tail.schema rows
        → IsTail other.now tail
        → IsStartText from.now stripe group
        → ((n g : ℕ) → IsStartText from.now n g
        → IsPlace tail n g × FileDiffersOnlyBefore checked.now tail n g other.now)
        → IsOutsideFile e) }
{
    // each for its contract alone: bytes before a group's offsets don't change what is printed from the group on, and
    // bytes are a file of one tail and one list of rows
    reading_from_the_middle();
    row_laws();
    let found = found_in(alloc, checked)?;
    if !found.is_empty() {
        return Ok(false);
    }
    match rows_to(alloc, SliceSource::new(other), Some(from), out) {
        Ok(_) => Ok(true),
        Err((fault, _)) => Err(fault),
    }
}
