//! Printing files without findings from a group on. `printing_from_the_middle` does nothing: its contract is the
//! statement.
ghost use Rattle.std.specs.Prelude.{◌≡◌, ℕ, List, [], Option, drop};
ghost use Rattle.orc_values.specs.Cells.{Cell};
ghost use Rattle.orc_file_reader.specs.FileRows.{FileIs};
ghost use Rattle.orc_tail.specs.declared.tail.Tail.{Tail};
ghost use Rattle.orc_cli_output.specs.Output.{IsOutsideFile};
ghost use Rattle.orc_cli_output.specs.declared.fault.CliFault.{CliFault};
ghost use Rattle.orc_check.specs.Findings.{Findings};
ghost use Rattle.orc_cli_rows.specs.Rows.{row_lines, HaveJson};
ghost use Rattle.orc_cli_rows.specs.FromGroup.{AreLinesFromGroup, EndsFrom};
ghost use Rattle.orc_theorems.specs.Places.{IsPlace, rows_before};

use orc_check::start_laws;

/// If a file has no findings, then the lines that are printed from a group of a stripe on are those of the file's
/// rows from the group's first row on. If the group exists and the rows have JSON, then no fault of the file can stop
/// printing them.
pub fn printing_from_the_middle()
    // If a file with rows has no findings, then lines that are printed of it from a group of a stripe on are
    // those of the file's rows from the group's first row on.
    ensures lines { (bytes : List ℕ) (tail : Tail) (rows : List Cell) (stripe group : ℕ) (lines : List ℕ)
        → FileIs bytes tail rows → Findings bytes tail rows []
        → AreLinesFromGroup bytes tail stripe group lines
        → lines ≡ row_lines tail.schema (drop (rows_before tail stripe group) rows) }
    // If a file with rows has no findings, one of its stripes has a group, and the rows have JSON, then printing the
    // file from this group on fails only with `WriteFailed`, `SourceFailed` or `OutOfMemory`.
    ensures only { (bytes : List ℕ) (tail : Tail) (rows : List Cell) (stripe group : ℕ)
        (old new : Option (List ℕ)) (fault : CliFault)
        → FileIs bytes tail rows → Findings bytes tail rows []
        → IsPlace tail stripe group → HaveJson tail.schema rows
        → EndsFrom bytes tail stripe group old new fault → IsOutsideFile fault }
{
    // for its contract alone: the stripes of a file without findings start at each of their groups
    start_laws();
}
