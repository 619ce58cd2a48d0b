//! The rows that are still to come, one after the other: the text of the next one.
ghost use Rattle.std.specs.Prelude.{◌≡◌, ◌≢◌, ◌+◌, List, Bool, true, length, IfOk, IfErr, OnOk, MatchResult, MatchBool};
ghost use Rattle.orc_values.specs.Cells.{Cell};
ghost use Rattle.orc_values.specs.Shapes.{width};
ghost use Rattle.orc_values.specs.Views.{shape};
ghost use Rattle.orc_column_reader.specs.ReaderFaults.{CellsMeet};
ghost use Rattle.orc_directory.specs.declared.fault.StripeFault.{StripeFault as Fault};
ghost use Rattle.orc_directory.specs.declared.fault.StripeFault.TheVariants.{OutOfMemory};
ghost use Rattle.orc_json_printer.specs.LaidOut.{IsLaidOut};
ghost use Rattle.orc_json_printer.specs.Layouts.{text_by};
ghost use Rattle.orc_column_text.specs.Taken.{RowsLeft, GaveText, GivesText};

use crate::cells::push_cell;
use orc_column_reader::ColumnReader;
use orc_directory::StripeFault;
use orc_json_printer::TextOutput;
use orc_json_printer::layout::Layout;
use orc_row_reader::cells_end;
use orc_values::Tree;

/// Puts the text of the next of so many rows that are left, by a layout of their type, and says whether there was one.
/// At the end, once nothing is found left over in any stream, nothing is put.
///
/// Refusals: what is wrong with the streams (ORC specification, "Column Encodings"), or `OutOfMemory` where the output
/// was refused memory. What is put before a refusal is left open.
pub fn push_next<T: TextOutput>(
    tree: &Tree,
    layout: &Layout,
    readers: &mut [ColumnReader<'_>],
    left: &mut u64,
    out: &mut T,
) -> Result<bool, StripeFault>
    requires counted { length readers.old ≡ width (shape tree.now) }
    requires laid_out { IsLaidOut (shape tree.now) layout.now }
    // Where each column has a reader, the text of the next of so many rows is put, the others being
    // left; or nothing is, where none is left, nor anything else in the streams.
    ensures found { IfOk result (GaveText T.holds (RowsLeft (shape tree.now) readers.old left.old)
        (RowsLeft (shape tree.now) readers.new left.new) (text_by layout.now) out.old out.new) }
    // Where the readers have just as many rows left, the first one's text is put, or nothing where
    // there is none, unless an output that grows is refused memory.
    ensures only { (rows : List Cell) → RowsLeft (shape tree.now) readers.old left.old rows
        → MatchResult result (GivesText T.holds rows (RowsLeft (shape tree.now) readers.new left.new)
        (text_by layout.now) out.old out.new) (λ fault. (fault ≡ OutOfMemory) × (T.grows ≡ true)) }
    // Where a row is put, one fewer is left; where none is, their number stays.
    ensures fewer { IfOk result (λ some. MatchBool some (left.old ≡ left.new + 1) (left.new ≡ left.old)) }
    // A refusal other than want of memory is one that the readers meet, which were to give as many
    // rows as were left, now or after the rows before.
    ensures before { OnOk result ((all : Bool) (f : Fault)
        → CellsMeet (shape tree.now) readers.new all left.new f
        → CellsMeet (shape tree.now) readers.old all left.old f) }
    ensures fault { IfErr result (λ cause. cause ≢ OutOfMemory
        → (all : Bool) × CellsMeet (shape tree.now) readers.old all left.old cause) }
{
    if *left == 0 {
        cells_end(tree, readers)?;
        return Ok(false);
    }
    push_cell(tree, layout, readers, out)?;
    *left -= 1;
    Ok(true)
}
