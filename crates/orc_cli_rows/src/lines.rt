//! The lines of the rows that a cursor has still to give.
ghost use Rattle.std.specs.Prelude.{◌≡◌, ◌≢◌, List, IfOk, OnOk, IfErr, MatchResult, true, false};
ghost use Rattle.orc_values.specs.Cells.{Cell};
ghost use Rattle.orc_directory.specs.declared.fault.StripeFault.TheVariants.{OutOfMemory, Failed};
ghost use Rattle.orc_json_printer.specs.LaidOut.{IsLaidOut};
ghost use Rattle.orc_json_printer.specs.Layouts.{text_by};
ghost use Rattle.orc_json_printer.specs.Outputs.{Puts};
ghost use Rattle.orc_stripe_reader.specs.Cursors.{row_type, IsGoing, StandsFor, MeetsFault};
ghost use Rattle.orc_cli_rows.specs.Pieces.{text_lines, IsHeld, PutsAll, PutsFront};

use crate::held::Held;
use orc_directory::StripeFault;
use orc_json_printer::TextOutput;
use orc_json_printer::layout::Layout;
use orc_stripe_reader::RowCursor;

/// Puts the lines of the rows that a cursor has still to give, as they are read. Once a device has failed, the rows behind
/// are not read, as what is put is dropped.
///
/// Refusals: those of `RowCursor::push_next`.
pub(crate) fn put_lines<T: TextOutput>(
    cursor: &mut RowCursor<'_>,
    layout: &Layout,
    out: &mut T,
) -> Result<(), StripeFault>
    requires laid_out { IsLaidOut (row_type cursor.old) layout.now }
    ensures found { T.grows ≡ true → OnOk result (PutsAll T.holds (text_by layout.now) cursor.old out.old out.new) }
    ensures only { (rows : List Cell) → StandsFor cursor.old rows → MatchResult result
        (λ _. Puts T.holds out.old out.new (text_lines (text_by layout.now) rows))
        (λ fault. (fault ≡ OutOfMemory) × (T.grows ≡ true)) }
    ensures fault { IsGoing cursor.old → IfErr result (λ fault. fault ≢ OutOfMemory
        → (fault ≢ Failed) × MeetsFault cursor.old fault) }
{
    while !out.has_failed() {
        if !cursor.push_next(layout, out)? {
            return Ok(());
        }
        out.put_byte(b'\n')?;
    }
    Ok(())
}

/// Holds lines as their rows are read, and says whether they are those of all rows that the cursor had still to give. No
/// row is begun once enough is held.
///
/// Refusals: those of `RowCursor::push_next`, as `OutOfMemory` where the lines are more than may be held, too.
pub(crate) fn hold_lines(
    cursor: &mut RowCursor<'_>,
    layout: &Layout,
    held: &mut Held,
) -> Result<bool, StripeFault>
    requires laid_out { IsLaidOut (row_type cursor.old) layout.now }
    ensures all { IfOk result (λ ended. ended ≡ true
        → PutsAll IsHeld (text_by layout.now) cursor.old held.old held.new) }
    ensures front { IfOk result (λ ended. ended ≡ false → (rows : List Cell) → StandsFor cursor.old rows
        → PutsFront IsHeld (text_by layout.now) rows cursor.new held.old held.new) }
    ensures of_type { OnOk result (row_type cursor.new ≡ row_type cursor.old) }
{
    while !held.is_full() {
        if !cursor.push_next(layout, held)? {
            return Ok(true);
        }
        held.put_byte(b'\n')?;
    }
    Ok(false)
}
