//! The rows that a cursor has still to give: the next one, its text, or all of them.
ghost use Rattle.std.specs.Prelude.{◌≡◌, ◌≢◌, List, true, Ok, Err, IfOk, IfErr, OnOk, OnErr, MatchResult};
ghost use Rattle.orc_values.specs.Cells.{Cell};
ghost use Rattle.orc_values.specs.Views.{views};
ghost use Rattle.orc_json_printer.specs.LaidOut.{IsLaidOut};
ghost use Rattle.orc_json_printer.specs.Layouts.{text_by};
ghost use Rattle.orc_column_text.specs.Taken.{GaveText, GivesText};
ghost use Rattle.orc_directory.specs.declared.fault.StripeFault.{StripeFault as Fault};
ghost use Rattle.orc_directory.specs.declared.fault.StripeFault.TheVariants.{OutOfMemory, Failed};
ghost use Rattle.orc_stripe_reader.specs.TextCursors.{CountsDownWhere};
ghost use Rattle.orc_stripe_reader.specs.Cursors.{row_type, HasRefused, IsGoing, StandsFor, GivesRow, Gave, CountsDown, MeetsFault};

use crate::cursor::RowCursor;
use orc_column_text::push_next;
use orc_directory::StripeFault;
use orc_json_printer::TextOutput;
use orc_json_printer::layout::Layout;
use orc_row_reader::{cells_end, next_cell, next_cells};
use orc_values::Row;

impl<'a> RowCursor<'a> {
    /// The next row; at the end `None`, once nothing is found left over in any stream. Each row is
    /// one fewer to come, so that a cursor over a bad stripe ends, too.
    ///
    /// Refusals: those of `StripeView::rows`, and `Failed` after each of them.
    pub fn next(&mut self) -> Result<Option<Row<'a>>, StripeFault>
        // If rows are the cursor's remaining rows, then `next` returns the first of them and leaves the others as its
        // remaining rows, or returns `None` if there are none, or fails with `OutOfMemory`. Conversely, a returned row
        // and the rows that remain after it were the remaining rows before the call, and `None` is returned only if the
        // cursor had no rows left.
        ensures found { IfOk result (Gave self.old self.new) }
        ensures only { (rows : List Cell) → StandsFor self.old rows
            → MatchResult result (GivesRow rows self.new) (λ fault. fault ≡ OutOfMemory) }
        // The number of rows that are still to come falls by one if a row is returned, and stays if `None` is returned.
        ensures fewer { IfOk result (CountsDown self.old self.new) }
        // If `next` doesn't fail and the cursor's streams, read for the rows still to come, have a fault after the
        // call, then the streams had this fault before the call.
        ensures before { OnOk result ((f : Fault) → MeetsFault self.new f → MeetsFault self.old f) }
        // If `next` fails with an error other than `OutOfMemory` and `Failed`, then the cursor's streams, read for the
        // rows still to come, had this fault before the call.
        ensures fault { IfErr result (λ fault. fault ≢ OutOfMemory → fault ≢ Failed → MeetsFault self.old fault) }
        // If the cursor has failed before, then `next` fails with `Failed`. `Failed` is returned in no other case.
        // After an error the cursor has failed, and after a row or `None` it has not.
        ensures failed { HasRefused self.old → result ≡ Err Failed }
        ensures first { IfErr result (λ fault. fault ≡ Failed → HasRefused self.old) }
        ensures after { OnErr result (HasRefused self.new) }
        ensures going { OnOk result (IsGoing self.new) }
    {
        if self.failed {
            return Err(StripeFault::Failed);
        }
        match self.advance() {
            Ok(row) => Ok(row),
            Err(fault) => {
                self.failed = true;
                Err(fault)
            }
        }
    }

    /// The same of a cursor that was never refused.
    fn advance(&mut self) -> Result<Option<Row<'a>>, StripeFault>
        requires going { IsGoing self.old }
        ensures found { IfOk result (Gave self.old self.new) }
        ensures only { (rows : List Cell) → StandsFor self.old rows
            → MatchResult result (GivesRow rows self.new) (λ fault. fault ≡ OutOfMemory) }
        ensures fewer { IfOk result (CountsDown self.old self.new) }
        ensures before { OnOk result ((f : Fault) → MeetsFault self.new f → MeetsFault self.old f) }
        ensures fault { IfErr result (λ fault. fault ≢ OutOfMemory → MeetsFault self.old fault) }
        ensures going { IsGoing self.new }
        ensures other { IfErr result (λ fault. fault ≢ Failed) }
    {
        if self.left == 0 {
            return match cells_end(self.tree, &self.readers) {
                Ok(()) => Ok(None),
                Err(fault) => Err(fault),
            };
        }
        match next_cell(self.alloc, self.tree, &mut self.readers) {
            Ok(row) => {
                self.left -= 1;
                Ok(Some(row))
            }
            Err(fault) => Err(fault),
        }
    }

    /// Puts the text of the next row, by a layout of the rows' type, without the row being made, and says whether there was
    /// one. At the end, once nothing is found left over in any stream, nothing is put. If no struct of the type names a field
    /// twice, `layout_of` of `orc_json_printer` returns such a layout.
    ///
    /// Refusals: those of `next`, but that memory is wanted for the output alone. What is put before one of them is left
    /// open.
    pub fn push_next<T: TextOutput>(
        &mut self,
        layout: &Layout,
        out: &mut T,
    ) -> Result<bool, StripeFault>
        requires laid_out { IsLaidOut (row_type self.old) layout.now }
        // The text of the first of the rows, by the layout, is put, and true answered; or nothing,
        // and false, where there are none, unless an output that grows is refused memory.
        ensures found { IfOk result (GaveText T.holds (StandsFor self.old) (StandsFor self.new) (text_by layout.now)
            out.old out.new) }
        ensures only { (rows : List Cell) → StandsFor self.old rows
            → MatchResult result (GivesText T.holds rows (StandsFor self.new) (text_by layout.now) out.old out.new)
            (λ fault. (fault ≡ OutOfMemory) × (T.grows ≡ true)) }
        // The rows' type stays.
        ensures of_type { row_type self.new ≡ row_type self.old }
        // A row whose text is put is one fewer to come.
        ensures fewer { IfOk result (CountsDownWhere self.old self.new) }
        // A fault that is met in the streams after an answer was met before it.
        ensures before { OnOk result ((f : Fault) → MeetsFault self.new f → MeetsFault self.old f) }
        // A refusal but want of memory and Failed is a fault of what is left of the streams, which
        // are to give as many rows as are still to come.
        ensures fault { IfErr result (λ fault. fault ≢ OutOfMemory → fault ≢ Failed → MeetsFault self.old fault) }
        // From a refusal on the cursor answers Failed, and not before.
        ensures failed { HasRefused self.old → result ≡ Err Failed }
        ensures first { IfErr result (λ fault. fault ≡ Failed → HasRefused self.old) }
        ensures after { OnErr result (HasRefused self.new) }
        ensures going { OnOk result (IsGoing self.new) }
    {
        if self.failed {
            return Err(StripeFault::Failed);
        }
        match push_next(self.tree, layout, &mut self.readers, &mut self.left, out) {
            Ok(some) => Ok(some),
            Err(fault) => {
                self.failed = true;
                Err(fault)
            }
        }
    }

    /// All rows that are still to come. No memory is set aside by a number that was read.
    ///
    /// Refusals: those of `StripeView::rows`, and `Failed` after one of them.
    pub fn rest(mut self) -> Result<Vec<Row<'a>>, StripeFault>
        // All rows that are still to come are answered at once, unless memory is refused.
        ensures found { IfOk result (λ rows. StandsFor self.entry (views rows.items)) }
        ensures only { (rows : List Cell) → StandsFor self.entry rows
            → MatchResult result (λ answered. views answered.items ≡ rows) (λ fault. fault ≡ OutOfMemory) }
        // A refusal but want of memory and Failed is a fault of what is left of the streams, which
        // are to give as many rows as are still to come.
        ensures fault { IfErr result (λ fault. fault ≢ OutOfMemory → fault ≢ Failed → MeetsFault self.entry fault) }
        // Failed is answered of a cursor that was refused, and of no other.
        ensures failed { HasRefused self.entry → result ≡ Err Failed }
        ensures first { IfErr result (λ fault. fault ≡ Failed → HasRefused self.entry) }
    {
        if self.failed {
            return Err(StripeFault::Failed);
        }
        let (alloc, left) = (self.alloc, self.left);
        match next_cells(alloc, self.tree, &mut self.readers, left) {
            Ok(rows) => match cells_end(self.tree, &self.readers) {
                Ok(()) => Ok(rows),
                Err(fault) => Err(fault),
            },
            Err(fault) => Err(fault),
        }
    }
}
