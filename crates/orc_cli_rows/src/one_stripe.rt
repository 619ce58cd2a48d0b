//! The lines of one stripe's rows, or of those from a group on.
ghost use Rattle.std.specs.Prelude.{◌≡◌, ◌++◌, true, false, List, IfOk, OnOk, IfErr, OnErr};
ghost use Rattle.std.specs.Io.KnownBytes.{Appends};
ghost use Rattle.orc_values.specs.Cells.{Cell};
ghost use Rattle.orc_json_rows.specs.FieldNames.{is_distinct};
ghost use Rattle.orc_json_printer.specs.LaidOut.{IsLaidOut};
ghost use Rattle.orc_json_printer.specs.Layouts.{text_by};
ghost use Rattle.orc_json_printer.specs.Texts.{Prints};
ghost use Rattle.orc_stripe_reader.specs.Cursors.{row_type, StandsFor};
ghost use Rattle.orc_cli_output.specs.Output.{write_failed, AppendsPart};
ghost use Rattle.orc_cli_rows.specs.Rows.{RefusesRows};
ghost use Rattle.orc_cli_rows.specs.Pieces.{text_lines};
ghost use Rattle.orc_cli_rows.specs.OneStripe.{IsOpened, AreRowsOf, IsPrinted, EndsWithin};
ghost use Rattle.orc_cli_rows.specs.Plans.{IsPlanOf};

use crate::held::Held;
use crate::judging::{judge, refuse_names};
use crate::lines::{hold_lines, put_lines};
use crate::pieces::Pieces;
use crate::plan::Plan;
use crate::reading::cursor_of;
use orc_cli_output::{CliFault, write_out};
use orc_directory::StripeFault;
use orc_json_printer::TextOutput;
use orc_json_printer::layout::Layout;
use orc_stripe_reader::{RowCursor, StripeView};
use orc_tail::{FileFault, stripe_fault};
use std::alloc::Global;
use std::io::Write;

/// Lines that are held, those of all rows where reading ended, else those of the first ones; the cursor has the others.
#[derive(Drop)]
struct Front<'a> {
    lines: Vec<u8>,
    ended: bool,
    cursor: RowCursor<'a>,
}

/// Holds the first lines, if nothing refuses them. They are made as the rows are read.
fn hold_front<'a>(
    alloc: Global,
    view: &StripeView<'a>,
    from: Option<u32>,
    layout: &Layout,
) -> Result<Front<'a>, StripeFault>
    requires opened { IsOpened view.now }
    requires laid_out { IsLaidOut view.now.schema layout.now }
    ensures all { IfOk result (λ front. front.ended ≡ true → (rows : List Cell) × AreRowsOf view.now from rows
        × (front.lines.items ≡ text_lines (text_by layout.now) rows)) }
    ensures some { IfOk result (λ front. front.ended ≡ false → (rows : List Cell) → AreRowsOf view.now from rows
        → (rest : List Cell) × StandsFor front.cursor rest
        × (front.lines.items ++ text_lines (text_by layout.now) rest ≡ text_lines (text_by layout.now) rows)) }
    ensures of_type { IfOk result (λ front. row_type front.cursor ≡ view.now.schema) }
{
    let mut cursor = cursor_of(alloc, view, from)?;
    let mut held = Held::new(alloc);
    let ended = hold_lines(&mut cursor, layout, &mut held)?;
    Ok(Front {
        lines: held.into_text(),
        ended,
        cursor,
    })
}

/// Prints text, and behind it the lines of the rows that a cursor has still to give, in pieces, as they are read.
///
/// Refusal: `File` with `WriteFailed`.
fn print_pieces<W: Write>(
    cursor: &mut RowCursor<'_>,
    layout: &Layout,
    front: &[u8],
    out: &mut W,
) -> Result<(), CliFault>
    requires laid_out { IsLaidOut (row_type cursor.old) layout.now }
    requires good { (rows : List Cell) × StandsFor cursor.old rows }
    ensures written { (rows : List Cell) → StandsFor cursor.old rows → OnOk result
        (Appends (W.contents out.old) (W.contents out.new) (front.now ++ text_lines (text_by layout.now) rows)) }
    ensures part { (rows : List Cell) → StandsFor cursor.old rows → OnErr result
        (AppendsPart (W.contents out.old) (W.contents out.new) (front.now ++ text_lines (text_by layout.now) rows)) }
    ensures refused { IfErr result (λ fault. fault ≡ write_failed) }
{
    let mut pieces = Pieces::new(out);
    match pieces.put(front) {
        Ok(()) => {}
        Err(_) => unreachable!(),
    }
    match put_lines(cursor, layout, &mut pieces) {
        Ok(()) => {}
        Err(_) => unreachable!(),
    }
    let (back, failed) = pieces.finish();
    // Nothing is done by it: it says that `out` is what `back` was last.
    let _ = &*back;
    if failed {
        return Err(CliFault::File(FileFault::WriteFailed));
    }
    Ok(())
}

/// Prints the lines of the stripe with this number, of which none are held: once its rows were read and none is refused,
/// they go out as they are read again. No memory is wanted then, so nothing but the output ends them.
fn print_judged<W: Write>(
    alloc: Global,
    number: usize,
    view: &StripeView<'_>,
    from: Option<u32>,
    layout: &Layout,
    out: &mut W,
) -> Result<(), CliFault>
    requires opened { IsOpened view.now }
    requires distinct { is_distinct view.now.schema ≡ true }
    requires prints { Prints (text_by layout.now) view.now.schema }
    requires laid_out { IsLaidOut view.now.schema layout.now }
    ensures written { OnOk result (IsPrinted view.now from (W.contents out.old) (W.contents out.new)) }
    ensures refused { IfErr result (EndsWithin view.now from number (W.contents out.old) (W.contents out.new)) }
    ensures layer { IfErr result RefusesRows }
{
    judge(alloc, number, view, from, layout)?;
    match cursor_of(alloc, view, from) {
        Ok(mut cursor) => print_pieces(&mut cursor, layout, b"", out),
        Err(why) => Err(CliFault::File(stripe_fault(number, why))),
    }
}

/// Prints the lines of the stripe with this number as its rows are read. They are held, up to a bound, until the last row is
/// read. Where they are more, it is found first that no row is refused, and then those behind go out as they are read.
fn print_read<W: Write>(
    alloc: Global,
    number: usize,
    view: &StripeView<'_>,
    from: Option<u32>,
    layout: &Layout,
    out: &mut W,
) -> Result<(), CliFault>
    requires opened { IsOpened view.now }
    requires distinct { is_distinct view.now.schema ≡ true }
    requires prints { Prints (text_by layout.now) view.now.schema }
    requires laid_out { IsLaidOut view.now.schema layout.now }
    ensures written { OnOk result (IsPrinted view.now from (W.contents out.old) (W.contents out.new)) }
    ensures refused { IfErr result (EndsWithin view.now from number (W.contents out.old) (W.contents out.new)) }
    ensures layer { IfErr result RefusesRows }
{
    if let Ok(front) = hold_front(alloc, view, from, layout) {
        let Front {
            lines,
            ended,
            mut cursor,
        } = front;
        if ended {
            return write_out(out, &lines);
        }
        if judge(alloc, number, view, from, layout).is_ok() {
            return print_pieces(&mut cursor, layout, &lines, out);
        }
    }
    // what was held is gone, so that its memory is there for another try
    print_judged(alloc, number, view, from, layout, out)
}

/// Prints the lines of the stripe with this number, or of its rows from a group on, by a plan.
pub(crate) fn print_view<W: Write>(
    alloc: Global,
    plan: Plan<'_>,
    number: usize,
    view: &StripeView<'_>,
    from: Option<u32>,
    out: &mut W,
) -> Result<(), CliFault>
    requires opened { IsOpened view.now }
    requires planned { IsPlanOf view.now.schema plan }
    ensures written { OnOk result (IsPrinted view.now from (W.contents out.old) (W.contents out.new)) }
    ensures refused { IfErr result (EndsWithin view.now from number (W.contents out.old) (W.contents out.new)) }
    ensures layer { IfErr result RefusesRows }
{
    match plan {
        Plan::Straight(layout) => print_read(alloc, number, view, from, layout, out),
        Plan::Refused => refuse_names(alloc, number, view, from),
    }
}
