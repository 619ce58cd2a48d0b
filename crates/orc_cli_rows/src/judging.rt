//! Whether a stripe has rows, or has them from a group on, without any being held.
ghost use Rattle.std.specs.Prelude.{◌≡◌, ◌≢◌, [], false, List, OnOk, IfErr};
ghost use Rattle.orc_values.specs.Cells.{Cell};
ghost use Rattle.orc_json_rows.specs.FieldNames.{is_distinct};
ghost use Rattle.orc_column_reader.specs.Stripe.{IsStripe};
ghost use Rattle.orc_directory.specs.declared.fault.StripeFault.TheVariants.{OutOfMemory};
ghost use Rattle.orc_json_printer.specs.LaidOut.{IsLaidOut};
ghost use Rattle.orc_file_reader.specs.FileRows.{IsNoStripe};
ghost use Rattle.orc_cli_rows.specs.Rows.{RefusesRows};
ghost use Rattle.orc_cli_rows.specs.FromGroup.{AreRowsFrom, StopsFrom};
ghost use Rattle.orc_cli_rows.specs.OneStripe.{IsOpened, AreRowsOf, HasNoRows, HasNoLines};

use crate::lines::put_lines;
use crate::nowhere::Nowhere;
use crate::reading::rows_from;
use orc_cli_output::CliFault;
use orc_column_walk::walk_columns;
use orc_directory::StripeFault;
use orc_json_printer::layout::Layout;
use orc_json_rows::JsonFault;
use orc_stripe_reader::StripeView;
use orc_tail::stripe_fault;
use std::alloc::Global;

/// Reads all columns of a stripe, one after the other, and holds none.
fn walk(alloc: Global, view: &StripeView<'_>) -> Result<(), StripeFault>
    ensures found { OnOk result ((rows : List Cell) × IsStripe view.now.schema view.now.info view.now.bytes rows) }
    ensures fault { IfErr result (λ why. why ≢ OutOfMemory
        → IsNoStripe view.now.schema view.now.info view.now.bytes why) }
{
    let located = view.locate(alloc)?;
    walk_columns(
        alloc,
        view.tree(),
        view.footer(),
        &located,
        view.number_of_rows(),
    )
}

/// Reads what stands behind a group's positions, row by row, and holds none.
fn walk_from(
    alloc: Global,
    view: &StripeView<'_>,
    group: u32,
    layout: &Layout,
) -> Result<(), StripeFault>
    requires laid_out { IsLaidOut view.now.schema layout.now }
    ensures found { OnOk result ((rows : List Cell) × AreRowsFrom view.now group rows) }
    ensures fault { IfErr result (λ why. why ≢ OutOfMemory → StopsFrom view.now group why) }
{
    let mut nowhere = Nowhere;
    match view.cursor_at(alloc, u64::from(group)) {
        Ok(mut cursor) => put_lines(&mut cursor, layout, &mut nowhere),
        Err(why) => Err(why),
    }
}

/// Tests that the stripe with this number has rows, or has them from a group on.
///
/// Refusals: `File` with `Stripe` where it has none, or with `OutOfMemory`.
pub(crate) fn judge(
    alloc: Global,
    number: usize,
    view: &StripeView<'_>,
    from: Option<u32>,
    layout: &Layout,
) -> Result<(), CliFault>
    requires laid_out { IsLaidOut view.now.schema layout.now }
    ensures found { OnOk result ((rows : List Cell) × AreRowsOf view.now from rows) }
    ensures refused { IfErr result (HasNoLines view.now from number) }
    ensures layer { IfErr result RefusesRows }
{
    let walked = match from {
        None => walk(alloc, view),
        Some(group) => walk_from(alloc, view, group, layout),
    };
    match walked {
        Ok(()) => Ok(()),
        Err(why) => Err(CliFault::File(stripe_fault(number, why))),
    }
}

/// Reads the rows of a type that has no JSON.
fn read_rows(alloc: Global, view: &StripeView<'_>, from: Option<u32>) -> Result<(), StripeFault>
    requires opened { IsOpened view.now }
    ensures found { OnOk result ((rows : List Cell) × AreRowsOf view.now from rows) }
    ensures fault { IfErr result (λ why. why ≢ OutOfMemory → HasNoRows view.now from why) }
{
    match from {
        None => walk(alloc, view),
        Some(group) => match rows_from(alloc, view, group) {
            Ok(_) => Ok(()),
            Err(why) => Err(why),
        },
    }
}

/// The answer for a stripe of a schema with a struct that names a field twice: rows have no JSON, and of none nothing is
/// printed.
///
/// Refusals: those of `judge`; `Json` with `DuplicateField` where there are rows.
pub(crate) fn refuse_names(
    alloc: Global,
    number: usize,
    view: &StripeView<'_>,
    from: Option<u32>,
) -> Result<(), CliFault>
    requires opened { IsOpened view.now }
    requires twice { is_distinct view.now.schema ≡ false }
    ensures none { OnOk result (AreRowsOf view.now from []) }
    ensures refused { IfErr result (HasNoLines view.now from number) }
    ensures layer { IfErr result RefusesRows }
{
    if let Err(why) = read_rows(alloc, view, from) {
        return Err(CliFault::File(stripe_fault(number, why)));
    }
    if view.number_of_rows() > 0 {
        return Err(CliFault::Json(JsonFault::DuplicateField));
    }
    Ok(())
}
