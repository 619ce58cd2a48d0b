//! The rows of an opened stripe: a cursor at the first of them or at a group, or those from a group on.
ghost use Rattle.std.specs.Prelude.{◌≡◌, ◌≢◌, List, IfOk, IfErr};
ghost use Rattle.orc_values.specs.Cells.{Cell};
ghost use Rattle.orc_values.specs.Views.{views};
ghost use Rattle.orc_directory.specs.declared.fault.StripeFault.TheVariants.{OutOfMemory};
ghost use Rattle.orc_stripe_reader.specs.Cursors.{row_type, StandsFor};
ghost use Rattle.orc_cli_rows.specs.FromGroup.{AreRowsFrom, StopsFrom};
ghost use Rattle.orc_cli_rows.specs.OneStripe.{IsOpened, AreRowsOf, HasNoRows};

use orc_directory::StripeFault;
use orc_stripe_reader::{RowCursor, StripeView};
use orc_values::Row;
use std::alloc::Global;

/// The rows from a group on.
pub(crate) fn rows_from<'a>(
    alloc: Global,
    view: &StripeView<'a>,
    group: u32,
) -> Result<Vec<Row<'a>>, StripeFault>
    ensures found { IfOk result (λ rows. AreRowsFrom view.now group (views rows.items)) }
    ensures fault { IfErr result (λ why. why ≢ OutOfMemory → StopsFrom view.now group why) }
{
    match view.cursor_at(alloc, u64::from(group)) {
        Ok(cursor) => cursor.rest(),
        Err(why) => Err(why),
    }
}

/// A cursor at the first row of the stripe, or at the first from a group on.
pub(crate) fn cursor_of<'a>(
    alloc: Global,
    view: &StripeView<'a>,
    from: Option<u32>,
) -> Result<RowCursor<'a>, StripeFault>
    requires opened { IsOpened view.now }
    ensures found { IfOk result (λ cursor. (rows : List Cell) → StandsFor cursor rows → AreRowsOf view.now from rows) }
    ensures stands { IfOk result (λ cursor. (rows : List Cell) → AreRowsOf view.now from rows → StandsFor cursor rows) }
    ensures of_type { IfOk result (λ cursor. row_type cursor ≡ view.now.schema) }
    ensures fault { IfErr result (λ why. why ≢ OutOfMemory → HasNoRows view.now from why) }
{
    match from {
        None => view.cursor(alloc),
        Some(group) => view.cursor_at(alloc, u64::from(group)),
    }
}
