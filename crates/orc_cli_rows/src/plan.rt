//! How the rows of a file are printed, which is found once for all of them.
ghost use Rattle.orc_cli_rows.specs.Plans.{IsPlanOf};

use orc_json::RowPrinter;
use orc_json_printer::layout::Layout;

/// How rows are printed.
#[derive(Clone, Copy)]
pub(crate) enum Plan<'a> {
    /// As they are read, by a layout of their type.
    Straight(&'a Layout),
    /// Not at all: a struct of their type names a field twice, so that they have no JSON.
    Refused,
}

/// Returns the plan for the rows of a printer's schema.
pub(crate) fn plan_of(printer: &RowPrinter) -> Plan<'_>
    ensures { IsPlanOf printer.now result }
{
    match printer.layout() {
        Some(layout) => Plan::Straight(layout),
        None => Plan::Refused,
    }
}
