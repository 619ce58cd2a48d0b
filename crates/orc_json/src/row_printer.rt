//! Printing the rows of a schema.
ghost use Rattle.std.specs.Prelude.{◌≡◌, true, false, IfOk, IfSome, MatchOption};
ghost use Rattle.orc_json_rows.specs.FieldNames.{is_distinct};
ghost use Rattle.orc_json_printer.specs.LaidOut.{IsLaidOut};
ghost use Rattle.orc_json_printer.specs.Layouts.{text_by};
ghost use Rattle.orc_json_printer.specs.Texts.{Prints};

use orc_json_printer::layout::{Layout, layout_of};
use orc_types::Schema;
use std::alloc::{AllocError, Global};
use std::marker::Model;
use std::snapshot::Snapshot;

/// Keeps the layout by which the rows of a schema are printed as JSON. The order of each struct's members is found once, and
/// not for each row. Contracts see the schema that the printer is for.
#[derive(Drop)]
pub struct RowPrinter {
    layout: Layout,
    // whether no struct names a field twice
    distinct: bool,
    schema: Snapshot<Schema>,
}

impl Model for RowPrinter {
    ghost use Rattle.orc_values.specs.Shapes.{Shape};
    ghost use Rattle.orc_values.specs.Coding.{coded_shape};
    ghost use Rattle.orc_json.specs.Printers.{shape_of, PrintsRows};

    ghost Value = { Shape };

    ghost coded = { coded_shape };

    ghost view = { shape_of };

    ghost invariant = { PrintsRows };
}

impl RowPrinter {
    /// Makes the printer of a schema's rows. If a struct of the schema names a field twice, only its rows are refused, because a
    /// file of such a schema may have none.
    ///
    /// # Errors
    ///
    /// It fails only if memory runs out.
    pub fn new(alloc: Global, schema: &Schema) -> Result<RowPrinter, AllocError>
        // If the call succeeds, then the printer is for this schema.
        ensures { IfOk result (λ printer. printer ≡ schema.now) }
    {
        let layout = layout_of(alloc, schema.tree())?;
        Ok(RowPrinter {
            layout,
            distinct: schema.has_distinct_names(),
            schema: Snapshot::of(schema),
        })
    }

    /// Returns the layout by which the rows are printed, or `None` if some struct of the schema names a field twice, because
    /// such rows have no JSON.
    pub fn layout(&self) -> Option<&Layout>
        // A layout is returned if, and only if, no struct of the schema names a field twice. Then the layout's text of each
        // row that fits is the row's JSON.
        ensures text { MatchOption result (is_distinct self.now ≡ false)
            (λ layout. (is_distinct self.now ≡ true) × Prints (text_by layout.now) self.now) }
        // A layout that is returned is one of the rows' type, as readers of columns require.
        ensures laid_out { IfSome result (λ layout. IsLaidOut self.now layout.now) }
    {
        if !self.distinct {
            return None;
        }
        Some(&self.layout)
    }
}
