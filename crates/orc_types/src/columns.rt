//! The cells of a schema's column, found among rows.
ghost use Rattle.std.specs.Prelude.{◌≡◌, ◌<◌, IfOk, IfErr};
ghost use Rattle.orc_values.specs.Shapes.{width};
ghost use Rattle.orc_values.specs.Columns as spec;
ghost use Rattle.orc_values.specs.Views.{views, lent_views};
ghost use Rattle.orc_trees.specs.declared.fault.TypeFault.TheVariants.{OutOfMemory};

use crate::schema::Schema;
use orc_trees::{TypeFault, cells_of, lend_all};
use orc_values::Row;
use std::alloc::Global;

/// The cells of a column: of the root all the rows, of a list's child the elements of the lists that
/// are not null, of a map's children the keys, and the values, of the maps that are not null, of a
/// struct's field that field of the structs that are not null, in order (ORC specification, "Column
/// Encodings").
///
/// Refusal: `OutOfMemory`.
pub fn cells<'r, 'a>(
    alloc: Global,
    schema: &Schema,
    column: usize,
    rows: &'r [Row<'a>],
) -> Result<Vec<&'r Row<'a>>, TypeFault>
    requires { column < width schema.now }
    // If the schema has `column`, then the returned cells are exactly the column's cells in `rows`, in order.
    ensures found { IfOk result (λ found. lent_views found.items ≡ spec.cells schema.now column (views rows.now)) }
    // If the schema has `column`, then the only error is `OutOfMemory`.
    ensures fault { IfErr result (λ fault. fault ≡ OutOfMemory) }
{
    let mut found = Vec::new(alloc);
    lend_all(&mut found, rows)?;
    Ok(cells_of(alloc, schema.tree(), column, found)?)
}
