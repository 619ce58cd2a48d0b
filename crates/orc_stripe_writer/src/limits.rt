//! Whether rows are few enough for one stripe: a column has a greatest number of cells.
ghost use Rattle.std.specs.Prelude.{IfOk, IfErr, ◌≡◌, map};
ghost use Rattle.std.specs.Bool.{OnTrue, OnFalse};
ghost use Rattle.orc_values.specs.Cells.{parts, values};
ghost use Rattle.orc_values.specs.Lent.{lent_cells};
ghost use Rattle.orc_values.specs.Views.{views, shape, fields as fields_view};
ghost use Rattle.orc_stripe_writer.specs.Subtrees.{PairsAreFew, FieldsAreFew};
ghost use Rattle.orc_stripe_writer.specs.WrittenStripe.{AreFew};
ghost use Rattle.orc_directory.specs.declared.fault.StripeFault.TheVariants.{OutOfMemory};

use crate::below::{elements_of, fields_of, keys_of, lent_rows, map_values_of};
use orc_directory::StripeFault;
use orc_types::Schema;
use orc_values::{CELL_LIMIT, Field, Lent, Row, Tree};
use std::alloc::{AllocError, Global};

/// Returns whether neither the column nor any column below it has more than 2,147,483,647 cells.
#[cycle(limits)]
fn columns_are_few(alloc: Global, tree: &Tree, cells: &[Lent<'_, '_>]) -> Result<bool, AllocError>
    ensures yes { IfOk result (λ few. OnTrue few (AreFew (shape tree.now) (lent_cells cells.now))) }
    ensures no { IfOk result (λ few. OnFalse few (AreFew (shape tree.now) (lent_cells cells.now) → ⊥)) }
{
    if cells.len() as u64 >= CELL_LIMIT {
        return Ok(false);
    }
    match tree {
        Tree::Scalar(_, _) => Ok(true),
        Tree::List(element, _) => {
            let elements = elements_of(alloc, cells)?;
            columns_are_few(alloc, element, &elements)
        }
        Tree::Map(key, value, _) => pairs_are_few(alloc, key, value, cells),
        Tree::Struct(fields, _) => fields_are_few(alloc, fields, cells),
    }
}

/// Returns whether no column of the maps' keys or values has more than 2,147,483,647 cells.
#[cycle(limits)]
fn pairs_are_few(
    alloc: Global,
    key: &Tree,
    value: &Tree,
    maps: &[Lent<'_, '_>],
) -> Result<bool, AllocError>
    ensures yes { IfOk result
        (λ few. OnTrue few (PairsAreFew (shape key.now) (shape value.now) (lent_cells maps.now))) }
    ensures no { IfOk result
        (λ few. OnFalse few (PairsAreFew (shape key.now) (shape value.now) (lent_cells maps.now) → ⊥)) }
{
    let keys = keys_of(alloc, maps)?;
    if !columns_are_few(alloc, key, &keys)? {
        return Ok(false);
    }
    let map_values = map_values_of(alloc, maps)?;
    columns_are_few(alloc, value, &map_values)
}

/// Returns whether no column of the structs' fields has more than 2,147,483,647 cells.
#[cycle(limits)]
fn fields_are_few(
    alloc: Global,
    fields: &[Field],
    structs: &[Lent<'_, '_>],
) -> Result<bool, AllocError>
    ensures yes { IfOk result
        (λ few. OnTrue few (FieldsAreFew (fields_view fields.now) (map parts (values (lent_cells structs.now))))) }
    ensures no { IfOk result
        (λ few. OnFalse few (FieldsAreFew (fields_view fields.now) (map parts (values (lent_cells structs.now))) → ⊥)) }
{
    for (place, field) in fields.iter().enumerate() {
        let cells = fields_of(alloc, structs, place)?;
        if !columns_are_few(alloc, &field.tree, &cells)? {
            return Ok(false);
        }
    }
    Ok(true)
}

/// Returns whether the rows are few enough for one stripe: whether no column has more than 2,147,483,647 cells.
///
/// # Errors
///
/// `OutOfMemory` if there is no memory.
pub fn are_few(alloc: Global, schema: &Schema, rows: &[Row<'_>]) -> Result<bool, StripeFault>
    // If the call succeeds, then the answer is true if no column of `schema` has more than 2,147,483,647 cells in
    // `rows`, and false otherwise.
    ensures yes { IfOk result (λ few. OnTrue few (AreFew schema.now (views rows.now))) }
    ensures no { IfOk result (λ few. OnFalse few (AreFew schema.now (views rows.now) → ⊥)) }
    // An error is `OutOfMemory`.
    ensures refused { IfErr result (λ fault. fault ≡ OutOfMemory) }
{
    let cells = lent_rows(alloc, rows)?;
    Ok(columns_are_few(alloc, schema.tree(), &cells)?)
}
