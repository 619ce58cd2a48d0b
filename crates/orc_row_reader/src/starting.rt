//! The readers of a schema's columns at the start of their streams, down the schema's tree.

ghost use Rattle.std.specs.Prelude.{◌≢◌, ◌<◌, ◌≤◌, ◌+◌, ℕ, false, List, length, IfErr, OnOk};
ghost use Rattle.orc_values.specs.Cells.{Cell};
ghost use Rattle.orc_values.specs.Shapes.{width, widths};
ghost use Rattle.orc_values.specs.Views.{shape, fields as fields_view};
ghost use Rattle.orc_column_reader.specs.Faults.{FaultDown, FaultWithin};
ghost use Rattle.orc_directory.specs.Located.{AreLocated};
ghost use Rattle.orc_column_reader.specs.Starting.{PutsReaders, PutsFields};
ghost use Rattle.orc_column_reader.specs.Stripe.{columns_of, columns_from, SpellsCells, SpellsFields};
ghost use Rattle.orc_directory.specs.declared.fault.StripeFault.TheVariants.{OutOfMemory};

use orc_column_reader::{ColumnReader, reader_of};
use orc_directory::{Located, StripeFault};
use orc_values::{Field, Tree};
use orc_wire::StripeFooter;
use std::alloc::Global;

/// Puts the readers of a column and of those below it after those of the columns before.
///
/// # Errors
///
/// Those of `reader_of`, for any of these columns.
#[cycle(starting)]
pub fn put_tree<'a>(
    alloc: Global,
    tree: &Tree,
    footer: &StripeFooter,
    located: &Located<'a>,
    readers: &mut Vec<ColumnReader<'a>>,
) -> Result<(), StripeFault>
    requires there { length readers.old.items + width (shape tree.now) ≤ length footer.now.columns }
    requires located { AreLocated (length footer.now.columns) footer.now.streams
        located.now.bytes.now located.now.slices.items }
    // If the columns have encodings in `footer`, `located` has the streams that `footer` names, and the call
    // succeeds, then one reader for the column and for each column below it was put after those that were there, in
    // the order of the columns' numbers, each at the start of its streams and with its column's number.
    ensures found { OnOk result (PutsReaders footer.now located.now.bytes.now
        (shape tree.now) readers.old.items readers.new.items) }
    // If the columns have encodings in `footer`, `located` has the streams that `footer` names, and the call fails
    // other than with `OutOfMemory`, then the streams store no list of cells of the type.
    ensures none { IfErr result (λ fault. fault ≢ OutOfMemory → (cells : List Cell)
        → SpellsCells (shape tree.now) (columns_from footer.now located.now.bytes.now (length readers.old.items)) cells
        → ⊥) }
    // If the columns have encodings in `footer`, `located` has the streams that `footer` names, and the call fails
    // other than with `OutOfMemory`, then the error is one of the column or of a column below it, whatever number of
    // cells, or more, it needs.
    ensures fault { IfErr result (λ cause. cause ≢ OutOfMemory
        → (count : ℕ) → FaultDown (shape tree.now) (columns_of footer.now located.now.bytes.now)
        (length readers.old.items) false count cause) }
{
    let own = reader_of(alloc, tree, readers.len(), footer, located)?;
    readers.push(own)?;
    match tree {
        Tree::Scalar(_, _) => Ok(()),
        Tree::List(element, _) => put_tree(alloc, element, footer, located, readers),
        Tree::Map(key, value, _) => {
            put_tree(alloc, key, footer, located, readers)?;
            put_tree(alloc, value, footer, located, readers)
        }
        Tree::Struct(fields, _) => put_fields(alloc, fields, footer, located, readers),
    }
}

/// Puts the readers of the fields' columns after those of the columns before.
#[cycle(starting)]
fn put_fields<'a>(
    alloc: Global,
    fields: &[Field],
    footer: &StripeFooter,
    located: &Located<'a>,
    readers: &mut Vec<ColumnReader<'a>>,
) -> Result<(), StripeFault>
    requires there { length readers.old.items + widths (fields_view fields.now) ≤ length footer.now.columns }
    requires located { AreLocated (length footer.now.columns) footer.now.streams
        located.now.bytes.now located.now.slices.items }
    ensures found { OnOk result (PutsFields footer.now located.now.bytes.now
        (fields_view fields.now) readers.old.items readers.new.items) }
    ensures none { IfErr result (λ fault. fault ≢ OutOfMemory → (structs : List (List Cell))
        → SpellsFields (fields_view fields.now)
        (columns_from footer.now located.now.bytes.now (length readers.old.items)) structs
        → ⊥) }
    ensures fault { IfErr result (λ cause. cause ≢ OutOfMemory
        → (count : ℕ) → FaultWithin (fields_view fields.now) (columns_of footer.now located.now.bytes.now)
        (length readers.old.items) false count cause) }
{
    match fields {
        [] => Ok(()),
        [first, others @ ..] => {
            put_tree(alloc, &first.tree, footer, located, readers)?;
            put_fields(alloc, others, footer, located, readers)
        }
    }
}
