//! Tests that the readers of a schema's columns have nothing left.

ghost use Rattle.std.specs.Prelude.{◌≡◌, ◌+◌, [], true, length, IfErr, OnOk, OnErr};
ghost use Rattle.orc_values.specs.Shapes.{width, widths};
ghost use Rattle.orc_values.specs.Views.{shape, fields as fields_view};
ghost use Rattle.orc_column_reader.specs.Columns.{CellsLeft, OwnLeft, PairsLeft, FieldsLeft};
ghost use Rattle.orc_column_reader.specs.ReaderFaults.{CellsMeet, OwnMeet, PairsMeet, FieldsMeet};

use orc_column_reader::{
    ColumnReader, marks_end, marks_left, numbers_end, numbers_left, scalar_end, scalar_left,
};
use orc_directory::{StreamKind, StripeFault, run_fault};
use orc_values::{Field, Tree, width_of};

/// Tests that no cell of a column and of the columns below it is left.
///
/// # Errors
///
/// - `Run`, if marks, sizes or values in runs are left over.
/// - `LengthSum`, if the bytes of texts or byte strings are left over.
#[cycle(ending)]
pub fn cells_end(tree: &Tree, readers: &[ColumnReader<'_>]) -> Result<(), StripeFault>
    requires { length readers.now ≡ width (shape tree.now) }
    // If there is one reader for each column of the type, then the call succeeds if and only if the readers have no
    // cell left.
    ensures all { OnOk result (CellsLeft (shape tree.now) readers.now []) }
    ensures more { OnErr result (CellsLeft (shape tree.now) readers.now [] → ⊥) }
    // If there is one reader for each column of the type, then an error is one that the readers meet which must have
    // given all cells.
    ensures fault { IfErr result (CellsMeet (shape tree.now) readers.now true 0) }
{
    let own = &readers[0];
    if !marks_end(&own.present) {
        return Err(run_fault(
            own.source.column,
            StreamKind::Present,
            marks_left(&own.present),
        ));
    }
    values_end(tree, readers)
}

/// Tests that no value of a column and no cell of the columns below it is left.
#[cycle(ending)]
fn values_end(tree: &Tree, readers: &[ColumnReader<'_>]) -> Result<(), StripeFault>
    requires { length readers.now ≡ width (shape tree.now) }
    ensures all { OnOk result (OwnLeft (shape tree.now) readers.now []) }
    ensures more { OnErr result (OwnLeft (shape tree.now) readers.now [] → ⊥) }
    ensures fault { IfErr result (OwnMeet (shape tree.now) readers.now true 0) }
{
    let own = &readers[0];
    match tree {
        Tree::Scalar(kind, _) => {
            if !scalar_end(&own.source, *kind) {
                return Err(scalar_left(&own.source, *kind));
            }
            Ok(())
        }
        Tree::List(element, _) => {
            if !numbers_end(&own.source.numbers) {
                return Err(run_fault(
                    own.source.column,
                    StreamKind::Length,
                    numbers_left(&own.source.numbers),
                ));
            }
            cells_end(element, &readers[1..])
        }
        Tree::Map(key, value, _) => {
            if !numbers_end(&own.source.numbers) {
                return Err(run_fault(
                    own.source.column,
                    StreamKind::Length,
                    numbers_left(&own.source.numbers),
                ));
            }
            pairs_end(key, value, &readers[1..])
        }
        Tree::Struct(fields, _) => fields_end(fields, &readers[1..]),
    }
}

/// Tests that no key and no value of a map's pairs is left.
#[cycle(ending)]
fn pairs_end(key: &Tree, value: &Tree, readers: &[ColumnReader<'_>]) -> Result<(), StripeFault>
    requires { length readers.now ≡ width (shape key.now) + width (shape value.now) }
    ensures all { OnOk result (PairsLeft (shape key.now) (shape value.now) readers.now []) }
    ensures more { OnErr result (PairsLeft (shape key.now) (shape value.now) readers.now [] → ⊥) }
    ensures fault { IfErr result (PairsMeet (shape key.now) (shape value.now) readers.now true 0) }
{
    let own = width_of(key);
    cells_end(key, &readers[..own])?;
    cells_end(value, &readers[own..])
}

/// Tests that no cell of the fields is left.
#[cycle(ending)]
fn fields_end(fields: &[Field], readers: &[ColumnReader<'_>]) -> Result<(), StripeFault>
    requires { length readers.now ≡ widths (fields_view fields.now) }
    ensures all { OnOk result (FieldsLeft (fields_view fields.now) readers.now []) }
    ensures more { OnErr result (FieldsLeft (fields_view fields.now) readers.now [] → ⊥) }
    ensures fault { IfErr result (FieldsMeet (fields_view fields.now) readers.now true 0) }
{
    match fields {
        [] => Ok(()),
        [first, others @ ..] => {
            let own = width_of(&first.tree);
            cells_end(&first.tree, &readers[..own])?;
            fields_end(others, &readers[own..])
        }
    }
}
