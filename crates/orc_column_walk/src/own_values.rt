//! The end of a column's values, for every kind: of values, or of the sizes of lists or maps.
ghost use Rattle.std.specs.Prelude.{[], true, MatchBool};
ghost use Rattle.orc_values.specs.Views.{shape};
ghost use Rattle.orc_column_reader.specs.ReaderFaults.{ListsMeet, ValuesMeet};
ghost use Rattle.orc_column_walk.specs.OwnLeft.{OwnValuesLeft, SizesLeft};

use orc_column_reader::{ValueSource, numbers_end, numbers_left, scalar_end, scalar_left};
use orc_directory::{StreamKind, StripeFault, run_fault};
use orc_values::Tree;

/// Returns whether no size is left.
fn sizes_end(source: &ValueSource<'_>) -> bool
    ensures { MatchBool result (SizesLeft source.now []) (SizesLeft source.now [] → ⊥) }
{
    numbers_end(&source.numbers)
}

/// Returns whether no value of the column is left.
pub(crate) fn values_end(tree: &Tree, source: &ValueSource<'_>) -> bool
    ensures { MatchBool result
        (OwnValuesLeft (shape tree.now) source.now [])
        (OwnValuesLeft (shape tree.now) source.now [] → ⊥) }
{
    match tree {
        Tree::Scalar(kind, _) => scalar_end(source, *kind),
        Tree::List(_, _) => sizes_end(source),
        Tree::Map(_, _, _) => sizes_end(source),
        Tree::Struct(_, _) => true,
    }
}

/// Returns the error of sizes that are left over.
fn sizes_left(source: &ValueSource<'_>) -> StripeFault
    requires more { SizesLeft source.now [] → ⊥ }
    ensures { ListsMeet source.now true 0 result }
{
    run_fault(
        source.column,
        StreamKind::Length,
        numbers_left(&source.numbers),
    )
}

/// Returns the error of values that are left over.
pub(crate) fn values_left(tree: &Tree, source: &ValueSource<'_>) -> StripeFault
    requires more { OwnValuesLeft (shape tree.now) source.now [] → ⊥ }
    ensures { ValuesMeet (shape tree.now) source.now true 0 result }
{
    match tree {
        Tree::Scalar(kind, _) => scalar_left(source, *kind),
        Tree::List(_, _) => sizes_left(source),
        Tree::Map(_, _, _) => sizes_left(source),
        Tree::Struct(_, _) => unreachable!(),
    }
}
