//! The values of a column without those below it, for every kind, and how many children they have.
ghost use Rattle.std.specs.Prelude.{◌≡◌, ◌≢◌, Bool, List, length, IfOk, IfErr};
ghost use Rattle.orc_values.specs.Cells.{Cell};
ghost use Rattle.orc_values.specs.Views.{shape};
ghost use Rattle.orc_column_reader.specs.ReaderFaults.{ValuesMeet};
ghost use Rattle.orc_directory.specs.declared.fault.StripeFault.TheVariants.{OutOfMemory};
ghost use Rattle.orc_column_walk.specs.OwnLeft.{OwnValuesLeft, children};

use crate::scalars::read_scalars;
use crate::sizes::sum_sizes;
use orc_column_reader::ValueSource;
use orc_directory::StripeFault;
use orc_values::Tree;

/// Reads all values of a column, of which there must be `count`, and returns how many children they have: elements of
/// lists, pairs of maps, or structs, each of which has one child in each field.
pub(crate) fn read_values(
    tree: &Tree,
    source: &mut ValueSource<'_>,
    count: usize,
) -> Result<usize, StripeFault>
    ensures found { IfOk result (λ below. (values : List Cell)
        × (length values ≡ count)
        × OwnValuesLeft (shape tree.now) source.old values
        × (below ≡ children (shape tree.now) values)) }
    ensures none { IfErr result (λ fault. fault ≢ OutOfMemory
        → (values : List Cell) → OwnValuesLeft (shape tree.now) source.old values → length values ≡ count → ⊥) }
    ensures fault { IfErr result (λ cause. cause ≢ OutOfMemory
        → (all : Bool) × ValuesMeet (shape tree.now) source.old all count cause) }
{
    match tree {
        Tree::Scalar(kind, _) => {
            read_scalars(source, *kind, count)?;
            Ok(0)
        }
        Tree::List(_, _) => sum_sizes(source, count),
        Tree::Map(_, _, _) => sum_sizes(source, count),
        Tree::Struct(_, _) => Ok(count),
    }
}
