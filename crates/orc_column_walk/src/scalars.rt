//! The values of a column whose kind contains no other type, read to the end of their streams.
ghost use Rattle.std.specs.Prelude.{◌≡◌, ◌≢◌, ◌+◌, ℕ, Bool, false, List, length, IfOk, IfErr, OnOk, OnErr};
ghost use Rattle.orc_values.specs.Cells.{Cell};
ghost use Rattle.orc_column_reader.specs.Columns.{ScalarLeft};
ghost use Rattle.orc_column_reader.specs.Fronts.{Leaves, Lacks};
ghost use Rattle.orc_column_reader.specs.ReaderFaults.{ScalarMeets};
ghost use Rattle.orc_directory.specs.declared.fault.StripeFault.{StripeFault as Fault};
ghost use Rattle.orc_directory.specs.declared.fault.StripeFault.TheVariants.{OutOfMemory};

use orc_column_reader::{ValueSource, scalar_end, scalar_left};
use orc_directory::StripeFault;
use orc_values::Scalar;

/// Reads the next `count` values and keeps none.
fn skip_scalars(source: &mut ValueSource<'_>, kind: Scalar, count: usize) -> Result<(), StripeFault>
    ensures found { OnOk result ((values : List Cell)
        × (length values ≡ count)
        × Leaves (ScalarLeft kind source.old) (ScalarLeft kind source.new) values) }
    ensures none { OnErr result (Lacks (ScalarLeft kind source.old) count) }
    ensures before { OnOk result ((all : Bool) (n : ℕ) (f : Fault)
        → ScalarMeets kind source.new all n f
        → ScalarMeets kind source.old all (count + n) f) }
    ensures fault { IfErr result (λ cause. cause ≢ OutOfMemory → ScalarMeets kind source.old false count cause) }
{
    for _ in 0..count {
        source.next_scalar(kind)?;
    }
    Ok(())
}

/// Reads all values, of which there must be `count`.
pub(crate) fn read_scalars(
    source: &mut ValueSource<'_>,
    kind: Scalar,
    count: usize,
) -> Result<(), StripeFault>
    ensures found { OnOk result ((values : List Cell) × (length values ≡ count) × ScalarLeft kind source.old values) }
    ensures none { IfErr result (λ fault. fault ≢ OutOfMemory
        → (values : List Cell) → ScalarLeft kind source.old values → length values ≡ count → ⊥) }
    ensures fault { IfErr result (λ cause. cause ≢ OutOfMemory
        → (all : Bool) × ScalarMeets kind source.old all count cause) }
{
    skip_scalars(source, kind, count)?;
    if !scalar_end(source, kind) {
        return Err(scalar_left(source, kind));
    }
    Ok(())
}
