//! The sizes of lists or maps, read to the end of LENGTH.
ghost use Rattle.std.specs.Prelude.{◌≡◌, ◌≢◌, ◌+◌, ◌≤◌, ℕ, Bool, false, List, length, sum, IfOk, IfErr, OnOk, OnErr};
ghost use Rattle.orc_column_reader.specs.Fronts.{Leaves, Lacks};
ghost use Rattle.orc_column_reader.specs.ReaderFaults.{ListsMeet};
ghost use Rattle.orc_directory.specs.declared.fault.StripeFault.{StripeFault as Fault};
ghost use Rattle.orc_directory.specs.declared.fault.StripeFault.TheVariants.{OutOfMemory};
ghost use Rattle.orc_column_walk.specs.OwnLeft.{SizesLeft};

use orc_column_reader::{ValueSource, next_size, numbers_end, numbers_left};
use orc_directory::{StreamKind, StripeFault, run_fault};

/// Reads the next `count` sizes and returns their sum, which is how many elements or pairs there are.
fn add_sizes(source: &mut ValueSource<'_>, count: usize) -> Result<usize, StripeFault>
    ensures found { IfOk result (λ together. (sizes : List ℕ)
        × (length sizes ≡ count)
        × Leaves (SizesLeft source.old) (SizesLeft source.new) sizes
        × (together ≡ sum sizes)) }
    ensures room { IfOk result (λ together. together ≤ source.old.room) }
    ensures none { OnErr result (Lacks (SizesLeft source.old) count) }
    ensures before { OnOk result ((all : Bool) (n : ℕ) (f : Fault)
        → ListsMeet source.new all n f
        → ListsMeet source.old all (count + n) f) }
    ensures fault { IfErr result (λ cause. cause ≢ OutOfMemory → ListsMeet source.old false count cause) }
{
    // for the proof: a number that is read is known to fit 64 bits
    let _room = source.room;
    let mut together = 0;
    for _ in 0..count {
        let size = next_size(source)?;
        together += size as usize;
    }
    Ok(together)
}

/// Reads all sizes, of which there must be `count`, and returns their sum.
pub(crate) fn sum_sizes(source: &mut ValueSource<'_>, count: usize) -> Result<usize, StripeFault>
    ensures found { IfOk result (λ together. (sizes : List ℕ)
        × (length sizes ≡ count)
        × SizesLeft source.old sizes
        × (together ≡ sum sizes)) }
    ensures none { IfErr result (λ fault. fault ≢ OutOfMemory
        → (sizes : List ℕ) → SizesLeft source.old sizes → length sizes ≡ count → ⊥) }
    ensures fault { IfErr result (λ cause. cause ≢ OutOfMemory → (all : Bool) × ListsMeet source.old all count cause) }
{
    let together = add_sizes(source, count)?;
    if !numbers_end(&source.numbers) {
        return Err(run_fault(
            source.column,
            StreamKind::Length,
            numbers_left(&source.numbers),
        ));
    }
    Ok(together)
}
