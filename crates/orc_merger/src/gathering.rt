//! Reads and tests the tails of all inputs, before the first byte is written.
ghost use Rattle.std.specs.Prelude.{◌≡◌, ◌+◌, ◌<◌, ◌≤◌, ◌⊎◌, ◌++◌, ℕ, List, Some, length, map, slice_index, All, IfOk, IfErr, OnOk, IfSome, IsErrOf};
ghost use Rattle.orc_io.specs.Leaves.{LeavesSource};
ghost use Rattle.orc_tail.specs.Layout.{magic};
ghost use Rattle.orc_tail.specs.Stripes.{IsLaid, AllBefore};
ghost use Rattle.orc_tail.specs.Tails.{IsTail, TailOpenFault, IsOfTail};
ghost use Rattle.orc_tail.specs.Images.{IsWithinLimits, tail_text};
ghost use Rattle.orc_tail.specs.declared.fault.FileFault.{FileFault};
ghost use Rattle.orc_merger.specs.declared.fault.MergeFault.TheVariants as fault;
ghost use Rattle.orc_merger.specs.Merging.{IsMerge};
ghost use Rattle.orc_merger.specs.Faults.{IsOfBytes, IsOfMerge};
ghost use Rattle.orc_merger.specs.Copies.{pieces_bytes};
ghost use Rattle.orc_merger.specs.Outcomes.{IsAnswer, counts_after};
ghost use Rattle.orc_merger.specs.Inputs.{IsGatheredOf, CountsFailure};

use crate::copying::Piece;
use crate::differing::compare;
use crate::fault::MergeFault;
use crate::gathered::{Gathered, take_lists};
use orc_io::Source;
use orc_tail::{FileFault, Tail, read_tail};
use std::alloc::Global;

/// Returns the tail of the input with this number, and lets the input rest.
fn tail_of<S: Source>(alloc: Global, number: usize, input: &mut S) -> Result<Tail, MergeFault>
    ensures found { IfOk result (λ tail. IfSome (S.told input.old) (λ bytes. IsTail bytes tail)) }
    ensures limits { IfOk result (λ tail. IsWithinLimits tail) }
    ensures within { IfOk result (λ tail. AllBefore (S.size input.old) tail.stripes) }

    ensures fault { IfErr result (λ e. (e ≡ fault.OutOfMemory)
        ⊎ ((e ≡ fault.SourceFailed number)
        ⊎ ((why : FileFault)
        × (e ≡ fault.File number why)
        × IfSome (S.told input.old) (λ bytes. TailOpenFault bytes why)
        × IsOfBytes why × IsOfTail why))) }
    ensures source { LeavesSource S.told S.size S.failures (fault.SourceFailed number) input.old input.new result }
{
    let read = read_tail(alloc, input);
    input.rest();
    match read {
        Ok(tail) => Ok(tail),
        Err(FileFault::SourceFailed) => Err(MergeFault::SourceFailed(number)),
        Err(FileFault::OutOfMemory) => Err(MergeFault::OutOfMemory),
        Err(fault) => Err(MergeFault::File(number, fault)),
    }
}

/// Reads the first input's tail and starts to gather with it.
fn gather_first<S: Source>(alloc: Global, inputs: &mut [S]) -> Result<Gathered, MergeFault>
    requires { 0 < length inputs.old }
    ensures told { map S.told inputs.new ≡ map S.told inputs.old }
    ensures sizes { map S.size inputs.new ≡ map S.size inputs.old }
    ensures found { IfOk result (λ gathered. IsGatheredOf (map S.told inputs.old) (map S.size inputs.old) 1 gathered) }

    ensures refused { IfErr result (λ e. (files : List (List ℕ))
        → map S.told inputs.old ≡ map Some files → IsAnswer files e) }
    ensures counted { IfErr result (λ e. CountsFailure (map S.failures inputs.old) (map S.failures inputs.new) e) }
    ensures named { IfErr result (λ e. IsOfMerge (length inputs.old) e) }
    ensures kept { OnOk result (map S.failures inputs.new ≡ map S.failures inputs.old) }
    ensures sources { IfErr result (λ e. map S.failures inputs.new ≡ counts_after e (map S.failures inputs.old)) }
{
    let mut tail = tail_of(alloc, 0, &mut inputs[0])?;
    let lists = take_lists(alloc, &mut tail);
    let mut gathered = Gathered::new(alloc, tail);
    gathered.add(alloc, 0, lists)?;
    Ok(gathered)
}

/// Reads the tail of the input with this number and adds it to those before it.
fn gather_next<S: Source>(
    alloc: Global,
    inputs: &mut [S],
    number: usize,
    gathered: &mut Gathered,
) -> Result<(), MergeFault>
    requires number { number < length inputs.old }
    requires before { IsGatheredOf (map S.told inputs.old) (map S.size inputs.old) number gathered.old }
    ensures told { map S.told inputs.new ≡ map S.told inputs.old }
    ensures sizes { map S.size inputs.new ≡ map S.size inputs.old }
    ensures found { OnOk result
        (IsGatheredOf (map S.told inputs.old) (map S.size inputs.old) (number + 1) gathered.new) }

    ensures refused { IfErr result (λ e. (files : List (List ℕ))
        → map S.told inputs.old ≡ map Some files → IsAnswer files e) }
    ensures counted { IfErr result (λ e. CountsFailure (map S.failures inputs.old) (map S.failures inputs.new) e) }
    ensures named { IfErr result (λ e. IsOfMerge (length inputs.old) e) }
    ensures kept { OnOk result (map S.failures inputs.new ≡ map S.failures inputs.old) }
    ensures sources { IfErr result (λ e. map S.failures inputs.new ≡ counts_after e (map S.failures inputs.old)) }
{
    let mut tail = tail_of(alloc, number, &mut inputs[number])?;
    compare(&gathered.first, number, &tail)?;
    let lists = take_lists(alloc, &mut tail);
    gathered.add(alloc, number, lists)?;
    Ok(())
}

/// Returns the merged file's tail, and where its stripes are in the inputs.
///
/// # Errors
///
/// `NoInput` if there is no input. Otherwise the inputs are tested one after the other, and the error is the first
/// test that fails. Instead, `SourceFailed` may come if a source fails, and `OutOfMemory` if memory runs out.
pub(crate) fn gather<S: Source>(
    alloc: Global,
    inputs: &mut [S],
) -> Result<(Tail, Vec<Piece>), MergeFault>
    ensures told { map S.told inputs.new ≡ map S.told inputs.old }
    ensures sizes { map S.size inputs.new ≡ map S.size inputs.old }
    ensures found { IfOk result (λ found. (files : List (List ℕ)) → map S.told inputs.old ≡ map Some files
        → IsMerge files found.0 (magic ++ (pieces_bytes files found.1.items ++ tail_text found.0))) }
    ensures limits { IfOk result (λ found. IsWithinLimits found.0) }
    ensures laid { IfOk result (λ found. IsLaid 3 found.0.stripes) }
    ensures inputs { IfOk result (λ found. All (λ p. p.input < length inputs.old) found.1.items) }
    ensures within { IfOk result
        (λ found. All (λ p. p.offset + p.len ≤ slice_index (map S.size inputs.old) p.input) found.1.items) }

    ensures refused { IfErr result (λ e. (files : List (List ℕ))
        → map S.told inputs.old ≡ map Some files → IsAnswer files e) }
    ensures kept { OnOk result (map S.failures inputs.new ≡ map S.failures inputs.old) }
    ensures sources { IfErr result (λ e. map S.failures inputs.new ≡ counts_after e (map S.failures inputs.old)) }
    ensures source_failed { (i : ℕ) → IsErrOf result (MergeFault.SourceFailed i)
        → slice_index (map S.failures inputs.old) i < slice_index (map S.failures inputs.new) i }
    ensures file { (i : ℕ) (why : FileFault) → IsErrOf result (MergeFault.File i why) → IsOfBytes why }
    ensures never { IsErrOf result MergeFault.WriteFailed → ⊥ }
    ensures named { IfErr result (λ e. IsOfMerge (length inputs.old) e) }
    ensures some { OnOk result (0 < length inputs.old) }
{
    if inputs.is_empty() {
        return Err(MergeFault::NoInput);
    }
    let mut gathered = gather_first(alloc, inputs)?;
    for number in 1..inputs.len() {
        gather_next(alloc, inputs, number, &mut gathered)?;
    }
    gathered.finish(alloc)
}
