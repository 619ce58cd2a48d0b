//! The call that merges files.
ghost use Rattle.std.specs.Prelude.{◌≡◌, ◌<◌, ℕ, List, Some, length, map, slice_index, IfOk, IfErr, OnOk, IsErrOf};
ghost use Rattle.orc_io.specs.Leaves.{LeavesSink};
ghost use Rattle.orc_tail.specs.declared.fault.FileFault.{FileFault};
ghost use Rattle.orc_merger.specs.Faults.{IsDeviceFault, IsOfBytes, IsOfMerge};
ghost use Rattle.orc_merger.specs.Outcomes.{IsAnswer, WroteMerge, WrotePart, counts_after};

use crate::copying::write_merged;
use crate::fault::MergeFault;
use crate::gathering::gather;
use orc_io::{Sink, Source};
use orc_tail::Tail;
use std::alloc::Global;

/// Merges files into one. The stripes of all inputs are copied unchanged, in order, and one tail is written for all
/// of them. No rows are read. All inputs are tested before the first byte is written. Returns the merged file's tail.
///
/// # Errors
///
/// - `NoInput` if there is no input.
/// - Otherwise the inputs are tested one after the other, and the error is the first test that fails, with the number
///   of its input, counted from 0. `File` has the fault of an input that doesn't open. `SchemaDiffers`,
///   `VersionDiffers`, `StrideDiffers` and `OtherFooterFields` come if the input differs from the first one. Then
///   come `UserMetadataConflict` if two pairs of the inputs so far have the same name and different values,
///   `NoStripeStatistics` if the input lacks a stripe statistic, and `Limit` if the inputs so far exceed a limit
///   together.
/// - `SourceFailed` if an input could not be read, and `WriteFailed` if the output failed. The output has got nothing
///   or a prefix of the merged file then.
/// - `OutOfMemory` if memory ran out.
///
/// After any error but `SourceFailed` and `WriteFailed` the output has got nothing.
pub fn merge<S: Source, W: Sink>(
    alloc: Global,
    inputs: &mut [S],
    out: &mut W,
) -> Result<Tail, MergeFault>
    // If merging succeeds and all sources' bytes are known, then the inputs have a merged file of fewer than 2^64
    // bytes, and its tail is returned. The output has got exactly this file, after what it had before, if the
    // output's bytes are known.
    ensures merged { IfOk result (λ tail. (files : List (List ℕ)) → map S.told inputs.old ≡ map Some files
        → WroteMerge files tail (W.told out.old) (W.told out.new)) }

    // If all sources' bytes are known, then an error is `SourceFailed`, `WriteFailed`, `OutOfMemory`, or the
    // first fault of the inputs.
    ensures refused { IfErr result (λ e. (files : List (List ℕ))
        → map S.told inputs.old ≡ map Some files → IsAnswer files e) }
    // If the error is neither `SourceFailed` nor `WriteFailed` nor `OutOfMemory`, then the output's bytes are
    // unchanged if they are known.
    ensures nothing { IfErr result (λ e. (IsDeviceFault e → ⊥) → W.told out.new ≡ W.told out.old) }
    // If merging fails, and the bytes of all sources and of the output are known, then the output has got nothing or
    // a prefix of the inputs' merged file, after what it had before.
    ensures some { IfErr result (λ e. (files : List (List ℕ))
        → map S.told inputs.old ≡ map Some files
        → WrotePart files (W.told out.old) (W.told out.new)) }
    // If the error is `OutOfMemory`, then the output's bytes are unchanged if they are known.
    ensures memory { IsErrOf result MergeFault.OutOfMemory → W.told out.new ≡ W.told out.old }

    // The sources have their former lengths, and the same is known of their bytes.
    ensures told { map S.told inputs.new ≡ map S.told inputs.old }
    ensures sizes { map S.size inputs.new ≡ map S.size inputs.old }
    // If merging succeeds, then the counts of failures of all sources are unchanged.
    ensures kept { OnOk result (map S.failures inputs.new ≡ map S.failures inputs.old) }
    // If the error is `SourceFailed(i)`, then the count of failures of source i is one more than before, and those of
    // all other sources are unchanged. After any other error the counts of all sources are unchanged.
    ensures sources { IfErr result (λ e. map S.failures inputs.new ≡ counts_after e (map S.failures inputs.old)) }
    // The output's count of failures rises by one with `WriteFailed`, and stays the same after a success and after any
    // other error.
    ensures output { LeavesSink W.failures MergeFault.WriteFailed out.old out.new result }
    // If the error is `SourceFailed(i)`, then the count of failures of source i is higher than before.
    ensures source_failed { (i : ℕ) → IsErrOf result (MergeFault.SourceFailed i)
        → slice_index (map S.failures inputs.old) i < slice_index (map S.failures inputs.new) i }
    // If the error is `File(i, why)`, then `why` is neither `OutOfMemory` nor `SourceFailed`.
    ensures file { (i : ℕ) (why : FileFault) → IsErrOf result (MergeFault.File i why) → IsOfBytes why }
    // An error is `NoInput` if and only if there is no input. The number in an error is that of an input, and in
    // `SchemaDiffers`, `VersionDiffers`, `StrideDiffers` and `OtherFooterFields` never that of the first input. The
    // fault in `File` is that of a test of a tail.
    ensures named { IfErr result (λ e. IsOfMerge (length inputs.old) e) }
{
    let (tail, pieces) = match gather(alloc, inputs) {
        Ok(found) => found,
        Err(fault) => return Err(fault),
    };
    let mut text = Vec::new(alloc);
    match tail.put(&mut text) {
        Ok(()) => {}
        Err(_) => return Err(MergeFault::OutOfMemory),
    }
    match write_merged(inputs, &pieces, &text, out) {
        Ok(()) => Ok(tail),
        Err(fault) => Err(fault),
    }
}
