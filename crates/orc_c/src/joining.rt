//! `orcm_merge`: merges files in memory into one.
ghost use Rattle.std.specs.Prelude.{◌≡◌, ◌≢◌, List, ℕ, map, Some, IfOk, IfErr};
ghost use Rattle.orc_c.specs.Answers.{HasPut, HasTold};
ghost use Rattle.orc_c.specs.Refusals.{IsMergeOf, IsMergeOfCut, NotMerged, NotMergedCut};

use crate::answer::Answer;
use crate::fault::Fault;
use crate::inputs::sources_of;
use crate::memory::merge_told_of;
use crate::putting::{put, tell};
use orc_io::{SliceSource, Source, VecSink};
use orc_merger::{MergeFault, merge};
use std::alloc::Global;

/// Returns the merged file of sources in memory.
fn merged_of<'a>(alloc: Global, sources: &mut [SliceSource<'a>]) -> Result<Vec<u8>, MergeFault>
    ensures merged { IfOk result (λ file. (files : List (List ℕ))
        → map ⟦<SliceSource<'a> as Source>⟧.told sources.old ≡ map Some files → IsMergeOf files file.items) }
    ensures refused { IfErr result (λ fault. (files : List (List ℕ))
        → map ⟦<SliceSource<'a> as Source>⟧.told sources.old ≡ map Some files → NotMerged files fault) }
{
    let mut out = VecSink::new(alloc);
    match merge(alloc, sources, &mut out) {
        Ok(_) => Ok(out.into_vec()),
        Err(fault) => Err(merge_told_of(fault)),
    }
}

/// Returns the merged file of inputs that are stored one after the other.
fn merged_file(alloc: Global, inputs: &[u8], lengths: &[usize]) -> Result<Vec<u8>, Fault>
    ensures merged { IfOk result (λ file. IsMergeOfCut lengths.now inputs.now file.items) }
    ensures refused { IfErr result (NotMergedCut lengths.now inputs.now) }
{
    match sources_of(alloc, inputs, lengths) {
        Ok(mut sources) => match merged_of(alloc, &mut sources) {
            Ok(file) => Ok(file),
            Err(fault) => Err(Fault::Merge(fault)),
        },
        Err(fault) => Err(fault),
    }
}

/// Merges inputs that are stored one after the other, and puts the merged file into the buffer: the stripes of all
/// inputs, unchanged, and one tail for all of them. Each length is that of an input, and the lengths add up to the
/// number of bytes of `inputs`.
///
/// # Errors
///
/// `BadLengths` if the lengths don't add up to the number of bytes, and the errors of `merge`, but not `SourceFailed`
/// or `WriteFailed`.
#[unsafe(no_mangle)]
pub extern "C" fn orcm_merge(
    alloc: Global,
    inputs: &[u8],
    lengths: &[usize],
    out: &mut [u8],
) -> Answer
    // If the returned layer is 0, then the lengths add up to the number of bytes of `inputs`, and `inputs` cut into
    // inputs of these lengths have a merged file. The returned length is that of this file. The buffer begins with
    // it, as far as it has room, and is unchanged after it.
    ensures merged { result.layer ≡ 0 → HasPut out.old out.new result (IsMergeOfCut lengths.now inputs.now) }
    // If the returned layer isn't 0, then layer and number are those of `BadLengths`, and the lengths don't add up to
    // the number of bytes of `inputs`; or of `OutOfMemory`; or of the first fault of the inputs of these lengths. The
    // returned length is that of a text. The buffer begins with this text, as far as it has room, and is unchanged
    // after it.
    ensures refused { result.layer ≢ 0 → HasTold out.old out.new result (NotMergedCut lengths.now inputs.now) }
{
    match merged_file(alloc, inputs, lengths) {
        Ok(file) => put(&file, out),
        Err(fault) => tell(alloc, fault, out),
    }
}
