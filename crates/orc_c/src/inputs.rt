//! Inputs that are stored one after the other.
ghost use Rattle.std.specs.Prelude.{◌≡◌, ◌≢◌, map, Some, IfOk, IfErr, sum, length};
ghost use Rattle.orc_c.specs.Inputs.{cut};
ghost use Rattle.orc_c.specs.Refusals.{NotCut};

use crate::fault::{CallFault, Fault};
use orc_io::{SliceSource, Source};
use orc_merger::MergeFault;
use std::alloc::Global;

/// Cuts `inputs` into sources of these lengths.
pub(crate) fn sources_of<'a>(
    alloc: Global,
    inputs: &'a [u8],
    lengths: &[usize],
) -> Result<Vec<SliceSource<'a>>, Fault>
    ensures cut { IfOk result (λ sources. (sum lengths.now ≡ length inputs.now)
        × (map ⟦<SliceSource<'a> as Source>⟧.told sources.items ≡ map Some (cut lengths.now inputs.now))) }
    ensures refused { IfErr result (NotCut lengths.now inputs.now) }
{
    let mut sources = Vec::new(alloc);
    let mut rest = inputs;
    for length in lengths {
        if *length > rest.len() {
            return Err(Fault::Call(CallFault::BadLengths));
        }
        let (input, behind) = rest.split_at(*length);
        if sources.push(SliceSource::new(input)).is_err() {
            return Err(Fault::Merge(MergeFault::OutOfMemory));
        }
        rest = behind;
    }
    if !rest.is_empty() {
        return Err(Fault::Call(CallFault::BadLengths));
    }
    Ok(sources)
}
