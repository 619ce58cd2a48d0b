//! Opens and joins files in memory.
ghost use Rattle.std.specs.Prelude.{◌≡◌, ◌⊎◌, ◌↔◌, ◌∷◌, [], Some, IsTrue, IfOk, IfErr};
ghost use Rattle.orc_merger.specs.Outcomes.{WroteMerge, IsAnswer};
ghost use Rattle.orc_tail.specs.Caps.{no_cap};
ghost use Rattle.orc_tail.specs.Tails.{IsTail};
ghost use Rattle.orc_tail.specs.declared.tail.Tail.{Tail};
ghost use Rattle.orc_tail.specs.declared.fault.FileFault.TheVariants as fault;

use orc_file_reader::OrcFile;
use orc_io::{SliceSource, Source, VecSink};
use orc_merger::{MergeFault, merge};
use orc_tail::{FileFault, Tail};
use std::alloc::Global;

/// A file that a call wrote to memory: the tail that the call returned, and the file's bytes.
#[derive(Drop)]
pub struct FileInMemory {
    pub tail: Tail,
    pub bytes: Vec<u8>,
}

/// Opens a file in memory.
pub(crate) fn opened<'a>(
    alloc: Global,
    bytes: &'a [u8],
) -> Result<OrcFile<SliceSource<'a>>, FileFault>
    ensures found { IfOk result (λ file. IsTail bytes.now file.tail) }
    ensures told { IfOk result (λ file. ⟦<SliceSource<'a> as Source>⟧.told file.source ≡ Some bytes.now) }
    ensures cap { IfOk result (λ file. file.cap ≡ no_cap) }
    ensures only { (tail : Tail) → IsTail bytes.now tail
        → IfErr result (λ e. (e ≡ fault.OutOfMemory) ⊎ (e ≡ fault.SourceFailed)) }
{
    match OrcFile::open(alloc, SliceSource::new(bytes)) {
        Ok(file) => Ok(file),
        Err((fault, _)) => Err(fault),
    }
}

/// Joins two files in memory.
pub(crate) fn join_two(
    alloc: Global,
    first: &[u8],
    second: &[u8],
) -> Result<FileInMemory, MergeFault>
    ensures wrote { IfOk result (λ joined.
        WroteMerge (first.now ∷ second.now ∷ []) joined.tail (Some []) (Some joined.bytes.items)) }
    ensures refused { IfErr result (λ e. IsAnswer (first.now ∷ second.now ∷ []) e) }
{
    let mut inputs = [SliceSource::new(first), SliceSource::new(second)];
    let mut out = VecSink::new(alloc);
    match merge(alloc, &mut inputs, &mut out) {
        Ok(tail) => Ok(FileInMemory {
            tail,
            bytes: out.into_vec(),
        }),
        Err(fault) => Err(fault),
    }
}

/// Joins three files in memory by one merge.
pub(crate) fn join_three(
    alloc: Global,
    first: &[u8],
    second: &[u8],
    third: &[u8],
) -> Result<FileInMemory, MergeFault>
    ensures wrote { IfOk result (λ joined.
        WroteMerge (first.now ∷ second.now ∷ third.now ∷ []) joined.tail (Some []) (Some joined.bytes.items)) }
    ensures refused { IfErr result (λ e. IsAnswer (first.now ∷ second.now ∷ third.now ∷ []) e) }
{
    let mut inputs = [
        SliceSource::new(first),
        SliceSource::new(second),
        SliceSource::new(third),
    ];
    let mut out = VecSink::new(alloc);
    match merge(alloc, &mut inputs, &mut out) {
        Ok(tail) => Ok(FileInMemory {
            tail,
            bytes: out.into_vec(),
        }),
        Err(fault) => Err(fault),
    }
}

/// Returns whether two files have the same bytes.
pub(crate) fn is_same(left: &[u8], right: &[u8]) -> bool
    ensures { IsTrue result ↔ (left.now ≡ right.now) }
{
    left == right
}
