//! The calls that are tested, without their contracts, of which each caller would prove more.
use orc_file::{FileFault, OrcFile, Sink, SliceSource, Source, VecSink};
use orc_merge::{Finding, MergeFault, check, merge};
use std::alloc::Global;

/// Merges files, and forgets the tail.
pub(crate) fn merged<S: Source, W: Sink>(
    alloc: Global,
    inputs: &mut [S],
    out: &mut W,
) -> Result<(), MergeFault> {
    match merge(alloc, inputs, out) {
        Ok(_) => Ok(()),
        Err(fault) => Err(fault),
    }
}

/// Two files joined; `Limit` where that is refused.
pub(crate) fn joined(alloc: Global, first: &[u8], second: &[u8]) -> Result<Vec<u8>, FileFault> {
    let mut inputs = [SliceSource::new(first), SliceSource::new(second)];
    let mut out = VecSink::new(alloc);
    match merged(alloc, &mut inputs, &mut out) {
        Ok(()) => Ok(out.into_vec()),
        Err(MergeFault::OutOfMemory | MergeFault::WriteFailed) => Err(FileFault::OutOfMemory),
        Err(_) => Err(FileFault::Limit),
    }
}

/// What is found in a source's file.
pub(crate) fn checked<S: Source>(alloc: Global, source: &mut S) -> Result<Vec<Finding>, FileFault> {
    check(alloc, source)
}

/// Why nothing can be found in a source's file; none where something can.
pub(crate) fn refusal_of<S: Source>(
    alloc: Global,
    source: &mut S,
) -> Result<Option<FileFault>, FileFault> {
    match checked(alloc, source) {
        Ok(_) => Ok(None),
        Err(FileFault::OutOfMemory) => Err(FileFault::OutOfMemory),
        Err(fault) => Ok(Some(fault)),
    }
}

/// The file with these bytes.
pub(crate) fn opened<'a>(
    alloc: Global,
    bytes: &'a [u8],
) -> Result<OrcFile<SliceSource<'a>>, FileFault> {
    match OrcFile::open(alloc, SliceSource::new(bytes)) {
        Ok(file) => Ok(file),
        Err((fault, _)) => Err(fault),
    }
}

/// How many rows the file with these bytes has.
pub(crate) fn count_rows(alloc: Global, bytes: &[u8]) -> Result<usize, FileFault> {
    let mut file = opened(alloc, bytes)?;
    match file.rows(alloc) {
        Ok(rows) => Ok(rows.len()),
        Err(fault) => Err(fault),
    }
}
