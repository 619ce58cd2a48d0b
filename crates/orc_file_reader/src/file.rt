//! An ORC file: a source of bytes whose tail has been read.
ghost use Rattle.std.specs.Prelude.{◌≡◌, ◌≤◌, ◌⊎◌, IfOk, IfErr, IfSome, MatchResult};
ghost use Rattle.std.proofs.Props.{props};
ghost use Rattle.orc_io.specs.Leaves.{HandsBackSource};
ghost use Rattle.orc_tail.specs.Stripes.{AllBefore, stripes_length, most_bytes};
ghost use Rattle.orc_tail.specs.Tails.{IsTail, TailOpenFault, ReadFault, IsOfTail};
ghost use Rattle.orc_tail.specs.Caps.{no_cap, IsCappedTail, CappedFault};
ghost use Rattle.orc_tail.specs.Images.{IsWithinLimits};
ghost use Rattle.orc_tail.specs.declared.tail.Tail.{Tail};
ghost use Rattle.orc_tail.specs.declared.fault.FileFault.TheVariants.{SourceFailed, OutOfMemory};

use orc_io::Source;
use orc_tail::{FileFault, Tail, read_capped_tail};
use orc_types::Schema;
use std::alloc::Global;

/// An ORC file: a source of bytes whose tail has been read.
#[derive(Drop)]
pub struct OrcFile<S: Source> {
    pub(crate) source: S,
    pub(crate) tail: Tail,
    /// The greatest number of bytes of the tail's three parts together, and of each stripe that is read.
    pub(crate) cap: u64,
    ghost within: { AllBefore (S.size source) tail.stripes } by { Prim.hlevel props },
    ghost bytes: { stripes_length tail.stripes ≤ most_bytes },
}

impl<S: Source> OrcFile<S> {
    /// Opens a file: reads its tail (ORC specification, "File Tail").
    ///
    /// # Errors
    ///
    /// The fault of the first test that the file fails, in this order: the tests of both ends and of the postscript, of
    /// the footer, of the metadata, of the limits and of the stripes' places. Or `SourceFailed` if a read fails, and
    /// `OutOfMemory` if there is no memory. Each error returns the source.
    pub fn open(alloc: Global, source: S) -> Result<OrcFile<S>, (FileFault, S)>
        // If the file is opened and the source's bytes are known, then the opened file's tail is the tail of
        // these bytes.
        ensures found { IfOk result (λ file. IfSome (S.told source) (λ bytes. IsTail bytes file.tail)) }
        // If the source's bytes are known and have a tail, then the file is opened with this tail, or the error
        // is `OutOfMemory` or `SourceFailed`.
        ensures only { IfSome (S.told source) (λ bytes. (tail : Tail) → IsTail bytes tail
            → MatchResult result (λ file. file.tail ≡ tail) (λ e. (e.0 ≡ OutOfMemory) ⊎ (e.0 ≡ SourceFailed))) }
        // If the file is opened, then its tail is within the limits, even if the source's bytes are unknown.
        ensures limits { IfOk result (λ file. IsWithinLimits file.tail) }
        // If the file is opened, then its cap is 2^64 - 1 bytes, the greatest cap.
        ensures cap { IfOk result (λ file. file.cap ≡ no_cap) }

        // If the source's bytes are known, then an error is `OutOfMemory`, `SourceFailed`, or the fault of the
        // first test of a tail that the bytes fail.
        ensures fault { IfErr result (λ e. ReadFault (S.told source) e.0 (λ bytes. TailOpenFault bytes e.0)) }
        // An error is `SourceFailed`, `OutOfMemory` or the fault of a test of a tail.
        ensures named { IfErr result (λ e. (e.0 ≡ SourceFailed) ⊎ IsOfTail e.0) }
        // The source, which an opened file keeps and an error returns, has its former length, and the same is
        // known of its bytes. Its count of failures rises by one with `SourceFailed`, and stays the same after
        // a success and after any other error.
        ensures source { HandsBackSource S.told S.size S.failures SourceFailed (λ file. file.source) source result }
    {
        OrcFile::open_capped(alloc, source, u64::MAX)
    }

    /// Opens a file with a cap: for programs that read files of strangers. The parts of the tail must have at most
    /// `cap` bytes together, and `load` and `rows` fail with `Limit` at a stripe of more bytes.
    ///
    /// # Errors
    ///
    /// Those of `open`, and `Limit` if metadata, footer and postscript have more than `cap` bytes together. This is
    /// tested after both ends and the postscript, before footer and metadata are read. Each error returns the source.
    pub fn open_capped(alloc: Global, source: S, cap: u64) -> Result<OrcFile<S>, (FileFault, S)>
        // `source` has at most 2^64 - 1 bytes.
        ensures sized { S.size source ≤ no_cap }
        // If the file is opened and the source's bytes are known, then the opened file's tail is the tail of
        // these bytes, whose metadata, footer and postscript have at most `cap` bytes together.
        ensures found { IfOk result (λ file. IfSome (S.told source) (λ bytes. IsCappedTail cap bytes file.tail)) }
        // If the source's bytes are known and have a tail, and their metadata, footer and postscript have at
        // most `cap` bytes together, then the file is opened with this tail, or the error is `OutOfMemory` or
        // `SourceFailed`.
        ensures only { IfSome (S.told source) (λ bytes. (tail : Tail) → IsCappedTail cap bytes tail
            → MatchResult result (λ file. file.tail ≡ tail) (λ e. (e.0 ≡ OutOfMemory) ⊎ (e.0 ≡ SourceFailed))) }
        // If the file is opened, then its tail is within the limits, even if the source's bytes are unknown.
        ensures limits { IfOk result (λ file. IsWithinLimits file.tail) }
        // If the file is opened, then its cap is `cap`.
        ensures cap { IfOk result (λ file. file.cap ≡ cap) }

        // If the source's bytes are known, then an error is `OutOfMemory`, `SourceFailed`, or the fault of the
        // first test that the bytes fail. The tests are those of both ends and the postscript, `cap` (`Limit`),
        // and the other tests of a tail, in this order.
        ensures fault { IfErr result (λ e. ReadFault (S.told source) e.0 (λ bytes. CappedFault cap bytes e.0)) }
        // An error is `SourceFailed`, `OutOfMemory` or the fault of a test of a tail.
        ensures named { IfErr result (λ e. (e.0 ≡ SourceFailed) ⊎ IsOfTail e.0) }
        // The source, which an opened file keeps and an error returns, has its former length, and the same is
        // known of its bytes. Its count of failures rises by one with `SourceFailed`, and stays the same after
        // a success and after any other error.
        ensures source { HandsBackSource S.told S.size S.failures SourceFailed (λ file. file.source) source result }
    {
        let mut source = source;
        match read_capped_tail(alloc, &mut source, cap) {
            Ok(tail) => Ok(OrcFile { source, tail, cap }),
            Err(fault) => Err((fault, source)),
        }
    }

    /// Returns the tail.
    pub fn tail(&self) -> &Tail
        // Returns the file's tail.
        ensures { result.now ≡ self.now.tail }
    {
        &self.tail
    }

    /// Returns the schema, which has the types of the columns.
    pub fn schema(&self) -> &Schema
        // Returns the schema of the file's tail.
        ensures { result.now ≡ self.now.tail.schema }
    {
        &self.tail.schema
    }

    /// Returns the tail and the source.
    pub fn into_parts(self) -> (Tail, S)
        // Returns the file's tail and its source.
        ensures { (result.0 ≡ self.tail) × (result.1 ≡ self.source) }
    {
        (self.tail, self.source)
    }
}
