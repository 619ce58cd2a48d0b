//! A source that fails when it is told to.
ghost use Rattle.std.specs.Prelude.{Some, length};

use orc_io::{Failures, SliceSource, Source, SourceFault};

/// Bytes in memory, of which the k-th read alone fails.
#[derive(Drop)]
pub struct FailSource<'a> {
    bytes: SliceSource<'a>,
    kth: u64,
    reads: u64,
    failures: Failures,
}

impl<'a> FailSource<'a> {
    /// The reads are counted from 1; at 0 none fails.
    pub fn new(bytes: &'a [u8], kth: u64) -> FailSource<'a> {
        FailSource {
            bytes: SliceSource::new(bytes),
            kth,
            reads: 0,
            failures: Failures::new(),
        }
    }

    /// How many reads there were, with the one that failed.
    pub fn reads(&self) -> u64 {
        self.reads
    }
}

impl Source for FailSource<'_> {
    ghost use Rattle.std.specs.Prelude.{refl};

    ghost size = { λ source. length source.bytes.bytes.now };

    ghost told = { λ source. Some source.bytes.bytes.now };

    ghost failures = { λ source. source.failures };

    fn len(&self) -> u64 {
        self.bytes.len()
    }

    fn read_at(&mut self, at: u64, into: &mut [u8]) -> Result<(), SourceFault> {
        self.reads = self.reads.saturating_add(1);
        if self.reads == self.kth {
            self.failures.note();
            return Err(SourceFault);
        }
        self.bytes.read_at(at, into)
    }

    fn rest(&mut self) {}

    ghost told_size = { λ _. refl };

    ghost told_bytes = { λ source. source.bytes.are_bytes };
}
