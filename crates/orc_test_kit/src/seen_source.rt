//! A source that keeps which ranges were read.
ghost use Rattle.std.specs.Prelude.{Some, length};

use orc_io::{SliceSource, Source, SourceFault};

/// How many ranges a source keeps.
const KEPT: usize = 16;

/// Bytes in memory, with the number of reads, and the place and the length of each of the first sixteen.
#[derive(Drop)]
pub struct SeenSource<'a> {
    bytes: SliceSource<'a>,
    ranges: [(u64, u64); KEPT],
    reads: usize,
}

impl<'a> SeenSource<'a> {
    pub fn new(bytes: &'a [u8]) -> SeenSource<'a> {
        SeenSource {
            bytes: SliceSource::new(bytes),
            ranges: [(0, 0); KEPT],
            reads: 0,
        }
    }

    /// The ranges of the first sixteen reads, in their order.
    pub fn ranges(&self) -> &[(u64, u64)] {
        &self.ranges[..self.reads.min(KEPT)]
    }

    /// The number of all reads.
    pub fn reads(&self) -> usize {
        self.reads
    }
}

impl Source for SeenSource<'_> {
    ghost use Rattle.std.specs.Prelude.{refl};

    ghost size = { λ source. length source.bytes.bytes.now };

    ghost told = { λ source. Some source.bytes.bytes.now };

    ghost failures = { λ _. 0 };

    fn len(&self) -> u64 {
        self.bytes.len()
    }

    fn read_at(&mut self, at: u64, into: &mut [u8]) -> Result<(), SourceFault> {
        if let Some(range) = self.ranges.get_mut(self.reads) {
            *range = (at, into.len() as u64);
        }
        self.reads = self.reads.saturating_add(1);
        self.bytes.read_at(at, into)
    }

    fn rest(&mut self) {}

    ghost told_size = { λ _. refl };

    ghost told_bytes = { λ source. source.bytes.are_bytes };
}
