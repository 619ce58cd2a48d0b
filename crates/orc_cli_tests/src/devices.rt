//! Devices that keep what is asked of them, and of which one call alone fails.
ghost use Rattle.std.specs.Prelude.{None, length};

use orc_file::{Failures, SliceSource, Source, SourceFault};
use std::cell::Cell;
use std::io;
use std::io::Write;

/// The place of a read, its length, and how many bytes were out before it.
pub(crate) type SeenRead = (u64, u64, usize);

/// How many reads a source keeps.
const KEPT: usize = 16;

/// How many bytes an output takes in one call.
const A_CALL: usize = 7;

/// How many bytes an output keeps.
const ROOM: usize = 1024;

/// A file's bytes, of which it tells none. It keeps its first sixteen reads, and the k-th one alone fails.
#[derive(Drop)]
pub(crate) struct SeenSource<'a> {
    bytes: SliceSource<'a>,
    kth: usize,
    seen: [SeenRead; KEPT],
    reads: usize,
    sent: &'a Cell<usize>,
    failures: Failures,
}

impl<'a> SeenSource<'a> {
    /// The reads are counted from 1; at 0 none fails. The cell says how many bytes are out.
    pub(crate) fn new(bytes: &'a [u8], kth: usize, sent: &'a Cell<usize>) -> SeenSource<'a> {
        SeenSource {
            bytes: SliceSource::new(bytes),
            kth,
            seen: [(0, 0, 0); KEPT],
            reads: 0,
            sent,
            failures: Failures::new(),
        }
    }

    /// The reads, in their order.
    pub(crate) fn seen(&self) -> &[SeenRead] {
        &self.seen[..self.reads.min(KEPT)]
    }
}

impl Source for SeenSource<'_> {
    ghost size = { λ source. length source.bytes.bytes.now };

    ghost told = { λ _. None };

    ghost failures = { λ source. source.failures };

    fn len(&self) -> u64 {
        self.bytes.len()
    }

    fn read_at(&mut self, at: u64, into: &mut [u8]) -> Result<(), SourceFault> {
        let sent = self.sent.get();
        if let Some(read) = self.seen.get_mut(self.reads) {
            *read = (at, into.len() as u64, sent);
        }
        self.reads = self.reads.saturating_add(1);
        if self.reads == self.kth {
            self.failures.note();
            return Err(SourceFault);
        }
        self.bytes.read_at(at, into)
    }

    fn rest(&mut self) {}

    ghost told_size = { λ _. tt };

    ghost told_bytes = { λ _. tt };
}

/// How a call is refused. One that is interrupted is the one that the standard library would make again.
#[derive(Clone, Copy, Debug)]
pub(crate) enum Refused {
    Full,
    Interrupted,
    TakesNothing,
}

/// An output that takes seven bytes a call at most, and of which the k-th call alone is refused. It keeps its first
/// bytes.
#[derive(Drop)]
pub(crate) struct CountedOut<'a> {
    bytes: [u8; ROOM],
    len: usize,
    kth: usize,
    refused: Refused,
    calls: usize,
    sent: &'a Cell<usize>,
}

impl<'a> CountedOut<'a> {
    /// The calls are counted from 1; at 0 none is refused. The cell says from now on how many bytes were taken.
    pub(crate) fn new(kth: usize, refused: Refused, sent: &'a Cell<usize>) -> CountedOut<'a> {
        sent.set(0);
        CountedOut {
            bytes: [0; ROOM],
            len: 0,
            kth,
            refused,
            calls: 0,
            sent,
        }
    }

    /// The bytes that were taken.
    pub(crate) fn written(&self) -> &[u8] {
        &self.bytes[..self.len.min(ROOM)]
    }

    /// How many calls there were, with the one that was refused.
    pub(crate) fn calls(&self) -> usize {
        self.calls
    }
}

impl Write for CountedOut<'_> {
    fn write(&mut self, bytes: &[u8]) -> io::Result<usize> {
        self.calls = self.calls.saturating_add(1);
        if self.calls == self.kth {
            return match self.refused {
                Refused::Full => Err(io::Error::from(io::ErrorKind::StorageFull)),
                Refused::Interrupted => Err(io::Error::from(io::ErrorKind::Interrupted)),
                Refused::TakesNothing => Ok(0),
            };
        }
        let count = bytes.len().min(A_CALL);
        for byte in &bytes[..count] {
            if let Some(at) = self.bytes.get_mut(self.len) {
                *at = *byte;
            }
            self.len = self.len.saturating_add(1);
        }
        self.sent.set(self.len);
        Ok(count)
    }

    fn flush(&mut self) -> io::Result<()> {
        Ok(())
    }
}
