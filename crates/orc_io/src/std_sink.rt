//! A writer of the standard library as a sink.
ghost use Rattle.std.specs.Prelude.{◌≡◌, ◌≤◌, length, None, IfOk};
ghost use Rattle.std.specs.Io.KnownBytes.{WriteAppends};
ghost use Rattle.orc_io.specs.Devices.{write_failures};

use crate::failures::Failures;
use crate::sink::{Sink, SinkFault};
use std::io::Write;

/// A writer as a sink. A write takes the bytes that the writer takes, and fails only if the writer fails. Nothing is
/// tried again, and nothing is flushed. As a sink its bytes are unknown to contracts.
#[derive(Drop)]
pub struct StdSink<W: Write> {
    out: W,
    failures: Failures,
}

impl<W: Write> StdSink<W> {
    /// Makes a sink that writes to this writer.
    pub fn new(out: W) -> StdSink<W>
        // The returned sink has the writer `out` as it was given, and a count of failures of 0.
        ensures out { result.out ≡ out }
        ensures fresh { result.failures ≡ 0 }
    {
        StdSink {
            out,
            failures: Failures::new(),
        }
    }
}

impl<W: Write> Sink for StdSink<W> {
    ghost told = { λ _. None };

    ghost failures = { λ sink. sink.failures };

    fn write(&mut self, bytes: &[u8]) -> Result<usize, SinkFault>
        // A write takes at most as many bytes as `bytes` has.
        ensures bound { IfOk result (λ n. n ≤ length bytes.now) }
        // If the contents of the sink's writer are known, then the contents grow by exactly the front of `bytes` that
        // the write takes, and are unchanged if the write fails.
        ensures out { WriteAppends (W.contents self.old.out) (W.contents self.new.out) result bytes.now }
        // A write that fails, or that takes nothing although `bytes` isn't empty, raises the sink's count of failures
        // by one. Any other write leaves the count as it is.
        ensures failures { self.new.failures ≡ write_failures result (length bytes.now) self.old.failures }
    {
        match self.out.write(bytes) {
            Ok(n) => {
                if n == 0 && !bytes.is_empty() {
                    self.failures.note();
                }
                Ok(n)
            }
            Err(_) => {
                self.failures.note();
                Err(SinkFault)
            }
        }
    }
}
