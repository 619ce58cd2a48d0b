//! A new file of the system as a sink.
ghost use Rattle.std.specs.Prelude.{◌≡◌, ◌≤◌, ◌+◌, length, None, IfOk, IfErr};
ghost use Rattle.std.specs.Io.KnownBytes.{Keeps, WriteAppends};
ghost use Rattle.std.specs.Io.Buffered.{writer_contents};
ghost use Rattle.orc_io.specs.Devices.{write_failures};
ghost use Rattle.orc_cli_output.specs.Output.{write_failed};

use crate::buffer::flush_buffer;
use crate::durable::Durable;
use orc_cli_output::CliFault;
use orc_io::{Failures, Sink, SinkFault};
use orc_tail::FileFault;
use std::io::{BufWriter, Write};

/// A new file with a buffer before it. As a sink its bytes are unknown. It fails only if the file fails or takes no
/// bytes.
#[derive(Drop)]
pub struct NewFile<D: Durable + Drop> {
    buffered: BufWriter<D>,
    failures: Failures,
}

impl<D: Durable + Drop> NewFile<D> {
    /// Makes a new file whose bytes go through this buffer.
    pub fn new(buffered: BufWriter<D>) -> NewFile<D>
        // The returned file has the buffer `buffered` as it was given, and a count of failures of 0.
        ensures buffered { result.buffered ≡ buffered }
        ensures fresh { result.failures ≡ 0 }
    {
        NewFile {
            buffered,
            failures: Failures::new(),
        }
    }

    /// Writes what the buffer still has, and then asks the file once to keep all its bytes. Returns the file. Neither
    /// the write nor the request is repeated.
    ///
    /// # Errors
    ///
    /// `WriteFailed` if the write or the request failed. The count of failures is returned beside the error.
    pub fn finish(mut self) -> Result<D, (CliFault, Failures)>
        // If the call succeeds, then the file keeps all that it has got, even if the power fails.
        ensures durable { IfOk result D.durable }
        // If the call succeeds, then the file has got all that the buffer was given, if its bytes are known.
        ensures all { IfOk result (λ file. Keeps (writer_contents D.contents self.buffered) (D.contents file)) }
        // An error is `WriteFailed`.
        ensures fault { IfErr result (λ e. e.0 ≡ write_failed) }
        // If the call fails, then the count of failures is one above that of the new file.
        ensures failures { IfErr result (λ e. e.1 ≡ self.failures + 1) }
    {
        let mut file = match flush_buffer(self.buffered) {
            Ok(file) => file,
            Err(fault) => {
                self.failures.note();
                return Err((fault, self.failures));
            }
        };
        match file.sync() {
            Ok(()) => Ok(file),
            Err(_) => {
                self.failures.note();
                Err((CliFault::File(FileFault::WriteFailed), self.failures))
            }
        }
    }
}

impl<D: Durable + Drop> Sink for NewFile<D> {
    ghost told = { λ _. None };

    ghost failures = { λ file. file.failures };

    fn write(&mut self, bytes: &[u8]) -> Result<usize, SinkFault>
        // A write takes at most as many bytes as `bytes` has.
        ensures bound { IfOk result (λ n. n ≤ length bytes.now) }
        // If the bytes of the file and its buffer are known, then they grow by exactly the prefix of `bytes` that the
        // write takes, and are unchanged if the write fails.
        ensures file { WriteAppends (writer_contents D.contents self.old.buffered)
            (writer_contents D.contents self.new.buffered) result bytes.now }
        // A write that fails, or that takes nothing although `bytes` isn't empty, raises the count of failures by one.
        // Any other write leaves the count as it is.
        ensures failures { self.new.failures ≡ write_failures result (length bytes.now) self.old.failures }
    {
        match self.buffered.write(bytes) {
            Ok(n) => {
                if n == 0 && !bytes.is_empty() {
                    self.failures.note();
                }
                Ok(n)
            }
            Err(_) => {
                self.failures.note();
                Err(SinkFault)
            }
        }
    }
}
