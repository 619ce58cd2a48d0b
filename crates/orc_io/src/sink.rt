//! The interface to which bytes are written.
ghost use Rattle.std.specs.Prelude.{◌≡◌, ◌≤◌, ℕ, List, Option, length, take, IfOk};
ghost use Rattle.orc_io.specs.Devices.{appended, taken_of, write_failures};

/// A write failed, and took no byte.
#[derive(Clone, Copy, Debug, PartialEq, Eq)]
pub struct SinkFault;

/// An output of bytes. If its bytes are known to contracts, what a write adds to them is promised byte by byte. The
/// clauses tie the count of failures to the answers. No clause can say that an error comes from a failure outside of
/// the program, so each `impl` has to be read for that.
pub trait Sink {
    /// The bytes that the sink has got, if they are known.
    ghost told: { Self → Option (List ℕ) };

    /// How often a write has failed, or has taken nothing although there were bytes.
    ghost failures: { Self → ℕ };

    /// Takes bytes from the front of the slice, and returns how many.
    ///
    /// # Errors
    ///
    /// `SinkFault` if the write failed. No byte was taken then.
    fn write(&mut self, bytes: &[u8]) -> Result<usize, SinkFault>
        // A write takes at most as many bytes as `bytes` has.
        ensures bound { IfOk result (λ n. n ≤ length bytes.now) }
        // If the sink's bytes are known, then these bytes grow by exactly the front of `bytes` that the write takes,
        // and are unchanged if the write fails. Unknown bytes stay unknown.
        ensures told { told self.new ≡ appended (told self.old) (take (taken_of result) bytes.now) }
        // A write that fails, or that takes nothing although `bytes` isn't empty, raises the sink's count of failures
        // by one. Any other write leaves the count as it is.
        ensures failures { failures self.new ≡ write_failures result (length bytes.now) (failures self.old) };
}

impl<W: Sink> Sink for &mut W {
    ghost told = { λ sink. W.told sink.now };

    ghost failures = { λ sink. W.failures sink.now };

    fn write(&mut self, bytes: &[u8]) -> Result<usize, SinkFault> {
        (**self).write(bytes)
    }
}
