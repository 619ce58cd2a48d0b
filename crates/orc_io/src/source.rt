//! The interface from which bytes are read.
ghost use Rattle.std.specs.Prelude.{◌≡◌, ◌+◌, ◌<◌, ◌≤◌, ℕ, List, Option, length, All, IfSome, OnOk};
ghost use Rattle.orc_io.specs.Devices.{bytes_at, failures_after};

/// A read failed. The slice that it should have filled may have any contents.
#[derive(Clone, Copy, Debug, PartialEq, Eq)]
pub struct SourceFault;

/// Bytes that are read in ranges. If they are known to contracts, what a read gives is promised byte by byte; if not,
/// only their number is known. The clauses tie the count of failures to the answers. No clause can say that an error
/// comes from a failure outside of the program, so each `impl` has to be read for that.
pub trait Source {
    /// The number of bytes.
    ghost size: { Self → ℕ };

    /// The bytes, if they are known.
    ghost told: { Self → Option (List ℕ) };

    /// How often a read has failed.
    ghost failures: { Self → ℕ };

    /// Returns the number of bytes.
    fn len(&self) -> u64
        // The answer is the number of bytes that the source has.
        ensures { result ≡ size self.now };

    /// Fills the slice with the bytes from `at` on. The range must lie within the source. Each error counts as a
    /// failure, and nothing else does.
    ///
    /// # Errors
    ///
    /// `SourceFault` if the read failed. The slice may have any contents then.
    fn read_at(&mut self, at: u64, into: &mut [u8]) -> Result<(), SourceFault>
        requires { at + length into.old ≤ size self.old }
        // If the range lies within the source and the source's bytes are known, then a read that succeeds fills `into`
        // with the bytes of the source from `at` on.
        ensures bytes { OnOk result (IfSome (told self.old) (λ bytes. into.new ≡ bytes_at at (length into.old) bytes)) }
        // If the range lies within the source, then a read changes neither the source's length nor what is known of its
        // bytes.
        ensures size { size self.new ≡ size self.old }
        ensures told { told self.new ≡ told self.old }
        // If the range lies within the source, then a read that fails raises the source's count of failures by one, and
        // a read that succeeds leaves the count as it is.
        ensures failures { failures self.new ≡ failures_after result (failures self.old) };

    /// Tells the source that no read comes for now, so that it can release what it keeps for the next one, such as an
    /// open file. Reads after this call work as any other.
    fn rest(&mut self)
        // `rest` changes neither the source's length nor what is known of its bytes.
        ensures size { size self.new ≡ size self.old }
        ensures told { told self.new ≡ told self.old }
        // `rest` doesn't change the source's count of failures.
        ensures failures { failures self.new ≡ failures self.old };

    /// If the bytes are known, there are as many as the source's length.
    ghost told_size: { (source : Self) → IfSome (told source) (λ bytes. length bytes ≡ size source) };

    /// Each of the known bytes is below 256.
    ghost told_bytes: { (source : Self) → IfSome (told source) (λ bytes. All (λ byte. byte < 256) bytes) };
}

impl<S: Source> Source for &mut S {
    ghost size = { λ source. S.size source.now };

    ghost told = { λ source. S.told source.now };

    ghost failures = { λ source. S.failures source.now };

    fn len(&self) -> u64 {
        (**self).len()
    }

    fn read_at(&mut self, at: u64, into: &mut [u8]) -> Result<(), SourceFault> {
        (**self).read_at(at, into)
    }

    fn rest(&mut self) {
        (**self).rest()
    }

    ghost told_size = { λ source. S.told_size source.now };

    ghost told_bytes = { λ source. S.told_bytes source.now };
}
