//! Streams of bytes in runs.

ghost use Rattle.std.specs.Prelude.{◌≡◌, ◌≢◌, ◌<◌, ◌∷◌, [], ℕ, suc, length, IfOk, IfErr, OnOk, OnErr, MatchBool};
ghost use Rattle.orc_column_reader.specs.Fronts.{Leaves, Precedes, Lacks};
ghost use Rattle.orc_column_reader.specs.Bytes.{BytesLeft, BytesFirst};
ghost use Rattle.orc_column_reader.specs.RunsMet.{BytesMeet};
ghost use Rattle.orc_column_reader.specs.Starting.{BytesStart};
ghost use Rattle.orc_rle.specs.declared.fault.RunFault.TheVariants.{OutOfMemory};
ghost use Rattle.orc_rle.specs.declared.fault.RunFault.{RunFault as Fault};

use orc_rle::{ByteRuns, RunFault, RunU8};

/// What is left of a stream of bytes in runs: the bytes of the run that was read last which weren't taken yet, and
/// the runs after it. It takes no memory.
#[derive(Drop)]
pub struct RunLengthBytes<'a> {
    pub bytes: &'a [u8],
    pub at: usize,
    // the start of the run that was read last
    pub start: usize,
    pub run: RunU8,
    pub used: usize,
}

/// Returns a reader at the start of a stream of bytes in runs.
pub(crate) fn bytes_of(bytes: &[u8]) -> RunLengthBytes<'_>
    ensures { BytesStart bytes.now result }
{
    RunLengthBytes::behind(bytes, 0, 0, RunU8::new(), 0)
}

impl<'a> RunLengthBytes<'a> {
    /// Returns the reader of a stream of bytes in runs whose run at `start` was read last. The bytes from `at` on
    /// come after that run. `run` has what is left of it, but its first `used` values were taken.
    #[inline(always)]
    pub fn behind(
        bytes: &'a [u8],
        at: usize,
        start: usize,
        run: RunU8,
        used: usize,
    ) -> RunLengthBytes<'a>
        // The returned reader has the given parts.
        ensures { result ≡ record { bytes = bytes.entry; at = at; start = start; run = run; used = used } }
    {
        RunLengthBytes {
            bytes,
            at,
            start,
            run,
            used,
        }
    }

    /// Reads runs until there is a byte.
    fn fill(&mut self) -> Result<(), RunFault>
        ensures found { OnOk result (Leaves (BytesLeft self.old) (BytesLeft self.new) []) }
        ensures first { OnOk result (Precedes (BytesFirst self.old) (BytesFirst self.new) []) }
        ensures some { OnOk result (self.new.used < length self.new.run.values) }
        ensures none { OnErr result (Lacks (BytesLeft self.old) 1) }
        ensures before { OnOk result ((n : ℕ) (f : Fault) → BytesMeet self.new n f → BytesMeet self.old n f) }
        ensures fault { IfErr result (λ fault. (n : ℕ) → BytesMeet self.old (suc n) fault) }
    {
        while self.used >= self.run.values().len() {
            if self.at >= self.bytes.len() {
                return Err(RunFault::TooFew(self.bytes.len()));
            }
            let (_, rest) = self.bytes.split_at(self.at);
            match ByteRuns::next_run(rest, &mut self.run) {
                Ok(len) => {
                    self.start = self.at;
                    self.at += len;
                    self.used = 0;
                }
                Err(fault) => return Err(fault.with_place(self.at)),
            }
        }
        Ok(())
    }

    /// Returns the next byte.
    ///
    /// # Errors
    ///
    /// - `TooFew`, if no byte is left.
    /// - The error of the next run, if it is invalid, with its offset.
    pub fn next(&mut self) -> Result<u8, RunFault>
        // If the call succeeds, then the bytes that were left before it are the returned one, followed by those left
        // after it.
        ensures found { IfOk result (λ byte. Leaves (BytesLeft self.old) (BytesLeft self.new) (byte ∷ [])) }
        // If the call succeeds, and bytes come first in what is left after it, whatever follows them, then these came
        // first before it with the returned one in front.
        ensures first { IfOk result (λ byte. Precedes (BytesFirst self.old) (BytesFirst self.new) (byte ∷ [])) }
        // If the call fails, then the stream has no further byte.
        ensures none { OnErr result (Lacks (BytesLeft self.old) 1) }
        // If the call succeeds, then each error that the reader meets after it with n bytes to give is one that it
        // met before with n + 1.
        ensures before { OnOk result ((n : ℕ) (f : Fault) → BytesMeet self.new n f → BytesMeet self.old (suc n) f) }
        // If the call fails, then the error is one that the reader meets from its place before the call, whatever
        // number of bytes above 0 it has to give.
        ensures fault { IfErr result (λ fault. (n : ℕ) → BytesMeet self.old (suc n) fault) }
    {
        self.fill()?;
        let byte = self.run.values()[self.used];
        self.used += 1;
        Ok(byte)
    }
}

/// Returns whether no byte of the runs is left.
pub(crate) fn bytes_end(bytes: &RunLengthBytes<'_>) -> bool
    ensures { MatchBool result (BytesLeft bytes.now []) (BytesLeft bytes.now [] → ⊥) }
{
    if bytes.used < bytes.run.values().len() {
        return false;
    }
    if bytes.at < bytes.bytes.len() {
        return false;
    }
    true
}

/// Returns the error of bytes in runs that are left over.
pub(crate) fn bytes_left(bytes: &RunLengthBytes<'_>) -> RunFault
    requires more { BytesLeft bytes.now [] → ⊥ }
    ensures met { BytesMeet bytes.now 0 result }
    ensures no_memory { result ≢ OutOfMemory }
{
    if bytes.used < bytes.run.values().len() {
        return RunFault::TooMany(bytes.start);
    }
    let (_, rest) = bytes.bytes.split_at(bytes.at);
    match ByteRuns::next_run(rest, &mut RunU8::new()) {
        Ok(_) => RunFault::TooMany(bytes.at),
        Err(fault) => fault.with_place(bytes.at),
    }
}
