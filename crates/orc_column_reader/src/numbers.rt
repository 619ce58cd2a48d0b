//! Streams of integers in runs.

ghost use Rattle.std.specs.Prelude.{◌≡◌, ◌≢◌, ◌<◌, ◌∷◌, [], ℕ, suc, length, IfOk, IfErr, OnOk, OnErr, MatchBool};
ghost use Rattle.orc_column_reader.specs.Fronts.{Leaves, Precedes, Lacks};
ghost use Rattle.orc_column_reader.specs.Numbers.{NumbersLeft, NumbersFirst};
ghost use Rattle.orc_column_reader.specs.RunsMet.{NumbersMeet};
ghost use Rattle.orc_column_reader.specs.Starting.{NumbersStart};
ghost use Rattle.orc_rle.specs.declared.fault.RunFault.TheVariants.{OutOfMemory};
ghost use Rattle.orc_rle.specs.declared.fault.RunFault.{RunFault as Fault};

use crate::version::next_run;
use orc_rle::{Rle, Run, RunFault, Sign};

/// What is left of a stream of integers: the values of the run that was read last which weren't taken yet, and the
/// bytes after it. It takes no memory.
#[derive(Drop)]
pub struct Numbers<'a> {
    pub version: Rle,
    pub sign: Sign,
    pub bytes: &'a [u8],
    pub at: usize,
    // the start of the run that was read last
    pub start: usize,
    pub run: Run,
    pub used: usize,
}

/// Returns a reader at the start of a stream of integers.
pub fn numbers_of(version: Rle, sign: Sign, bytes: &[u8]) -> Numbers<'_>
    // The returned reader is at the start of `bytes`, with `version` and `sign`.
    ensures { NumbersStart version sign bytes.now result }
{
    Numbers::behind(version, sign, bytes, 0, 0, Run::new(), 0)
}

impl<'a> Numbers<'a> {
    /// Returns the reader of a stream of integers whose run at `start` was read last. The bytes from `at` on come
    /// after that run. `run` has what is left of it, but its first `used` values were taken.
    #[inline(always)]
    pub fn behind(
        version: Rle,
        sign: Sign,
        bytes: &'a [u8],
        at: usize,
        start: usize,
        run: Run,
        used: usize,
    ) -> Numbers<'a>
        // The returned reader has the given parts.
        ensures { result ≡ record {
          version = version;
          sign = sign;
          bytes = bytes.entry;
          at = at;
          start = start;
          run = run;
          used = used;
        } }
    {
        Numbers {
            version,
            sign,
            bytes,
            at,
            start,
            run,
            used,
        }
    }

    /// Reads runs until there is a value.
    #[inline(never)]
    fn fill(&mut self) -> Result<(), RunFault>
        ensures found { OnOk result (Leaves (NumbersLeft self.old) (NumbersLeft self.new) []) }
        ensures first { OnOk result (Precedes (NumbersFirst self.old) (NumbersFirst self.new) []) }
        ensures some { OnOk result (self.new.used < length self.new.run.values) }
        ensures none { OnErr result (Lacks (NumbersLeft self.old) 1) }
        ensures before { OnOk result ((n : ℕ) (f : Fault) → NumbersMeet self.new n f → NumbersMeet self.old n f) }
        ensures fault { IfErr result (λ fault. (n : ℕ) → NumbersMeet self.old (suc n) fault) }
        ensures no_memory { IfErr result (λ fault. fault ≢ OutOfMemory) }
    {
        while self.used >= self.run.values().len() {
            if self.at >= self.bytes.len() {
                return Err(RunFault::TooFew(self.bytes.len()));
            }
            let (_, rest) = self.bytes.split_at(self.at);
            match next_run(self.version, rest, self.sign, &mut self.run) {
                Ok(len) => {
                    self.start = self.at;
                    self.at += len;
                    self.used = 0;
                }
                Err(fault) => return Err(fault.with_place(self.at)),
            }
        }
        Ok(())
    }

    /// Makes sure that there is a value. Nearly always the run that was read last has one, which needs no call.
    #[inline(always)]
    fn ready(&mut self) -> Result<(), RunFault>
        ensures found { OnOk result (Leaves (NumbersLeft self.old) (NumbersLeft self.new) []) }
        ensures first { OnOk result (Precedes (NumbersFirst self.old) (NumbersFirst self.new) []) }
        ensures some { OnOk result (self.new.used < length self.new.run.values) }
        ensures none { OnErr result (Lacks (NumbersLeft self.old) 1) }
        ensures before { OnOk result ((n : ℕ) (f : Fault) → NumbersMeet self.new n f → NumbersMeet self.old n f) }
        ensures fault { IfErr result (λ fault. (n : ℕ) → NumbersMeet self.old (suc n) fault) }
        ensures no_memory { IfErr result (λ fault. fault ≢ OutOfMemory) }
    {
        if self.used < self.run.values().len() {
            return Ok(());
        }
        self.fill()
    }

    /// Returns the next number.
    ///
    /// # Errors
    ///
    /// - `TooFew`, if no number is left.
    /// - The error of the next run, if it is invalid, with its offset.
    #[inline(always)]
    pub fn next(&mut self) -> Result<i64, RunFault>
        // If the call succeeds, then the numbers that were left before it are the returned one, followed by those
        // left after it.
        ensures found { IfOk result (λ n. Leaves (NumbersLeft self.old) (NumbersLeft self.new) (n ∷ [])) }
        // If the call succeeds, and numbers come first in what is left after it, whatever follows them, then these
        // came first before it with the returned one in front.
        ensures first { IfOk result (λ n. Precedes (NumbersFirst self.old) (NumbersFirst self.new) (n ∷ [])) }
        // If the call fails, then the stream has no further number.
        ensures none { OnErr result (Lacks (NumbersLeft self.old) 1) }
        // If the call succeeds, then each error that the reader meets after it with n numbers to give is one that it
        // met before with n + 1.
        ensures before { OnOk result ((n : ℕ) (f : Fault) → NumbersMeet self.new n f → NumbersMeet self.old (suc n) f) }
        // If the call fails, then the error is one that the reader meets from its place before the call, whatever
        // number of numbers above 0 it has to give.
        ensures fault { IfErr result (λ fault. (n : ℕ) → NumbersMeet self.old (suc n) fault) }
        // An error is never `OutOfMemory`.
        ensures no_memory { IfErr result (λ fault. fault ≢ OutOfMemory) }
    {
        self.ready()?;
        let number = self.run.values()[self.used];
        self.used += 1;
        Ok(number)
    }
}

/// Returns whether no number is left.
pub fn numbers_end(numbers: &Numbers<'_>) -> bool
    // The call returns true if and only if no number is left.
    ensures { MatchBool result (NumbersLeft numbers.now []) (NumbersLeft numbers.now [] → ⊥) }
{
    if numbers.used < numbers.run.values().len() {
        return false;
    }
    if numbers.at < numbers.bytes.len() {
        return false;
    }
    true
}

/// Returns the error of numbers that are left over: of the run that was read last, or, if all of that was taken, of
/// the bytes after it, which may be no run.
pub fn numbers_left(numbers: &Numbers<'_>) -> RunFault
    requires more { NumbersLeft numbers.now [] → ⊥ }
    // If numbers are left over, then the returned error is one that a reader meets which must have given all numbers,
    // and it is not `OutOfMemory`.
    ensures met { NumbersMeet numbers.now 0 result }
    ensures no_memory { result ≢ OutOfMemory }
{
    if numbers.used < numbers.run.values().len() {
        return RunFault::TooMany(numbers.start);
    }
    let (_, rest) = numbers.bytes.split_at(numbers.at);
    match next_run(numbers.version, rest, numbers.sign, &mut Run::new()) {
        Ok(_) => RunFault::TooMany(numbers.at),
        Err(fault) => fault.with_place(numbers.at),
    }
}
