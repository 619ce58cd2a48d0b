//! The start of a run, which a walk over a stream's runs keeps, and the positions that a writer makes of it.
ghost use Rattle.std.specs.Prelude.{◌≡◌, ◌+◌, ◌-◌, ◌/◌, ◌%◌, ◌^◌, ◌<◌, ◌≤◌, ◌⊎◌, length, IsTrue, ◌↔◌};
ghost use Rattle.orc_rle.specs.ByteRun.{IsByteRun};
ghost use Rattle.orc_positions.specs.Position.{IsWriterPosition, HasValues};
ghost use Rattle.orc_positions.specs.RunStarts.{start_of_stream, IsRunStart};

use orc_rle::{BitPos, ByteRuns, Pos, RunCodec, RunSize, Sign};

/// The start of a run in a stream, or the stream's end, and the size of that run. A walk from value to value keeps
/// it, so that no run is measured twice.
#[derive(Clone, Copy, Debug, PartialEq, Eq)]
pub struct RunStart {
    /// The offset of the run's start in the stream's bytes.
    pub offset: usize,
    /// How many values of the stream come before the run.
    pub before: usize,
    /// How many bytes the run has; 0 at the stream's end, and if the run hasn't been measured yet.
    pub len: usize,
    /// How many values the run has; 0 if `len` is 0.
    pub count: usize,
}

impl RunStart {
    /// Returns the start of a stream.
    pub fn start() -> RunStart
        // The returned start has offset 0, no value before it, and a run of 0 bytes and 0 values, because none has
        // been measured yet.
        ensures { result ≡ start_of_stream }
    {
        RunStart {
            offset: 0,
            before: 0,
            len: 0,
            count: 0,
        }
    }

    /// Returns whether value `n` is one of the run's values.
    fn holds(self, n: usize) -> bool
        requires { self.before ≤ n }
        ensures { IsTrue result ↔ n - self.before < self.count }
    {
        n - self.before < self.count
    }

    /// Returns the end of the run, which is where the next one begins.
    fn end(self) -> RunStart
        requires bytes { self.offset + self.len < 2 ^ 64 }
        requires values { self.before + self.count < 2 ^ 64 }
        ensures offset { result.offset ≡ self.offset + self.len }
        ensures before { result.before ≡ self.before + self.count }
        ensures unread { (result.len ≡ 0) × (result.count ≡ 0) }
    {
        RunStart {
            offset: self.offset + self.len,
            before: self.before + self.count,
            len: 0,
            count: 0,
        }
    }

    /// Returns the same start with the size of its run.
    fn over(self, size: RunSize) -> RunStart
        ensures start { (result.offset ≡ self.offset) × (result.before ≡ self.before) }
        ensures size { (result.len ≡ size.bytes) × (result.count ≡ size.values) }
    {
        RunStart {
            len: size.bytes,
            count: size.values,
            ..self
        }
    }

    /// Returns the position of value `n`, if that is in the run that begins here.
    pub fn position(self, n: usize) -> Pos
        requires { self.before ≤ n }
        // If at most `n` values come before the run, then the returned position has the run's offset and skips `n`
        // minus `before` values.
        ensures { (result.offset ≡ self.offset) × (result.skip ≡ n - self.before) }
    {
        Pos {
            offset: self.offset,
            skip: n - self.before,
        }
    }

    /// Returns the position of boolean `n`, if its byte `n / 8` is in the run that begins here.
    pub fn bit_position(self, n: usize) -> BitPos
        requires { self.before ≤ n / 8 }
        // If at most `n / 8` bytes come before the run, then the returned position has the run's offset, and skips `n
        // / 8` minus `before` bytes and then `n % 8` booleans.
        ensures { (result.offset ≡ self.offset) × (result.skip ≡ n / 8 - self.before) × (result.bits ≡ n % 8) }
    {
        BitPos {
            offset: self.offset,
            skip: n / 8 - self.before,
            bits: n % 8,
        }
    }
}

/// Returns the start of the run that has value `n` of a stream, or the stream's end if the stream has `n` values in
/// all. The walk begins at `from`, the start of a run that isn't after value `n`. It passes each run once, by its
/// size, and decodes none.
///
/// `bytes` must be a stream of `n` values or more.
pub fn run_start_at<C: RunCodec>(bytes: &[u8], sign: Sign, from: RunStart, n: usize) -> RunStart
    requires there { HasValues (C.is_run sign) bytes.now n }
    requires from { IsRunStart (C.is_run sign) bytes.now from }
    requires ahead { from.before ≤ n }
    // If `bytes` are a stream of at least `n` values, and `from` is the start of a run of it or its end, with at most
    // `n` values before it, then the returned offset, with `n` minus the returned number of values before it as the
    // skipped values, is the writer's position of value `n`.
    ensures place { IsWriterPosition (C.is_run sign) bytes.now result.offset (n - result.before) n }
    // If `bytes` are a stream of at least `n` values, and `from` is the start of a run of it or its end, with at most
    // `n` values before it, then the returned place is such a start or end, with the right number of values before
    // it, and the returned size is that of the run there, or 0.
    ensures run_start { IsRunStart (C.is_run sign) bytes.now result }
    // If `from` has at most `n` values before it, then the returned place has at most `n` values before it.
    ensures ahead { result.before ≤ n }
    // The returned offset is the length of `bytes`, or the values before the returned place and those of its run, by
    // the returned numbers of both, are more than `n`.
    ensures held { (result.offset ≡ length bytes.now) ⊎ (n - result.before < result.count) }
{
    let mut run_start = from;
    'runs: while !run_start.holds(n) {
        let end = run_start.end();
        if end.offset >= bytes.len() {
            return end;
        }
        let (_, rest) = bytes.split_at(end.offset);
        run_start = end.over(C::run_size(rest, sign));
    }
    run_start
}

/// Returns the start of the run that has byte `n` of a stream of bytes, or the stream's end if the stream has `n`
/// bytes in all. The walk begins at `from`, as in `run_start_at`.
///
/// `bytes` must be a stream of `n` bytes or more.
pub fn byte_run_start_at(bytes: &[u8], from: RunStart, n: usize) -> RunStart
    requires there { HasValues IsByteRun bytes.now n }
    requires from { IsRunStart IsByteRun bytes.now from }
    requires ahead { from.before ≤ n }
    // If `bytes` are a stream of at least `n` bytes, and `from` is the start of a run of it or its end, with at most
    // `n` bytes before it, then the returned offset, with `n` minus the returned number of bytes before it as the
    // skipped bytes, is the writer's position of byte `n`.
    ensures place { IsWriterPosition IsByteRun bytes.now result.offset (n - result.before) n }
    // If `bytes` are a stream of at least `n` bytes, and `from` is the start of a run of it or its end, with at most
    // `n` bytes before it, then the returned place is such a start or end, with the right number of bytes before it,
    // and the returned size is that of the run there, or 0.
    ensures run_start { IsRunStart IsByteRun bytes.now result }
    // If `from` has at most `n` bytes before it, then the returned place has at most `n` bytes before it.
    ensures ahead { result.before ≤ n }
    // The returned offset is the length of `bytes`, or the bytes before the returned place and those of its run, by
    // the returned numbers of both, are more than `n`.
    ensures held { (result.offset ≡ length bytes.now) ⊎ (n - result.before < result.count) }
{
    let mut run_start = from;
    'runs: while !run_start.holds(n) {
        let end = run_start.end();
        if end.offset >= bytes.len() {
            return end;
        }
        let (_, rest) = bytes.split_at(end.offset);
        run_start = end.over(ByteRuns::run_size(rest));
    }
    run_start
}
