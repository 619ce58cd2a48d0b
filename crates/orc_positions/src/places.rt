//! The places of a stream's runs, which one walk finds, and a table in which positions are looked up.
ghost use Rattle.std.specs.Prelude.{◌≡◌, ◌≢◌, ◌<◌, ◌≤◌, ◌+◌, ◌*◌, ◌-◌, ◌^◌, ◌⊎◌, ℕ, ℤ, None, List, length, IfOk, IfErr, IfSome, MatchBool};
ghost use Rattle.orc_rle.specs.declared.fault.RunFault.{RunFault};
ghost use Rattle.orc_rle.specs.declared.fault.RunFault.TheVariants.{TooFew, OutOfMemory};
ghost use Rattle.orc_rle.specs.declared.sign.Sign.{Sign};
ghost use Rattle.orc_rle.specs.Stream.{IsStream, StopsWithin, Refuses};
ghost use Rattle.orc_rle.specs.ByteRun.{IsByteRun, NoByteRun};
ghost use Rattle.orc_positions.specs.Position.{Begins, HasValues};
ghost use Rattle.orc_positions.specs.BitPosition.{BeginsBits, HasBooleans};
ghost use Rattle.orc_positions.specs.RunTable.{Places, ArePlaces, Names, NamesBit};

use orc_rle::{ByteRuns, Run, RunCodec, RunFault, RunU8, Sign};
use std::alloc::Global;
use std::marker::Model;

/// A table of where the runs of a stream begin and where the last one ends, with the number of values before each of
/// these places. A position is looked up in it without going over the stream again.
#[derive(Drop)]
pub struct RunTable {
    offsets: Vec<u64>,
    counts: Vec<u64>,
}

impl Model for RunTable {
    ghost use Rattle.std.specs.Prelude.{◌≡◌, length};
    ghost use Rattle.orc_positions.specs.RunTable.{Places, Rises};

    ghost Value = { Places };

    ghost view = { λ p. record { offsets = p.offsets.items; counts = p.counts.items } };

    ghost invariant = { λ p. Rises p.offsets.items × (length p.counts.items ≡ length p.offsets.items) };
}

/// Builds the table of places of a stream of integers, which may have at most 2^64 - 1 values.
///
/// # Errors
///
/// - The error of the first invalid run from the left, with that run's offset.
/// - `TooMany` with a run's offset, if that run goes past 2^64 - 1 values.
/// - `OutOfMemory`.
pub fn run_table<C: RunCodec>(alloc: Global, bytes: &[u8], sign: Sign) -> Result<RunTable, RunFault>
    // If the call succeeds, then all of `bytes` are runs, one after the other, and the returned table has the offset
    // at which each run begins and the offset at which the last one ends, each with the number of values before it.
    ensures found { IfOk result (ArePlaces (C.is_run sign) bytes.now) }
    // If all of `bytes` are runs, one after the other, with fewer than 2^64 values in all, then the only error is
    // `OutOfMemory`.
    ensures only { (values : List ℤ) → IsStream (C.is_run sign) bytes.now values → length values < 2 ^ 64
        → IfErr result (λ fault. fault ≡ OutOfMemory) }

    // An error is `OutOfMemory`; or, for the first run from the left that is invalid or goes past 2^64 - 1 values,
    // the invalid run's error or `TooMany`, with that run's offset; or `TooFew` with the length of `bytes`, whose
    // runs have fewer than 2^64 - 1 values in all, but that error is excluded by `only`.
    ensures fault { IfErr result (λ fault. (fault ≡ OutOfMemory)
        ⊎ StopsWithin (C.is_run sign) (C.fails sign) (2 ^ 64 - 1) bytes.now fault) }
    // If a run of `bytes` is invalid or goes past 2^64 - 1 values, then the call fails with the error of the first
    // such run from the left (`TooMany` if it goes past that number), with that run's offset, or with `OutOfMemory`.
    ensures refused { (fault : RunFault) → StopsWithin (C.is_run sign) (C.fails sign) (2 ^ 64 - 1) bytes.now fault
        → fault ≢ TooFew (length bytes.now) → Refuses result fault }
{
    let mut offsets = Vec::new(alloc);
    let mut counts = Vec::new(alloc);
    let mut run = Run::new();
    let mut at = 0;
    let mut before: u64 = 0;
    while at < bytes.len() {
        offsets.push(at as u64)?;
        counts.push(before)?;
        let (_, rest) = bytes.split_at(at);
        let len = match C::next_run(rest, sign, &mut run) {
            Ok(len) => len,
            Err(fault) => return Err(fault.with_place(at)),
        };
        let found = run.values().len() as u64;
        if u64::MAX - before < found {
            return Err(RunFault::TooMany(at));
        }
        at += len;
        before += found;
    }
    offsets.push(at as u64)?;
    counts.push(before)?;
    Ok(RunTable { offsets, counts })
}

/// Builds the table of places of a stream of bytes, and so of the bytes of a stream of booleans.
///
/// # Errors
///
/// - `Short` with the offset of a run inside which `bytes` end.
/// - `TooMany` with a run's offset, if that run goes past 2^64 - 1 bytes.
/// - `OutOfMemory`.
pub fn byte_table(alloc: Global, bytes: &[u8]) -> Result<RunTable, RunFault>
    // If the call succeeds, then all of `bytes` are byte runs, one after the other, and the returned table has the
    // offset at which each run begins and the offset at which the last one ends, each with the number of values of
    // the runs before it.
    ensures found { IfOk result (ArePlaces IsByteRun bytes.now) }
    // If all of `bytes` are byte runs, one after the other, with fewer than 2^64 values in all, then the only error
    // is `OutOfMemory`.
    ensures only { (values : List ℕ) → IsStream IsByteRun bytes.now values → length values < 2 ^ 64
        → IfErr result (λ fault. fault ≡ OutOfMemory) }

    // An error is `OutOfMemory`; or, for the first run from the left inside which `bytes` end or which goes past 2^64
    // - 1 values, `Short` or `TooMany`, with that run's offset; or `TooFew` with the length of `bytes`, whose runs
    // have fewer than 2^64 - 1 values in all, but that error is excluded by `only`.
    ensures fault { IfErr result (λ fault. (fault ≡ OutOfMemory)
        ⊎ StopsWithin IsByteRun NoByteRun (2 ^ 64 - 1) bytes.now fault) }
    // If `bytes` end inside a run, or a run goes past 2^64 - 1 values, then the call fails with the error of the
    // first such run from the left (`Short` or `TooMany`), with that run's offset, or with `OutOfMemory`.
    ensures refused { (fault : RunFault) → StopsWithin IsByteRun NoByteRun (2 ^ 64 - 1) bytes.now fault
        → fault ≢ TooFew (length bytes.now) → Refuses result fault }
{
    let mut offsets = Vec::new(alloc);
    let mut counts = Vec::new(alloc);
    let mut run = RunU8::new();
    let mut at = 0;
    let mut before: u64 = 0;
    while at < bytes.len() {
        offsets.push(at as u64)?;
        counts.push(before)?;
        let (_, rest) = bytes.split_at(at);
        let len = match ByteRuns::next_run(rest, &mut run) {
            Ok(len) => len,
            Err(fault) => return Err(fault.with_place(at)),
        };
        let found = run.values().len() as u64;
        if u64::MAX - before < found {
            return Err(RunFault::TooMany(at));
        }
        at += len;
        before += found;
    }
    offsets.push(at as u64)?;
    counts.push(before)?;
    Ok(RunTable { offsets, counts })
}

/// Returns how many whole bytes come before boolean `n`, if `bits` of the booleans before it are in the next byte.
fn whole_bytes(bits: u64, n: u64) -> Option<u64>
    ensures found { IfSome result (λ whole. (bits ≤ 8) × (n ≡ 8 * whole + bits)) }
    ensures none { result ≡ None → (whole : ℕ) → bits ≤ 8 → n ≡ 8 * whole + bits → ⊥ }
{
    if bits > 8 {
        return None;
    }
    if bits > n {
        return None;
    }
    let digits = n - bits;
    if digits % 8 > 0 {
        return None;
    }
    Some(digits / 8)
}

impl RunTable {
    /// Returns whether a position names value `n`: its offset is one of the places, and the number of values before
    /// that place plus `skip` is `n`. It searches by halves.
    pub fn begins(&self, offset: u64, skip: u64, n: u64) -> bool
        // The call returns true if and only if `offset` is one of the table's places, and the number of values before
        // that place plus `skip` is `n`.
        ensures { MatchBool result (Names self.now offset skip n) (Names self.now offset skip n → ⊥) }
    {
        match self.offsets.binary_search(&offset) {
            Ok(place) => match self.counts.get(place) {
                Some(count) => match n.checked_sub(skip) {
                    Some(before) => *count == before,
                    None => false,
                },
                None => false,
            },
            Err(_) => false,
        }
    }

    /// Returns whether a position names boolean `n`, if the table has the places of the byte runs: from `offset` on,
    /// `skip` bytes and then `bits` booleans are skipped.
    pub fn begins_bit(&self, offset: u64, skip: u64, bits: u64, n: u64) -> bool
        // The call returns true if and only if `bits` is at most 8, `offset` is one of the table's places, and `n` is
        // `bits` plus eight times the sum of `skip` and the number of bytes before that place.
        ensures { MatchBool result (NamesBit self.now offset skip bits n) (NamesBit self.now offset skip bits n → ⊥) }
    {
        match whole_bytes(bits, n) {
            Some(whole) => self.begins(offset, skip, whole),
            None => false,
        }
    }
}

/// States the laws of places: a position that comes to value n in the table of a stream's places names value n, if
/// the stream has n values or more; and each position that names a value comes to it in the table.
pub fn place_laws<C: RunCodec>()
    // If a table has the places of a stream with at least n values, the offset of a position is one of them, and the
    // number of values before that place plus the position's skipped values is n, then the position names value n of
    // the stream.
    ensures named { (sign : Sign) (bytes : List ℕ) (places : Places) (offset skip n : ℕ)
        → ArePlaces (C.is_run sign) bytes places
        → HasValues (C.is_run sign) bytes n
        → Names places offset skip n
        → Begins (C.is_run sign) bytes offset skip n }
    // If a table has the places of a stream and a position names value n of it, then the position's offset is one of
    // the places, and the number of values before that place plus the position's skipped values is n.
    ensures begins { (sign : Sign) (bytes : List ℕ) (places : Places) (offset skip n : ℕ)
        → ArePlaces (C.is_run sign) bytes places
        → Begins (C.is_run sign) bytes offset skip n
        → Names places offset skip n }
{}

/// States the laws of places for streams of bytes and of booleans.
pub fn byte_place_laws()
    // If a table has the places of a stream of byte runs with at least n bytes, the offset of a position is one of
    // them, and the number of bytes before that place plus the position's skipped bytes is n, then the position names
    // byte n of the stream.
    ensures named { (bytes : List ℕ) (places : Places) (offset skip n : ℕ) → ArePlaces IsByteRun bytes places
        → HasValues IsByteRun bytes n → Names places offset skip n → Begins IsByteRun bytes offset skip n }
    // If a table has the places of a stream of byte runs and a position names byte n of it, then the position's
    // offset is one of the places, and the number of bytes before that place plus the position's skipped bytes is n.
    ensures begins { (bytes : List ℕ) (places : Places) (offset skip n : ℕ) → ArePlaces IsByteRun bytes places
        → Begins IsByteRun bytes offset skip n → Names places offset skip n }
    // If a table has the places of the byte runs of a stream with at least n booleans, a position has at most 8 bits,
    // its offset is one of the places, and eight times the number of bytes before it or skipped, plus the position's
    // bits, is n, then the position names boolean n of the stream.
    ensures named_bit { (bytes : List ℕ) (places : Places) (total offset skip bits n : ℕ)
        → ArePlaces IsByteRun bytes places
        → HasBooleans bytes total
        → n ≤ total
        → NamesBit places offset skip bits n
        → BeginsBits bytes total offset skip bits n }
    // If a table has the places of byte runs and a position names boolean n of them, then the position has at most 8
    // bits, its offset is one of the places, and eight times the number of bytes before it or skipped, plus the
    // position's bits, is n.
    ensures begins_bit { (bytes : List ℕ) (places : Places) (total offset skip bits n : ℕ)
        → ArePlaces IsByteRun bytes places
        → BeginsBits bytes total offset skip bits n
        → NamesBit places offset skip bits n }
{}
