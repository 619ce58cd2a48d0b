//! Booleans, eight in a byte, and the bytes in runs of bytes: streams of them, positions, and their one text.
ghost use Rattle.std.specs.Prelude.{◌≡◌, ℕ, List, [], ◌∷◌, ◌++◌, ◌+◌, ◌^◌, ◌<◌, ◌≤◌, length, drop, map, get_or, Bool, ◌⊎◌, Result, Ok, Err, IfOk, IfErr, OnOk, OnErr, MatchResult};
ghost use Rattle.orc_bits.specs.Packed.{bits, digits, packed_len, AllFit, IsPackedText};
ghost use Rattle.orc_rle.specs.declared.fault.RunFault.{RunFault};
ghost use Rattle.orc_rle.specs.declared.fault.RunFault.TheVariants.{OutOfMemory};
ghost use Rattle.orc_rle.specs.Values.{AppendsBytes};
ghost use Rattle.orc_rle.specs.Stream.{StopsWithin, Refuses};
ghost use Rattle.orc_rle.specs.Seeking.{bytes_needed, SeeksBits, BitSeekFails, CountsRuns, CountsAllRuns};
ghost use Rattle.orc_rle.specs.ByteRun.{IsByteRun, NoByteRun};
ghost use Rattle.orc_rle.specs.BitStream.{digit, IsBitStream, IsBitText};

use crate::byte_runs::{ByteRuns, RunU8, run_at};
use crate::fault::RunFault;
use crate::position::{BitPos, Pos};
use std::alloc::Global;

/// Run lengths of booleans (ORC specification, "Run Length Encoding", "Boolean Run Length Encoding"):
/// eight stand in a byte, the highest digit first, and the bytes are runs of bytes.
pub struct BitRuns;

impl BitRuns {
    /// The `n` booleans that the runs of all of `bytes` have. What the spare digits of the last byte are
    /// doesn't matter. Any `n` will do: memory is set aside only once there are bytes for so many.
    ///
    /// Refusals: those of `ByteRuns::decode` for the least number of bytes that holds `n` booleans. So
    /// `TooMany` comes where a run goes past that number of bytes, and `TooFew` where they end before it.
    pub fn decode(alloc: Global, bytes: &[u8], n: usize) -> Result<Vec<bool>, RunFault>
        // The returned `n` booleans are the first `n` bits of the values of the runs that make up all of `bytes`, one
        // run after the other, with the highest bit of each value first. These runs have `n` / 8 values in all (rounded
        // up).
        ensures found { IfOk result (λ values. IsBitStream bytes.now values.items × (length values.items ≡ n)) }
        // If all of `bytes` are runs, one after the other, with `n` / 8 values in all (rounded up), then the call
        // returns the first `n` bits of these values as booleans, the highest bit of each value first, whatever the
        // spare bits are, or it fails with `OutOfMemory`.
        ensures only { (values : List Bool) → IsBitStream bytes.now values → length values ≡ n
            → MatchResult result (λ decoded. decoded.items ≡ values) (λ fault. fault ≡ OutOfMemory) }

        // An error is `OutOfMemory`; or, for the first run from the left inside which `bytes` end or which is whole but
        // goes past `n` / 8 values (rounded up), `Short` or `TooMany`, with that run's offset; or, if there is no such
        // run, `TooFew` with the length of `bytes`, whose runs have fewer than `n` / 8 values in all.
        ensures fault { IfErr result (λ fault. (fault ≡ OutOfMemory)
            ⊎ StopsWithin IsByteRun NoByteRun (packed_len 1 n) bytes.now fault) }
        // If `bytes` end inside a run, a whole run goes past `n` / 8 values (rounded up), or the runs have fewer than
        // `n` / 8 values in all, then the call fails. The error is `Short` or `TooMany` for the first such run from the
        // left, with that run's offset; or `TooFew` with the length of `bytes`, if there is no such run; or
        // `OutOfMemory`.
        ensures refused { (fault : RunFault)
            → StopsWithin IsByteRun NoByteRun (packed_len 1 n) bytes.now fault → Refuses result fault }
    {
        let packed = ByteRuns::decode(alloc, bytes, n.div_ceil(8))?;
        let mut values = Vec::from_elem(alloc, false, n)?;
        for i in 0..n {
            values[i] = digit_at(packed[i / 8], i % 8);
        }
        Ok(values)
    }

    /// Decodes runs of bytes from `pos.offset` on until `pos.skip` bytes are passed, and answers the offset after the
    /// last run decoded; `run` holds what is left of that run. If `pos.bits` is above 0, this begins with the byte of
    /// which so many digits are passed; it may be the first of one run more. Bytes before the offset aren't read.
    ///
    /// Errors: `BadPosition` with the offset, if `pos.bits` is above 8, which is tested first, if the offset is past
    /// the end, or if the runs from there on have fewer than `pos.skip` bytes, or just as many and `pos.bits` is above
    /// 0; the error of bytes on the way that are no run, with their place. After an error `run` is empty.
    ///
    /// The count of `run` rises by the number of runs from the offset to the answer. After an error it rises by the
    /// number of runs that follow each other from the offset on, each decoded once; past the end, and if `pos.bits` is
    /// above 8, by none. It never rises by more than `pos.skip`, and one more if `pos.bits` is above 0; nor by more
    /// than one if the first run has all these bytes. The call takes no memory.
    pub fn seek(bytes: &[u8], pos: BitPos, run: &mut RunU8) -> Result<usize, RunFault>
        // The returned offset is the end of the last run that is needed to skip `pos.skip` values from `pos.offset` on
        // and, if `pos.bits` is above 0, to reach the next value. `run` contains that run's values after the skipped
        // ones: if `pos.bits` is above 0, the first is the byte of which `pos.bits` bits are skipped. If `pos.skip` and
        // `pos.bits` are 0, no run is needed: the returned offset is `pos.offset`, which is at most the length of
        // `bytes`, and `run` has no values. `pos.bits` is at most 8.
        ensures found { IfOk result (λ at. SeeksBits bytes.now pos.offset pos.skip pos.bits at run.new.values) }
        // If `pos.bits` is at most 8, `pos.offset` is at most the length of `bytes`, and the runs from there on have
        // the needed values, which are `pos.skip` and one more if `pos.bits` is above 0, then the call returns the end
        // of the last run that has a needed value, and `run` contains that run's values after the first `pos.skip`
        // ones. If no values are needed, the call returns `pos.offset`, and `run` has no values.
        ensures only { (at : ℕ) (left : List ℕ) → SeeksBits bytes.now pos.offset pos.skip pos.bits at left
            → (result ≡ Ok at) × (run.new.values ≡ left) }

        // An error is `BadPosition` with `pos.offset`, if `pos.bits` is above 8, `pos.offset` is past the end of
        // `bytes`, or the runs from there to the end have fewer than the needed values, which are `pos.skip` and one
        // more if `pos.bits` is above 0. Or `pos.bits` is at most 8, and the error is `Short` with the offset of a run
        // inside which `bytes` end and which is met before the needed values are there.
        ensures fault { IfErr result (BitSeekFails bytes.now pos.offset pos.skip pos.bits) }
        // If `pos.bits` is above 8, `pos.offset` is past the end of `bytes`, the runs from there to the end have fewer
        // than the needed values, which are `pos.skip` and one more if `pos.bits` is above 0, or `bytes` end inside a
        // run that is met before the needed values are there, then the call fails. In the last case the error is
        // `Short` with that run's offset, unless `pos.bits` is above 8; in the other cases it is `BadPosition` with
        // `pos.offset`.
        ensures refused { (fault : RunFault)
            → BitSeekFails bytes.now pos.offset pos.skip pos.bits fault → result ≡ Err fault }
        // An error leaves `run` with no values.
        ensures empty { OnErr result (run.new.values ≡ []) }

        // The count of decoded runs in `run` rises by at most `pos.skip`, and by at most one more if `pos.bits` is
        // above 0, whether the call succeeds or fails.
        ensures count { run.new.count ≤ run.old.count + bytes_needed pos.skip pos.bits }
        // If a run begins at `pos.offset` that has at least `pos.skip` values, and one more if `pos.bits` is above 0,
        // then the count of decoded runs in `run` rises by at most 1.
        ensures one_run { (front rest v : List ℕ) → IsByteRun front v → drop pos.offset bytes.now ≡ front ++ rest
            → bytes_needed pos.skip pos.bits ≤ length v → run.new.count ≤ run.old.count + 1 }
        // If the call succeeds, then the count of decoded runs in `run` rises by the number of runs from `pos.offset`
        // to the returned offset.
        ensures counted { IfOk result
            (λ at. CountsRuns IsByteRun bytes.now pos.offset at run.old.count run.new.count) }
        // If `pos.offset` is past the end of `bytes`, then the count of decoded runs in `run` stays the same.
        ensures past { length bytes.now < pos.offset → run.new.count ≡ run.old.count }
        // If the call fails and `pos.bits` is at most 8, then the count of decoded runs in `run` rises by the number of runs that stand one behind
        // the other from `pos.offset` on: each is decoded once.
        ensures counted_once { pos.bits ≤ 8 →
            OnErr result (CountsAllRuns IsByteRun bytes.now pos.offset run.old.count run.new.count) }
        // The count of decoded runs in `run` never falls, whether the call succeeds or fails.
        ensures grows { run.old.count ≤ run.new.count }
        // If `pos.bits` is above 8, then the count of decoded runs in `run` stays the same.
        ensures uncounted { 8 < pos.bits → run.new.count ≡ run.old.count }
    {
        if pos.bits > 8 {
            run.clear();
            return Err(RunFault::BadPosition(pos.offset));
        }
        let place = Pos {
            offset: pos.offset,
            skip: pos.skip,
        };
        let at = ByteRuns::seek(bytes, place, run)?;
        if pos.bits == 0 {
            return Ok(at);
        }
        let left = run.values().len();
        if left > 0 {
            return Ok(at);
        }
        if at >= bytes.len() {
            return Err(RunFault::BadPosition(pos.offset));
        }
        let len = run_at(bytes, at, run)?;
        Ok(at + len)
    }

    /// Appends the one text that the writer makes of the booleans: what `ByteRuns::put_runs` appends for
    /// the bytes that hold them, with spare digits of 0.
    ///
    /// A refusal, which is `OutOfMemory`, leaves `out` as it was.
    pub fn put_runs(values: &[bool], out: &mut Vec<u8>) -> Result<(), RunFault>
        // If the call succeeds, then the writer's bytes for `values` are appended to `out`: those that
        // `ByteRuns::put_runs` appends for the bytes in which the booleans are packed, eight in a byte, the highest bit
        // first, with spare bits of 0.
        ensures written { OnOk result (AppendsBytes IsBitText values.now out.old.items out.new.items) }

        // The only error is `OutOfMemory`, and it leaves `out` as it was.
        ensures refused { IfErr result (λ fault. fault ≡ OutOfMemory) }
        ensures unchanged { OnErr result (out.new.items ≡ out.old.items) }
    {
        let packed = pack_digits(*out.allocator(), values)?;
        ByteRuns::put_runs(&packed, out)
    }
}

/// Whether the digit of a byte at this place, the highest at 0, is 1.
fn digit_at(byte: u8, place: usize) -> bool
    requires { place < 8 }
    ensures { digit result ≡ get_or (bits byte 8) place 0 }
{
    (byte >> (7 - place)) % 2 == 1
}

/// The bytes that hold the values, with spare digits of 0.
fn pack_digits(alloc: Global, values: &[bool]) -> Result<Vec<u8>, RunFault>
    ensures held { IfOk result (λ packed. IsPackedText packed.items 1 (map digit values.now)) }
    ensures refused { IfErr result (λ fault. fault ≡ OutOfMemory) }
{
    let mut packed = Vec::new(alloc);
    let mut held = 0;
    let mut count = 0;
    for value in values {
        (held, count) = put_digit(&mut packed, held, count, *value)?;
    }
    if count == 0 {
        return Ok(packed);
    }
    packed.push(held << (8 - count))?;
    Ok(packed)
}

/// Adds a digit to those held back for the next byte, and appends the byte once it has eight. Answers
/// what is held back then, and how many digits that are.
fn put_digit(out: &mut Vec<u8>, held: u8, count: u32, value: bool) -> Result<(u8, u32), RunFault>
    requires few { count < 8 }
    requires below { held < 2 ^ count }
    ensures digits { IfOk result (λ left. digits 8 out.new.items ++ bits left.0 left.1
        ≡ (digits 8 out.old.items ++ bits held count) ++ digit value ∷ []) }
    ensures bytes { AllFit 8 out.old.items → OnOk result (AllFit 8 out.new.items) }
    ensures few { IfOk result (λ left. left.1 < 8) }
    ensures below { IfOk result (λ left. left.0 < 2 ^ left.1) }
    ensures refused { IfErr result (λ fault. fault ≡ OutOfMemory) }
{
    let more = held * 2 + u8::from(value);
    if count == 7 {
        out.push(more)?;
        return Ok((0, 0));
    }
    Ok((more, count + 1))
}

/// Writes the booleans and decodes what was written: it is the same booleans. `OutOfMemory` is the only
/// refusal.
pub fn bit_round_trip(alloc: Global, values: &[bool]) -> Result<Vec<bool>, RunFault>
    // What is answered is the booleans, written and decoded again.
    ensures same { IfOk result (λ decoded. decoded.items ≡ values.now) }
    // The only refusal is want of memory.
    ensures refused { IfErr result (λ fault. fault ≡ OutOfMemory) }
{
    let mut bytes = Vec::new(alloc);
    BitRuns::put_runs(values, &mut bytes)?;
    BitRuns::decode(alloc, &bytes, values.len())
}

/// Laws of streams of booleans: bytes are a stream of at most one list of so many booleans; where
/// `decode` has a reason to refuse, the bytes are no stream of `n` booleans, and by `byte_stream_laws` it
/// has no other reason; booleans have one text, and it is a stream of them.
pub fn bit_stream_laws()
    // Bytes are a stream of one list of so many booleans at most.
    ensures one_list { (bytes : List ℕ) (v w : List Bool)
        → length v ≡ length w → IsBitStream bytes v → IsBitStream bytes w → v ≡ w }
    // Where `decode` has a reason to refuse bytes as `n` booleans, they are no stream of `n`.
    ensures none_within { (n : ℕ) (bytes : List ℕ) (v : List Bool) (fault : RunFault)
        → StopsWithin IsByteRun NoByteRun (packed_len 1 n) bytes fault
        → IsBitStream bytes v → length v ≡ n → ⊥ }
    // A stream that has no bytes has no booleans.
    ensures no_bytes { (v : List Bool) → IsBitStream [] v → v ≡ [] }

    // The writer has one text of booleans at most.
    ensures one_text { (values : List Bool) (a b : List ℕ) → IsBitText values a → IsBitText values b → a ≡ b }
    // The writer's text of booleans is a stream of them.
    ensures again { (values : List Bool) (bytes : List ℕ) → IsBitText values bytes → IsBitStream bytes values }
{}
