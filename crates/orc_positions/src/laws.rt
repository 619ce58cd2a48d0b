//! Laws of positions, and what seeking a writer's position costs.
ghost use Rattle.std.specs.Prelude.{◌≡◌, ◌≢◌, ℕ, min, ℤ, Bool, List, [], ◌+◌, ◌/◌, ◌≤◌, length, drop, Ok, Err, IfOk, IfErr, OnErr};
ghost use Rattle.orc_rle.specs.declared.fault.RunFault.{RunFault};
ghost use Rattle.orc_rle.specs.declared.fault.RunFault.TheVariants.{OutOfMemory};
ghost use Rattle.orc_rle.specs.declared.sign.Sign.{Sign};
ghost use Rattle.orc_rle.specs.BitStream.{IsBitStream};
ghost use Rattle.orc_rle.specs.ByteRun.{IsByteRun, NoByteRun};
ghost use Rattle.orc_rle.specs.Seeking.{bytes_needed, Seeks, SeekFails, SeeksBits, BitSeekFails};
ghost use Rattle.orc_rle.specs.Stream.{IsStream, RunsLeft};
ghost use Rattle.orc_positions.specs.Position.{Begins, GoesOnFrom, IsWriterPosition, HasValues};
ghost use Rattle.orc_positions.specs.BitPosition.{BeginsBits, BitsGoOn, BitsPending, IsWriterBitPosition, HasBooleans};
ghost use Rattle.orc_positions.specs.RunStarts.{start_of_stream, IsRunStart};

use orc_rle::{BitPos, BitRuns, ByteRuns, Pos, Run, RunCodec, RunFault, RunU8, Sign};

/// States the laws of positions in streams of integers (ORC specification, "Row Group Index"). A position that names
/// value n of a stream can be sought, and reading goes on with the values from n on. Only the bytes from the
/// position's offset on matter. A position names at most one value, and a value has at most one writer's position.
pub fn seek_laws<C: RunCodec>()
    // If bytes are a stream of runs and a position names value n of it, then seeking finds the position, and the
    // values left of the last run that is needed to skip the position's values, followed by those of the runs after
    // it, are the stream's values from n on.
    ensures sought { (sign : Sign) (bytes : List ℕ) (offset skip n : ℕ) (all : List ℤ)
        → Begins (C.is_run sign) bytes offset skip n
        → IsStream (C.is_run sign) bytes all
        → GoesOnFrom (C.is_run sign) bytes offset skip skip (drop n all) }
    // If bytes are a stream of runs, a position names value n of it, and seeking the position finds a place and the
    // values left of a run, then these values, followed by those of the runs from that place on, are the stream's
    // values from n on.
    ensures goes_on { (sign : Sign) (bytes : List ℕ) (offset skip n at : ℕ) (left all : List ℤ)
        → Begins (C.is_run sign) bytes offset skip n
        → IsStream (C.is_run sign) bytes all
        → Seeks (C.is_run sign) bytes offset skip skip at left
        → RunsLeft (C.is_run sign) left (drop at bytes) (drop n all) }
    // A position names at most one value of the same bytes.
    ensures one_number { (sign : Sign) (bytes : List ℕ) (offset skip n m : ℕ)
        → Begins (C.is_run sign) bytes offset skip n → Begins (C.is_run sign) bytes offset skip m → n ≡ m }
    // If two inputs have the same bytes from an offset on, the offset is at most the length of the second, and
    // seeking a position at that offset finds a place and the values left of a run in the first, then seeking that
    // position in the second finds the same place and the same values left.
    ensures alone { (sign : Sign) (a b : List ℕ) (offset skip at : ℕ) (left : List ℤ)
        → drop offset a ≡ drop offset b
        → offset ≤ length b
        → Seeks (C.is_run sign) a offset skip skip at left
        → Seeks (C.is_run sign) b offset skip skip at left }
    // If two inputs have the same bytes from an offset on, the offset is at most the length of the second, and from a
    // position at that offset reading goes on with some values in the first, then from that position reading goes on
    // with the same values in the second.
    ensures goes_on_alone { (sign : Sign) (a b : List ℕ) (offset skip : ℕ) (all : List ℤ)
        → drop offset a ≡ drop offset b
        → offset ≤ length b
        → GoesOnFrom (C.is_run sign) a offset skip skip all
        → GoesOnFrom (C.is_run sign) b offset skip skip all }
    // If two inputs have the same bytes from an offset on, the offset is at most the length of each, and seeking a
    // position at that offset fails in the first, then seeking that position fails in the second with the same error.
    ensures fails_alone { (sign : Sign) (a b : List ℕ) (offset skip : ℕ) (fault : RunFault)
        → drop offset a ≡ drop offset b
        → offset ≤ length a
        → offset ≤ length b
        → SeekFails (C.is_run sign) (C.fails sign) a offset skip fault
        → SeekFails (C.is_run sign) (C.fails sign) b offset skip fault }
    // For the same bytes each value has at most one writer's position.
    ensures one_place { (sign : Sign) (bytes : List ℕ) (o p s t n : ℕ)
        → IsWriterPosition (C.is_run sign) bytes o s n → IsWriterPosition (C.is_run sign) bytes p t n
        → (o ≡ p) × (s ≡ t) }
    // If bytes are a stream of runs, then its start, at offset 0 with no value before it and no run measured yet, is
    // the start of a run of it, or its end if it is empty.
    ensures start { (sign : Sign) (bytes : List ℕ) (all : List ℤ)
        → IsStream (C.is_run sign) bytes all → IsRunStart (C.is_run sign) bytes start_of_stream }
{}

/// States the laws of positions in streams of bytes (ORC specification, "Row Group Index"), as `seek_laws` does for
/// integers.
pub fn byte_seek_laws()
    // If bytes are a stream of byte runs and a position names byte n of it, then seeking finds the position, and the
    // bytes left of the last run that is needed to skip the position's bytes, followed by those of the runs after it,
    // are the stream's bytes from n on.
    ensures sought { (bytes : List ℕ) (offset skip n : ℕ) (all : List ℕ) → Begins IsByteRun bytes offset skip n
        → IsStream IsByteRun bytes all → GoesOnFrom IsByteRun bytes offset skip skip (drop n all) }
    // If bytes are a stream of byte runs, a position names byte n of it, and seeking the position finds a place and
    // the bytes left of a run, then these, followed by those of the runs from that place on, are the stream's bytes
    // from n on.
    ensures goes_on { (bytes : List ℕ) (offset skip n at : ℕ) (left all : List ℕ)
        → Begins IsByteRun bytes offset skip n
        → IsStream IsByteRun bytes all
        → Seeks IsByteRun bytes offset skip skip at left
        → RunsLeft IsByteRun left (drop at bytes) (drop n all) }
    // A position names at most one byte of the same byte runs.
    ensures one_number { (bytes : List ℕ) (offset skip n m : ℕ)
        → Begins IsByteRun bytes offset skip n → Begins IsByteRun bytes offset skip m → n ≡ m }
    // If two inputs have the same bytes from an offset on, the offset is at most the length of the second, and
    // seeking a position at that offset, for any number of needed bytes, finds a place and the bytes left of a byte
    // run in the first, then seeking it in the second for that number finds the same place and the same bytes left.
    ensures alone { (a b : List ℕ) (offset skip need at : ℕ) (left : List ℕ)
        → drop offset a ≡ drop offset b
        → offset ≤ length b
        → Seeks IsByteRun a offset skip need at left
        → Seeks IsByteRun b offset skip need at left }
    // If two inputs have the same bytes from an offset on, the offset is at most the length of the second, and from a
    // position at that offset reading goes on with some bytes of byte runs in the first, then from that position
    // reading goes on with the same bytes in the second.
    ensures goes_on_alone { (a b : List ℕ) (offset skip : ℕ) (all : List ℕ)
        → drop offset a ≡ drop offset b
        → offset ≤ length b
        → GoesOnFrom IsByteRun a offset skip skip all
        → GoesOnFrom IsByteRun b offset skip skip all }
    // If two inputs have the same bytes from an offset on, the offset is at most the length of each, and seeking at
    // that offset for any number of needed bytes of byte runs fails in the first, then seeking there for that number
    // fails in the second with the same error.
    ensures fails_alone { (a b : List ℕ) (offset need : ℕ) (fault : RunFault)
        → drop offset a ≡ drop offset b
        → offset ≤ length a
        → offset ≤ length b
        → SeekFails IsByteRun NoByteRun a offset need fault
        → SeekFails IsByteRun NoByteRun b offset need fault }
    // For the same byte runs each byte has at most one writer's position.
    ensures one_place { (bytes : List ℕ) (o p s t n : ℕ)
        → IsWriterPosition IsByteRun bytes o s n → IsWriterPosition IsByteRun bytes p t n → (o ≡ p) × (s ≡ t) }
    // If bytes are a stream of byte runs, then its start, at offset 0 with no byte before it and no run measured yet,
    // is the start of a run of it, or its end if it is empty.
    ensures start { (bytes all : List ℕ) → IsStream IsByteRun bytes all → IsRunStart IsByteRun bytes start_of_stream }
{}

/// States the laws of positions in streams of booleans (ORC specification, "Row Group Index"), of which each byte of
/// the runs has eight. A position skips bytes of the runs and then up to eight booleans.
pub fn bit_seek_laws()
    // If bytes are a stream of booleans and a position names boolean n of it, then seeking finds the position, and
    // the bytes left of the last run that is needed, followed by those of the runs after it, without the position's
    // bits, have the digits of the stream's booleans from n on and fewer than eight digits to spare.
    ensures sought { (bytes : List ℕ) (offset skip bits n : ℕ) (all : List Bool)
        → BeginsBits bytes (length all) offset skip bits n
        → IsBitStream bytes all
        → BitsGoOn bytes offset skip bits (drop n all) }
    // If bytes are a stream of booleans, a position names boolean n of it, and seeking the position finds a place and
    // the bytes left of a run, then these, followed by those of the runs from that place on, without the position's
    // bits, have the digits of the stream's booleans from n on and fewer than eight digits to spare.
    ensures goes_on { (bytes : List ℕ) (offset skip bits n at : ℕ) (left : List ℕ) (all : List Bool)
        → BeginsBits bytes (length all) offset skip bits n
        → IsBitStream bytes all
        → SeeksBits bytes offset skip bits at left
        → BitsPending left (drop at bytes) bits (drop n all) }
    // A position names at most one boolean of the same bytes, for the same number of booleans.
    ensures one_number { (bytes : List ℕ) (total offset skip bits n m : ℕ) → BeginsBits bytes total offset skip bits n
        → BeginsBits bytes total offset skip bits m → n ≡ m }
    // If two inputs have the same bytes from an offset on, the offset is at most the length of the second, and
    // seeking a position of booleans at that offset finds a place and the bytes left of a run in the first, then
    // seeking that position in the second finds the same place and the same bytes left.
    ensures alone { (a b : List ℕ) (offset skip bits at : ℕ) (left : List ℕ)
        → drop offset a ≡ drop offset b
        → offset ≤ length b
        → SeeksBits a offset skip bits at left
        → SeeksBits b offset skip bits at left }
    // If two inputs have the same bytes from an offset on, the offset is at most the length of the second, and from a
    // position at that offset reading goes on with some booleans in the first, then from that position reading goes
    // on with the same booleans in the second.
    ensures goes_on_alone { (a b : List ℕ) (offset skip bits : ℕ) (all : List Bool)
        → drop offset a ≡ drop offset b
        → offset ≤ length b
        → BitsGoOn a offset skip bits all
        → BitsGoOn b offset skip bits all }
    // If two inputs have the same bytes from an offset on, the offset is at most the length of each, and seeking a
    // position of booleans at that offset fails in the first, then seeking that position fails in the second with the
    // same error.
    ensures fails_alone { (a b : List ℕ) (offset skip bits : ℕ) (fault : RunFault)
        → drop offset a ≡ drop offset b
        → offset ≤ length a
        → offset ≤ length b
        → BitSeekFails a offset skip bits fault
        → BitSeekFails b offset skip bits fault }
    // If a position is the writer's position of boolean n, then it names boolean n.
    ensures place { (bytes : List ℕ) (total offset skip bits n : ℕ)
        → IsWriterBitPosition bytes total offset skip bits n → BeginsBits bytes total offset skip bits n }
    // For the same bytes and the same number of booleans each boolean has at most one writer's position.
    ensures one_place { (bytes : List ℕ) (total o p s t k l n : ℕ)
        → IsWriterBitPosition bytes total o s k n → IsWriterBitPosition bytes total p t l n
        → (o ≡ p) × (s ≡ t) × (k ≡ l) }
    // If bytes are a stream of at least n booleans, then they are a stream of byte runs with at least n / 8 bytes,
    // rounded down.
    ensures there { (bytes : List ℕ) (total n : ℕ)
        → HasBooleans bytes total → n ≤ total → HasValues IsByteRun bytes (n / 8) }
{}

/// Seeks a writer's position with `C::seek`, which decodes one run, or none if no value is skipped.
///
/// # Errors
///
/// Those of `C::seek`.
pub fn seek_position<C: RunCodec>(
    bytes: &[u8],
    sign: Sign,
    pos: Pos,
    run: &mut Run,
) -> Result<usize, RunFault>
    requires { (n : ℕ) × IsWriterPosition (C.is_run sign) bytes.now pos.offset pos.skip n }
    // The returned offset is the end of the last run that is needed to skip `pos.skip` values from `pos.offset` on,
    // and `run` contains that run's values after the skipped ones. With a `pos.skip` of 0 no run is needed: the
    // returned offset is `pos.offset`, which is at most the length of `bytes`, and `run` has no values.
    ensures found { IfOk result (λ at. Seeks (C.is_run sign) bytes.now pos.offset pos.skip pos.skip at run.new.values) }
    // If `pos.offset` is at most the length of `bytes` and the runs from there on have at least `pos.skip` values,
    // then the call returns the end of the last run that is needed to skip `pos.skip` values, and `run` contains that
    // run's values after the skipped ones. With a `pos.skip` of 0 no run is needed: the call returns `pos.offset`,
    // and `run` has no values.
    ensures only { (at : ℕ) (left : List ℤ)
        → Seeks (C.is_run sign) bytes.now pos.offset pos.skip pos.skip at left
        → (result ≡ Ok at) × (run.new.values ≡ left) }
    // The call fails if and only if `pos.offset` is past the end of `bytes`, the runs from there to the end have
    // fewer than `pos.skip` values, or an invalid run is met before `pos.skip` values are skipped. In the first two
    // cases the error is `BadPosition` with `pos.offset`, in the third it is the invalid run's, with that run's
    // offset.
    ensures fault { IfErr result (SeekFails (C.is_run sign) (C.fails sign) bytes.now pos.offset pos.skip) }
    ensures refused { (fault : RunFault)
        → SeekFails (C.is_run sign) (C.fails sign) bytes.now pos.offset pos.skip fault → result ≡ Err fault }
    // An error is never `OutOfMemory`.
    ensures no_memory { IfErr result (λ fault. fault ≢ OutOfMemory) }
    // An error leaves `run` with no values.
    ensures empty { OnErr result (run.new.values ≡ []) }
    // If `pos` is the writer's position of a value in `bytes`, then the count of decoded runs in `run` rises by 1, or
    // by 0 if `pos.skip` is 0, whether the call succeeds or fails.
    ensures count { run.new.count ≡ run.old.count + min 1 pos.skip }
{
    C::seek(bytes, sign, pos, run)
}

/// Seeks a writer's position in a stream of bytes with `ByteRuns::seek`, which decodes one run, or none if no byte is
/// skipped.
///
/// # Errors
///
/// Those of `ByteRuns::seek`.
pub fn byte_seek_position(bytes: &[u8], pos: Pos, run: &mut RunU8) -> Result<usize, RunFault>
    requires { (n : ℕ) × IsWriterPosition IsByteRun bytes.now pos.offset pos.skip n }
    // The returned offset is the end of the last run that is needed to skip `pos.skip` values from `pos.offset` on,
    // and `run` contains that run's values after the skipped ones. With a `pos.skip` of 0 no run is needed: the
    // returned offset is `pos.offset`, which is at most the length of `bytes`, and `run` has no values.
    ensures found { IfOk result (λ at. Seeks IsByteRun bytes.now pos.offset pos.skip pos.skip at run.new.values) }
    // If `pos.offset` is at most the length of `bytes` and the runs from there on have at least `pos.skip` values,
    // then the call returns the end of the last run that is needed to skip `pos.skip` values, and `run` contains that
    // run's values after the skipped ones. With a `pos.skip` of 0 no run is needed: the call returns `pos.offset`,
    // and `run` has no values.
    ensures only { (at : ℕ) (left : List ℕ)
        → Seeks IsByteRun bytes.now pos.offset pos.skip pos.skip at left → (result ≡ Ok at) × (run.new.values ≡ left) }
    // The call fails if and only if `pos.offset` is past the end of `bytes`, the runs from there to the end have
    // fewer than `pos.skip` values, or `bytes` end inside a run that is met before `pos.skip` values are skipped. In
    // the first two cases the error is `BadPosition` with `pos.offset`, in the third it is `Short` with that run's
    // offset.
    ensures fault { IfErr result (SeekFails IsByteRun NoByteRun bytes.now pos.offset pos.skip) }
    ensures refused { (fault : RunFault)
        → SeekFails IsByteRun NoByteRun bytes.now pos.offset pos.skip fault → result ≡ Err fault }
    // An error is never `OutOfMemory`.
    ensures no_memory { IfErr result (λ fault. fault ≢ OutOfMemory) }
    // An error leaves `run` with no values.
    ensures empty { OnErr result (run.new.values ≡ []) }
    // If `pos` is the writer's position of a value in `bytes`, then the count of decoded runs in `run` rises by 1, or
    // by 0 if `pos.skip` is 0, whether the call succeeds or fails.
    ensures count { run.new.count ≡ run.old.count + min 1 pos.skip }
{
    ByteRuns::seek(bytes, pos, run)
}

/// Seeks a writer's position in a stream of booleans with `BitRuns::seek`, which decodes one run, or none if neither
/// a byte nor a boolean is skipped.
///
/// # Errors
///
/// Those of `BitRuns::seek`.
pub fn bit_seek_position(bytes: &[u8], pos: BitPos, run: &mut RunU8) -> Result<usize, RunFault>
    requires { (total : ℕ) × (n : ℕ)
        × HasBooleans bytes.now total × IsWriterBitPosition bytes.now total pos.offset pos.skip pos.bits n }
    // If the call succeeds, then `pos.bits` is at most 8, and the returned offset is the end of the last run that is
    // needed to skip `pos.skip` values from `pos.offset` on and, if `pos.bits` is above 0, to reach the next value.
    // `run` contains that run's values after the skipped ones: if `pos.bits` is above 0, the first is the byte of
    // which `pos.bits` bits are skipped. If `pos.skip` and `pos.bits` are 0, no run is needed: the returned offset is
    // `pos.offset`, which is at most the length of `bytes`, and `run` has no values.
    ensures found { IfOk result (λ at. SeeksBits bytes.now pos.offset pos.skip pos.bits at run.new.values) }
    // If `pos.bits` is at most 8, `pos.offset` is at most the length of `bytes`, and the runs from there on have the
    // needed values, which are `pos.skip` and one more if `pos.bits` is above 0, then the call returns the end of the
    // last run that has a needed value, and `run` contains that run's values after the first `pos.skip` ones. If no
    // values are needed, the call returns `pos.offset`, and `run` has no values.
    ensures only { (at : ℕ) (left : List ℕ)
        → SeeksBits bytes.now pos.offset pos.skip pos.bits at left → (result ≡ Ok at) × (run.new.values ≡ left) }
    // The call fails if and only if `pos.bits` is above 8, `pos.offset` is past the end of `bytes`, the runs from
    // there to the end have fewer than the needed values, which are `pos.skip` and one more if `pos.bits` is above 0,
    // or `bytes` end inside a run that is met before the needed values are there. In the last case the error is
    // `Short` with that run's offset, unless `pos.bits` is above 8; in the other cases it is `BadPosition` with
    // `pos.offset`.
    ensures fault { IfErr result (BitSeekFails bytes.now pos.offset pos.skip pos.bits) }
    ensures refused { (fault : RunFault)
        → BitSeekFails bytes.now pos.offset pos.skip pos.bits fault → result ≡ Err fault }
    // An error is never `OutOfMemory`.
    ensures no_memory { IfErr result (λ fault. fault ≢ OutOfMemory) }
    // An error leaves `run` with no values.
    ensures empty { OnErr result (run.new.values ≡ []) }
    // If `bytes` are a stream of booleans and `pos` is the writer's position of one, then the count of decoded runs
    // in `run` rises by 1, or by 0 if `pos.skip` and `pos.bits` are 0, whether the call succeeds or fails.
    ensures count { run.new.count ≡ run.old.count + min 1 (bytes_needed pos.skip pos.bits) }
{
    BitRuns::seek(bytes, pos, run)
}
