//! Streams of bytes in runs from a position on.
ghost use Rattle.std.specs.Prelude.{IfOk, IfErr, MatchResult};
ghost use Rattle.orc_rle.specs.ByteRun.{IsByteRun, NoByteRun};
ghost use Rattle.orc_rle.specs.Seeking.{Seeks, SeekFails};
ghost use Rattle.orc_column_reader.specs.Bytes.{BytesLeft};
ghost use Rattle.orc_group_reader.specs.Entering.{EntersRuns};
ghost use Rattle.orc_group_reader.specs.ReadersAt.{BytesAt};

use crate::run_starts::last_byte_start;
use orc_column_reader::RunLengthBytes;
use orc_rle::{ByteRuns, Pos, RunFault, RunU8};

/// Returns a reader of a stream of bytes in runs from a position on (ORC specification, "Row Group Index"). Only the
/// runs from the position's offset to the value are decoded. If the bytes from the offset on are those of a valid
/// stream in which the position names a value, the call never fails.
///
/// # Errors
///
/// Those of `ByteRuns::seek`.
pub fn bytes_at(bytes: &[u8], pos: Pos) -> Result<RunLengthBytes<'_>, RunFault>
    // If a stream of byte runs has the length of `bytes` and the same bytes from `pos.offset` on, and `pos` names
    // value n of it, then the call succeeds, and what the returned reader has left are that stream's values from n
    // on, whatever `bytes` have before the offset.
    ensures enters { MatchResult result (λ found. EntersRuns IsByteRun bytes.now pos.offset pos.skip (BytesLeft found))
        (λ _. EntersRuns IsByteRun bytes.now pos.offset pos.skip (λ _. ⊥)) }
    // The returned reader is at the end of the last run that is needed to skip `pos.skip` values from `pos.offset`
    // on, and has that run's values after the skipped ones. With a `pos.skip` of 0 no run is needed: the reader is at
    // `pos.offset` and has no values of a run.
    ensures found { IfOk result
        (λ found. Seeks IsByteRun bytes.now pos.offset pos.skip pos.skip found.at found.run.values) }
    // The returned reader has `bytes` and the start of the last run that it decoded.
    ensures at { IfOk result (BytesAt bytes.now pos.offset pos.skip) }
    // An error is `BadPosition` with `pos.offset`, if that is past the end of `bytes` or the runs from there to the
    // end have fewer than `pos.skip` values; or it is `Short` with the offset of a run inside which `bytes` end, if
    // that run is met before `pos.skip` values are skipped.
    ensures fault { IfErr result (SeekFails IsByteRun NoByteRun bytes.now pos.offset pos.skip) }
{
    let mut run = RunU8::new();
    match ByteRuns::seek(bytes, pos, &mut run) {
        Ok(at) => {
            let start = last_byte_start(bytes, pos.offset, at);
            Ok(RunLengthBytes::behind(bytes, at, start, run, 0))
        }
        Err(fault) => Err(fault),
    }
}
