//! Streams of booleans from a position on.
ghost use Rattle.std.specs.Prelude.{◌≡◌, ◌-◌, ◌≤◌, ◌<◌, ◌⊎◌, [], length, drop, slice_get, Some, IfOk, IfErr, IfNone, IfSome, MatchResult};
ghost use Rattle.orc_rle.specs.Seeking.{SeeksBits, BitSeekFails};
ghost use Rattle.orc_column_reader.specs.Bits.{BitsLeft};
ghost use Rattle.orc_group_reader.specs.Entering.{EntersBits};
ghost use Rattle.orc_group_reader.specs.ReadersAt.{BitsAt};

use crate::run_starts::last_byte_start;
use orc_column_reader::{Bits, RunLengthBytes};
use orc_rle::{BitPos, BitRuns, RunFault, RunU8};

/// Returns the byte that comes next.
fn next_byte(run: &RunU8) -> Option<u8>
    ensures there { IfSome result (λ byte. slice_get run.now.values 0 ≡ Some byte) }
    ensures none { IfNone result (run.now.values ≡ []) }
{
    match run.values() {
        [first, ..] => Some(*first),
        [] => None,
    }
}

/// Returns the byte of which digits are skipped, if any are.
fn held_byte(run: &RunU8, passed: usize) -> Option<u8>
    ensures there { IfSome result (λ byte. (0 < passed) × (slice_get run.now.values 0 ≡ Some byte)) }
    ensures none { IfNone result ((passed ≡ 0) ⊎ (run.now.values ≡ [])) }
{
    if passed == 0 {
        return None;
    }
    next_byte(run)
}

/// Returns a reader of a stream of booleans from a position on (ORC specification, "Row Group Index"). Only the runs
/// of bytes from the position's offset to the value are decoded. If the bytes from the offset on are those of a valid
/// stream in which the position names a boolean, the call never fails.
///
/// # Errors
///
/// Those of `BitRuns::seek`.
pub fn bits_at(bytes: &[u8], pos: BitPos) -> Result<Bits<'_>, RunFault>
    // If a stream of booleans has the length of `bytes` and the same bytes from `pos.offset` on, and `pos` names
    // boolean n of it, then the call succeeds, and what the returned reader has left are that stream's booleans from
    // n on, whatever `bytes` have before the offset.
    ensures enters { MatchResult result (λ found. EntersBits bytes.now pos.offset pos.skip pos.bits (BitsLeft found))
        (λ _. EntersBits bytes.now pos.offset pos.skip pos.bits (λ _. ⊥)) }
    // If the call succeeds, then `pos.bits` is at most 8, and the returned reader is at the end of the last run that
    // is needed to skip `pos.skip` bytes from `pos.offset` on and, if `pos.bits` is above 0, to reach the next byte.
    // It has that run's bytes after the skipped ones. If `pos.skip` and `pos.bits` are 0, no run is needed: the
    // reader is at `pos.offset` and has no bytes of a run.
    ensures found { IfOk result
        (λ found. SeeksBits bytes.now pos.offset pos.skip pos.bits found.bytes.at found.bytes.run.values) }
    // The returned reader has `bytes`, holds the byte of which `pos.bits` bits are skipped, without these bits, if
    // there are any, and has the start of the last run that it decoded.
    ensures at { IfOk result (BitsAt bytes.now pos.offset pos.skip pos.bits) }
    // An error is `BadPosition` with `pos.offset`, if `pos.bits` is above 8, `pos.offset` is past the end of `bytes`,
    // or the runs from there to the end have fewer bytes than needed, which are `pos.skip` and one more if `pos.bits`
    // is above 0. Or `pos.bits` is at most 8, and the error is `Short` with the offset of a run inside which `bytes`
    // end and which is met before the needed bytes are there.
    ensures fault { IfErr result (BitSeekFails bytes.now pos.offset pos.skip pos.bits) }
{
    let mut run = RunU8::new();
    let at = match BitRuns::seek(bytes, pos, &mut run) {
        Ok(at) => at,
        Err(fault) => return Err(fault),
    };
    let start = last_byte_start(bytes, pos.offset, at);
    // the byte of which digits are skipped is held, without these digits
    match held_byte(&run, pos.bits) {
        Some(byte) => {
            let after = RunLengthBytes::behind(bytes, at, start, run, 1);
            Ok(Bits::behind(after, byte, 8 - pos.bits as u32))
        }
        None => {
            let after = RunLengthBytes::behind(bytes, at, start, run, 0);
            Ok(Bits::behind(after, 0, 0))
        }
    }
}
