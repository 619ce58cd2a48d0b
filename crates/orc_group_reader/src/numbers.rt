//! Streams of integers from a position on.
ghost use Rattle.std.specs.Prelude.{◌≡◌, ℕ, ℤ, List, Ok, IfOk, IfErr, MatchResult};
ghost use Rattle.orc_rle.specs.Seeking.{Seeks, SeekFails};
ghost use Rattle.orc_column_reader.specs.Numbers.{is_run, NumbersLeft};
ghost use Rattle.orc_column_reader.specs.RunFaults.{no_run};
ghost use Rattle.orc_group_reader.specs.Entering.{EntersRuns};
ghost use Rattle.orc_group_reader.specs.ReadersAt.{NumbersAt};

use crate::run_starts::last_start;
use orc_column_reader::Numbers;
use orc_rle::{Pos, Rle, Run, RunCodec, RunFault, Sign, V1, V2};

/// Seeks a position, for either version.
fn seek(version: Rle, bytes: &[u8], sign: Sign, pos: Pos, run: &mut Run) -> Result<usize, RunFault>
    ensures found { IfOk result
        (λ at. Seeks (is_run version sign) bytes.now pos.offset pos.skip pos.skip at run.new.values) }
    ensures only { (at : ℕ) (left : List ℤ) → Seeks (is_run version sign) bytes.now pos.offset pos.skip pos.skip at left
        → (result ≡ Ok at) × (run.new.values ≡ left) }
    ensures fault { IfErr result (SeekFails (is_run version sign) (no_run version sign) bytes.now pos.offset pos.skip) }
{
    match version {
        Rle::One => V1::seek(bytes, sign, pos, run),
        Rle::Two => V2::seek(bytes, sign, pos, run),
    }
}

/// Returns a reader of a stream of integers from a position on (ORC specification, "Row Group Index"). Only the runs
/// from the position's offset to the value are decoded. An error that is met later names the invalid run, not the
/// position. If the bytes from the offset on are those of a valid stream in which the position names a value, the
/// call never fails.
///
/// # Errors
///
/// Those of `seek` for the version.
pub fn numbers_at<'a>(
    version: Rle,
    sign: Sign,
    bytes: &'a [u8],
    pos: Pos,
) -> Result<Numbers<'a>, RunFault>
    // If a stream of runs of `version` and `sign` has the length of `bytes` and the same bytes from `pos.offset` on,
    // and `pos` names value n of it, then the call succeeds, and what the returned reader has left are that stream's
    // values from n on, whatever `bytes` have before the offset.
    ensures enters { MatchResult result
        (λ numbers. EntersRuns (is_run version sign) bytes.now pos.offset pos.skip (NumbersLeft numbers))
        (λ _. EntersRuns (is_run version sign) bytes.now pos.offset pos.skip (λ _. ⊥)) }
    // The returned reader is at the end of the last run that is needed to skip `pos.skip` values from `pos.offset`
    // on, and has that run's values after the skipped ones. With a `pos.skip` of 0 no run is needed: the reader is at
    // `pos.offset` and has no values of a run.
    ensures found { IfOk result
        (λ numbers. Seeks (is_run version sign) bytes.now pos.offset pos.skip pos.skip numbers.at numbers.run.values) }
    // The returned reader has `bytes`, `version`, `sign` and the start of the last run that it decoded.
    ensures at { IfOk result (NumbersAt version sign bytes.now pos.offset pos.skip) }
    // An error is `BadPosition` with `pos.offset`, if that is past the end of `bytes` or the runs from there to the
    // end have fewer than `pos.skip` values; or it is the error of an invalid run that is met before `pos.skip`
    // values are skipped, with that run's offset.
    ensures fault { IfErr result (SeekFails (is_run version sign) (no_run version sign) bytes.now pos.offset pos.skip) }
{
    let mut run = Run::new();
    match seek(version, bytes, sign, pos, &mut run) {
        Ok(at) => {
            let start = last_start(version, sign, bytes, pos.offset, at);
            Ok(Numbers::behind(version, sign, bytes, at, start, run, 0))
        }
        Err(fault) => Err(fault),
    }
}
