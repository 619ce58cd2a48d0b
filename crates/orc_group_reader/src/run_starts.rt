//! Where the last of some runs begins.
ghost use Rattle.std.specs.Prelude.{◌≡◌, ℕ, ℤ, List, ◌++◌, length};
ghost use Rattle.orc_rle.specs.ByteRun.{IsByteRun};
ghost use Rattle.orc_column_reader.specs.Numbers.{is_run};
ghost use Rattle.orc_group_reader.specs.RunsPassed.{AreRunsTo, IsLastRun};

use orc_rle::{ByteRuns, Rle, RunCodec, Sign, V1, V2};

/// Returns how many bytes the run at the start has, for either version.
fn run_len(version: Rle, bytes: &[u8], sign: Sign) -> usize
    ensures { (front rest : List ℕ) (v : List ℤ) → is_run version sign front v → bytes.now ≡ front ++ rest
        → result ≡ length front }
{
    match version {
        Rle::One => V1::run_size(bytes, sign).bytes,
        Rle::Two => V2::run_size(bytes, sign).bytes,
    }
}

/// Returns where the last of the runs from an offset to an end begins, or the offset if there is none. Each run is
/// passed by its size, and none is decoded.
pub(crate) fn last_start(version: Rle, sign: Sign, bytes: &[u8], offset: usize, end: usize) -> usize
    requires { AreRunsTo (is_run version sign) bytes.now offset end }
    ensures { IsLastRun (is_run version sign) bytes.now offset result end }
{
    let mut start = offset;
    let mut next = offset;
    'runs: while next < end {
        start = next;
        let (_, rest) = bytes.split_at(start);
        next += run_len(version, rest, sign);
    }
    start
}

/// Returns where the last of the byte runs from an offset to an end begins, or the offset if there is none.
pub(crate) fn last_byte_start(bytes: &[u8], offset: usize, end: usize) -> usize
    requires { AreRunsTo IsByteRun bytes.now offset end }
    ensures { IsLastRun IsByteRun bytes.now offset result end }
{
    let mut start = offset;
    let mut next = offset;
    'runs: while next < end {
        start = next;
        let (_, rest) = bytes.split_at(start);
        next += ByteRuns::run_size(rest).bytes;
    }
    start
}
