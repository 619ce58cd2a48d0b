//! The version of integer run lengths, by a column's encoding, and runs of either version.
ghost use Rattle.std.specs.Prelude.{◌≡◌, ◌≢◌, ℕ, ℤ, List, ◌++◌, ◌<◌, ◌≤◌, length, take, IfOk, IfErr};
ghost use Rattle.orc_rle.specs.declared.fault.RunFault.TheVariants.{OutOfMemory};
ghost use Rattle.orc_column_reader.specs.Numbers.{is_run};
ghost use Rattle.orc_column_reader.specs.RunFaults.{no_run};
ghost use Rattle.orc_column_reader.specs.Stripe.{version_at};

use orc_rle::{Rle, Run, RunCodec, RunFault, Sign, V1, V2};
use orc_wire::DIRECT_V2;

/// Returns the version of the integer streams of a column with this encoding (ORC specification, "Column Encodings").
pub fn version_of(encoding: u32) -> Rle
    // The call returns version 1 for the encodings DIRECT and DICTIONARY, and version 2 for any other.
    ensures { result ≡ version_at encoding }
{
    if encoding < DIRECT_V2 {
        Rle::One
    } else {
        Rle::Two
    }
}

/// Reads the run at the start of `bytes`, of either version, and returns how many bytes it has.
///
/// # Errors
///
/// Those of `V1::next_run` or `V2::next_run`.
pub fn next_run(version: Rle, bytes: &[u8], sign: Sign, run: &mut Run) -> Result<usize, RunFault>
    // If the call succeeds, then the returned number of bytes, at least 1 and at most all of `bytes`, are a run of
    // `version` and `sign` at the start of `bytes`, and `run` has its values.
    ensures found { IfOk result (λ len. is_run version sign (take len bytes.now) run.new.values) }
    ensures within { IfOk result (λ len. (0 < len) × (len ≤ length bytes.now)) }
    // If the call fails, then `bytes` have no run of `version` and `sign` at their start, and the error is the one of
    // such bytes.
    ensures none { IfErr result (λ _. (front rest : List ℕ) (v : List ℤ)
        → is_run version sign front v
        → bytes.now ≡ front ++ rest
        → ⊥) }
    ensures fault { IfErr result (no_run version sign bytes.now) }
    // An error is never `OutOfMemory`.
    ensures no_memory { IfErr result (λ fault. fault ≢ OutOfMemory) }
{
    match version {
        Rle::One => V1::next_run(bytes, sign, run),
        Rle::Two => V2::next_run(bytes, sign, run),
    }
}
