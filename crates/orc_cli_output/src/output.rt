//! Writes bytes to an output.
ghost use Rattle.std.specs.Prelude.{◌≡◌, OnOk, OnErr, IfErr};
ghost use Rattle.std.specs.Io.KnownBytes.{Appends};
ghost use Rattle.orc_cli_output.specs.Output.{AppendsPart, write_failed};

use crate::fault::CliFault;
use orc_tail::FileFault;
use std::io::Write;

/// Writes all the bytes. Fails with `WriteFailed` at the first `write` that fails or takes no bytes. Then the output
/// has got a proper prefix of the bytes.
pub fn write_out<W: Write>(out: &mut W, bytes: &[u8]) -> Result<(), CliFault>
    // If the call succeeds, then the output has got exactly `bytes`, in order, if the output's bytes are known.
    ensures all { OnOk result (Appends (W.contents out.old) (W.contents out.new) bytes.now) }
    // An error is `WriteFailed`.
    ensures refused { IfErr result (λ fault. fault ≡ write_failed) }
    // If the call fails, then the output has got a proper prefix of `bytes` if the output's bytes are known.
    ensures part { OnErr result (AppendsPart (W.contents out.old) (W.contents out.new) bytes.now) }
{
    let mut at = 0;
    while at < bytes.len() {
        let (_, rest) = bytes.split_at(at);
        match out.write(rest) {
            Ok(0) => return Err(CliFault::File(FileFault::WriteFailed)),
            Ok(count) => at += count,
            Err(_) => return Err(CliFault::File(FileFault::WriteFailed)),
        }
    }
    Ok(())
}
