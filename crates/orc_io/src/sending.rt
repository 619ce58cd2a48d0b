//! Writes bytes to a sink, in as many calls as this takes.
ghost use Rattle.std.specs.Prelude.{◌≡◌, ◌<◌, length, take, IfErr, OnOk};
ghost use Rattle.orc_io.specs.Devices.{appended, failures_after};

use crate::sink::Sink;

/// Writes all bytes, in as many calls as the sink needs. Stops at the first write that fails or takes nothing; the
/// error is then the number of bytes that the writes before it took.
pub fn write_all<W: Sink>(out: &mut W, bytes: &[u8]) -> Result<(), usize>
    // If the call succeeds and the sink's bytes are known, then these bytes have grown by exactly `bytes`. Unknown
    // bytes stay unknown.
    ensures all { OnOk result (W.told out.new ≡ appended (W.told out.old) bytes.now) }
    // If the call fails with the number `n`, then `n` is less than the length of `bytes`, and the sink's known bytes
    // have grown by exactly the first `n` bytes of `bytes`. Unknown bytes stay unknown.
    ensures some { IfErr result (λ n. W.told out.new ≡ appended (W.told out.old) (take n bytes.now)) }
    ensures part { IfErr result (λ n. n < length bytes.now) }
    // The sink's count of failures rises by one if the call fails, and is unchanged if the call succeeds.
    ensures failures { W.failures out.new ≡ failures_after result (W.failures out.old) }
{
    let mut at = 0;
    while at < bytes.len() {
        match out.write(&bytes[at..]) {
            Ok(n) => {
                if n == 0 {
                    return Err(at);
                }
                at += n;
            }
            Err(_) => return Err(at),
        }
    }
    Ok(())
}
