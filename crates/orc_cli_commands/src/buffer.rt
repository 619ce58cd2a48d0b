//! Buffered outputs.
ghost use Rattle.std.specs.Prelude.{◌≡◌, ◌^◌, [], IfOk, IfErr};
ghost use Rattle.std.specs.Io.KnownBytes.{Keeps};
ghost use Rattle.std.specs.Io.Buffered.{writer_inner, writer_buffer, writer_capacity, writer_contents};
ghost use Rattle.orc_tail.specs.declared.fault.FileFault.TheVariants.{WriteFailed, OutOfMemory};
ghost use Rattle.orc_cli_output.specs.declared.fault.CliFault.TheVariants.{File as FileFaulted};

use orc_cli_output::CliFault;
use orc_tail::FileFault;
use std::alloc::Global;
use std::io::{BufWriter, Write};

/// The number of bytes of an output that are gathered before they are written, and of the input of `write` that are
/// read at a time.
pub(crate) const BUFFER: usize = 262_144;

/// Puts a buffer before an output. Fails with `OutOfMemory` of the layer of files if there is no memory for the
/// buffer.
pub fn with_buffer<W: Write + Drop>(alloc: Global, out: W) -> Result<BufWriter<W>, CliFault>
    // If the call succeeds, then the buffer is empty, has room for 2^18 bytes, and writes to `out` as it was given.
    ensures output { IfOk result (λ buffered. writer_inner buffered ≡ out) }
    ensures empty { IfOk result (λ buffered. writer_buffer buffered ≡ []) }
    ensures capacity { IfOk result (λ buffered. writer_capacity buffered ≡ 2 ^ 18) }
    // An error is `OutOfMemory` of the layer of files.
    ensures refused { IfErr result (λ fault. fault ≡ FileFaulted OutOfMemory) }
{
    match BufWriter::with_capacity(alloc, BUFFER, out) {
        Ok(buffered) => Ok(buffered),
        Err(_) => Err(CliFault::File(FileFault::OutOfMemory)),
    }
}

/// Writes what the buffer still has, and returns the output. Fails with `WriteFailed` if the output doesn't take all
/// of it. The bytes that are left are not written again.
pub fn flush_buffer<W: Write + Drop>(buffered: BufWriter<W>) -> Result<W, CliFault>
    // If the call succeeds, then the output has got all that the buffer was given, if the output's bytes are known.
    ensures all { IfOk result (λ out. Keeps (writer_contents W.contents buffered) (W.contents out)) }
    // An error is `WriteFailed`.
    ensures refused { IfErr result (λ fault. fault ≡ FileFaulted WriteFailed) }
{
    match buffered.into_inner() {
        Ok(out) => Ok(out),
        Err(error) => {
            // if it were dropped as a whole, it would try to write once more
            let _ = error.into_inner().into_parts();
            Err(CliFault::File(FileFault::WriteFailed))
        }
    }
}
