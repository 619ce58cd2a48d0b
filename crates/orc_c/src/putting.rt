//! Puts bytes into the caller's buffer.
ghost use Rattle.std.specs.Prelude.{◌≡◌};
ghost use Rattle.orc_c.specs.Answers.{WasPut, WasTold, holding};

use crate::answer::Answer;
use crate::fault::Fault;
use std::alloc::Global;

/// Copies as many of the bytes into the buffer as it has room for.
fn copy_front(bytes: &[u8], out: &mut [u8])
    ensures { out.new ≡ holding bytes.now out.old }
{
    let n = bytes.len().min(out.len());
    out[..n].copy_from_slice(&bytes[..n]);
}

/// Puts what a call made into the buffer, and returns its length.
pub(crate) fn put(bytes: &[u8], out: &mut [u8]) -> Answer
    ensures { WasPut bytes.now out.old out.new result }
{
    copy_front(bytes, out);
    Answer {
        length: bytes.len(),
        layer: 0,
        number: 0,
    }
}

/// Puts the text of a fault into the buffer, and returns the fault. If there is no memory to make the text, then it
/// is empty.
pub(crate) fn tell(alloc: Global, fault: Fault, out: &mut [u8]) -> Answer
    ensures { WasTold fault out.old out.new result }
{
    let length = match format!(in alloc; "{fault}") {
        Ok(text) => {
            copy_front(text.as_bytes(), out);
            text.len()
        }
        Err(_) => 0,
    };
    Answer {
        length,
        layer: fault.layer(),
        number: fault.number(),
    }
}
