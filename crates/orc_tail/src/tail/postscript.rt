//! Reads the postscript.
ghost use Rattle.std.specs.Prelude.{◌≡◌, ◌⊎◌, IfOk, IfErr};
ghost use Rattle.std.specs.Bool.{OnTrue, OnFalse};
ghost use Rattle.orc_tail.specs.Tails.{IsMagic, postscript_tests, IsOfTail};
ghost use Rattle.orc_tail.specs.declared.fault.FileFault.TheVariants.{OutOfMemory};

use crate::fault::FileFault;
use orc_wire::{Bytes, Message, PostScript, WireFault};
use std::alloc::Global;

/// The greatest number of numbers in a version.
const MOST_VERSIONS: usize = 16;

/// Returns whether a postscript's magic is missing, empty or `ORC`.
fn is_magic(text: &Bytes) -> bool
    ensures yes { OnTrue result (IsMagic text.now) }
    ensures no { OnFalse result (IsMagic text.now → ⊥) }
{
    let text = text.as_slice();
    text.is_empty() || text == b"ORC".as_slice()
}

/// Reads the postscript from its bytes, which begin at `place` in the file.
///
/// # Errors
///
/// The fault of the first test that the bytes fail, or `OutOfMemory`.
pub(crate) fn postscript_in(alloc: Global, text: &[u8], place: u64) -> Result<PostScript, FileFault>
    ensures found { IfOk result (λ postscript. (postscript_tests text.now place).finds postscript) }
    ensures fault { IfErr result (λ fault. (fault ≡ OutOfMemory) ⊎ (postscript_tests text.now place).fails fault) }
    ensures named { IfErr result (λ fault. IsOfTail fault) }
{
    let postscript = match PostScript::read(alloc, text) {
        Ok(postscript) => postscript,
        Err(WireFault::OutOfMemory) => return Err(FileFault::OutOfMemory),
        Err(_) => return Err(FileFault::BadPostscript),
    };
    if postscript.version.as_slice().len() > MOST_VERSIONS {
        return Err(FileFault::BadPostscript);
    }
    if !is_magic(&postscript.magic) {
        return Err(FileFault::NotOrc);
    }
    if postscript.compression != 0 {
        return Err(FileFault::Compressed(postscript.compression));
    }
    // the sum of two lengths of 64 bits needs one bit more
    let parts = u128::from(postscript.metadata_length) + u128::from(postscript.footer_length);
    if parts + 3 > u128::from(place) {
        return Err(FileFault::BadLengths);
    }
    Ok(postscript)
}
