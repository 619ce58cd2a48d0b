//! Reads the footer, and the schema of its types.
ghost use Rattle.std.specs.Prelude.{◌≡◌, ◌⊎◌, IfOk, IfErr};
ghost use Rattle.std.specs.Bool.{OnTrue, OnFalse};
ghost use Rattle.orc_wire.specs.CanonicalKinds.{AreKept};
ghost use Rattle.orc_tail.specs.Tails.{footer_tests, IsOfTail};
ghost use Rattle.orc_tail.specs.declared.fault.FileFault.TheVariants.{OutOfMemory};

use crate::fault::FileFault;
use orc_types::{Schema, TypeFault};
use orc_wire::{Bytes, Fields, Footer, Message, WireFault};
use std::alloc::Global;

/// Returns whether the bytes are fields whose numbers are all above 10.
fn are_above_ten(kept: &Bytes) -> bool
    ensures yes { OnTrue result (AreKept 11 kept.now) }
    ensures no { OnFalse result (AreKept 11 kept.now → ⊥) }
{
    for next in Fields::new(kept.as_slice()) {
        match next {
            Ok(field) => {
                if field.number <= 10 {
                    return false;
                }
            }
            Err(_) => return false,
        }
    }
    true
}

/// Reads a footer from its bytes. Returns it with the schema of its types.
///
/// # Errors
///
/// The fault of the first test that the bytes fail, or `OutOfMemory`.
pub(crate) fn footer_in(alloc: Global, text: &[u8]) -> Result<(Footer, Schema), FileFault>
    ensures found { IfOk result (λ found. (footer_tests text.now).finds (found.0, found.1)) }
    ensures fault { IfErr result (λ fault. (fault ≡ OutOfMemory) ⊎ (footer_tests text.now).fails fault) }
    ensures named { IfErr result (λ fault. IsOfTail fault) }
{
    let footer = match Footer::read(alloc, text) {
        Ok(footer) => footer,
        Err(WireFault::OutOfMemory) => return Err(FileFault::OutOfMemory),
        Err(_) => return Err(FileFault::BadFooter),
    };
    if !are_above_ten(&footer.kept) {
        return Err(FileFault::Encrypted);
    }
    let schema = match Schema::from_types(alloc, footer.types.as_slice()) {
        Ok(schema) => schema,
        Err(TypeFault::OutOfMemory) => return Err(FileFault::OutOfMemory),
        Err(fault) => return Err(FileFault::BadTypes(fault)),
    };
    if footer.statistics.as_slice().len() > schema.width() {
        return Err(FileFault::BadFooter);
    }
    Ok((footer, schema))
}
