//! The names of fields.
ghost use Rattle.std.specs.Prelude.{◌≡◌, IfOk, IfErr, true, string_bytes};
ghost use Rattle.std.specs.Str.{is_utf8};
ghost use Rattle.orc_trees.specs.NameFaults.{NameFault};

use crate::fault::TypeFault;
use std::alloc::Global;
use std::str;

/// Copies a field's name.
///
/// # Errors
///
/// `BadText` if the bytes aren't UTF-8; `OutOfMemory`.
pub fn name_of(alloc: Global, bytes: &[u8]) -> Result<String, TypeFault>
    // A returned name has these bytes, and they are UTF-8.
    ensures text { IfOk result (λ name. string_bytes name ≡ bytes.now) }
    ensures utf8 { IfOk result (λ _. is_utf8 bytes.now ≡ true) }
    // An error is `BadText` with the place 0, and the bytes aren't UTF-8, or it is `OutOfMemory`.
    ensures fault { IfErr result (NameFault bytes.now) }
{
    match str::from_utf8(bytes) {
        Ok(text) => Ok(String::from_str(alloc, text)?),
        Err(_) => Err(TypeFault::BadText(0)),
    }
}
