//! Least and greatest texts, borrowed and copied.
ghost use Rattle.std.specs.Prelude.{◌≡◌, IfOk, IfErr, true};
ghost use Rattle.std.specs.Option.{is_some};
ghost use Rattle.orc_stats.specs.Seen.{seen_of, seen_now, known_of};

use crate::seen::Seen;
use orc_wire::Bytes;
use std::alloc::{AllocError, Global};

/// Returns a text of a statistic that has values, borrowed.
pub(crate) fn lent_part(part: &Option<Bytes>) -> Seen<&[u8]>
    ensures { seen_now result ≡ seen_of part.now }
{
    match part {
        Some(bytes) => Seen::Known(bytes.as_slice()),
        None => Seen::Unknown,
    }
}

/// Copies bytes.
fn copy_bytes(alloc: Global, bytes: &[u8]) -> Result<Bytes, AllocError>
    ensures { IfOk result (λ copy. copy ≡ bytes.now) }
{
    Ok(Bytes::from_vec(bytes.to_vec(alloc)?))
}

/// Copies a text, if it is known.
#[inline(always)]
pub(crate) fn owned_part(alloc: Global, part: Seen<&[u8]>) -> Result<Option<Bytes>, AllocError>
    ensures { IfOk result (λ text. text ≡ known_of (seen_now part.entry)) }
{
    match part {
        Seen::Known(bytes) => Ok(Some(copy_bytes(alloc, bytes)?)),
        Seen::Nothing | Seen::Unknown => Ok(None),
    }
}

/// Copies a text, if there is one.
pub(crate) fn copy_part(alloc: Global, part: &Option<Bytes>) -> Result<Option<Bytes>, AllocError>
    ensures found { IfOk result (λ copy. copy ≡ part.now) }
    ensures fault { IfErr result (λ _. is_some part.now ≡ true) }
{
    match part {
        Some(bytes) => Ok(Some(copy_bytes(alloc, bytes.as_slice())?)),
        None => Ok(None),
    }
}
