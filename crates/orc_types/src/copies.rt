//! Copies of types and their names, in memory of their own.
ghost use Rattle.std.specs.Prelude.{◌≡◌, IfOk};

use orc_wire::{Bytes, Items, TypeMsg};
use std::alloc::{AllocError, Global};

/// The same bytes, in memory of their own.
pub(crate) fn copy_bytes(alloc: Global, bytes: &[u8]) -> Result<Vec<u8>, AllocError>
    ensures { IfOk result (λ copy. copy.items ≡ bytes.now) }
{
    bytes.to_vec(alloc)
}

/// The same names, in memory of their own.
fn copy_names(alloc: Global, names: &[Bytes]) -> Result<Vec<Bytes>, AllocError>
    ensures { IfOk result (λ copy. copy.items ≡ names.now) }
{
    let mut copies = Vec::with_capacity(alloc, names.len())?;
    for name in names {
        copies.push(Items::from_vec(copy_bytes(alloc, name.as_slice())?))?;
    }
    Ok(copies)
}

/// The same type, in memory of its own.
fn copy_type(alloc: Global, t: &TypeMsg) -> Result<TypeMsg, AllocError>
    ensures { IfOk result (λ copy. copy ≡ t.now) }
{
    Ok(TypeMsg {
        kind: t.kind,
        subtypes: Items::from_vec(t.subtypes.as_slice().to_vec(alloc)?),
        field_names: Items::from_vec(copy_names(alloc, t.field_names.as_slice())?),
        kept: Items::from_vec(copy_bytes(alloc, t.kept.as_slice())?),
    })
}

/// The same types, in memory of their own.
pub(crate) fn copy_types(alloc: Global, types: &[TypeMsg]) -> Result<Vec<TypeMsg>, AllocError>
    ensures { IfOk result (λ copy. copy.items ≡ types.now) }
{
    let mut copies = Vec::with_capacity(alloc, types.len())?;
    for t in types {
        copies.push(copy_type(alloc, t)?)?;
    }
    Ok(copies)
}
