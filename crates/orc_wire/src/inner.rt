//! Members that are messages themselves: one that may occur once, or a list of them.
ghost use Rattle.std.specs.Prelude.{◌≡◌, ◌⊎◌, Option, IfErr, OnOk};
ghost use Rattle.std.specs.Option.{is_some};
ghost use Rattle.orc_wire.specs.declared.fault.WireFault.TheVariants.{OutOfMemory};
ghost use Rattle.orc_wire.specs.FieldItem.{item_of};
ghost use Rattle.orc_wire.specs.Members.{Passes};
ghost use Rattle.orc_wire.specs.Kinds.{Allows, message, each, only};

use crate::fault::WireFault;
use crate::field::Field;
use crate::items::Items;
use crate::message::{Message, test_fields};
use std::alloc::Global;

/// The only message.
pub(crate) fn take_only<M: Message>(
    alloc: Global,
    slot: &mut Option<M>,
    n: u32,
    field: &Field,
) -> Result<(), WireFault>
    ensures ok { OnOk result ((only M.members M.REQUIRED n).steps (item_of field.now) slot.old slot.new) }
    ensures fault { IfErr result (λ fault. (fault ≡ OutOfMemory)
        ⊎ (only M.members M.REQUIRED n).refuses (item_of field.now) slot.old fault) }
{
    match field.message(n) {
        None => Ok(()),
        Some(fields) => {
            if slot.is_some() {
                return Err(WireFault::RepeatedMessage(field.place));
            }
            *slot = Some(M::read_fields(alloc, fields)?);
            Ok(())
        }
    }
}

/// Whether the only message may be taken, if `seen` says whether there was one before.
pub(crate) fn test_only<M: Message>(seen: &mut bool, n: u32, field: &Field) -> Result<(), WireFault>
    ensures ok { (old : Option M) → is_some old ≡ seen.old
        → OnOk result (Passes (only M.members M.REQUIRED n) (item_of field.now) old) }
    ensures keeps { (old new : Option M) → is_some old ≡ seen.old
        → (only M.members M.REQUIRED n).steps (item_of field.now) old new → OnOk result (is_some new ≡ seen.new) }
    ensures fault { (old : Option M) → is_some old ≡ seen.old
        → IfErr result (λ fault. (only M.members M.REQUIRED n).refuses (item_of field.now) old fault) }
{
    match field.message(n) {
        None => Ok(()),
        Some(fields) => {
            if *seen {
                return Err(WireFault::RepeatedMessage(field.place));
            }
            *seen = true;
            test_fields::<M>(fields.rest, fields.place)
        }
    }
}

/// Whether a message of a list may be taken.
pub(crate) fn test_each<M: Message>(n: u32, field: &Field) -> Result<(), WireFault>
    ensures ok { OnOk result (Allows (message M.members M.REQUIRED n) (item_of field.now)) }
    ensures fault { IfErr result (λ fault. (message M.members M.REQUIRED n).refuses (item_of field.now) fault) }
{
    match field.message(n) {
        None => Ok(()),
        Some(fields) => test_fields::<M>(fields.rest, fields.place),
    }
}

/// Each message.
pub(crate) fn take_each<M: Message>(
    alloc: Global,
    slot: &mut Items<M>,
    n: u32,
    field: &Field,
) -> Result<(), WireFault>
    ensures ok { OnOk result ((each (message M.members M.REQUIRED n)).steps (item_of field.now) slot.old slot.new) }
    ensures fault { IfErr result (λ fault. (fault ≡ OutOfMemory)
        ⊎ (each (message M.members M.REQUIRED n)).refuses (item_of field.now) slot.old fault) }
{
    match field.message(n) {
        None => Ok(()),
        Some(fields) => {
            slot.push(M::read_fields(alloc, fields)?)?;
            Ok(())
        }
    }
}
