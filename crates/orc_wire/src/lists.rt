//! Members that are texts, packed lists or kept fields: what one more field adds to them.
ghost use Rattle.std.specs.Prelude.{◌≡◌, ℕ, [], ◌+◌, ◌^◌, ◌⊎◌, IfErr, OnOk};
ghost use Rattle.orc_wire.specs.declared.fault.WireFault.TheVariants.{OutOfMemory};
ghost use Rattle.orc_wire.specs.FieldItem.{item_of};
ghost use Rattle.orc_wire.specs.Parts.{FailsWithin, HasVarints, AppendsVarints};
ghost use Rattle.orc_wire.specs.Kinds.{Allows, bytes_part, packed, kept_from, last, known, every_value, each};

use crate::fault::{WireFault, fault_of};
use crate::field::{Field, Value};
use crate::items::{Bytes, Items};
use crate::payload::front_varint;
use std::alloc::Global;

/// The last text, or none of its bytes.
pub(crate) fn take_text(slot: &mut Bytes, n: u32, field: &Field) -> Result<(), WireFault>
    ensures ok { OnOk result ((last [] (bytes_part n)).steps (item_of field.now) slot.old slot.new) }
    ensures fault { IfErr result (λ fault. fault ≡ OutOfMemory) }
{
    if let Some(bytes) = field.bytes(n) {
        slot.replace(bytes)?;
    }
    Ok(())
}

/// Each text.
pub(crate) fn take_texts(
    alloc: Global,
    slot: &mut Items<Bytes>,
    n: u32,
    field: &Field,
) -> Result<(), WireFault>
    ensures ok { OnOk result ((each (bytes_part n)).steps (item_of field.now) slot.old slot.new) }
    ensures fault { IfErr result (λ fault. fault ≡ OutOfMemory) }
{
    if let Some(bytes) = field.bytes(n) {
        let mut copy = Items::empty(alloc);
        copy.append(bytes)?;
        slot.push(copy)?;
    }
    Ok(())
}

/// Fields from a number on, as they stand.
pub(crate) fn take_kept(slot: &mut Bytes, n: u32, field: &Field) -> Result<(), WireFault>
    ensures ok { OnOk result ((every_value (kept_from n)).steps (item_of field.now) slot.old slot.new) }
    ensures fault { IfErr result (λ fault. fault ≡ OutOfMemory) }
{
    if field.number >= n {
        slot.append(field.text)?;
    }
    Ok(())
}

/// Adds the numbers of a packed list.
fn take_varints(slot: &mut Items<u32>, bytes: &[u8], place: usize) -> Result<(), WireFault>
    ensures ok { OnOk result (AppendsVarints (2 ^ 32) slot.old slot.new bytes.now) }
    ensures fault { IfErr result (λ fault. (fault ≡ OutOfMemory) ⊎ FailsWithin (2 ^ 32) bytes.now place fault) }
{
    let mut at = 0;
    while at < bytes.len() {
        let (_, rest) = bytes.split_at(at);
        let (value, len) = match front_varint(rest) {
            Ok(found) => found,
            Err(fault) => return Err(fault_of(fault, place)),
        };
        let value = match u32::try_from(value) {
            Ok(value) => value,
            Err(_) => return Err(WireFault::ValueRange(place)),
        };
        slot.push(value)?;
        at += len;
    }
    Ok(())
}

/// All parts of a packed list.
pub(crate) fn take_packed(slot: &mut Items<u32>, n: u32, field: &Field) -> Result<(), WireFault>
    ensures ok { OnOk result ((every_value (packed (2 ^ 32) n)).steps (item_of field.now) slot.old slot.new) }
    ensures fault { IfErr result (λ fault. (fault ≡ OutOfMemory)
        ⊎ (every_value (packed (2 ^ 32) n)).refuses (item_of field.now) slot.old fault) }
{
    if field.number != n {
        return Ok(());
    }
    match field.value {
        Value::Varint(value) => match u32::try_from(value) {
            Ok(value) => {
                slot.push(value)?;
                Ok(())
            }
            Err(_) => Err(WireFault::ValueRange(field.place)),
        },
        Value::Bytes(bytes) => take_varints(slot, bytes, field.place),
        _ => Ok(()),
    }
}

/// The last text, if there is one.
pub(crate) fn take_known_text(
    alloc: Global,
    slot: &mut Option<Bytes>,
    n: u32,
    field: &Field,
) -> Result<(), WireFault>
    ensures ok { OnOk result ((known (bytes_part n)).steps (item_of field.now) slot.old slot.new) }
    ensures fault { IfErr result (λ fault. fault ≡ OutOfMemory) }
{
    if let Some(bytes) = field.bytes(n) {
        let mut copy = Items::empty(alloc);
        copy.append(bytes)?;
        *slot = Some(copy);
    }
    Ok(())
}

/// Adds the numbers of a packed list, of 64 bits.
fn take_wide_varints(slot: &mut Items<u64>, bytes: &[u8], place: usize) -> Result<(), WireFault>
    ensures ok { OnOk result (AppendsVarints (2 ^ 64) slot.old slot.new bytes.now) }
    ensures fault { IfErr result (λ fault. (fault ≡ OutOfMemory) ⊎ FailsWithin (2 ^ 64) bytes.now place fault) }
{
    let mut at = 0;
    while at < bytes.len() {
        let (_, rest) = bytes.split_at(at);
        let (value, len) = match front_varint(rest) {
            Ok(found) => found,
            Err(fault) => return Err(fault_of(fault, place)),
        };
        slot.push(value)?;
        at += len;
    }
    Ok(())
}

/// All parts of a packed list of 64-bit numbers.
pub(crate) fn take_packed_u64(slot: &mut Items<u64>, n: u32, field: &Field) -> Result<(), WireFault>
    ensures ok { OnOk result ((every_value (packed (2 ^ 64) n)).steps (item_of field.now) slot.old slot.new) }
    ensures fault { IfErr result (λ fault. (fault ≡ OutOfMemory)
        ⊎ (every_value (packed (2 ^ 64) n)).refuses (item_of field.now) slot.old fault) }
{
    if field.number != n {
        return Ok(());
    }
    match field.value {
        Value::Varint(value) => slot.push(value),
        Value::Bytes(bytes) => take_wide_varints(slot, bytes, field.place),
        Value::Eight(_) | Value::Four(_) => Ok(()),
    }
}

/// Whether the bytes are varints, none of which is above `most`.
fn test_varints(bytes: &[u8], most: u64, place: usize) -> Result<(), WireFault>
    ensures ok { OnOk result (HasVarints (most + 1) bytes.now) }
    ensures fault { IfErr result (λ fault. FailsWithin (most + 1) bytes.now place fault) }
{
    let mut at = 0;
    while at < bytes.len() {
        let (_, rest) = bytes.split_at(at);
        let (value, len) = match front_varint(rest) {
            Ok(found) => found,
            Err(fault) => return Err(fault_of(fault, place)),
        };
        if value > most {
            return Err(WireFault::ValueRange(place));
        }
        at += len;
    }
    Ok(())
}

/// Whether a part of a packed list may be taken, of numbers that are `most` or less.
pub(crate) fn test_packed(n: u32, most: u64, field: &Field) -> Result<(), WireFault>
    ensures ok { (limit : ℕ) → limit ≡ most + 1 → OnOk result (Allows (packed limit n) (item_of field.now)) }
    ensures fault { (limit : ℕ) → limit ≡ most + 1
        → IfErr result (λ fault. (packed limit n).refuses (item_of field.now) fault) }
{
    if field.number != n {
        return Ok(());
    }
    match field.value {
        Value::Varint(value) if value > most => Err(WireFault::ValueRange(field.place)),
        Value::Bytes(bytes) => test_varints(bytes, most, field.place),
        _ => Ok(()),
    }
}
