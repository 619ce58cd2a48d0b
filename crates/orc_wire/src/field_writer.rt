//! Appends fields to a vector, one after the other.
ghost use Rattle.std.specs.Prelude.{◌≡◌, ℕ, ◌++◌, ◌^◌, ◌⊎◌, length, Err, IfErr, OnOk, OnErr};
ghost use Rattle.orc_wire.specs.declared.fault.WireFault.TheVariants.{BadWireType, OutOfMemory};
ghost use Rattle.orc_wire.specs.Fields.{IsField};
ghost use Rattle.orc_wire.specs.FieldValue.{payload_of};
ghost use Rattle.orc_wire.specs.CanonicalText.{field_text};
ghost use Rattle.orc_wire.specs.Canonical.{IsOutside};
ghost use Rattle.orc_wire.specs.CanonicalFields.{item_at};

use crate::canonical::put_field;
use crate::fault::WireFault;
use crate::field::Value;

/// Appends fields to a vector, each with the shortest varints.
#[derive(Drop)]
pub struct FieldWriter<'a> {
    out: &'a mut Vec<u8>,
}

impl<'a> FieldWriter<'a> {
    /// A writer that appends to `out`.
    pub fn new(out: &'a mut Vec<u8>) -> FieldWriter<'a>
        // The new writer has `out` as its vector, with the bytes that it had.
        ensures bytes { result.out.now.items ≡ out.old.items }
        ensures same_vector { result.out.ghost_name ≡ out.entry.ghost_name }
    {
        FieldWriter { out }
    }

    /// Appends one field: its key, number * 8 + wire type, and its payload. `Fields` reads it back.
    ///
    /// Refusals, each of which leaves the vector as it was: `BadWireType` of a number that no field
    /// has, 0 or above 2^29-1, at the place where its key would stand, which is the vector's length;
    /// `OutOfMemory`.
    pub fn put(&mut self, number: u32, value: Value<'_>) -> Result<(), WireFault>
        // If the call succeeds, then the field is appended to the writer's vector, with the shortest varints: its key,
        // which is `number` * 8 + wire type, and its payload.
        ensures text { OnOk result (self.new.out.now.items ≡ self.old.out.now.items
            ++ field_text number (payload_of value.entry)) }
        // If the call succeeds, then the appended bytes are a field with `number` and `value`, whatever place they
        // have.
        ensures again { OnOk result ((place : ℕ) → IsField place (item_at number (payload_of value.entry) place)) }

        // If `number` is 0 or at least 2^29, then the call fails with `BadWireType`, whose place is the length of the
        // writer's vector before the call.
        ensures bad { IsOutside 1 (2 ^ 29) number → result ≡ Err (BadWireType (length self.old.out.now.items)) }
        // An error is `OutOfMemory`; or, for a `number` of 0 or at least 2^29, it is `BadWireType`, whose place is the
        // length of the writer's vector before the call.
        ensures refused { IfErr result (λ fault. (fault ≡ OutOfMemory)
            ⊎ (IsOutside 1 (2 ^ 29) number × (fault ≡ BadWireType (length self.old.out.now.items)))) }
        // An error leaves the writer's vector with the bytes that it had.
        ensures unchanged { OnErr result (self.new.out.now.items ≡ self.old.out.now.items) }
        // The writer has the same vector after the call as before, whether the call succeeds or fails.
        ensures same_vector { self.new.out.ghost_name ≡ self.old.out.ghost_name }
    {
        let start = self.out.len();
        if number == 0 || number >= 1 << 29 {
            return Err(WireFault::BadWireType(start));
        }
        match put_field(number, value, self.out) {
            Ok(()) => Ok(()),
            Err(fault) => {
                self.out.truncate(start);
                Err(fault)
            }
        }
    }
}
