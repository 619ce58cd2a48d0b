//! What every message has: its members, reading it from bytes, and its canonical text.
ghost use Rattle.std.specs.Prelude.{◌≡◌, ℕ, ◌++◌, ◌+◌, ◌^◌, ◌<◌, ◌⊎◌, length, Result, Ok, Err, IfOk, IfErr, OnOk, OnErr, MatchResult};
ghost use Rattle.orc_wire.specs.declared.fault.WireFault.{WireFault};
ghost use Rattle.orc_wire.specs.declared.fault.WireFault.TheVariants.{OutOfMemory};
ghost use Rattle.orc_wire.specs.FieldItem.{item_of};
ghost use Rattle.orc_wire.specs.Members.{Member, Passes};
ghost use Rattle.orc_wire.specs.Spells.{Spells, Faults, ReadAnswers};
ghost use Rattle.orc_wire.specs.CanonicalText.{KeepsFront, sized_text};
ghost use Rattle.orc_wire.specs.Canonical.{Canonical};

use crate::canonical::put_message;
use crate::fault::WireFault;
use crate::field::Field;
use crate::iter::Fields;
use std::alloc::Global;

/// A message of ORC: what the fields of its bytes say, and its canonical text.
///
/// Its members say what a list of fields gives: the last number or text of a field number, the parts
/// of a list in order, the one message, the kept fields. They are a table line each in `specs/`, and
/// `take` and `put_members` are a call each.
pub trait Message: Sized + Drop {
    // what fields say of it
    ghost members: { Member Self };
    // its canonical text
    ghost canonical: { Canonical members };
    // the number that must be there, or 0
    ghost REQUIRED: { ℕ };

    // what is kept of a message's fields that are only tested
    ghost sees: { Self.Seen → Self → Type 0 } = { λ _ _. Unit {0} };

    const REQUIRED: u32;

    /// What `test` keeps of the fields before: which messages that may occur once have occurred.
    type Seen: Copy;

    /// The message of no fields.
    fn empty(alloc: Global) -> Self
        // Returns the message of no fields, in which each member has its value for a missing field.
        ensures { result ≡ members.start };

    /// Takes one more field.
    fn take(&mut self, alloc: Global, field: &Field) -> Result<(), WireFault>
        // If the call succeeds, then `field` has changed the message in the way that the message's members define.
        ensures ok { OnOk result (members.steps (item_of field.now) self.old self.new) }
        // An error is `OutOfMemory`, or one with which a member refuses `field`, given the message before the call.
        ensures fault { IfErr result (λ e. (e ≡ OutOfMemory) ⊎ members.refuses (item_of field.now) self.old e) };

    /// Returns what a test has seen before the first field.
    fn nothing_seen() -> Self::Seen
        // The result is what is kept of the message of no fields.
        ensures { sees result members.start };

    /// Tests one more field of a message, and notes in `seen` what has occurred. It takes no
    /// memory.
    fn test(seen: &mut Self::Seen, field: &Field) -> Result<(), WireFault>
        // If `seen` was kept of a message and the call succeeds, then no member refuses `field` for this message.
        ensures ok { (old : Self) → sees seen.old old → OnOk result (Passes members (item_of field.now) old) }
        // If `seen` was kept of a message and the call succeeds, then afterwards `seen` is kept of each message that
        // `field` makes of this message.
        ensures keeps { (old new : Self) → sees seen.old old → members.steps (item_of field.now) old new
            → OnOk result (sees seen.new new) }
        // If `seen` was kept of a message, then an error is one with which a member refuses `field` for this message.
        ensures fault { (old : Self) → sees seen.old old
            → IfErr result (λ e. members.refuses (item_of field.now) old e) };

    /// Appends the canonical text. After an error, `out` may end with a part of it.
    fn put_members(&self, out: &mut Vec<u8>) -> Result<(), WireFault>
        // If the call succeeds, then the message's canonical encoding is appended to `out`.
        ensures text { OnOk result (out.new.items ≡ out.old.items ++ canonical.text self.now) }
        // If the call succeeds, then each number of the message fits the bits of its field.
        ensures bounded { OnOk result (canonical.bounded self.now) }
        // The only error is `OutOfMemory`.
        ensures refused { IfErr result (λ fault. fault ≡ OutOfMemory) }
        // The bytes that `out` had stay at its front, whether the call succeeds or fails.
        ensures front { KeepsFront out.old.items out.new.items };

    // the required number is always written
    ghost complete: { (REQUIRED ≡ 0) ⊎ canonical.always REQUIRED };

    /// The message of the fields, whose places count on from where they stand.
    final fn read_fields(alloc: Global, fields: Fields<'_>) -> Result<Self, WireFault>
        // The returned message is the one that the bytes of `fields` encode, with places counted from the place of
        // `fields` on.
        ensures found { IfOk result (λ message.
            Spells members REQUIRED fields.entry.place fields.entry.rest.now message) }
        // If the bytes of `fields` encode a message, then the call returns this message, or fails with `OutOfMemory`.
        ensures only { (content : Self)
            → Spells members REQUIRED fields.entry.place fields.entry.rest.now content
            → MatchResult result (λ message. message ≡ content) (λ e. e ≡ OutOfMemory) }
        // An error is `OutOfMemory`; or the error of the first field from the left that is invalid or refused by a
        // member; or, if there is no such field, `Missing`, because a required field isn't there. The place in an
        // error, if the error has one, is that of the innermost field with the error, counted from the place of
        // `fields` on.
        ensures fault { IfErr result (λ e. (e ≡ OutOfMemory)
            ⊎ Faults members REQUIRED fields.entry.place fields.entry.rest.now e) }
        // If the bytes of `fields` have a field that is invalid or refused by a member, or lack a required field, then
        // the call fails. The error is that of the first invalid or refused field from the left, with the place of the
        // innermost field with the error; or `Missing`, if no field is invalid or refused; or `OutOfMemory`.
        ensures refused { (fault : WireFault)
            → Faults members REQUIRED fields.entry.place fields.entry.rest.now fault
            → MatchResult result (λ _. ⊥) (λ e. (e ≡ OutOfMemory) ⊎ (e ≡ fault)) }
    {
        let mut message = Self::empty(alloc);
        let mut complete = Self::REQUIRED == 0;
        for next in fields {
            let field = next?;
            message.take(alloc, &field)?;
            let found = field.varint(Self::REQUIRED).is_some();
            complete = complete || found;
        }
        if !complete {
            return Err(WireFault::Missing);
        }
        Ok(message)
    }

    /// The message that the bytes spell.
    ///
    /// Refusals: the first field from the left that is none, or that a member refuses, names the
    /// fault, with the place of its key (of the innermost key, in a message within); `Missing` comes
    /// last within its message. `OutOfMemory` may come instead.
    final fn read(alloc: Global, bytes: &[u8]) -> Result<Self, WireFault>
        // The returned message is the one that `bytes` encode, with places counted from the first byte.
        ensures found { IfOk result (λ message. Spells members REQUIRED 0 bytes.now message) }
        // If `bytes` encode a message, then the call returns this message, or fails with `OutOfMemory`.
        ensures only { (content : Self)
            → Spells members REQUIRED 0 bytes.now content
            → MatchResult result (λ message. message ≡ content) (λ e. e ≡ OutOfMemory) }
        // An error is `OutOfMemory`; or the error of the first field from the left that is invalid or refused by a
        // member; or, if there is no such field, `Missing`, because a required field isn't there. The place in an
        // error, if the error has one, is that of the innermost field with the error, counted from the first byte of
        // `bytes`.
        ensures fault { IfErr result (λ e. (e ≡ OutOfMemory) ⊎ Faults members REQUIRED 0 bytes.now e) }
        // If `bytes` have a field that is invalid or refused by a member, or lack a required field, then the call
        // fails. The error is that of the first invalid or refused field from the left, with the place of the innermost
        // field with the error; or `Missing`, if no field is invalid or refused; or `OutOfMemory`.
        ensures refused { (fault : WireFault)
            → Faults members REQUIRED 0 bytes.now fault
            → MatchResult result (λ _. ⊥) (λ e. (e ≡ OutOfMemory) ⊎ (e ≡ fault)) }
    {
        Self::read_fields(alloc, Fields::new(bytes))
    }

    /// Whether the bytes spell a message: succeeds if `read` does, and else answers its fault, with
    /// the same place. It keeps nothing of the message and takes no memory.
    final fn is_message(bytes: &[u8]) -> Result<(), WireFault>
        // If the call succeeds, then `bytes` encode a message.
        ensures found { OnOk result ((message : Self) × Spells members REQUIRED 0 bytes.now message) }
        // If `bytes` encode a message, then the call succeeds.
        ensures only { (message : Self) → Spells members REQUIRED 0 bytes.now message → result ≡ Ok tt }
        // An error is that of the first field from the left that is invalid or refused by a member; or, if there is no
        // such field, `Missing`, because a required field isn't there. The place in an error, if the error has one, is
        // that of the innermost field with the error, counted from the first byte of `bytes`.
        ensures fault { IfErr result (λ e. Faults members REQUIRED 0 bytes.now e) }
        // If `bytes` have a field that is invalid or refused by a member, or lack a required field, then the call
        // fails with this fault: that of the first invalid or refused field from the left, with the place of the
        // innermost field with the error; or `Missing`, if no field is invalid or refused.
        ensures refused { (fault : WireFault) → Faults members REQUIRED 0 bytes.now fault → result ≡ Err fault }

        // If `read` of the same bytes succeeds, then the call succeeds. If `read` fails, then it does so with
        // `OutOfMemory`, or the call fails with the same error.
        ensures as_read { (read : Result Self WireFault) → ReadAnswers members REQUIRED bytes.now read
            → MatchResult read (λ _. result ≡ Ok tt) (λ e. (e ≡ OutOfMemory) ⊎ (result ≡ Err e)) }
    {
        test_fields::<Self>(bytes, 0)
    }

    /// Appends the canonical text of the message. An error, which is `OutOfMemory`, leaves `out` as
    /// it was.
    final fn put(&self, out: &mut Vec<u8>) -> Result<(), WireFault>
        // If the call succeeds, then the message's canonical encoding is appended to `out`.
        ensures text { OnOk result (out.new.items ≡ out.old.items ++ canonical.text self.now) }
        // If the call succeeds and the message's canonical encoding contains all of the message, then this encoding
        // reads back as the message.
        ensures again { OnOk result (canonical.whole self.now
            → Spells members REQUIRED 0 (canonical.text self.now) self.now) }

        // The only error is `OutOfMemory`, and it leaves `out` as it was.
        ensures refused { IfErr result (λ fault. fault ≡ OutOfMemory) }
        ensures unchanged { OnErr result (out.new.items ≡ out.old.items) }
    {
        let start = out.len();
        match self.put_members(out) {
            Ok(()) => Ok(()),
            Err(fault) => {
                out.truncate(start);
                Err(fault)
            }
        }
    }

    /// Appends the message as a field with that number. An error, which is `OutOfMemory`, leaves
    /// `out` as it was.
    final fn put_within(&self, number: u32, out: &mut Vec<u8>) -> Result<(), WireFault>
        // If the call succeeds, then a field with `number` is appended to `out`: its key and the length of the
        // message's canonical encoding, each as the shortest varint, and that encoding.
        ensures text { OnOk result (out.new.items
            ≡ out.old.items ++ sized_text number (canonical.text self.now)) }
        // If the call succeeds, then each number of the message fits the bits of its field.
        ensures bounded { OnOk result (canonical.bounded self.now) }
        // The only error is `OutOfMemory`, and it leaves `out` as it was.
        ensures refused { IfErr result (λ fault. fault ≡ OutOfMemory) }
        ensures unchanged { OnErr result (out.new.items ≡ out.old.items) }
    {
        let start = out.len();
        match put_message(number, self, out) {
            Ok(()) => Ok(()),
            Err(fault) => {
                out.truncate(start);
                Err(fault)
            }
        }
    }
}

/// Whether the bytes are fields of a message, whose places count on from `place`.
pub(crate) fn test_fields<M: Message>(bytes: &[u8], place: usize) -> Result<(), WireFault>
    requires { place + length bytes.now < 2 ^ 64 }
    ensures found { OnOk result ((message : M) × Spells M.members M.REQUIRED place bytes.now message) }
    ensures fault { IfErr result (λ e. Faults M.members M.REQUIRED place bytes.now e) }
{
    let mut seen = M::nothing_seen();
    let mut complete = M::REQUIRED == 0;
    for next in (Fields { rest: bytes, place }) {
        let field = next?;
        M::test(&mut seen, &field)?;
        let found = field.varint(M::REQUIRED).is_some();
        complete = complete || found;
    }
    if complete {
        Ok(())
    } else {
        Err(WireFault::Missing)
    }
}
