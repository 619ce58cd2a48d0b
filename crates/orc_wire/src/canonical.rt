//! The canonical text of a message's members: shortest varints and packed lists.
//!
//! After a refusal, which is `OutOfMemory`, each function has left what was there in front; a part
//! of its own text may follow. Of a field that was begun, `end_sized` leaves what stands in front of
//! its length, and `end_some` what stands in front of the field.
ghost use Rattle.std.specs.Prelude.{◌≡◌, ◌++◌, ◌+◌, ◌*◌, ◌<◌, ◌≤◌, ◌^◌, ℕ, [], ◌∷◌, length, take, drop, IfOk, IfErr, IfSome, OnOk};
ghost use Rattle.std.specs.List.{AllByRecursion};
ghost use Rattle.orc_bits.specs.Varint.{varint_text};
ghost use Rattle.orc_bits.specs.Zigzag.{zig};
ghost use Rattle.orc_wire.specs.declared.fault.WireFault.TheVariants.{OutOfMemory};
ghost use Rattle.orc_wire.specs.Fields.{varint, sized, wire, IsPayload};
ghost use Rattle.orc_wire.specs.FieldValue.{payload_of};
ghost use Rattle.orc_wire.specs.CanonicalText.{payload_text, field_text, some_text, known_text, list_text, packed_text, sized_text, shown_text, KeepsFront};
ghost use Rattle.orc_wire.specs.CanonicalText.{flag_number};
ghost use Rattle.orc_wire.specs.CanonicalKinds.{AreBelow};

use crate::fault::WireFault;
use crate::field::Value;
use crate::items::Bytes;
use crate::message::Message;
use orc_bits::{put_varint, zigzag};

/// The wire type of bytes that follow their length.
const LEN: u64 = 2;

/// A number below this one is a varint of one byte.
const TWO_BYTES: u64 = 128;

/// Appends a varint of whatever length, by a call of its own, so that what calls it stays short.
#[inline(never)]
fn put_any(n: u64, out: &mut Vec<u8>) -> Result<(), WireFault>
    ensures text { OnOk result (out.new.items ≡ out.old.items ++ varint_text n) }
    ensures refused { IfErr result (λ fault. fault ≡ OutOfMemory) }
    ensures front { KeepsFront out.old.items out.new.items }
{
    match put_varint(n, out) {
        Ok(()) => Ok(()),
        Err(_) => Err(WireFault::OutOfMemory),
    }
}

/// Appends a varint. Keys and most lengths are one byte, which is pushed and not copied.
#[inline(always)]
fn put_one(n: u64, out: &mut Vec<u8>) -> Result<(), WireFault>
    ensures text { OnOk result (out.new.items ≡ out.old.items ++ varint_text n) }
    ensures fits { n < 2 ^ 64 }
    ensures refused { IfErr result (λ fault. fault ≡ OutOfMemory) }
    ensures front { KeepsFront out.old.items out.new.items }
{
    if n < TWO_BYTES {
        out.push(n as u8)?;
        return Ok(());
    }
    put_any(n, out)
}

fn put_raw(bytes: &[u8], out: &mut Vec<u8>) -> Result<(), WireFault>
    ensures text { OnOk result (out.new.items ≡ out.old.items ++ bytes.now) }
    ensures refused { IfErr result (λ fault. fault ≡ OutOfMemory) }
    ensures front { KeepsFront out.old.items out.new.items }
{
    out.extend_from_slice(bytes)?;
    Ok(())
}

/// Appends the length of the bytes, and the bytes.
fn put_sized(bytes: &[u8], out: &mut Vec<u8>) -> Result<(), WireFault>
    ensures text { OnOk result (out.new.items ≡ out.old.items ++ payload_text (sized bytes.now)) }
    ensures fits { OnOk result (length bytes.now < 2 ^ 64) }
    ensures refused { IfErr result (λ fault. fault ≡ OutOfMemory) }
    ensures front { KeepsFront out.old.items out.new.items }
{
    put_one(bytes.len() as u64, out)?;
    put_raw(bytes, out)
}

#[inline(always)]
fn wire_type(value: Value<'_>) -> u64
    ensures { result ≡ wire (payload_of value.entry) }
{
    match value {
        Value::Varint(_) => 0,
        Value::Eight(_) => 1,
        Value::Bytes(_) => LEN,
        Value::Four(_) => 5,
    }
}

/// Appends a field.
#[inline(always)]
pub(crate) fn put_field(number: u32, value: Value<'_>, out: &mut Vec<u8>) -> Result<(), WireFault>
    ensures text { OnOk result (out.new.items ≡ out.old.items ++ field_text number (payload_of value.entry)) }
    ensures holds { OnOk result (IsPayload (payload_of value.entry) (payload_text (payload_of value.entry))) }
    ensures refused { IfErr result (λ fault. fault ≡ OutOfMemory) }
    ensures front { KeepsFront out.old.items out.new.items }
{
    put_one(u64::from(number) * 8 + wire_type(value), out)?;
    match value {
        Value::Varint(number) => put_one(number, out),
        Value::Eight(bytes) => put_raw(&bytes, out),
        Value::Four(bytes) => put_raw(&bytes, out),
        Value::Bytes(bytes) => put_sized(bytes, out),
    }
}

/// Appends a number.
#[inline(always)]
pub(crate) fn put_number(n: u32, value: u64, out: &mut Vec<u8>) -> Result<(), WireFault>
    ensures text { OnOk result (out.new.items ≡ out.old.items ++ field_text n (varint value)) }
    ensures refused { IfErr result (λ fault. fault ≡ OutOfMemory) }
    ensures front { KeepsFront out.old.items out.new.items }
{
    put_field(n, Value::Varint(value), out)
}

/// Appends a number that is known.
pub(crate) fn put_known_u32(n: u32, value: Option<u32>, out: &mut Vec<u8>) -> Result<(), WireFault>
    ensures text { OnOk result (out.new.items ≡ out.old.items ++ known_text (λ v. varint v) n value) }
    ensures bounded { IfSome value (λ v. v < 2 ^ 32) }
    ensures refused { IfErr result (λ fault. fault ≡ OutOfMemory) }
    ensures front { KeepsFront out.old.items out.new.items }
{
    match value {
        None => Ok(()),
        Some(value) => put_number(n, u64::from(value), out),
    }
}

/// Appends a number of 64 bits that is known.
#[inline(always)]
pub(crate) fn put_known_u64(n: u32, value: Option<u64>, out: &mut Vec<u8>) -> Result<(), WireFault>
    ensures text { OnOk result (out.new.items ≡ out.old.items ++ known_text (λ v. varint v) n value) }
    ensures bounded { IfSome value (λ v. v < 2 ^ 64) }
    ensures refused { IfErr result (λ fault. fault ≡ OutOfMemory) }
    ensures front { KeepsFront out.old.items out.new.items }
{
    match value {
        None => Ok(()),
        Some(value) => put_number(n, value, out),
    }
}

/// Appends a signed number that is known.
#[inline(always)]
pub(crate) fn put_known_i64(n: u32, value: Option<i64>, out: &mut Vec<u8>) -> Result<(), WireFault>
    ensures text { OnOk result (out.new.items ≡ out.old.items ++ known_text (λ v. varint (zig v)) n value) }
    ensures bounded { OnOk result (IfSome value (λ v. zig v < 2 ^ 64)) }
    ensures refused { IfErr result (λ fault. fault ≡ OutOfMemory) }
    ensures front { KeepsFront out.old.items out.new.items }
{
    match value {
        None => Ok(()),
        Some(value) => put_number(n, zigzag(value), out),
    }
}

/// Appends a signed number of 32 bits that is known.
pub(crate) fn put_known_i32(n: u32, value: Option<i32>, out: &mut Vec<u8>) -> Result<(), WireFault>
    ensures text { OnOk result (out.new.items ≡ out.old.items ++ known_text (λ v. varint (zig v)) n value) }
    ensures bounded { OnOk result (IfSome value (λ v. zig v < 2 ^ 32)) }
    ensures refused { IfErr result (λ fault. fault ≡ OutOfMemory) }
    ensures front { KeepsFront out.old.items out.new.items }
{
    match value {
        None => Ok(()),
        Some(value) => put_number(n, zigzag(i64::from(value)), out),
    }
}

/// Appends a flag that is known.
#[inline(always)]
pub(crate) fn put_known_flag(
    n: u32,
    value: Option<bool>,
    out: &mut Vec<u8>,
) -> Result<(), WireFault>
    ensures text { OnOk result (out.new.items ≡ out.old.items ++ known_text (λ v. varint (flag_number v)) n value) }
    ensures refused { IfErr result (λ fault. fault ≡ OutOfMemory) }
    ensures front { KeepsFront out.old.items out.new.items }
{
    match value {
        None => Ok(()),
        Some(value) => put_number(n, u64::from(value), out),
    }
}

/// Appends a text that is known.
pub(crate) fn put_known_text(
    n: u32,
    value: &Option<Bytes>,
    out: &mut Vec<u8>,
) -> Result<(), WireFault>
    ensures text { OnOk result (out.new.items ≡ out.old.items ++ known_text (λ t. sized t) n value.now) }
    ensures refused { IfErr result (λ fault. fault ≡ OutOfMemory) }
    ensures front { KeepsFront out.old.items out.new.items }
{
    match value {
        None => Ok(()),
        Some(text) => put_text(n, text, out),
    }
}

/// Appends a text, also an empty one.
pub(crate) fn put_text(n: u32, text: &Bytes, out: &mut Vec<u8>) -> Result<(), WireFault>
    ensures text { OnOk result (out.new.items ≡ out.old.items ++ field_text n (sized text.now)) }
    ensures refused { IfErr result (λ fault. fault ≡ OutOfMemory) }
    ensures front { KeepsFront out.old.items out.new.items }
{
    put_field(n, Value::Bytes(text.as_slice()), out)
}

/// Appends a field for each text.
pub(crate) fn put_texts(n: u32, texts: &[Bytes], out: &mut Vec<u8>) -> Result<(), WireFault>
    ensures text { OnOk result (out.new.items ≡ out.old.items ++ list_text (λ t. sized t) n texts.now) }
    ensures refused { IfErr result (λ fault. fault ≡ OutOfMemory) }
    ensures front { KeepsFront out.old.items out.new.items }
{
    for text in texts {
        put_text(n, text, out)?;
    }
    Ok(())
}

/// Appends fields that were kept as they stood.
pub(crate) fn put_kept(kept: &Bytes, out: &mut Vec<u8>) -> Result<(), WireFault>
    ensures text { OnOk result (out.new.items ≡ out.old.items ++ kept.now) }
    ensures refused { IfErr result (λ fault. fault ≡ OutOfMemory) }
    ensures front { KeepsFront out.old.items out.new.items }
{
    put_raw(kept.as_slice(), out)
}

/// Begins a field of bytes that are yet to be written: appends its key, and one byte in which the
/// length of most of them will fit. Answers the place of that byte.
#[inline(always)]
fn begin_sized(n: u32, out: &mut Vec<u8>) -> Result<usize, WireFault>
    ensures text { OnOk result (out.new.items ≡ (out.old.items ++ varint_text (n * 8 + 2)) ++ (0 ∷ [])) }
    ensures place { IfOk result (λ place. place ≡ length (out.old.items ++ varint_text (n * 8 + 2))) }
    ensures refused { IfErr result (λ fault. fault ≡ OutOfMemory) }
    ensures front { KeepsFront out.old.items out.new.items }
{
    put_one(u64::from(n) * 8 + LEN, out)?;
    let place = out.len();
    out.push(0)?;
    Ok(place)
}

/// Ends a field of bytes whose length takes more than a byte, for which they are moved.
#[inline(never)]
fn end_long(place: usize, out: &mut Vec<u8>) -> Result<(), WireFault>
    requires { place < length out.old.items }
    ensures text { OnOk result (out.new.items
        ≡ take place out.old.items ++ payload_text (sized (drop (place + 1) out.old.items))) }
    ensures refused { IfErr result (λ fault. fault ≡ OutOfMemory) }
    ensures front { KeepsFront (take place out.old.items) out.new.items }
{
    let content = Vec::from_slice(*out.allocator(), &out[place + 1..])?;
    out.truncate(place);
    put_sized(&content, out)
}

/// Ends a field of bytes: writes the length of the bytes after the byte at `place` there. Moves
/// these bytes only if the length takes more than that byte.
#[inline(always)]
fn end_sized(place: usize, out: &mut Vec<u8>) -> Result<(), WireFault>
    requires { place < length out.old.items }
    ensures text { OnOk result (out.new.items
        ≡ take place out.old.items ++ payload_text (sized (drop (place + 1) out.old.items))) }
    ensures refused { IfErr result (λ fault. fault ≡ OutOfMemory) }
    ensures front { KeepsFront (take place out.old.items) out.new.items }
{
    let len = out.len() - place - 1;
    if (len as u64) < TWO_BYTES {
        out[place] = len as u8;
        return Ok(());
    }
    end_long(place, out)
}

/// Ends a field of bytes that began at `start`, or removes it if no byte follows the one at
/// `place`.
#[inline(always)]
fn end_some(start: usize, place: usize, out: &mut Vec<u8>) -> Result<(), WireFault>
    requires within { place < length out.old.items }
    requires ordered { start ≤ place }
    ensures text { (n : ℕ) → take place out.old.items ≡ take start out.old.items ++ varint_text (n * 8 + 2)
        → OnOk result (out.new.items ≡ take start out.old.items ++ some_text n (drop (place + 1) out.old.items)) }
    ensures refused { IfErr result (λ fault. fault ≡ OutOfMemory) }
    ensures front { KeepsFront (take start out.old.items) out.new.items }
{
    if out.len() == place + 1 {
        out.truncate(start);
        Ok(())
    } else {
        end_sized(place, out)
    }
}

/// Appends a packed list, or nothing for an empty one.
pub(crate) fn put_packed_u32(n: u32, numbers: &[u32], out: &mut Vec<u8>) -> Result<(), WireFault>
    ensures text { OnOk result (out.new.items ≡ out.old.items ++ packed_text n numbers.now) }
    ensures bounded { OnOk result (AreBelow (2 ^ 32) numbers.now) }
    ensures refused { IfErr result (λ fault. fault ≡ OutOfMemory) }
    ensures front { KeepsFront out.old.items out.new.items }
{
    let start = out.len();
    let place = begin_sized(n, out)?;
    for number in numbers {
        put_one(u64::from(*number), out)?;
    }
    end_some(start, place, out)
}

/// Appends a packed list of 64-bit numbers, or nothing for an empty one.
pub(crate) fn put_packed_u64(n: u32, numbers: &[u64], out: &mut Vec<u8>) -> Result<(), WireFault>
    ensures text { OnOk result (out.new.items ≡ out.old.items ++ packed_text n numbers.now) }
    ensures bounded { OnOk result (AreBelow (2 ^ 64) numbers.now) }
    ensures refused { IfErr result (λ fault. fault ≡ OutOfMemory) }
    ensures front { KeepsFront out.old.items out.new.items }
{
    let start = out.len();
    let place = begin_sized(n, out)?;
    for number in numbers {
        put_one(*number, out)?;
    }
    end_some(start, place, out)
}

/// Appends a message as a field, or nothing if there is none or its text is empty.
#[inline(always)]
pub(crate) fn put_shown<M: Message>(
    n: u32,
    message: &Option<M>,
    out: &mut Vec<u8>,
) -> Result<(), WireFault>
    ensures text { OnOk result (out.new.items ≡ out.old.items ++ shown_text M.canonical.text n message.now) }
    ensures bounded { OnOk result (IfSome message.now M.canonical.bounded) }
    ensures refused { IfErr result (λ fault. fault ≡ OutOfMemory) }
    ensures front { KeepsFront out.old.items out.new.items }
{
    match message {
        None => Ok(()),
        Some(message) => {
            let start = out.len();
            let place = begin_sized(n, out)?;
            message.put_members(out)?;
            end_some(start, place, out)
        }
    }
}

/// Appends a message as a field, also if its text is empty.
pub(crate) fn put_message<M: Message>(
    n: u32,
    message: &M,
    out: &mut Vec<u8>,
) -> Result<(), WireFault>
    ensures text { OnOk result (out.new.items
        ≡ out.old.items ++ sized_text n (M.canonical.text message.now)) }
    ensures bounded { OnOk result (M.canonical.bounded message.now) }
    ensures refused { IfErr result (λ fault. fault ≡ OutOfMemory) }
    ensures front { KeepsFront out.old.items out.new.items }
{
    let place = begin_sized(n, out)?;
    message.put_members(out)?;
    end_sized(place, out)
}

/// Appends a field for each message.
pub(crate) fn put_each<M: Message>(
    n: u32,
    messages: &[M],
    out: &mut Vec<u8>,
) -> Result<(), WireFault>
    ensures text { OnOk result (out.new.items ≡ out.old.items
        ++ list_text (λ m. sized (M.canonical.text m)) n messages.now) }
    ensures bounded { OnOk result (AllByRecursion M.canonical.bounded messages.now) }
    ensures refused { IfErr result (λ fault. fault ≡ OutOfMemory) }
    ensures front { KeepsFront out.old.items out.new.items }
{
    for message in messages {
        put_message(n, message, out)?;
    }
    Ok(())
}
