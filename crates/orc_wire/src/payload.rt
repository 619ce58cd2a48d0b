//! The payload at the front of bytes, a function for each wire type.
ghost use Rattle.std.specs.Prelude.{◌≤◌, length, take, IfOk, IfErr};
ghost use Rattle.orc_bits.specs.Varint.{IsVarint, NoVarint};
ghost use Rattle.orc_wire.specs.Fields.{IsPayload, NoPayload, eight, four, sized};

use orc_bits::{BitFault, read_varint};

/// The number of the varint at the front, and how many bytes it takes. Nearly every key, length and
/// number of a message is a single byte, which needs no call.
#[inline(always)]
pub(crate) fn front_varint(bytes: &[u8]) -> Result<(u64, usize), BitFault>
    ensures within { IfOk result (λ found. found.1 ≤ length bytes.now) }
    ensures found { IfOk result (λ found. IsVarint (take found.1 bytes.now) found.0) }
    ensures fault { IfErr result (NoVarint bytes.now) }
{
    match bytes.first() {
        Some(&byte) if byte < 128 => Ok((u64::from(byte), 1)),
        _ => read_varint(bytes),
    }
}

/// The bytes after their length at the front, and how many bytes both take.
#[inline(always)]
pub(crate) fn front_sized(bytes: &[u8]) -> Result<(&[u8], usize), BitFault>
    ensures within { IfOk result (λ found. found.1 ≤ length bytes.now) }
    ensures found { IfOk result (λ found. IsPayload (sized found.0.now) (take found.1 bytes.now)) }
    ensures fault { IfErr result (NoPayload 2 bytes.now) }
{
    let (size, len) = front_varint(bytes)?;
    let (_, rest) = bytes.split_at(len);
    if (rest.len() as u64) < size {
        return Err(BitFault::Short);
    }
    let size = size as usize;
    let (front, _) = rest.split_at(size);
    Ok((front, len + size))
}

/// The eight bytes at the front.
pub(crate) fn front_eight(bytes: &[u8]) -> Result<[u8; 8], BitFault>
    ensures within { IfOk result (λ _. 8 ≤ length bytes.now) }
    ensures found { IfOk result (λ found. IsPayload (eight found) (take 8 bytes.now)) }
    ensures fault { IfErr result (NoPayload 1 bytes.now) }
{
    if bytes.len() < 8 {
        return Err(BitFault::Short);
    }
    let (front, _) = bytes.split_at(8);
    let mut eight = [0; 8];
    eight.copy_from_slice(front);
    Ok(eight)
}

/// The four bytes at the front.
pub(crate) fn front_four(bytes: &[u8]) -> Result<[u8; 4], BitFault>
    ensures within { IfOk result (λ _. 4 ≤ length bytes.now) }
    ensures found { IfOk result (λ found. IsPayload (four found) (take 4 bytes.now)) }
    ensures fault { IfErr result (NoPayload 5 bytes.now) }
{
    if bytes.len() < 4 {
        return Err(BitFault::Short);
    }
    let (front, _) = bytes.split_at(4);
    let mut four = [0; 4];
    four.copy_from_slice(front);
    Ok(four)
}
