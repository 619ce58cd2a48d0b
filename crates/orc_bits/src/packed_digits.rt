//! Packed numbers: each has the digits of one width, highest first, one after the other over the bytes.
ghost use Rattle.std.specs.Prelude.{◌≡◌, ℕ, ◌+◌, ◌-◌, ◌*◌, ◌/◌, ◌^◌, ◌<◌, ◌≤◌, ◌++◌, List, length, take, drop, IfOk, IfErr, OnOk, OnErr, vec_capacity, vec_len};
ghost use Rattle.orc_bits.specs.Width.{width_at};
ghost use Rattle.orc_bits.specs.Packed.{bits, digits, packed_len, AllFit, IsPacked, IsPackedText, AppendsPacked};
ghost use Rattle.orc_bits.specs.declared.fault.BitFault.{BitFault};
ghost use Rattle.orc_bits.specs.declared.fault.BitFault.TheVariants.{Short, OutOfMemory};

use crate::byte_parts::unpack_by_bytes;
use crate::fault::BitFault;
use crate::lanes::unpack_by_chunks;
use crate::whole_bytes::{pack_sized, unpack_sized};
use crate::width::Width;

/// The least number of bytes that holds `n` numbers of `width` digits.
fn least_len(n: usize, width: u32) -> usize
    requires few { n < 2 ^ 60 }
    requires most { width ≤ 64 }
    ensures { result ≡ packed_len width n }
{
    let width = width as usize;
    n / 8 * width + (n % 8 * width + 7) / 8
}

/// The binary digits of bytes from some place on: those of `held`, of which there are `have`, and
/// those of the bytes from `at` on.
#[derive(Drop)]
struct Reader<'a> {
    bytes: &'a [u8],
    at: usize,
    held: u8,
    have: u32,
    ghost within: { at ≤ length bytes.now },
    ghost below: { held < 2 ^ have },
    ghost few: { have < 8 },
}

impl<'a> Reader<'a> {
    /// The number of the next digits.
    fn next(&mut self, width: u32) -> u64
        requires most { width ≤ 64 }
        requires there { width ≤ self.old.have + 8 * (length self.old.bytes.now - self.old.at) }
        ensures same { self.new.bytes ≡ self.old.bytes }
        ensures digits { bits self.old.held self.old.have ++ digits 8 (drop self.old.at self.old.bytes.now)
            ≡ bits result width
            ++ (bits self.new.held self.new.have ++ digits 8 (drop self.new.at self.old.bytes.now)) }
        ensures used { self.old.have + 8 * self.new.at ≡ width + self.new.have + 8 * self.old.at }
        ensures fits { result < 2 ^ width }
    {
        let mut held = u128::from(self.held);
        let mut have = self.have;
        while have < width {
            let byte = self.bytes[self.at];
            held = held * 256 + u128::from(byte);
            self.at += 1;
            have += 8;
        }
        have -= width;
        let number = (held >> have) as u64;
        self.held = (held & ((1 << have) - 1)) as u8;
        self.have = have;
        number
    }
}

/// Fills the slice with the numbers at the front of the bytes, one after the other.
pub(crate) fn unpack_plain(bytes: &[u8], width: u32, out: &mut [u64])
    requires most { width ≤ 64 }
    requires there { packed_len width (length out.old) ≤ length bytes.now }
    ensures { IsPacked (take (packed_len width (length out.old)) bytes.now) width out.new }
{
    let mut reader = Reader {
        bytes,
        at: 0,
        held: 0,
        have: 0,
    };
    for place in out.iter_mut() {
        *place = reader.next(width);
    }
}

/// Fills the slice with the numbers at the front of the bytes. Where the width divides 8, whole chunks
/// of eight bytes go in lanes, the whole bytes behind them one at a time, and the numbers of a last part
/// of a byte one after the other. Numbers of whole bytes are taken by bytes; for each size there is an
/// arm, so that the compiler unrolls the loop over a number's bytes. Others go one after the other.
fn unpack_there(bytes: &[u8], width: u32, out: &mut [u64])
    requires some { 1 ≤ width }
    requires most { width ≤ 64 }
    requires there { packed_len width (length out.old) ≤ length bytes.now }
    ensures { IsPacked (take (packed_len width (length out.old)) bytes.now) width out.new }
{
    let count = match width {
        1 => 8,
        2 => 4,
        4 => 2,
        8 => 1,
        16 => return unpack_sized(bytes, 2, out),
        24 => return unpack_sized(bytes, 3, out),
        32 => return unpack_sized(bytes, 4, out),
        40 => return unpack_sized(bytes, 5, out),
        48 => return unpack_sized(bytes, 6, out),
        56 => return unpack_sized(bytes, 7, out),
        64 => return unpack_sized(bytes, 8, out),
        _ => return unpack_plain(bytes, width, out),
    };
    let chunks = out.len() / (8 * count);
    let (in_chunks, behind) = bytes.split_at(8 * chunks);
    let (first, left) = out.split_at_mut(8 * count * chunks);
    unpack_by_chunks(in_chunks, width, 8 * count, chunks, first);
    let whole = left.len() / count;
    let (in_bytes, rest) = behind.split_at(whole);
    let (second, last) = left.split_at_mut(count * whole);
    unpack_by_bytes(in_bytes, width, count, second);
    unpack_plain(rest, width, last);
}

/// Fills `out`, which has `n` places, with the `n` numbers of one width that stand packed at the
/// front of `bytes`, and answers how many bytes they take: the least number that holds them. What
/// the last byte's spare digits are doesn't matter.
///
/// Its one refusal is `Short`, where there are fewer bytes than that; `out` is then as it was. It
/// takes no memory.
pub fn unpack(bytes: &[u8], width: Width, n: usize, out: &mut [u64]) -> Result<usize, BitFault>
    requires { length out.old ≡ n }
    // If `out` has `n` places, then a returned length is the least number of bytes that holds `n` numbers of `width`,
    // at most the length of `bytes`, and `out` contains the `n` numbers that are packed in that many bytes at the front
    // of `bytes`, whatever the spare bits are.
    ensures found { IfOk result (λ len. IsPacked (take len bytes.now) (width_at width.code) out.new) }
    ensures len { IfOk result (λ len. len ≡ packed_len (width_at width.code) n) }
    ensures within { IfOk result (λ len. len ≤ length bytes.now) }
    // If `out` has `n` places and `bytes` begin with `n` packed numbers of `width`, then the call returns the number of
    // bytes that these numbers take, and `out` contains the numbers, whatever bytes follow.
    ensures only { (front rest values : List ℕ) → IsPacked front (width_at width.code) values
        → length values ≡ n → bytes.now ≡ front ++ rest → (result ≡ Ok (length front)) × (out.new ≡ values) }

    // If `out` has `n` places, then the only error is `Short`. It comes only if `bytes` are fewer than `n` packed
    // numbers of `width` take, and it leaves `out` as it was.
    ensures fault { IfErr result (λ fault. (fault ≡ Short) × (length bytes.now < packed_len (width_at width.code) n)) }
    ensures unchanged { OnErr result (out.new ≡ out.old) }
{
    let digits = width.digits();
    let len = least_len(n, digits);
    if bytes.len() < len {
        return Err(BitFault::Short);
    }
    unpack_there(bytes, digits, out);
    Ok(len)
}

/// Writes the whole bytes of the held digits and those of a number, from `at` on. The answer is the
/// place after them, and the digits that are left with their count.
fn put_digits(
    out: &mut [u8],
    at: usize,
    held: u8,
    have: u32,
    number: u64,
    width: u32,
) -> (usize, u8, u32)
    requires width { width ≤ 64 }
    requires few { have < 8 }
    requires below { held < 2 ^ have }
    requires fits { number < 2 ^ width }
    requires room { 8 * at + have + width ≤ 8 * length out.old }
    ensures few { result.2 < 8 }
    ensures below { result.1 < 2 ^ result.2 }
    ensures used { 8 * result.0 + result.2 ≡ 8 * at + have + width }
    ensures small { AllFit 8 (take at out.old) → AllFit 8 (take result.0 out.new) }
    ensures digits { digits 8 (take result.0 out.new) ++ bits result.1 result.2
        ≡ (digits 8 (take at out.old) ++ bits held have)
        ++ bits number width }
{
    let mut at = at;
    let mut rest = (u128::from(held) << width) + u128::from(number);
    let mut left = have + width;
    while left >= 8 {
        left -= 8;
        out[at] = (rest >> left) as u8;
        rest &= (1 << left) - 1;
        at += 1;
    }
    (at, rest as u8, left)
}

/// Fills the slice with the numbers, one after the other. Spare digits are 0.
fn pack_plain(values: &[u64], width: u32, out: &mut [u8])
    requires most { width ≤ 64 }
    requires fit { AllFit width values.now }
    requires len { length out.old ≡ packed_len width (length values.now) }
    ensures { IsPackedText out.new width values.now }
{
    let mut at = 0;
    let mut held = 0;
    let mut have = 0;
    for value in values {
        let (place, rest, left) = put_digits(out, at, held, have, *value, width);
        at = place;
        held = rest;
        have = left;
    }
    if have > 0 {
        out[at] = held << (8 - have);
    }
}

/// Fills the slice with the numbers, those of whole bytes by bytes. Spare digits are 0.
fn pack_there(values: &[u64], width: u32, out: &mut [u8])
    requires most { width ≤ 64 }
    requires fit { AllFit width values.now }
    requires len { length out.old ≡ packed_len width (length values.now) }
    ensures { IsPackedText out.new width values.now }
{
    match width {
        8 => pack_sized(values, 1, out),
        16 => pack_sized(values, 2, out),
        24 => pack_sized(values, 3, out),
        32 => pack_sized(values, 4, out),
        40 => pack_sized(values, 5, out),
        48 => pack_sized(values, 6, out),
        56 => pack_sized(values, 7, out),
        64 => pack_sized(values, 8, out),
        _ => pack_plain(values, width, out),
    }
}

/// Appends the numbers packed, each of which fits the width: the least number of bytes that holds
/// them, with spare digits of 0.
///
/// A refusal, which is `OutOfMemory`, leaves `out` as it was, and comes only where `out` had no room
/// left for these bytes.
pub fn pack(values: &[u64], width: Width, out: &mut Vec<u8>) -> Result<(), BitFault>
    requires { AllFit (width_at width.code) values.now }
    // If each of `values` fits `width` and the call succeeds, then `values` are appended to `out`, packed with `width`
    // in the least number of bytes that holds them, with spare bits of 0.
    ensures text { OnOk result (AppendsPacked (width_at width.code) values.now out.old.items out.new.items) }

    // If each of `values` fits `width`, then the only error is `OutOfMemory`. It leaves `out` as it was, and comes only
    // if the packed bytes don't fit the capacity that `out` has left.
    ensures refused { IfErr result (λ fault. fault ≡ OutOfMemory) }
    ensures unchanged { OnErr result (out.new.items ≡ out.old.items) }
    ensures full { OnErr result (vec_capacity out.old
        < vec_len out.old + packed_len (width_at width.code) (length values.now)) }
{
    let digits = width.digits();
    let len = least_len(values.len(), digits);
    let start = out.len();
    if out.resize(start + len, 0).is_err() {
        return Err(BitFault::OutOfMemory);
    }
    pack_there(values, digits, &mut out[start..]);
    Ok(())
}

/// Laws of packed numbers: no packed bytes begin others of as many numbers, and they stand for one
/// list of numbers; the bytes that `pack` appends are packed, and no others are with spare digits of
/// 0.
pub fn packed_laws()
    // Of one width, no packed bytes begin others of as many numbers, nor hold two lists of so many.
    ensures prefix { (w : ℕ) (a b x y v u : List ℕ)
        → length v ≡ length u → IsPacked a w v → IsPacked b w u → a ++ x ≡ b ++ y → (a ≡ b) × (v ≡ u) }
    // Numbers have one text of a width with spare digits of 0.
    ensures one_text { (w : ℕ) (a b v : List ℕ) → IsPackedText a w v → IsPackedText b w v → a ≡ b }
    // If bytes contain numbers of a width packed with spare bits of 0, then they contain the same numbers packed with
    // spare bits of any value.
    ensures again { (w : ℕ) (a v : List ℕ) → IsPackedText a w v → IsPacked a w v }
{}
