//! Packed numbers of whole bytes: widths 8, 16, 24 .. 64. Taking them by bytes, not by digits, is most of what makes
//! packing fast.
ghost use Rattle.std.specs.Prelude.{◌≡◌, ◌*◌, ◌^◌, ◌<◌, ◌≤◌, [], ◌∷◌, length, take};
ghost use Rattle.orc_bits.specs.Packed.{bits, digits, packed_len, AllFit, SpellsPacked, IsPacked, IsPackedText};

/// The number that these bytes are, the highest first.
#[inline(always)]
fn number_of(bytes: &[u8]) -> u64
    requires few { length bytes.now ≤ 8 }
    ensures fits { result < 2 ^ (8 * length bytes.now) }
    ensures digits { bits result (8 * length bytes.now) ≡ digits 8 bytes.now }
{
    let mut number = 0;
    for byte in bytes {
        number = number * 256 + u64::from(*byte);
    }
    number
}

/// Fills the slice with the numbers that the bytes are, each of `size` bytes.
#[inline(always)]
fn unpack_whole(bytes: &[u8], size: usize, out: &mut [u64])
    requires some { 1 ≤ size }
    requires most { size ≤ 8 }
    requires there { size * length out.old ≡ length bytes.now }
    ensures { SpellsPacked 8 bytes.now (8 * size) out.new }
{
    for i in 0..out.len() {
        out[i] = number_of(&bytes[size * i..size * (i + 1)]);
    }
}

/// Fills the slice with the numbers at the front of the bytes, each of `size` bytes.
#[inline(always)]
pub(crate) fn unpack_sized(bytes: &[u8], size: usize, out: &mut [u64])
    requires some { 1 ≤ size }
    requires most { size ≤ 8 }
    requires there { packed_len (8 * size) (length out.old) ≤ length bytes.now }
    ensures { IsPacked (take (packed_len (8 * size) (length out.old)) bytes.now) (8 * size) out.new }
{
    let (text, _) = bytes.split_at(size * out.len());
    unpack_whole(text, size, out);
}

/// Fills the slice with the lowest bytes of a number, as many as it has places, the highest first.
#[inline(always)]
fn put_number(number: u64, out: &mut [u8])
    requires few { length out.old ≤ 8 }
    ensures { SpellsPacked (8 * length out.old) (number ∷ []) 8 out.new }
{
    let mut left = 8 * out.len();
    for place in out.iter_mut() {
        left -= 8;
        *place = ((number >> left) % 256) as u8;
    }
}

/// Fills the slice with the numbers, each in `size` bytes.
#[inline(always)]
pub(crate) fn pack_sized(values: &[u64], size: usize, out: &mut [u8])
    requires some { 1 ≤ size }
    requires most { size ≤ 8 }
    requires fit { AllFit (8 * size) values.now }
    requires len { length out.old ≡ packed_len (8 * size) (length values.now) }
    ensures { IsPackedText out.new (8 * size) values.now }
{
    for i in 0..values.len() {
        put_number(values[i], &mut out[size * i..size * (i + 1)]);
    }
}
