//! Numbers of 1, 2, 4 and 8 digits out of whole bytes, a byte at a time.
ghost use Rattle.std.specs.Prelude.{◌≡◌, ◌+◌, ◌*◌, ◌%◌, ◌^◌, ◌<◌, ◌≤◌, [], ◌∷◌, length};
ghost use Rattle.orc_bits.specs.Packed.{SpellsPacked};

/// The two halves of a number's digits.
#[inline(always)]
fn halves(number: u64, half: u32) -> (u64, u64)
    requires few { half ≤ 4 }
    requires fits { number < 2 ^ (half + half) }
    ensures front { result.0 < 2 ^ half }
    ensures back { result.1 < 2 ^ half }
    ensures spelled { SpellsPacked (half + half) (number ∷ []) half (result.0 ∷ result.1 ∷ []) }
{
    (number >> half, number & ((1 << half) - 1))
}

/// Stores a byte.
#[inline(always)]
fn put_whole(byte: u64, out: &mut [u64])
    requires { length out.old ≡ 1 }
    ensures { out.new ≡ byte ∷ [] }
{
    out[0] = byte;
}

/// Stores the halves of a number's digits.
#[inline(always)]
fn put_halves(number: u64, half: u32, out: &mut [u64])
    requires few { half ≤ 4 }
    requires fits { number < 2 ^ (half + half) }
    requires len { length out.old ≡ 2 }
    ensures { SpellsPacked (half + half) (number ∷ []) half out.new }
{
    let (front, back) = halves(number, half);
    out[0] = front;
    out[1] = back;
}

/// Stores the quarters of a number's digits.
#[inline(always)]
fn put_quarters(number: u64, quarter: u32, out: &mut [u64])
    requires few { quarter ≤ 2 }
    requires fits { number < 2 ^ ((quarter + quarter) + (quarter + quarter)) }
    requires len { length out.old ≡ 4 }
    ensures { SpellsPacked ((quarter + quarter) + (quarter + quarter)) (number ∷ []) quarter out.new }
{
    let (front, back) = halves(number, quarter + quarter);
    let (first, second) = out.split_at_mut(2);
    put_halves(front, quarter, first);
    put_halves(back, quarter, second);
}

/// Stores the eight digits of a byte.
#[inline(always)]
fn put_eighths(byte: u64, out: &mut [u64])
    requires fits { byte < 2 ^ 8 }
    requires len { length out.old ≡ 8 }
    ensures { SpellsPacked 8 (byte ∷ []) 1 out.new }
{
    let (front, back) = halves(byte, 4);
    let (first, second) = out.split_at_mut(4);
    put_quarters(front, 1, first);
    put_quarters(back, 1, second);
}

/// Stores the numbers of so many digits that a byte holds.
#[inline(always)]
fn put_numbers(byte: u64, width: u32, out: &mut [u64])
    requires some { 1 ≤ width }
    requires divides { 8 % width ≡ 0 }
    requires fits { byte < 2 ^ 8 }
    requires len { width * length out.old ≡ 8 }
    ensures { SpellsPacked 8 (byte ∷ []) width out.new }
{
    match width {
        1 => put_eighths(byte, out),
        2 => put_quarters(byte, 2, out),
        4 => put_halves(byte, 4, out),
        _ => put_whole(byte, out),
    }
}

/// Fills the slice with the numbers of whole bytes, `count` of each byte.
pub(crate) fn unpack_by_bytes(bytes: &[u8], width: u32, count: usize, out: &mut [u64])
    requires some { 1 ≤ width }
    requires divides { 8 % width ≡ 0 }
    requires count { width * count ≡ 8 }
    requires out { length out.old ≡ count * length bytes.now }
    ensures { SpellsPacked 8 bytes.now width out.new }
{
    for i in 0..bytes.len() {
        put_numbers(
            u64::from(bytes[i]),
            width,
            &mut out[count * i..count * (i + 1)],
        );
    }
}
