//! Numbers of 1, 2, 4 and 8 digits out of chunks of eight bytes, each byte in a lane of its own.
ghost use Rattle.std.specs.Prelude.{◌≡◌, ◌+◌, ◌*◌, ◌%◌, ◌≤◌, ◌++◌, length};
ghost use Rattle.orc_bits.specs.Packed.{AllFit, SpellsPacked};

use std::simd::prelude::*;

/// The two halves of each lane's digits, one lane after the other.
#[inline(always)]
fn halves(lanes: u8x8, half: u32) -> (u8x8, u8x8)
    requires few { half ≤ 4 }
    requires fit { AllFit (half + half) lanes }
    ensures { SpellsPacked (half + half) lanes half (result.0 ++ result.1) }
{
    let fronts = lanes >> u8x8::splat(half as u8);
    let backs = lanes & u8x8::splat((1 << half) - 1);
    fronts.interleave(backs)
}

/// Stores the lanes.
#[inline(always)]
fn put_whole(lanes: u8x8, out: &mut [u64])
    requires { length out.old ≡ 8 }
    ensures { out.new ≡ lanes }
{
    lanes.cast::<u64>().copy_to_slice(out);
}

/// Stores the halves of the lanes' digits.
#[inline(always)]
fn put_halves(lanes: u8x8, half: u32, out: &mut [u64])
    requires few { half ≤ 4 }
    requires fit { AllFit (half + half) lanes }
    requires len { length out.old ≡ 16 }
    ensures { SpellsPacked (half + half) lanes half out.new }
{
    let (front, back) = halves(lanes, half);
    let (first, second) = out.split_at_mut(8);
    put_whole(front, first);
    put_whole(back, second);
}

/// Stores the quarters of the lanes' digits.
#[inline(always)]
fn put_quarters(lanes: u8x8, quarter: u32, out: &mut [u64])
    requires few { quarter ≤ 2 }
    requires fit { AllFit ((quarter + quarter) + (quarter + quarter)) lanes }
    requires len { length out.old ≡ 32 }
    ensures { SpellsPacked ((quarter + quarter) + (quarter + quarter)) lanes quarter out.new }
{
    let (front, back) = halves(lanes, quarter + quarter);
    let (first, second) = out.split_at_mut(16);
    put_halves(front, quarter, first);
    put_halves(back, quarter, second);
}

/// Stores the eight digits of each lane.
#[inline(always)]
fn put_eighths(lanes: u8x8, out: &mut [u64])
    requires fit { AllFit 8 lanes }
    requires len { length out.old ≡ 64 }
    ensures { SpellsPacked 8 lanes 1 out.new }
{
    let (front, back) = halves(lanes, 4);
    let (first, second) = out.split_at_mut(32);
    put_quarters(front, 1, first);
    put_quarters(back, 1, second);
}

/// Stores the numbers of so many digits that eight bytes hold.
#[inline(always)]
fn put_numbers(lanes: u8x8, width: u32, out: &mut [u64])
    requires some { 1 ≤ width }
    requires divides { 8 % width ≡ 0 }
    requires fit { AllFit 8 lanes }
    requires len { width * length out.old ≡ 64 }
    ensures { SpellsPacked 8 lanes width out.new }
{
    match width {
        1 => put_eighths(lanes, out),
        2 => put_quarters(lanes, 2, out),
        4 => put_halves(lanes, 4, out),
        _ => put_whole(lanes, out),
    }
}

/// Fills the slice with the numbers of so many chunks of eight bytes, `count` of each chunk.
pub(crate) fn unpack_by_chunks(
    bytes: &[u8],
    width: u32,
    count: usize,
    chunks: usize,
    out: &mut [u64],
)
    requires some { 1 ≤ width }
    requires divides { 8 % width ≡ 0 }
    requires count { width * count ≡ 64 }
    requires bytes { length bytes.now ≡ 8 * chunks }
    requires out { length out.old ≡ count * chunks }
    ensures { SpellsPacked 8 bytes.now width out.new }
{
    for i in 0..chunks {
        let lanes = u8x8::from_slice(&bytes[8 * i..]);
        put_numbers(lanes, width, &mut out[count * i..count * (i + 1)]);
    }
}
