//! Tests of packed numbers: tables of bytes and what they hold, and each width there and back.
ghost use Rattle.std.specs.Prelude.{◌^◌, ◌<◌, ◌≤◌};
ghost use Rattle.orc_bits.specs.Packed.{AllFit};
ghost use Rattle.orc_bits.specs.Width.{width_at};

use super::{check_list, check_same, passes};
use orc_bits::*;
use std::alloc::Global;
use std::process::Abort;

/// The widths in the order of their codes.
static WIDTHS: [u32; 32] = [
    1, 2, 3, 4, 5, 6, 7, 8, 9, 10, 11, 12, 13, 14, 15, 16, 17, 18, 19, 20, 21, 22, 23, 24, 26, 28,
    30, 32, 40, 48, 56, 64,
];

/// Bytes, the code of their width, and the numbers that they hold.
static PACKED: [(&'static [u8], u8, &'static [u64]); 12] = [
    (&[0xa5], 0, &[1, 0, 1, 0, 0, 1, 0, 1]),
    (&[0x1b], 1, &[0, 1, 2, 3]),
    (&[0x5c, 0xa1], 3, &[5, 12, 10, 1]),
    (&[0x00, 0xff], 7, &[0, 255]),
    (
        &[0x5c, 0xa1, 0xab, 0x1e, 0xde, 0xad, 0xbe, 0xef],
        15,
        &[23713, 43806, 57005, 48879],
    ),
    (&[0xfc, 0xe8], 13, &[16186]),
    (&[0xfc, 0xeb], 13, &[16186]),
    (&[0xff, 0xc0, 0x00, 0x04], 9, &[1023, 0, 1]),
    (&[0xab, 0xcd, 0xef, 0x12, 0x30], 11, &[0xabc, 0xdef, 0x123]),
    (&[0x40, 0x00, 0x00, 0x10], 24, &[0x100_0000]),
    (
        &[0xff, 0xff, 0xff, 0xff, 0xff, 0xff, 0xff, 0xfe],
        31,
        &[u64::MAX - 1],
    ),
    (&[], 4, &[]),
];

/// Fills so many places with the numbers at the front of the bytes, if there are so many places. It has no contract, so
/// that what `unpack`'s says is no part of each caller's proof.
fn unpack_front(
    bytes: &[u8],
    width: Width,
    n: usize,
    places: &mut [u64],
) -> Option<Result<usize, BitFault>> {
    let front = places.get_mut(..n)?;
    Some(unpack(bytes, width, n, front))
}

/// The least number of bytes that holds so many numbers.
fn least_len(width: Width, n: usize) -> usize {
    n.saturating_mul(width.digits() as usize).div_ceil(8)
}

#[test]
fn widths(rt: HostRuntime) {
    for (code, digits) in WIDTHS.iter().enumerate() {
        check_code(&rt, code as u8, *digits);
    }
    assert!(rt; width_of(32).is_none(), "only 32 widths");
    assert!(rt; fixed_at_least(0).digits() == 1);
    assert!(rt; fixed_at_least(25).digits() == 26);
    assert!(rt; fixed_at_least(27).digits() == 28);
    assert!(rt; fixed_at_least(33).digits() == 40);
    assert!(rt; fixed_at_least(57).digits() == 64);
}

/// The code names the width of so many digits, which is the least one that has room for them.
fn check_code(rt: &impl Abort, code: u8, digits: u32) {
    let Some(width) = width_of(code) else {
        assert!(rt; false, "no width of {code}");
        return;
    };
    check_same(rt, "code", &code, &code_of(width), &code);
    check_same(rt, "digits", &code, &width.digits(), &digits);
    check_same(
        rt,
        "least width",
        &code,
        &fixed_at_least(width.digits()),
        &width,
    );
}

#[test]
fn unpacked(rt: HostRuntime) {
    for (bytes, code, numbers) in PACKED {
        check_unpacked(&rt, bytes, code, numbers);
    }
}

/// The bytes, and no fewer, hold these numbers.
fn check_unpacked(rt: &impl Abort, bytes: &[u8], code: u8, numbers: &[u64]) {
    let Some(width) = width_of(code) else {
        assert!(rt; false, "no width of {code}");
        return;
    };
    let mut places = [7; 8];
    let n = numbers.len();
    let used = unpack_front(bytes, width, n, &mut places);
    check_same(rt, "length", &bytes, &used, &Some(Ok(bytes.len())));
    check_same(rt, "numbers", &bytes, &places.get(..n), &Some(numbers));
}

#[test]
fn nine_in_a_byte(rt: HostRuntime) {
    let mut places = [7; 9];
    let answer = unpack_front(&[0xa5], fixed_at_least(1), 9, &mut places);
    check_same(&rt, "answer", &9, &answer, &Some(Err(BitFault::Short)));
    check_list(&rt, "places", &9, &places, &[7; 9]);
}

/// Bytes of a fixed seed.
fn noise() -> [u8; 600] {
    let mut bytes = [0; 600];
    let mut state = 20_240_229u32;
    for place in bytes.iter_mut() {
        state = state.wrapping_mul(1_664_525).wrapping_add(1_013_904_223);
        *place = (state >> 24) as u8;
    }
    bytes
}

/// The widths that divide 8, with 0 to 600 numbers.
#[test]
fn chunks_and_bytes(rt: HostRuntime) {
    let bytes = noise();
    for code in [0, 1, 3, 7] {
        if let Some(width) = width_of(code) {
            for n in 0..601 {
                check_one_by_one(&rt, &bytes, width, n);
            }
        }
    }
}

/// The number of so many digits that stands behind the first ones, read a digit after the other, the highest first.
fn number_behind(bytes: &[u8; 600], first: usize, digits: usize) -> u64 {
    let mut number = 0;
    for place in first..first.saturating_add(digits) {
        let byte = bytes.get(place / 8).copied().unwrap_or(0);
        number = (number << 1) | u64::from((byte >> (7 - place % 8)) & 1);
    }
    number
}

fn fill_one_by_one(places: &mut [u64], bytes: &[u8; 600], digits: usize) {
    for (i, place) in places.iter_mut().enumerate() {
        *place = number_behind(bytes, i.saturating_mul(digits), digits);
    }
}

/// What is unpacked by chunks and bytes is what is read digit by digit, and nothing is written behind it.
fn check_one_by_one(rt: &impl Abort, bytes: &[u8; 600], width: Width, n: usize) {
    let mut places = [7; 600];
    let used = unpack_front(bytes, width, n, &mut places);
    check_same(rt, "length", &n, &used, &Some(Ok(least_len(width, n))));
    let mut one_by_one = [7; 600];
    if let Some(front) = one_by_one.get_mut(..n) {
        fill_one_by_one(front, bytes, width.digits() as usize);
    }
    check_list(rt, "numbers", &(n, width), &places, &one_by_one);
}

/// The highest digit alone, the lowest alone or all digits of a width, in turn.
fn with_ends(i: usize, width: u32) -> u64
    requires some { 1 ≤ width }
    requires most { width ≤ 64 }
    ensures { result < 2 ^ width }
{
    let highest = 1 << (width - 1);
    match i % 3 {
        0 => highest,
        1 => 1,
        _ => highest - 1 + highest,
    }
}

fn fill(places: &mut [u64], width: u32)
    requires some { 1 ≤ width }
    requires most { width ≤ 64 }
    ensures { AllFit width places.new }
{
    for (i, place) in places.iter_mut().enumerate() {
        *place = with_ends(i, width);
    }
}

#[test]
fn packed_and_unpacked(rt: HostRuntime) {
    passes(&rt, check_widths(&rt, rt.alloc()));
}

/// Each width, with 0 to 66 numbers.
fn check_widths(rt: &impl Abort, alloc: Global) -> Result<(), BitFault> {
    for code in 0..32 {
        if let Some(width) = width_of(code) {
            check_width(rt, alloc, width)?;
        }
    }
    Ok(())
}

fn check_width(rt: &impl Abort, alloc: Global, width: Width) -> Result<(), BitFault> {
    let mut numbers = [0; 66];
    fill(&mut numbers, width.digits());
    for n in 0..67 {
        check_packed(rt, alloc, width, &numbers[..n])?;
    }
    Ok(())
}

/// The numbers are packed behind what there is.
fn check_packed(
    rt: &impl Abort,
    alloc: Global,
    width: Width,
    numbers: &[u64],
) -> Result<(), BitFault>
    requires { AllFit (width_at width.code) numbers.now }
{
    let mut out = Vec::new(alloc);
    put_varint(7, &mut out)?;
    pack(numbers, width, &mut out)?;
    check_bytes(rt, width, numbers, &out);
    Ok(())
}

/// Behind the 7 the numbers take the least number of bytes, and are given back. One byte fewer is too few.
fn check_bytes(rt: &impl Abort, width: Width, numbers: &[u64], out: &[u8]) {
    let [7, bytes @ ..] = out else {
        assert!(rt; false, "what there was is gone");
        return;
    };
    let least = least_len(width, numbers.len());
    check_same(rt, "length", &width, &bytes.len(), &least);
    check_given_back(rt, width, numbers, bytes);
    if let Some((_, fewer)) = bytes.split_last() {
        check_too_few(rt, width, numbers.len(), fewer);
    }
}

fn check_given_back(rt: &impl Abort, width: Width, numbers: &[u64], bytes: &[u8]) {
    let mut places = [7; 66];
    let n = numbers.len();
    let used = unpack_front(bytes, width, n, &mut places);
    check_same(rt, "length", &width, &used, &Some(Ok(bytes.len())));
    check_same(rt, "numbers", &width, &places.get(..n), &Some(numbers));
}

/// Of too few bytes nothing is written.
fn check_too_few(rt: &impl Abort, width: Width, n: usize, fewer: &[u8]) {
    let mut places = [7; 66];
    let answer = unpack_front(fewer, width, n, &mut places);
    check_same(rt, "answer", &width, &answer, &Some(Err(BitFault::Short)));
    check_list(rt, "places", &width, &places, &[7; 66]);
}
