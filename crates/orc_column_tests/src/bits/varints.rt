//! Tests of zigzag and of varints: the shortest, longer ones, and those that are refused.
use super::{check_same, passes};
use orc_bits::*;
use std::alloc::Global;
use std::process::Abort;

/// Numbers and their shortest varints, from the Protocol Buffers encoding.
static SHORTEST: [(u64, &[u8]); 9] = [
    (0, &[0x00]),
    (1, &[0x01]),
    (127, &[0x7f]),
    (128, &[0x80, 0x01]),
    (150, &[0x96, 0x01]),
    (300, &[0xac, 0x02]),
    (0xffff_ffff, &[0xff, 0xff, 0xff, 0xff, 0x0f]),
    (
        0x8000_0000_0000_0000,
        &[0x80, 0x80, 0x80, 0x80, 0x80, 0x80, 0x80, 0x80, 0x80, 0x01],
    ),
    (
        0xffff_ffff_ffff_ffff,
        &[0xff, 0xff, 0xff, 0xff, 0xff, 0xff, 0xff, 0xff, 0xff, 0x01],
    ),
];

/// Numbers, and what they are folded to.
static FOLDED: [(i64, u64); 6] = [
    (0, 0),
    (-1, 1),
    (1, 2),
    (-2, 3),
    (i64::MAX, u64::MAX - 1),
    (i64::MIN, u64::MAX),
];

/// Varints that are longer than the shortest, and texts that are none: what is read.
static LONG_AND_BROKEN: [(&'static [u8], Result<(u64, usize), BitFault>); 9] = [
    (&[0x80, 0x00], Ok((0, 2))),
    (&[0x81, 0x80, 0x00], Ok((1, 3))),
    (
        &[0x80, 0x80, 0x80, 0x80, 0x80, 0x80, 0x80, 0x80, 0x80, 0x00],
        Ok((0, 10)),
    ),
    (&[0x96, 0x01, 0xff], Ok((150, 2))),
    (&[], Err(BitFault::Short)),
    (
        &[0xff, 0xff, 0xff, 0xff, 0xff, 0xff, 0xff, 0xff, 0xff],
        Err(BitFault::Short),
    ),
    (
        &[0xff, 0xff, 0xff, 0xff, 0xff, 0xff, 0xff, 0xff, 0xff, 0x02],
        Err(BitFault::TooLong),
    ),
    (
        &[0x80, 0x80, 0x80, 0x80, 0x80, 0x80, 0x80, 0x80, 0x80, 0x80],
        Err(BitFault::TooLong),
    ),
    (&[0x80], Err(BitFault::Short)),
];

#[test]
fn zigzag_of_the_ends_and_the_middle(rt: HostRuntime) {
    for (number, folded) in FOLDED {
        check_same(&rt, "zigzag", &number, &zigzag(number), &folded);
        check_same(&rt, "back", &folded, &unzigzag(folded), &number);
    }
}

#[test]
fn shortest_varints_both_ways(rt: HostRuntime) {
    passes(&rt, check_shortest(&rt, rt.alloc()));
}

fn check_shortest(rt: &impl Abort, alloc: Global) -> Result<(), BitFault> {
    for (number, text) in SHORTEST {
        check_read(rt, text, Ok((number, text.len())));
        check_appended(rt, alloc, number, text)?;
    }
    Ok(())
}

/// This is read at the front of the text.
fn check_read(rt: &impl Abort, text: &[u8], answer: Result<(u64, usize), BitFault>) {
    check_same(rt, "varint", &text, &read_varint(text), &answer);
}

/// The number's varint is appended to what there is.
fn check_appended(
    rt: &impl Abort,
    alloc: Global,
    number: u64,
    text: &[u8],
) -> Result<(), BitFault> {
    let mut out = Vec::new(alloc);
    put_varint(7, &mut out)?;
    put_varint(number, &mut out)?;
    let written = out.as_slice().strip_prefix([7].as_slice());
    check_same(rt, "text", &number, &written, &Some(text));
    Ok(())
}

#[test]
fn long_and_broken_varints(rt: HostRuntime) {
    for (text, answer) in LONG_AND_BROKEN {
        check_read(&rt, text, answer);
    }
}
