//! Positions that are sought: what is left of the run decoded last, and nothing where a position is refused. Which
//! positions are found and which are refused is in the vectors.
use RunFault::{BadPosition, Short};
use Sign::{Signed, Unsigned};
use orc_rle::*;

/// Whether seeking answers so, and leaves so much of the last run.
fn ints_are_left<C: RunCodec>(
    bytes: &[u8],
    sign: Sign,
    pos: Pos,
    wanted: Result<usize, RunFault>,
    left: &[i64],
) -> bool {
    let mut run = Run::new();
    C::seek(bytes, sign, pos, &mut run) == wanted && run.values() == left
}

/// Runs that stand for 1 2 3 4 5 6, and for 0 0 0 2 2 2.
const EVEN: &'static [u8] = &[0x03, 0x01, 0x02];

const TWICE: &'static [u8] = &[0x00, 0x00, 0x02, 0x00, 0x00, 0x04];

/// Streams of signed integers in version 1, an offset, how many values are passed, what is answered, and what is left.
static SOUGHT: [(
    &'static [u8],
    usize,
    usize,
    Result<usize, RunFault>,
    &'static [i64],
); 6] = [
    (EVEN, 0, 2, Ok(3), &[3, 4, 5, 6]),
    (EVEN, 0, 6, Ok(3), &[]),
    (EVEN, 0, 7, Err(BadPosition(0)), &[]),
    (EVEN, 3, 0, Ok(3), &[]),
    (EVEN, 4, 0, Err(BadPosition(4)), &[]),
    (TWICE, 0, 4, Ok(6), &[2, 2]),
];

#[test]
fn rows_of_the_table(rt: HostRuntime) {
    for (bytes, offset, skip, wanted, left) in &SOUGHT {
        let pos = Pos {
            offset: *offset,
            skip: *skip,
        };
        assert!(&rt; ints_are_left::<V1>(bytes, Signed, pos, *wanted, left));
    }
}

/// A position at the start.
fn passing(skip: usize) -> Pos {
    Pos { offset: 0, skip }
}

#[test]
fn integers_are_sought(rt: HostRuntime) {
    assert!(rt; ints_are_left::<V1>(TWICE, Signed, passing(7), Err(BadPosition(0)), &[]));
    assert!(rt; ints_are_left::<V1>(&TWICE[..4], Signed, passing(4), Err(Short(3)), &[]));
    let repeated = [0x0a, 0x27, 0x10];
    assert!(rt; ints_are_left::<V2>(&repeated, Unsigned, passing(6), Err(BadPosition(0)), &[]));
}

/// The same of runs of bytes.
fn bytes_are_left(bytes: &[u8], pos: Pos, wanted: Result<usize, RunFault>, left: &[u8]) -> bool {
    let mut run = RunU8::new();
    ByteRuns::seek(bytes, pos, &mut run) == wanted && run.values() == left
}

#[test]
fn bytes_are_sought(rt: HostRuntime) {
    let bytes = [0x00, 0x09, 0xfe, 0x44, 0x45];
    assert!(rt; bytes_are_left(&bytes, passing(4), Ok(5), &[0x45]));
    assert!(rt; bytes_are_left(&bytes, passing(6), Err(BadPosition(0)), &[]));
    assert!(rt; bytes_are_left(&bytes[..3], passing(4), Err(Short(2)), &[]));
}

/// The same of booleans.
fn bits_are_left(bytes: &[u8], pos: BitPos, wanted: Result<usize, RunFault>, left: &[u8]) -> bool {
    let mut run = RunU8::new();
    BitRuns::seek(bytes, pos, &mut run) == wanted && run.values() == left
}

/// A position at the start, with a digit passed of the byte behind so many.
fn passing_one(skip: usize) -> BitPos {
    BitPos {
        offset: 0,
        skip,
        bits: 1,
    }
}

#[test]
fn booleans_are_sought(rt: HostRuntime) {
    let bytes = [0xff, 0xef, 0xff, 0x80];
    assert!(rt; bits_are_left(&bytes, passing_one(1), Ok(4), &[0x80]));
    assert!(rt; bits_are_left(&bytes, passing_one(2), Err(BadPosition(0)), &[]));
    assert!(rt; bits_are_left(&bytes[..3], passing_one(1), Err(Short(2)), &[]));
}
