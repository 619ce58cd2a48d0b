//! Positions that are refused, each with the offset that a run's fault names.
use crate::assertions::demand;
use orc_column_reader::{Bits, Numbers, RunLengthBytes};
use orc_group_reader::{bits_at, bytes_at, numbers_at};
use orc_rle::{BitPos, Pos, Rle, RunFault, Sign};

// The calls have no contract here: what the called ones promise is long, and would be a part of each caller's proof.

/// The numbers of a stream of version 1 with a sign, from a position on.
fn numbers_from(bytes: &[u8], offset: usize, skip: usize) -> Result<Numbers<'_>, RunFault> {
    numbers_at(Rle::One, Sign::Signed, bytes, Pos { offset, skip })
}

/// The position is refused with this fault.
fn is_refused(bytes: &[u8], offset: usize, skip: usize, wanted: RunFault) -> bool {
    match numbers_from(bytes, offset, skip) {
        Ok(_) => false,
        Err(fault) => fault == wanted,
    }
}

/// Four times 1, then 5, 6, 7, then three times 255.
static OCTETS: [u8; 8] = [0x01, 0x01, 0xfd, 0x05, 0x06, 0x07, 0x00, 0xff];

/// The bytes of that stream from a position on.
fn bytes_from<'a>(offset: usize, skip: usize) -> Result<RunLengthBytes<'a>, RunFault> {
    bytes_at(&OCTETS, Pos { offset, skip })
}

/// The position is refused.
fn bytes_end(offset: usize, skip: usize) -> bool {
    match bytes_from(offset, skip) {
        Ok(_) => false,
        Err(fault) => fault == RunFault::BadPosition(offset),
    }
}

/// 1001 0010 and 0100 1001.
static DIGITS: [u8; 3] = [0xfe, 0x92, 0x49];

/// The booleans of that stream from a position on.
fn bits_from<'a>(offset: usize, skip: usize, bits: usize) -> Result<Bits<'a>, RunFault> {
    bits_at(&DIGITS, BitPos { offset, skip, bits })
}

/// The position is refused.
fn bits_end(offset: usize, skip: usize, bits: usize) -> bool {
    match bits_from(offset, skip, bits) {
        Ok(_) => false,
        Err(fault) => fault == RunFault::BadPosition(offset),
    }
}

/// Three times 7, and a byte that is no run.
static SEVENS: [u8; 4] = [0x00, 0x00, 0x0e, 0x00];

#[test]
fn positions_refused(rt: HostRuntime) {
    let ended = is_refused(&SEVENS, 5, 0, RunFault::BadPosition(5));
    demand(&rt, ended, "past the end of numbers");
    let few = is_refused(&SEVENS[..3], 0, 4, RunFault::BadPosition(0));
    demand(&rt, few, "more numbers than there are");
    let cut = is_refused(&SEVENS, 0, 4, RunFault::Short(3));
    demand(&rt, cut, "bytes that are no run on the way");
    demand(&rt, bytes_end(9, 0), "past the end of bytes");
    demand(&rt, bits_end(0, 0, 9), "nine booleans of a byte");
    demand(&rt, bits_end(0, 2, 1), "a boolean of no byte");
    demand(&rt, bits_end(3, 0, 1), "a boolean at the end");
}
