//! A writer's positions that are sought by what they cost, and streams without places. Which they are, what comes from
//! them, and that the places of the runs have them is in the vectors.
ghost use Rattle.std.specs.Prelude.{ℕ, ℤ, List};
ghost use Rattle.orc_rle.specs.declared.sign.Sign.{Sign};
ghost use Rattle.orc_rle.specs.ByteRun.{IsByteRun};
ghost use Rattle.orc_rle.specs.Stream.{IsStream};
ghost use Rattle.orc_positions.specs.RunStarts.{start_of_stream, IsRunStart};
ghost use Rattle.orc_positions.specs.Position.{HasValues};

use super::{demand, passes};
use Sign::{Signed, Unsigned};
use orc_positions::*;
use orc_rle::*;
use std::alloc::Global;
use std::process::Abort;

/// That the first value of a stream begins at its start: one of the laws alone, since a proof goes through all that the
/// calls before it promise.
fn start_law<C: RunCodec>()
    ensures { (sign : Sign) (bytes : List ℕ) (all : List ℤ)
        → IsStream (C.is_run sign) bytes all → IsRunStart (C.is_run sign) bytes start_of_stream }
{
    seek_laws::<C>();
}

/// The writer's position of a value, which is sought.
fn sought_place<C: RunCodec>(bytes: &[u8], sign: Sign, n: usize) -> Result<Pos, RunFault>
    requires there { HasValues (C.is_run sign) bytes.now n }
    requires start { IsRunStart (C.is_run sign) bytes.now start_of_stream }
{
    let pos = run_start_at::<C>(bytes, sign, RunStart::start(), n).position(n);
    let mut run = Run::new();
    seek_position::<C>(bytes, sign, pos, &mut run)?;
    Ok(pos)
}

/// The writer's position of a value, where there are that many.
fn place_of<C: RunCodec>(
    alloc: Global,
    bytes: &[u8],
    sign: Sign,
    n: usize,
) -> Result<Pos, RunFault> {
    start_law::<C>();
    let values = C::decode_all(alloc, bytes, sign)?;
    if n > values.len() {
        return Err(RunFault::TooFew(n));
    }
    sought_place::<C>(bytes, sign, n)
}

/// That the first byte of a stream begins at its start.
fn byte_start_law()
    ensures { (bytes : List ℕ) (all : List ℕ)
        → IsStream IsByteRun bytes all → IsRunStart IsByteRun bytes start_of_stream }
{
    byte_seek_laws();
}

/// The writer's position of a byte, which is sought.
fn sought_byte(bytes: &[u8], n: usize) -> Result<Pos, RunFault>
    requires there { HasValues IsByteRun bytes.now n }
    requires start { IsRunStart IsByteRun bytes.now start_of_stream }
{
    let pos = byte_run_start_at(bytes, RunStart::start(), n).position(n);
    let mut run = RunU8::new();
    byte_seek_position(bytes, pos, &mut run)?;
    Ok(pos)
}

/// The writer's position of a byte, where there are that many.
fn byte_place_of(alloc: Global, bytes: &[u8], total: usize, n: usize) -> Result<Pos, RunFault> {
    byte_start_law();
    let values = ByteRuns::decode(alloc, bytes, total)?;
    if n > values.len() {
        return Err(RunFault::TooFew(n));
    }
    sought_byte(bytes, n)
}

/// The writer's position of a boolean, where there are that many.
fn bit_place_of(alloc: Global, bytes: &[u8], total: usize, n: usize) -> Result<BitPos, RunFault> {
    byte_start_law();
    // for its contract alone: a position of a boolean names that boolean, and those behind it go on from there
    bit_seek_laws();
    let values = BitRuns::decode(alloc, bytes, total)?;
    if n > values.len() {
        return Err(RunFault::TooFew(n));
    }
    let pos = byte_run_start_at(bytes, RunStart::start(), n / 8).bit_position(n);
    let mut run = RunU8::new();
    bit_seek_position(bytes, pos, &mut run)?;
    Ok(pos)
}

fn check_places(rt: &impl Abort, alloc: Global) -> Result<(), RunFault> {
    let pos = place_of::<V1>(alloc, &[0x00, 1, 1, 0xfe, 3, 3], Unsigned, 4)?;
    demand(
        rt,
        (pos.offset, pos.skip) == (3, 1),
        "the position of value",
        4,
    );
    let pos = place_of::<V2>(alloc, &[0x0a, 0x27, 0x10, 0x00, 0x07], Unsigned, 6)?;
    demand(
        rt,
        (pos.offset, pos.skip) == (3, 1),
        "the position of value",
        6,
    );
    let pos = byte_place_of(alloc, &[0xff, 1, 0x00, 2, 0xff, 3], 5, 3)?;
    demand(
        rt,
        (pos.offset, pos.skip) == (2, 2),
        "the position of byte",
        3,
    );
    let pos = bit_place_of(alloc, &[0xfe, 0xef, 0x80], 9, 8)?;
    let found = (pos.offset, pos.skip, pos.bits);
    demand(rt, found == (0, 1, 0), "the position of boolean", 8);
    Ok(())
}

#[test]
fn places_are_sought(rt: HostRuntime) {
    passes(&rt, check_places(&rt, rt.alloc()));
}

/// Whether there are no places, for this fault. Want of memory is handed on.
fn has_none(places: Result<RunTable, RunFault>, fault: RunFault) -> Result<bool, RunFault> {
    match places {
        Ok(_) => Ok(false),
        Err(RunFault::OutOfMemory) => Err(RunFault::OutOfMemory),
        Err(found) => Ok(found == fault),
    }
}

/// Streams whose last run ends too soon have no places.
fn check_short(rt: &impl Abort, alloc: Global) -> Result<(), RunFault> {
    let short = run_table::<V1>(alloc, &[0x00, 0x00, 0x02, 0xff], Signed);
    demand(
        rt,
        has_none(short, RunFault::Short(3))?,
        "no places behind",
        3,
    );
    let short = byte_table(alloc, &[0x61, 0x00, 0x00]);
    demand(
        rt,
        has_none(short, RunFault::Short(2))?,
        "no places behind",
        2,
    );
    Ok(())
}

#[test]
fn short_streams(rt: HostRuntime) {
    passes(&rt, check_short(&rt, rt.alloc()));
}
