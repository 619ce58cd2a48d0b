//! One stream of a column, and the positions of its values.
ghost use Rattle.std.specs.Prelude.{◌≡◌, ◌-◌, ◌≤◌, ◌++◌, [], ◌∷◌, IfOk, OnOk};
ghost use Rattle.orc_positions.specs.Position.{IsWriterPosition, HasValues};
ghost use Rattle.orc_positions.specs.RunStarts.{IsRunStart};
ghost use Rattle.orc_column_reader.specs.Numbers.{is_run};
ghost use Rattle.orc_row_index.specs.Positions.{IsPosition, writer, AddsPositions, position_size};
ghost use Rattle.orc_row_index.specs.Walking.{runs, HasPosition, BeginsBefore};

use orc_positions::{RunStart, byte_run_start_at, run_start_at};
use orc_rle::{BitPos, Pos, Rle, Sign, V1, V2};
use std::alloc::AllocError;

/// The bytes of a stream of runs, by the kind of its values.
#[derive(Clone, Copy)]
pub enum RunBytes<'a> {
    /// The column has no such stream.
    Nothing,
    /// Booleans, eight to a byte.
    Bits(&'a [u8]),
    /// Bytes.
    Bytes(&'a [u8]),
    /// Integers of a version, with or without a sign.
    Numbers(Rle, Sign, &'a [u8]),
}

impl RunBytes<'_> {
    /// Returns how many numbers a position has (ORC specification, "Row Group Index").
    pub fn position_size(&self) -> usize
        // The call returns 3 for a stream of booleans, 2 for one of bytes or integers, and 0 if there is no stream.
        ensures { result ≡ position_size (runs self.now) }
    {
        match self {
            RunBytes::Nothing => 0,
            RunBytes::Bits(_) => 3,
            RunBytes::Bytes(_) => 2,
            RunBytes::Numbers(_, _, _) => 2,
        }
    }
}

/// Returns the start of the run of number `n`, for either version.
fn number_run_start(version: Rle, sign: Sign, bytes: &[u8], from: RunStart, n: usize) -> RunStart
    requires there { HasValues (is_run version sign) bytes.now n }
    requires from { IsRunStart (is_run version sign) bytes.now from }
    requires ahead { from.before ≤ n }
    ensures place { IsWriterPosition (is_run version sign) bytes.now result.offset (n - result.before) n }
    ensures run_start { IsRunStart (is_run version sign) bytes.now result }
    ensures ahead { result.before ≤ n }
{
    match version {
        Rle::One => run_start_at::<V1>(bytes, sign, from, n),
        Rle::Two => run_start_at::<V2>(bytes, sign, from, n),
    }
}

/// Adds the two numbers of a position.
#[inline(always)]
fn put_pos(place: Pos, out: &mut Vec<u64>) -> Result<(), AllocError>
    ensures { OnOk result (out.new.items ≡ out.old.items ++ place.offset ∷ place.skip ∷ []) }
{
    out.push(place.offset as u64)?;
    out.push(place.skip as u64)?;
    Ok(())
}

/// Adds the three numbers of a boolean's position.
#[inline(always)]
fn put_bit_pos(place: BitPos, out: &mut Vec<u64>) -> Result<(), AllocError>
    ensures { OnOk result (out.new.items ≡ out.old.items ++ place.offset ∷ place.skip ∷ place.bits ∷ []) }
{
    out.push(place.offset as u64)?;
    out.push(place.skip as u64)?;
    out.push(place.bits as u64)?;
    Ok(())
}

/// Adds the position of value `n` of a stream, and returns where its run begins. The search begins at the start of a
/// run that is not after the value.
#[inline(always)]
pub(crate) fn put_position(
    stream: &RunBytes<'_>,
    from: RunStart,
    n: usize,
    out: &mut Vec<u64>,
) -> Result<RunStart, AllocError>
    requires there { HasPosition (runs stream.now) n }
    requires from { BeginsBefore (runs stream.now) from n }
    ensures place { OnOk result
        (AddsPositions (IsPosition writer (runs stream.now) n) out.old.items out.new.items) }
    ensures from { IfOk result (λ run_start. BeginsBefore (runs stream.now) run_start n) }
{
    match *stream {
        RunBytes::Nothing => Ok(from),
        RunBytes::Bits(bytes) => {
            let run_start = byte_run_start_at(bytes, from, n / 8);
            put_bit_pos(run_start.bit_position(n), out)?;
            Ok(run_start)
        }
        RunBytes::Bytes(bytes) => {
            let run_start = byte_run_start_at(bytes, from, n);
            put_pos(run_start.position(n), out)?;
            Ok(run_start)
        }
        RunBytes::Numbers(version, sign, bytes) => {
            let run_start = number_run_start(version, sign, bytes, from, n);
            put_pos(run_start.position(n), out)?;
            Ok(run_start)
        }
    }
}
