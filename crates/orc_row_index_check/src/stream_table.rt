//! The table of one stream's runs, in which positions are looked up.
ghost use Rattle.std.specs.Prelude.{◌≡◌, ◌<◌, ◌^◌, ◌⊎◌, ℕ, ℤ, List, length, IfOk, IfErr, MatchBool};
ghost use Rattle.orc_rle.specs.Stream.{IsStream, StopsWithin};
ghost use Rattle.orc_rle.specs.declared.fault.RunFault.TheVariants.{OutOfMemory};
ghost use Rattle.orc_positions.specs.RunTable.{ArePlaces, Names, NamesBit};
ghost use Rattle.orc_column_reader.specs.Numbers.{is_run};
ghost use Rattle.orc_column_reader.specs.RunFaults.{no_run};
ghost use Rattle.orc_row_index.specs.Positions.{RunPosition, BitsPosition};
ghost use Rattle.orc_row_index.specs.RunStreams.{RunStream};
ghost use Rattle.orc_row_index.specs.Walking.{runs};
ghost use Rattle.orc_row_groups.specs.Counts.{most};
ghost use Rattle.orc_row_index.specs.Positions.{position_size};
ghost use Rattle.orc_row_index_check.specs.Tables.{IsTable, IsFew, TableRunsFail, TablePosition};

use orc_positions::{RunTable, byte_table, run_table};
use orc_rle::{Rle, RunFault, Sign, V1, V2};
use orc_row_index::RunBytes;
use std::alloc::Global;

/// Where the runs of a stream begin, by the kind of its values.
#[derive(Drop)]
pub(crate) enum StreamTable {
    /// The column has no such stream.
    Nothing,
    /// Booleans, eight to a byte.
    Bits(RunTable),
    /// Bytes or integers.
    Runs(RunTable),
}

/// Builds the table of a stream of integers, for either version.
fn number_places(
    alloc: Global,
    version: Rle,
    sign: Sign,
    bytes: &[u8],
) -> Result<RunTable, RunFault>
    ensures found { IfOk result (ArePlaces (is_run version sign) bytes.now) }
    ensures only { (values : List ℤ) → IsStream (is_run version sign) bytes.now values → length values < 2 ^ 64
        → IfErr result (λ fault. fault ≡ OutOfMemory) }
    ensures fault { IfErr result (λ fault. (fault ≡ OutOfMemory)
        ⊎ StopsWithin (is_run version sign) (no_run version sign) most bytes.now fault) }
{
    match version {
        Rle::One => run_table::<V1>(alloc, bytes, sign),
        Rle::Two => run_table::<V2>(alloc, bytes, sign),
    }
}

/// Builds the table of a stream, by one walk over it.
///
/// # Errors
///
/// - The error of the first invalid run from the left, with that run's offset.
/// - `TooMany` with a run's offset, if that run goes past 2^64 - 1 values.
/// - `OutOfMemory`.
pub(crate) fn table_of(alloc: Global, stream: &RunBytes<'_>) -> Result<StreamTable, RunFault>
    ensures found { IfOk result (IsTable (runs stream.now)) }
    ensures only { IsFew (runs stream.now) → IfErr result (λ fault. fault ≡ OutOfMemory) }
    ensures fault { IfErr result (λ fault. (fault ≡ OutOfMemory) ⊎ TableRunsFail (runs stream.now) fault) }
{
    match *stream {
        RunBytes::Nothing => Ok(StreamTable::Nothing),
        RunBytes::Bits(bytes) => Ok(StreamTable::Bits(byte_table(alloc, bytes)?)),
        RunBytes::Bytes(bytes) => Ok(StreamTable::Runs(byte_table(alloc, bytes)?)),
        RunBytes::Numbers(version, sign, bytes) => {
            Ok(StreamTable::Runs(number_places(alloc, version, sign, bytes)?))
        }
    }
}

/// Returns whether these numbers are an offset and how many values are skipped from there, and name value `n`.
fn run_right(places: &RunTable, positions: &[u64], n: u64) -> bool
    ensures { MatchBool result
        (RunPosition (Names places.now) n positions.now)
        (RunPosition (Names places.now) n positions.now → ⊥) }
{
    match positions {
        [offset, skip] => places.begins(*offset, *skip, n),
        _ => false,
    }
}

/// Returns whether these numbers are an offset, how many bytes are skipped from there and then how many booleans, and
/// name boolean `n`.
fn bits_right(places: &RunTable, positions: &[u64], n: u64) -> bool
    ensures { MatchBool result
        (BitsPosition (NamesBit places.now) n positions.now)
        (BitsPosition (NamesBit places.now) n positions.now → ⊥) }
{
    match positions {
        [offset, skip, bits] => places.begins_bit(*offset, *skip, *bits, n),
        _ => false,
    }
}

impl StreamTable {
    /// Returns how many numbers a position of the stream has.
    pub(crate) fn size(&self) -> usize
        ensures { (stream : RunStream) → IsTable stream self.now → result ≡ position_size stream }
    {
        match self {
            StreamTable::Nothing => 0,
            StreamTable::Bits(_) => 3,
            StreamTable::Runs(_) => 2,
        }
    }

    /// Returns whether the position names value `n`.
    pub(crate) fn right(&self, positions: &[u64], n: u64) -> bool
        ensures { MatchBool result (TablePosition self.now n positions.now)
            (TablePosition self.now n positions.now → ⊥) }
    {
        match self {
            StreamTable::Nothing => match positions {
                [] => true,
                _ => false,
            },
            StreamTable::Bits(places) => bits_right(places, positions, n),
            StreamTable::Runs(places) => run_right(places, positions, n),
        }
    }
}
