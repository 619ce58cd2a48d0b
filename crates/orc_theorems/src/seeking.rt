//! Goes to the positions of a row index entry in a column's streams.
ghost use Rattle.std.specs.Prelude.{◌≡◌, ◌∷◌, ◌++◌, ℕ, ℤ, List, [], Ok, length, drop, IfSome, IsSome, MatchResult};
ghost use Rattle.orc_values.specs.Cells.{Cell};
ghost use Rattle.orc_values.specs.Shapes.{Shape};
ghost use Rattle.orc_rle.specs.Stream.{IsStream, RunsLeft};
ghost use Rattle.orc_positions.specs.Position.{Begins};
ghost use Rattle.orc_column_reader.specs.Numbers.{is_run};
ghost use Rattle.orc_column_reader.specs.Stripe.{Streams};
ghost use Rattle.orc_row_index.specs.Positions.{octets_position};
ghost use Rattle.orc_row_index.specs.RunStreams.{bit_runs, byte_runs, number_runs};
ghost use Rattle.orc_row_index.specs.Walking.{runs, lent_bytes, ArePlaced};
ghost use Rattle.orc_theorems.specs.OneRunPositions.{SeekCounts, IsOneRunPosition, AreOneRunPositions};
ghost use Rattle.orc_theorems.specs.SoughtGroups.{IsSought, IsColumnSought};

use orc_positions::{bit_seek_laws, byte_seek_laws, seek_laws};
use orc_rle::{BitPos, BitRuns, ByteRuns, Pos, Rle, Run, RunCodec, RunFault, RunU8, Sign, V1, V2};
use orc_row_index::{PlacedStreams, RunBytes};

/// What a position of a stream leads to: the rest of the run that was decoded last, if one was.
#[derive(Drop)]
pub enum Sought {
    /// The column has no such stream.
    Nothing,
    /// A run of bytes. In a stream of booleans each byte has eight of them.
    Bytes(RunU8),
    /// A run of integers.
    Numbers(Run),
}

/// What a column's positions lead to: in its PRESENT stream, and in its other stream of runs.
#[derive(Drop)]
pub struct ColumnSought {
    pub present: Sought,
    pub own: Sought,
}

/// Returns the position in a stream of bytes or integers that two numbers give, and `None` for any other count of
/// numbers.
fn pos_of(positions: &[u64]) -> Option<Pos>
    ensures found { IfSome result (λ pos. positions.now ≡ pos.offset ∷ pos.skip ∷ []) }
    ensures some { length positions.now ≡ 2 → IsSome result }
{
    match positions {
        [offset, skip] => Some(Pos {
            offset: *offset as usize,
            skip: *skip as usize,
        }),
        _ => None,
    }
}

/// Returns the position in a stream of booleans that three numbers give, and `None` for any other count of numbers.
fn bit_pos_of(positions: &[u64]) -> Option<BitPos>
    ensures found { IfSome result (λ pos. positions.now ≡ pos.offset ∷ pos.skip ∷ pos.bits ∷ []) }
    ensures some { length positions.now ≡ 3 → IsSome result }
{
    match positions {
        [offset, skip, bits] => Some(BitPos {
            offset: *offset as usize,
            skip: *skip as usize,
            bits: *bits as usize,
        }),
        _ => None,
    }
}

/// Goes to a position in a stream of integers of either version.
fn seek_version(
    version: Rle,
    sign: Sign,
    bytes: &[u8],
    pos: Pos,
    run: &mut Run,
) -> Result<usize, RunFault>
    ensures counts { SeekCounts (is_run version sign) bytes.now pos.offset pos.skip run.old.count run.new.count }
    ensures leads { (n : ℕ) (all : List ℤ)
        → Begins (is_run version sign) bytes.now pos.offset pos.skip n
        → IsStream (is_run version sign) bytes.now all
        → (at : ℕ) × (result ≡ Ok at)
        × RunsLeft (is_run version sign) run.new.values (drop at bytes.now) (drop n all) }
{
    // each for its contract alone: a position that names a value can be sought, and then come the values from this one on
    seek_laws::<V1>();
    seek_laws::<V2>();
    match version {
        Rle::One => V1::seek(bytes, sign, pos, run),
        Rle::Two => V2::seek(bytes, sign, pos, run),
    }
}

/// Goes to a position in a stream of integers.
fn seek_numbers(
    version: Rle,
    sign: Sign,
    bytes: &[u8],
    positions: &[u64],
) -> Result<Sought, RunFault>
    ensures { (n : ℕ) → IsOneRunPosition (number_runs version sign bytes.now) n positions.now
        → MatchResult result (IsSought (number_runs version sign bytes.now) n) (λ _. ⊥) }
{
    let Some(pos) = pos_of(positions) else {
        return Err(RunFault::BadPosition(0));
    };
    let mut run = Run::new();
    match seek_version(version, sign, bytes, pos, &mut run) {
        Ok(_) => Ok(Sought::Numbers(run)),
        Err(fault) => Err(fault),
    }
}

/// Goes to a position in a stream of bytes.
fn seek_bytes(bytes: &[u8], positions: &[u64]) -> Result<Sought, RunFault>
    ensures { (n : ℕ) → IsOneRunPosition (byte_runs bytes.now) n positions.now
        → MatchResult result (IsSought (byte_runs bytes.now) n) (λ _. ⊥) }
{
    // for its contract alone: a position that names a byte can be sought, and then come the bytes from this one on
    byte_seek_laws();
    let Some(pos) = pos_of(positions) else {
        return Err(RunFault::BadPosition(0));
    };
    let mut run = RunU8::new();
    match ByteRuns::seek(bytes, pos, &mut run) {
        Ok(_) => Ok(Sought::Bytes(run)),
        Err(fault) => Err(fault),
    }
}

/// Goes to a position in a stream of booleans.
fn seek_bits(bytes: &[u8], positions: &[u64]) -> Result<Sought, RunFault>
    ensures { (n : ℕ) → IsOneRunPosition (bit_runs bytes.now) n positions.now
        → MatchResult result (IsSought (bit_runs bytes.now) n) (λ _. ⊥) }
{
    // for its contract alone: a position that names a boolean can be sought, and then come those from this one on
    bit_seek_laws();
    let Some(pos) = bit_pos_of(positions) else {
        return Err(RunFault::BadPosition(0));
    };
    let mut run = RunU8::new();
    match BitRuns::seek(bytes, pos, &mut run) {
        Ok(_) => Ok(Sought::Bytes(run)),
        Err(fault) => Err(fault),
    }
}

/// Goes to a position in a stream of integers, bytes or booleans.
fn seek_stream(stream: &RunBytes<'_>, positions: &[u64]) -> Result<Sought, RunFault>
    ensures { (n : ℕ) → IsOneRunPosition (runs stream.now) n positions.now
        → MatchResult result (IsSought (runs stream.now) n) (λ _. ⊥) }
{
    match *stream {
        RunBytes::Nothing => Ok(Sought::Nothing),
        RunBytes::Bits(bytes) => seek_bits(bytes, positions),
        RunBytes::Bytes(bytes) => seek_bytes(bytes, positions),
        RunBytes::Numbers(version, sign, bytes) => seek_numbers(version, sign, bytes, positions),
    }
}

/// Returns the positions after that of the column's stream of plain bytes, if it has one, and all positions
/// otherwise.
fn behind_octets<'p>(content: Option<&[u8]>, positions: &'p [u64]) -> &'p [u64]
    ensures { (n : ℕ) (last : List ℕ) → positions.now ≡ octets_position (lent_bytes content.entry) n ++ last
        → result.now ≡ last }
{
    match content {
        Some(_) => match positions {
            [_, last @ ..] => last,
            [] => positions,
        },
        None => positions,
    }
}

/// Goes to the positions of a row index entry in each of a column's streams of runs.
///
/// # Errors
///
/// Fails with `BadPosition` if the numbers aren't positions of these streams, or if `seek` fails.
pub(crate) fn seek_places(
    placed: &PlacedStreams<'_>,
    positions: &[u64],
) -> Result<ColumnSought, RunFault>
    ensures { (s : Shape) (x : Streams) (before : List Cell) → ArePlaced s x placed.now
        → AreOneRunPositions s x before positions.now
        → MatchResult result (IsColumnSought s x before) (λ _. ⊥) }
{
    let size = placed.present.position_size();
    if positions.len() < size {
        return Err(RunFault::BadPosition(0));
    }
    let (first, last) = positions.split_at(size);
    let present = seek_stream(&placed.present, first)?;
    let own = seek_stream(&placed.own, behind_octets(placed.content, last))?;
    Ok(ColumnSought { present, own })
}
