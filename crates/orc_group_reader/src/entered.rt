//! A column's streams of runs from a position on, for every kind of run.
ghost use Rattle.std.specs.Prelude.{◌≡◌, ◌∷◌, ℕ, [], IfSome, IfNone, IfOk, IfErr, MatchResult};
ghost use Rattle.orc_row_index.specs.RunStreams.{bit_runs, byte_runs, number_runs};
ghost use Rattle.orc_row_index.specs.Walking.{runs};
ghost use Rattle.orc_group_reader.specs.ReadersAt.{StreamAt};
ghost use Rattle.orc_group_reader.specs.Refusals.{EnteredStreamFails};
ghost use Rattle.orc_group_reader.specs.Streams.{Enters, NeverEnters};
ghost use Rattle.orc_group_reader.specs.declared.entered.Entered.TheVariants as entered;

use crate::bits::bits_at;
use crate::bytes::bytes_at;
use crate::numbers::numbers_at;
use orc_column_reader::{Bits, Numbers, RunLengthBytes};
use orc_rle::{BitPos, Pos, Rle, RunFault, Sign};
use orc_row_index::RunBytes;

/// A stream of runs from a position on.
#[derive(Drop)]
pub(crate) enum Entered<'a> {
    /// The column has no such stream.
    Nothing,
    /// Booleans.
    Bits(Bits<'a>),
    /// Bytes.
    Bytes(RunLengthBytes<'a>),
    /// Integers.
    Numbers(Numbers<'a>),
}

/// Returns a position in bytes or integers, if the numbers are one.
fn pos_of(positions: &[u64]) -> Option<Pos>
    ensures found { IfSome result (λ pos. positions.now ≡ pos.offset ∷ pos.skip ∷ []) }
    ensures none { IfNone result ((offset skip : ℕ) → positions.now ≡ offset ∷ skip ∷ [] → ⊥) }
{
    match positions {
        [offset, skip] => Some(Pos {
            offset: *offset as usize,
            skip: *skip as usize,
        }),
        _ => None,
    }
}

/// Returns a position in booleans, if the numbers are one.
fn bit_pos_of(positions: &[u64]) -> Option<BitPos>
    ensures found { IfSome result (λ pos. positions.now ≡ pos.offset ∷ pos.skip ∷ pos.bits ∷ []) }
    ensures none { IfNone result ((offset skip bits : ℕ) → positions.now ≡ offset ∷ skip ∷ bits ∷ [] → ⊥) }
{
    match positions {
        [offset, skip, bits] => Some(BitPos {
            offset: *offset as usize,
            skip: *skip as usize,
            bits: *bits as usize,
        }),
        _ => None,
    }
}

/// Returns a reader of integers from a position on, if the numbers are one.
fn numbers_from<'a>(
    version: Rle,
    sign: Sign,
    bytes: &'a [u8],
    positions: &[u64],
) -> Result<Entered<'a>, RunFault>
    ensures enters { MatchResult result
        (Enters (number_runs version sign bytes.now) positions.now)
        (λ _. NeverEnters (number_runs version sign bytes.now) positions.now) }
    ensures at { IfOk result (StreamAt (number_runs version sign bytes.now) positions.now) }
    ensures fault { IfErr result (EnteredStreamFails (number_runs version sign bytes.now) positions.now) }
{
    let Some(pos) = pos_of(positions) else {
        return Err(RunFault::BadPosition(0));
    };
    match numbers_at(version, sign, bytes, pos) {
        Ok(numbers) => Ok(Entered::Numbers(numbers)),
        Err(fault) => Err(fault),
    }
}

/// Returns a reader of bytes from a position on, if the numbers are one.
fn bytes_from<'a>(bytes: &'a [u8], positions: &[u64]) -> Result<Entered<'a>, RunFault>
    ensures enters { MatchResult result
        (Enters (byte_runs bytes.now) positions.now)
        (λ _. NeverEnters (byte_runs bytes.now) positions.now) }
    ensures at { IfOk result (StreamAt (byte_runs bytes.now) positions.now) }
    ensures fault { IfErr result (EnteredStreamFails (byte_runs bytes.now) positions.now) }
{
    let Some(pos) = pos_of(positions) else {
        return Err(RunFault::BadPosition(0));
    };
    match bytes_at(bytes, pos) {
        Ok(found) => Ok(Entered::Bytes(found)),
        Err(fault) => Err(fault),
    }
}

/// Returns a reader of booleans from a position on, if the numbers are one.
pub(crate) fn bits_from<'a>(bytes: &'a [u8], positions: &[u64]) -> Result<Bits<'a>, RunFault>
    ensures enters { MatchResult result
        (λ bits. Enters (bit_runs bytes.now) positions.now (entered.Bits bits))
        (λ _. NeverEnters (bit_runs bytes.now) positions.now) }
    ensures at { IfOk result (λ bits. StreamAt (bit_runs bytes.now) positions.now (entered.Bits bits)) }
    ensures fault { IfErr result (EnteredStreamFails (bit_runs bytes.now) positions.now) }
{
    let Some(pos) = bit_pos_of(positions) else {
        return Err(RunFault::BadPosition(0));
    };
    match bits_at(bytes, pos) {
        Ok(found) => Ok(found),
        Err(fault) => Err(fault),
    }
}

/// Returns a reader of a stream of runs from its positions on.
pub(crate) fn enter<'a>(stream: &RunBytes<'a>, positions: &[u64]) -> Result<Entered<'a>, RunFault>
    ensures enters { MatchResult result
        (Enters (runs stream.now) positions.now)
        (λ _. NeverEnters (runs stream.now) positions.now) }
    ensures at { IfOk result (StreamAt (runs stream.now) positions.now) }
    ensures fault { IfErr result (EnteredStreamFails (runs stream.now) positions.now) }
{
    match *stream {
        RunBytes::Nothing => match positions {
            [] => Ok(Entered::Nothing),
            _ => Err(RunFault::BadPosition(0)),
        },
        RunBytes::Bits(bytes) => match bits_from(bytes, positions) {
            Ok(bits) => Ok(Entered::Bits(bits)),
            Err(fault) => Err(fault),
        },
        RunBytes::Bytes(bytes) => bytes_from(bytes, positions),
        RunBytes::Numbers(version, sign, bytes) => numbers_from(version, sign, bytes, positions),
    }
}
