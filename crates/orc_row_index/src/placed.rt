//! The streams of a column that have positions.
ghost use Rattle.std.specs.Prelude.{◌≡◌, ◌++◌, ℕ, List, min, IfOk, OnOk};
ghost use Rattle.orc_values.specs.Cells.{Cell};
ghost use Rattle.orc_values.specs.Views.{shape};
ghost use Rattle.orc_column_reader.specs.Starting.{AreStreams};
ghost use Rattle.orc_column_reader.specs.Stripe.{Streams};
ghost use Rattle.orc_row_index.specs.Positions.{ArePositions, octets_position, writer, AddsPositions};
ghost use Rattle.orc_row_index.specs.RunStreams.{kind_of_values, present_runs, scalar_runs, text_runs, scalar_octets, text_octets};
ghost use Rattle.orc_row_index.specs.Walking.{runs, lent_bytes, ArePlaced, HasOctets, HavePositions, WalkedBefore};
ghost use Rattle.orc_row_groups.specs.Counts.{most, AreCounted};

use crate::run_bytes::{RunBytes, put_position};
use crate::walk::Walk;
use orc_column_reader::ColumnStreams;
use orc_directory::StreamKind;
use orc_rle::Sign;
use orc_row_groups::Counts;
use orc_values::{Scalar, Tree};
use std::alloc::AllocError;

/// The streams of a column that have positions, in the order of the positions (ORC specification, "Row Group Index").
#[derive(Clone, Copy)]
pub struct PlacedStreams<'a> {
    /// PRESENT, if it has bytes.
    pub present: RunBytes<'a>,
    /// DATA, if it has the plain bytes of texts or byte strings.
    pub content: Option<&'a [u8]>,
    /// The stream of runs besides PRESENT: DATA or LENGTH. A struct has none.
    pub own: RunBytes<'a>,
}

/// Returns PRESENT, if it has bytes.
fn present_of(bytes: &[u8]) -> RunBytes<'_>
    ensures { runs result ≡ present_runs bytes.now }
{
    match bytes {
        [] => RunBytes::Nothing,
        _ => RunBytes::Bits(bytes),
    }
}

/// Returns the stream of runs besides PRESENT of a column whose kind contains no other type.
fn scalar_stream<'a>(kind: Scalar, streams: &ColumnStreams<'a>) -> RunBytes<'a>
    ensures { (x : Streams) → AreStreams x streams.now → runs result ≡ scalar_runs kind x }
{
    match kind {
        Scalar::Boolean => RunBytes::Bits(streams.data),
        Scalar::Byte => RunBytes::Bytes(streams.data),
        Scalar::Short | Scalar::Int | Scalar::Long | Scalar::Date => {
            RunBytes::Numbers(streams.version, Sign::Signed, streams.data)
        }
        Scalar::Binary => RunBytes::Numbers(streams.version, Sign::Unsigned, streams.lengths),
        Scalar::String => text_stream(streams),
    }
}

/// Returns the stream of runs besides PRESENT of a column of texts.
fn text_stream<'a>(streams: &ColumnStreams<'a>) -> RunBytes<'a>
    ensures { (x : Streams) → AreStreams x streams.now → runs result ≡ text_runs streams.now.has_dictionary x }
{
    if streams.has_dictionary {
        RunBytes::Numbers(streams.version, Sign::Unsigned, streams.data)
    } else {
        RunBytes::Numbers(streams.version, Sign::Unsigned, streams.lengths)
    }
}

/// Returns DATA, if it has the plain bytes of the values.
fn scalar_content<'a>(kind: Scalar, streams: &ColumnStreams<'a>) -> Option<&'a [u8]>
    ensures { (x : Streams) → AreStreams x streams.now → lent_bytes result ≡ scalar_octets kind x }
{
    match kind {
        Scalar::Binary => Some(streams.data),
        Scalar::String => text_content(streams),
        _ => None,
    }
}

/// Returns DATA of a column of texts, if it has their plain bytes.
fn text_content<'a>(streams: &ColumnStreams<'a>) -> Option<&'a [u8]>
    ensures { (x : Streams) → AreStreams x streams.now → lent_bytes result ≡ text_octets streams.now.has_dictionary x }
{
    if streams.has_dictionary {
        None
    } else {
        Some(streams.data)
    }
}

/// Returns the streams of a column that have positions.
pub fn placed_streams<'a>(tree: &Tree, streams: &ColumnStreams<'a>) -> PlacedStreams<'a>
    // The returned streams are those of the column that have positions, by its type and encoding: PRESENT if it has
    // bytes, DATA if it has the plain bytes of the values, and the runs of DATA or LENGTH, of which a struct has
    // none.
    ensures { (x : Streams) → AreStreams x streams.now → ArePlaced (shape tree.now) x result }
{
    let present = present_of(streams.present);
    match tree {
        Tree::Scalar(kind, _) => PlacedStreams {
            present,
            content: scalar_content(*kind, streams),
            own: scalar_stream(*kind, streams),
        },
        Tree::List(_, _) | Tree::Map(_, _, _) => PlacedStreams {
            present,
            content: None,
            own: RunBytes::Numbers(streams.version, Sign::Unsigned, streams.lengths),
        },
        Tree::Struct(_, _) => PlacedStreams {
            present,
            content: None,
            own: RunBytes::Nothing,
        },
    }
}

/// Returns which stream has the runs besides PRESENT.
pub fn values_kind(tree: &Tree, has_dictionary: bool) -> StreamKind
    // The returned kind is that of the stream that has a column's runs besides PRESENT. With a dictionary it is DATA
    // for texts; without one it is LENGTH for texts. It is LENGTH for byte strings, lists and maps, and DATA for any
    // other column, also for a struct, which has no such runs.
    ensures { result ≡ kind_of_values (shape tree.now) has_dictionary }
{
    match tree {
        Tree::Scalar(Scalar::String, _) => {
            if has_dictionary {
                StreamKind::Data
            } else {
                StreamKind::Length
            }
        }
        Tree::Scalar(Scalar::Binary, _) => StreamKind::Length,
        Tree::Scalar(_, _) => StreamKind::Data,
        Tree::List(_, _) | Tree::Map(_, _, _) => StreamKind::Length,
        Tree::Struct(_, _) => StreamKind::Data,
    }
}

/// Adds the position in plain bytes, if a column has such a stream: how many bytes come before, which are no more
/// than it has.
#[inline(always)]
fn put_octets(content: Option<&[u8]>, octets: usize, out: &mut Vec<u64>) -> Result<(), AllocError>
    ensures { (n : ℕ) → octets ≡ min most n → HasOctets (lent_bytes content.entry) n
        → OnOk result (out.new.items ≡ out.old.items ++ octets_position (lent_bytes content.entry) n) }
{
    match content {
        Some(bytes) => {
            out.push(octets.min(bytes.len()) as u64)?;
            Ok(())
        }
        None => Ok(()),
    }
}

/// Adds the positions after the counted cells, and returns how far the streams are walked then.
#[inline(always)]
pub(crate) fn put_positions(
    placed: &PlacedStreams<'_>,
    from: Walk,
    counts: Counts,
    out: &mut Vec<u64>,
) -> Result<Walk, AllocError>
    requires { (before : List Cell)
        × AreCounted counts before
        × HavePositions (runs placed.now.present) (lent_bytes placed.now.content) (runs placed.now.own) before
        × WalkedBefore (runs placed.now.present) (runs placed.now.own) from before }
    ensures places { (before : List Cell) → AreCounted counts before
        → HavePositions (runs placed.now.present) (lent_bytes placed.now.content) (runs placed.now.own) before
        → OnOk result (AddsPositions (ArePositions writer (runs placed.now.present)
        (lent_bytes placed.now.content) (runs placed.now.own) before)
        out.old.items out.new.items) }
    ensures walked { IfOk result (λ walk. (before : List Cell)
        → AreCounted counts before
        → WalkedBefore (runs placed.now.present) (runs placed.now.own) walk before) }
{
    let present = put_position(&placed.present, from.present, counts.cells, out)?;
    put_octets(placed.content, counts.octets, out)?;
    let own = put_position(&placed.own, from.own, counts.values, out)?;
    Ok(Walk { present, own })
}
