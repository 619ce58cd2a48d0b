//! The directory of a stripe: tests of its streams and of the encodings of its columns.
ghost use Rattle.std.specs.Prelude.{◌≡◌, true, false, IfOk, IfErr, OnOk, ◌⊎◌};
ghost use Rattle.orc_directory.specs.declared.fault.StripeFault.TheVariants.{BadDirectory, OutOfMemory};
ghost use Rattle.orc_directory.specs.Directory as spec;

use crate::fault::StripeFault;
use orc_values::Scalar;
use orc_wire::{
    CELL_KINDS, DICTIONARY, DICTIONARY_V2, DIRECT, DIRECT_V2, Encoding, ROW_INDEX, StreamMsg,
    TypeMsg,
};
use std::alloc::Global;
use std::collections::BTreeSet;

/// Returns whether the streams fit into `room` bytes.
fn have_room(room: u64, streams: &[StreamMsg]) -> bool
    ensures { result ≡ spec.have_room room streams.now }
{
    let mut left = room;
    for stream in streams {
        if stream.length > left {
            return false;
        }
        left -= stream.length;
    }
    true
}

/// Returns whether no column has two streams of one kind. It takes memory for the columns and kinds that the streams
/// name, and looks each of them up among those before it.
fn names_once(alloc: Global, streams: &[StreamMsg]) -> Result<bool, StripeFault>
    ensures once { IfOk result (λ once. once ≡ spec.names_once streams.now) }
    ensures refused { IfErr result (λ fault. fault ≡ OutOfMemory) }
{
    let mut named = BTreeSet::new(alloc);
    for stream in streams {
        if !named.insert((stream.column, stream.kind))? {
            return Ok(false);
        }
    }
    Ok(true)
}

/// Returns whether streams of this kind need a column that exists.
fn needs_column(kind: u32) -> bool
    ensures { result ≡ spec.needs_column kind }
{
    kind < CELL_KINDS || kind == ROW_INDEX
}

/// Returns whether the columns that the streams need exist.
fn have_columns(width: usize, streams: &[StreamMsg]) -> bool
    ensures { result ≡ spec.have_columns width streams.now }
{
    for stream in streams {
        if needs_column(stream.kind) && stream.column as usize >= width {
            return false;
        }
    }
    true
}

/// Tests that the streams are the directory of a stripe with `width` columns and `room` bytes of streams (ORC
/// specification, "Stripe Footer").
///
/// # Errors
///
/// - `BadDirectory`, if the streams don't fit into the bytes, if a column has two streams of one kind, or if a stream
///   belongs to a column that doesn't exist.
/// - `OutOfMemory`.
pub fn check_directory(
    alloc: Global,
    width: usize,
    room: u64,
    streams: &[StreamMsg],
) -> Result<(), StripeFault>
    // If the call succeeds, then the streams are a directory: their lengths add up to at most `room`, no column
    // number and kind are named twice, and each stream of a kind that belongs to a column has a column number below
    // `width`.
    ensures accepted { OnOk result (spec.is_directory width room streams.now ≡ true) }
    // An error is `OutOfMemory`, or it is `BadDirectory` and the streams are no directory: their lengths add up to
    // more than `room`, a column number and kind are named twice, or a stream of a kind that belongs to a column has
    // no column number below `width`.
    ensures refused { IfErr result (λ fault. (fault ≡ OutOfMemory)
        ⊎ ((fault ≡ BadDirectory) × (spec.is_directory width room streams.now ≡ false))) }
{
    if !have_room(room, streams) {
        return Err(StripeFault::BadDirectory);
    }
    if !have_columns(width, streams) {
        return Err(StripeFault::BadDirectory);
    }
    if !names_once(alloc, streams)? {
        return Err(StripeFault::BadDirectory);
    }
    Ok(())
}

/// Returns whether a column of the type may have the encoding.
fn takes_encoding(kind: u32, encoding: u32) -> bool
    ensures { result ≡ spec.takes_encoding kind encoding }
{
    encoding == DIRECT
        || encoding == DIRECT_V2
        || (kind == Scalar::String.number()
            && (encoding == DICTIONARY || encoding == DICTIONARY_V2))
}

/// Returns the first column that has no encoding, or one that its type can't have (ORC specification, "Column
/// Encodings").
pub fn first_wrong(types: &[TypeMsg], encodings: &[Encoding]) -> Option<usize>
    // The call returns the number of the first column that has no encoding or one that its type can't have; if there
    // is no such column, the number of columns if there are more encodings than columns, and else none.
    ensures { result ≡ spec.first_wrong 0 types.now encodings.now }
{
    for (i, t) in types.iter().enumerate() {
        if i >= encodings.len() {
            return Some(i);
        }
        let encoding = &encodings[i];
        if !takes_encoding(t.kind, encoding.kind) {
            return Some(i);
        }
    }
    if encodings.len() > types.len() {
        return Some(types.len());
    }
    None
}
