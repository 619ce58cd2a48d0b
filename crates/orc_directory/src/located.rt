//! Where the streams of a stripe's columns lie in its bytes.
ghost use Rattle.std.specs.Prelude.{◌≡◌, ◌*◌, ◌+◌, ◌<◌, length, true, IfOk, IfErr};
ghost use Rattle.orc_directory.specs.declared.fault.StripeFault.TheVariants.{OutOfMemory};
ghost use Rattle.orc_directory.specs.Directory as spec;
ghost use Rattle.orc_directory.specs.Located.{AreLocated, LocatesNext, stream_at};
ghost use Rattle.orc_wire.specs.StreamKinds.{CELL_KINDS};

use crate::fault::StripeFault;
use orc_wire::{CELL_KINDS, StreamMsg, StripeFooter};
use std::alloc::Global;

/// How many streams may store the cells of a column: PRESENT, DATA, LENGTH and DICTIONARY_DATA.
const KINDS: usize = CELL_KINDS as usize;

/// The bytes of one stream.
#[derive(Clone, Copy)]
pub struct Slice<'a> {
    pub bytes: &'a [u8],
}

/// The bytes of a stripe, and in them the streams of each column: four for each column, in the order of their kinds,
/// empty if there is none.
#[derive(Drop)]
pub struct Located<'a> {
    pub bytes: &'a [u8],
    pub slices: Vec<Slice<'a>>,
}

impl<'a> Located<'a> {
    /// Returns the bytes of the column's stream of one of the four kinds.
    pub fn stream(&self, column: usize, kind: u32) -> &'a [u8]
        requires there { CELL_KINDS * column + kind < length self.now.slices.items }
        // If four times `column`, plus `kind`, is below the number of slices, then the returned bytes are those of
        // the slice with that number.
        ensures { result.now ≡ stream_at self.now.slices.items column kind }
    {
        self.slices[KINDS * column + kind as usize].bytes
    }
}

/// Keeps the bytes of a stream, if it stores cells of a column.
fn keep<'a>(slices: &mut Vec<Slice<'a>>, columns: usize, stream: &StreamMsg, bytes: &'a [u8])
    requires len { length slices.old.items ≡ CELL_KINDS * columns }
    ensures { LocatesNext columns stream.now bytes.now slices.old.items slices.new.items }
{
    let column = stream.column as usize;
    let kind = stream.kind as usize;
    if kind < KINDS && column < columns {
        slices[KINDS * column + kind] = Slice { bytes };
    }
}

/// Finds the streams of all columns, in one pass over the directory.
///
/// # Errors
///
/// `OutOfMemory`.
pub fn locate<'a>(
    alloc: Global,
    footer: &StripeFooter,
    bytes: &'a [u8],
) -> Result<Located<'a>, StripeFault>
    requires room { spec.have_room (length bytes.now) footer.now.streams ≡ true }
    requires once { spec.names_once footer.now.streams ≡ true }
    // If the footer's streams fit into `bytes` and none is named twice, then for each column with an encoding in the
    // footer, the four slices found have the bytes of its streams, as these lie one after the other in `bytes`; a
    // slice is empty if the footer names no such stream.
    ensures found { IfOk result
        (λ located. AreLocated (length footer.now.columns) footer.now.streams bytes.now located.slices.items) }
    // The bytes that are returned beside the slices are `bytes`.
    ensures same { IfOk result (λ located. located.bytes.now ≡ bytes.now) }
    // The only error is `OutOfMemory`.
    ensures refused { IfErr result (λ fault. fault ≡ OutOfMemory) }
{
    let columns = footer.columns.as_slice().len();
    let none = Slice {
        bytes: bytes.split_at(0).0,
    };
    let mut slices = Vec::from_elem(alloc, none, KINDS * columns)?;
    let mut left = bytes;
    for stream in footer.streams.as_slice() {
        let (front, rest) = left.split_at(stream.length as usize);
        keep(&mut slices, columns, stream, front);
        left = rest;
    }
    Ok(Located { bytes, slices })
}
