//! Writes the merged file: `ORC`, the inputs' stripes, which are copied through one array, and the tail.
ghost use Rattle.std.specs.Prelude.{◌≡◌, ◌+◌, ◌<◌, ◌≤◌, ◌⊎◌, ◌++◌, ℕ, List, Some, length, map, slice_index, IfErr, OnOk, All};
ghost use Rattle.std.specs.Bool.{OnTrue, OnFalse};
ghost use Rattle.orc_io.specs.Devices.{appended};
ghost use Rattle.orc_io.specs.Leaves.{LeavesSource, LeavesSink};
ghost use Rattle.orc_tail.specs.Layout.{magic};
ghost use Rattle.orc_merger.specs.declared.fault.MergeFault.TheVariants as fault;
ghost use Rattle.orc_merger.specs.Copies.{Copied, CopiedSome, WroteSome, IsLastOfInput, IsOfCopy};
ghost use Rattle.orc_merger.specs.Copies.{piece_at, piece_bytes, pieces_bytes};
ghost use Rattle.orc_merger.specs.Outcomes.{counts_after};

use crate::fault::MergeFault;
use orc_io::{Sink, Source, write_all};

/// The number of bytes that are held at a time.
const WINDOW: usize = 16_384;

/// Copies `len` bytes of the source with this number, from offset `at` on, through one array: a read for each full array
/// and one for the bytes that are left.
fn copy_range<S: Source, W: Sink>(
    number: usize,
    source: &mut S,
    at: u64,
    len: u64,
    out: &mut W,
) -> Result<(), MergeFault>
    requires { at + len ≤ S.size source.old }
    ensures all { OnOk result (Copied (S.told source.old) at len (W.told out.old) (W.told out.new)) }
    ensures prefix { CopiedSome (S.told source.old) at len (W.told out.old) (W.told out.new) }
    ensures fault { IfErr result (λ e. (e ≡ fault.SourceFailed number) ⊎ (e ≡ fault.WriteFailed)) }
    ensures source { LeavesSource S.told S.size S.failures (fault.SourceFailed number) source.old source.new result }
    ensures output { LeavesSink W.failures fault.WriteFailed out.old out.new result }
{
    // for its contract alone: the source's size is a number of 64 bits, and so is each place in it
    let _all = source.len();
    let mut window = [0u8; WINDOW];
    let mut done = 0;
    while done < len {
        let n = (len - done).min(WINDOW as u64) as usize;
        let part = &mut window[..n];
        match source.read_at(at + done, part) {
            Ok(()) => {}
            Err(_) => return Err(MergeFault::SourceFailed(number)),
        }
        match write_all(out, part) {
            Ok(()) => {}
            Err(_) => return Err(MergeFault::WriteFailed),
        }
        done += n as u64;
    }
    Ok(())
}

/// Where the bytes of a stripe are: the number of the input, the offset in it, and the length.
#[derive(Clone, Copy)]
pub(crate) struct Piece {
    pub input: usize,
    pub offset: u64,
    pub len: u64,
}

/// Returns whether no piece follows the piece with this number, or one of another input.
fn is_last_of_input(pieces: &[Piece], i: usize) -> bool
    requires { i < length pieces.now }
    ensures yes { OnTrue result (IsLastOfInput pieces.now i) }
    ensures no { OnFalse result (IsLastOfInput pieces.now i → ⊥) }
{
    match pieces.get(i + 1) {
        Some(next) => next.input != pieces[i].input,
        None => true,
    }
}

/// Copies the piece with this number. The input rests after its last consecutive piece and after an error. The pieces
/// of an input are consecutive, so each input rests before the next one is read.
fn copy_piece<S: Source, W: Sink>(
    inputs: &mut [S],
    pieces: &[Piece],
    i: usize,
    out: &mut W,
) -> Result<(), MergeFault>
    requires number { i < length pieces.now }
    requires input { (piece_at pieces.now i).input < length inputs.old }
    requires size { (piece_at pieces.now i).offset + (piece_at pieces.now i).len
        ≤ slice_index (map S.size inputs.old) (piece_at pieces.now i).input }
    ensures told { map S.told inputs.new ≡ map S.told inputs.old }
    ensures sizes { map S.size inputs.new ≡ map S.size inputs.old }
    ensures all { OnOk result ((files : List (List ℕ)) → map S.told inputs.old ≡ map Some files
        → W.told out.new ≡ appended (W.told out.old) (piece_bytes files (piece_at pieces.now i))) }
    ensures some { (files : List (List ℕ)) → map S.told inputs.old ≡ map Some files
        → WroteSome (W.told out.old) (W.told out.new) (piece_bytes files (piece_at pieces.now i)) }
    ensures named { IfErr result (IsOfCopy (length inputs.old)) }
    ensures kept { OnOk result (map S.failures inputs.new ≡ map S.failures inputs.old) }
    ensures sources { IfErr result (λ e. map S.failures inputs.new ≡ counts_after e (map S.failures inputs.old)) }
    ensures output { LeavesSink W.failures fault.WriteFailed out.old out.new result }
{
    let piece = pieces[i];
    let input = &mut inputs[piece.input];
    match copy_range(piece.input, input, piece.offset, piece.len, out) {
        Ok(()) => {
            if is_last_of_input(pieces, i) {
                input.rest();
            }
            Ok(())
        }
        Err(fault) => {
            input.rest();
            Err(fault)
        }
    }
}

/// Copies the pieces, in order.
fn copy_pieces<S: Source, W: Sink>(
    inputs: &mut [S],
    pieces: &[Piece],
    out: &mut W,
) -> Result<(), MergeFault>
    requires inputs { All (λ p. p.input < length inputs.old) pieces.now }
    requires sizes { All (λ p. p.offset + p.len ≤ slice_index (map S.size inputs.old) p.input) pieces.now }
    ensures told { map S.told inputs.new ≡ map S.told inputs.old }
    ensures sizes { map S.size inputs.new ≡ map S.size inputs.old }
    ensures all { OnOk result ((files : List (List ℕ)) → map S.told inputs.old ≡ map Some files
        → W.told out.new ≡ appended (W.told out.old) (pieces_bytes files pieces.now)) }
    ensures some { (files : List (List ℕ)) → map S.told inputs.old ≡ map Some files
        → WroteSome (W.told out.old) (W.told out.new) (pieces_bytes files pieces.now) }
    ensures named { IfErr result (IsOfCopy (length inputs.old)) }
    ensures kept { OnOk result (map S.failures inputs.new ≡ map S.failures inputs.old) }
    ensures sources { IfErr result (λ e. map S.failures inputs.new ≡ counts_after e (map S.failures inputs.old)) }
    ensures output { LeavesSink W.failures fault.WriteFailed out.old out.new result }
{
    for i in 0..pieces.len() {
        match copy_piece(inputs, pieces, i, out) {
            Ok(()) => {}
            Err(fault) => return Err(fault),
        }
    }
    Ok(())
}

/// Writes `ORC`, the pieces, and then `text`.
pub(crate) fn write_merged<S: Source, W: Sink>(
    inputs: &mut [S],
    pieces: &[Piece],
    text: &[u8],
    out: &mut W,
) -> Result<(), MergeFault>
    requires inputs { All (λ p. p.input < length inputs.old) pieces.now }
    requires sizes { All (λ p. p.offset + p.len ≤ slice_index (map S.size inputs.old) p.input) pieces.now }
    ensures told { map S.told inputs.new ≡ map S.told inputs.old }
    ensures sizes { map S.size inputs.new ≡ map S.size inputs.old }
    ensures all { OnOk result ((files : List (List ℕ)) → map S.told inputs.old ≡ map Some files
        → W.told out.new ≡ appended (W.told out.old) (magic ++ (pieces_bytes files pieces.now ++ text.now))) }
    ensures some { (files : List (List ℕ)) → map S.told inputs.old ≡ map Some files
        → WroteSome (W.told out.old) (W.told out.new) (magic ++ (pieces_bytes files pieces.now ++ text.now)) }
    ensures named { IfErr result (IsOfCopy (length inputs.old)) }
    ensures kept { OnOk result (map S.failures inputs.new ≡ map S.failures inputs.old) }
    ensures sources { IfErr result (λ e. map S.failures inputs.new ≡ counts_after e (map S.failures inputs.old)) }
    ensures output { LeavesSink W.failures fault.WriteFailed out.old out.new result }
{
    match write_all(out, b"ORC") {
        Ok(()) => {}
        Err(_) => return Err(MergeFault::WriteFailed),
    }
    match copy_pieces(inputs, pieces, out) {
        Ok(()) => {}
        Err(fault) => return Err(fault),
    }
    match write_all(out, text) {
        Ok(()) => Ok(()),
        Err(_) => Err(MergeFault::WriteFailed),
    }
}
