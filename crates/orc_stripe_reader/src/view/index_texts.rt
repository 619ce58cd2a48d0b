//! The bytes of the row indexes of all columns, found in one pass over the directory.
ghost use Rattle.std.specs.Prelude.{◌≡◌, ◌≢◌, ◌<◌, ℕ, None, List, true, length, if◌then◌else◌, Some, Ok, IfOk, IfSome};
ghost use Rattle.std.specs.Bool.{MatchBool};
ghost use Rattle.orc_wire.specs.declared.fault.WireFault.TheVariants.{OutOfMemory};
ghost use Rattle.orc_wire.specs.declared.row_index.RowIndexMsg.{RowIndexMsg as IndexMessage};
ghost use Rattle.orc_wire.specs.StreamKinds.{ROW_INDEX};
ghost use Rattle.orc_directory.specs.Directory.{have_room, is_stream_of};
ghost use Rattle.orc_stripe_reader.specs.IndexTexts.{index_at, or_else, IsMessage, AreIndexTexts};

use orc_wire::{Message, ROW_INDEX, RowIndexMsg, StreamMsg, WireFault};
use std::alloc::{AllocError, Global};

/// The bytes of a column's row index, if the directory lists one.
#[derive(Clone, Copy)]
pub struct IndexText<'a> {
    pub bytes: Option<&'a [u8]>,
}

/// Keeps the bytes of a stream if it is the first row index of its column.
fn keep_index<'a>(texts: &mut Vec<IndexText<'a>>, stream: &StreamMsg, bytes: &'a [u8])
    ensures len { length texts.new.items ≡ length texts.old.items }
    ensures kept { (column : ℕ) → column < length texts.old.items
        → index_at texts.new.items column ≡ or_else (index_at texts.old.items column)
        (if is_stream_of column ROW_INDEX stream.now then Some bytes.now else None) }
{
    let column = stream.column as usize;
    if stream.kind == ROW_INDEX && column < texts.len() && texts[column].bytes.is_none() {
        texts[column] = IndexText { bytes: Some(bytes) };
    }
}

/// Finds the row indexes of `columns` columns.
///
/// # Errors
///
/// `AllocError` if there is no memory.
pub(crate) fn index_texts<'a>(
    alloc: Global,
    columns: usize,
    streams: &[StreamMsg],
    bytes: &'a [u8],
) -> Result<Vec<IndexText<'a>>, AllocError>
    requires { have_room (length bytes.now) streams.now ≡ true }
    ensures { IfOk result (λ texts. AreIndexTexts columns streams.now bytes.now texts.items) }
{
    let mut texts = Vec::from_elem(alloc, IndexText { bytes: None }, columns)?;
    let mut left = bytes;
    for stream in streams {
        let (front, rest) = left.split_at(stream.length as usize);
        keep_index(&mut texts, stream, front);
        left = rest;
    }
    Ok(texts)
}

/// Returns whether the fault is want of memory.
fn is_memory(fault: WireFault) -> bool
    ensures { MatchBool result (fault ≡ OutOfMemory) (fault ≢ OutOfMemory) }
{
    match fault {
        WireFault::OutOfMemory => true,
        _ => false,
    }
}

/// Reads the message of a row index. Returns `None` if there is no row index or if its bytes are no valid message.
///
/// # Errors
///
/// `AllocError` if there is no memory.
pub fn read_index(alloc: Global, text: &IndexText<'_>) -> Result<Option<RowIndexMsg>, AllocError>
    // If the call returns a message, then `text` has bytes, and they are this message of a row index.
    ensures found { IfOk result (λ found. IfSome found (IsMessage text.now)) }
    // If the call returns `None`, then `text` has no bytes, or they are no message of a row index.
    ensures none { result ≡ Ok None → (message : IndexMessage) → IsMessage text.now message → ⊥ }
{
    let Some(bytes) = text.bytes else {
        return Ok(None);
    };
    match RowIndexMsg::read(alloc, bytes) {
        Ok(message) => Ok(Some(message)),
        Err(fault) => {
            if is_memory(fault) {
                return Err(AllocError);
            }
            Ok(None)
        }
    }
}
