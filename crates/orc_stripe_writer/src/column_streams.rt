//! Finds a column's streams in the bytes that were just written.
ghost use Rattle.std.specs.Prelude.{◌≡◌, length, true};
ghost use Rattle.orc_directory.specs.Directory.{is_stream_of, have_room, slice};
ghost use Rattle.orc_column_reader.specs.Starting.{AreStreams};
ghost use Rattle.orc_stripe_writer.specs.Indexes.{streams_written};
ghost use Rattle.orc_stripe_writer.specs.WrittenColumn.{Written};
ghost use Rattle.orc_stripe_writer.specs.WrittenStripe.{column_bytes, column_lines};

use orc_column_reader::{ColumnStreams, version_of};
use orc_wire::{DATA, DICTIONARY_DATA, Encoding, LENGTH, PRESENT, StreamMsg};

/// Returns whether the line lists a column's stream of a kind.
fn names(line: &StreamMsg, column: u32, kind: u32) -> bool
    ensures { result ≡ is_stream_of column kind line.now }
{
    line.column == column && line.kind == kind
}

/// Returns the bytes of a column's stream of a kind; no bytes if it isn't listed.
fn stream_bytes<'a>(lines: &[StreamMsg], bytes: &'a [u8], column: u32, kind: u32) -> &'a [u8]
    requires { have_room (length bytes.now) lines.now ≡ true }
    ensures { result.now ≡ slice column kind lines.now bytes.now }
{
    let mut left = bytes;
    for line in lines {
        let (own, rest) = left.split_at(line.length as usize);
        if names(line, column, kind) {
            return own;
        }
        left = rest;
    }
    bytes.split_at(0).0
}

/// Returns the streams of a column, from its bytes and the lines that list them.
pub(crate) fn column_streams<'a>(
    column: u32,
    encoding: Encoding,
    lines: &[StreamMsg],
    bytes: &'a [u8],
) -> ColumnStreams<'a>
    requires { have_room (length bytes.now) lines.now ≡ true }
    ensures { (w : Written) → encoding ≡ w.encoding → bytes.now ≡ column_bytes w → lines.now ≡ column_lines column w
        → AreStreams (streams_written w) result }
{
    ColumnStreams {
        version: version_of(encoding.kind),
        has_dictionary: encoding.is_dictionary(),
        dictionary_size: encoding.dictionary_size,
        present: stream_bytes(lines, bytes, column, PRESENT),
        data: stream_bytes(lines, bytes, column, DATA),
        lengths: stream_bytes(lines, bytes, column, LENGTH),
        dictionary_data: stream_bytes(lines, bytes, column, DICTIONARY_DATA),
    }
}
