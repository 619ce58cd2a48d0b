//! A stripe whose directory and encodings are accepted, and its rows: all together, or one by one with a cursor.
ghost use Rattle.std.specs.Prelude.{◌≡◌, ◌≢◌, ◌+◌, ℕ, List, true, false, Some, None, ◌⊎◌, IfOk, IfErr, MatchResult, length, drop};
ghost use Rattle.orc_values.specs.Cells.{Cell};
ghost use Rattle.orc_wire.specs.declared.stripe_footer.StripeFooter.{StripeFooter};
ghost use Rattle.orc_values.specs.Views.{views};
ghost use Rattle.orc_column_reader.specs.Stripe.{HasFooter, IsStripe, columns_of};
ghost use Rattle.orc_stripe_reader.specs.Opening.{StripeOpenFault};
ghost use Rattle.orc_stripe_reader.specs.Cursors.{row_type, IsGoing, StandsFor, MeetsFault};
ghost use Rattle.orc_column_reader.specs.Faults.{HasFault, RowsFault};
ghost use Rattle.orc_directory.specs.declared.fault.StripeFault.{StripeFault as Fault};
ghost use Rattle.orc_directory.specs.declared.fault.StripeFault.TheVariants.{OutOfMemory};

mod group_cursor;
mod index_texts;
mod parts;
mod row_index;

use crate::cursor::RowCursor;
pub use index_texts::{IndexText, read_index};
use orc_directory::{StripeFault, check_directory, first_wrong, locate, wire_fault};
use orc_row_reader::put_tree;
use orc_types::Schema;
use orc_values::{CELL_LIMIT, Row};
use orc_wire::{Message, StripeFooter, StripeInfo};
use std::alloc::Global;
use std::marker::Model;

/// A stripe whose directory and encodings are accepted.
///
/// `HasFooter` says that bytes are a stripe with a footer whose directory and encodings are accepted, `SpellRows` that
/// columns' streams spell a number of rows, and `IsStripe` both together. The columns' streams are those that the
/// footer's directory gives, `columns_of`.
///
/// `HasFault` says that one of the schema's columns has a fault: one that a column of its kind and encoding can have,
/// and that its streams do have. `orc_column_reader` defines the faults of values in `specs/ValueFaults` and those of
/// runs in `specs/RunFaults`. `HasFault` goes down the schema, because the marks and lengths of the columns above a
/// column decide how many values it needs from its streams (`specs/Needs`): the whole number, or the number that their
/// first marks and lengths give.
#[derive(Drop)]
pub struct StripeView<'a> {
    schema: &'a Schema,
    info: StripeInfo,
    stride: u32,
    bytes: &'a [u8],
    footer: StripeFooter,
}

impl<'a> Model for StripeView<'a> {
    ghost use Rattle.std.specs.Coded.{codes};
    ghost use Rattle.orc_values.specs.Coding.{coded_shape};
    ghost use Rattle.orc_stripe_reader.specs.Opened.{Opened};
    ghost use Rattle.orc_column_reader.specs.Stripe.{HasFooter};

    ghost Value = { Opened };

    ghost coded = { Prim.hlevel (codes, coded_shape) };

    ghost view = { λ v.
        record { schema = v.schema.now; info = v.info; stride = v.stride; bytes = v.bytes.now; footer = v.footer } };

    ghost invariant = { λ v. HasFooter v.schema.now v.info v.bytes.now v.footer };
}

impl<'a> StripeView<'a> {
    /// Opens a view of a stripe's bytes. Only the footer is decoded (ORC specification, "Stripe Footer").
    ///
    /// # Errors
    ///
    /// - `BadDirectory` if there aren't as many bytes as the three lengths in `info` say together, if the streams don't
    ///   fit into index and data, if a column has two streams of one kind, or if a stream needs a column that doesn't
    ///   exist;
    /// - `BadEncoding` with the number of the first column that has no encoding, or one that its type can't have, or of
    ///   the first encoding that has no column;
    /// - `Wire` if the footer's bytes are no valid message;
    /// - `OutOfMemory` if there is no memory.
    pub fn open(
        alloc: Global,
        schema: &'a Schema,
        info: StripeInfo,
        stride: u32,
        bytes: &'a [u8],
    ) -> Result<StripeView<'a>, StripeFault>
        // The bytes of a returned view are a stripe with the footer that the view keeps: `bytes` is as long as the
        // three lengths in `info` together, the bytes after the index and the data read as this footer, its streams are
        // a valid directory, and it has exactly one encoding for each column, which the column's type can have.
        ensures found { IfOk result (λ view. HasFooter schema.now info bytes.now view.footer) }
        // A returned view keeps `schema`, `info`, `stride` and `bytes`.
        ensures same { IfOk result (λ view. (view.schema ≡ schema.now)
            × (view.info ≡ info)
            × (view.stride ≡ stride)
            × (view.bytes ≡ bytes.now)) }
        // If `bytes` is as long as the three lengths in `info` together and the bytes after the index and the data read
        // as a footer with a valid directory and with exactly one encoding for each column, which the column's type can
        // have, then `open` returns a view with this footer, or fails with `OutOfMemory`.
        ensures only { (footer : StripeFooter) → HasFooter schema.now info bytes.now footer
            → MatchResult result (λ view. view.footer ≡ footer) (λ fault. fault ≡ OutOfMemory) }
        // An error is `BadDirectory`, `BadEncoding`, `Wire` or `OutOfMemory`. `BadDirectory` comes only if `bytes`
        // isn't as long as the three lengths in `info` together, or the footer reads and its streams are no valid
        // directory. `BadEncoding` comes only if the footer reads, with the number of the first column whose encoding
        // is missing or is one that the column's type can't have, or of the first encoding that has no column. `Wire`
        // names a fault that the footer's bytes have.
        ensures fault { IfErr result (StripeOpenFault schema.now info bytes.now) }
    {
        let Some(room) = info.index_length.checked_add(info.data_length) else {
            return Err(StripeFault::BadDirectory);
        };
        let Some(whole) = room.checked_add(info.footer_length) else {
            return Err(StripeFault::BadDirectory);
        };
        if whole != bytes.len() as u64 {
            return Err(StripeFault::BadDirectory);
        }
        let (_, text) = bytes.split_at(room as usize);
        let footer = match StripeFooter::read(alloc, text) {
            Ok(footer) => footer,
            Err(fault) => return Err(wire_fault(fault)),
        };
        if let Err(fault) = check_directory(
            alloc,
            schema.width(),
            room,
            footer.streams.as_slice(),
        ) {
            return Err(fault);
        }
        match first_wrong(schema.types(), footer.columns.as_slice()) {
            Some(column) => Err(StripeFault::BadEncoding(column)),
            None => Ok(StripeView {
                schema,
                info,
                stride,
                bytes,
                footer,
            }),
        }
    }

    /// Reads the rows of the stripe (ORC specification, "Stripes", "Column Encodings"). Their texts and byte strings
    /// are slices of the stripe's bytes. No number read from the stripe decides how much memory is allocated.
    ///
    /// # Errors
    ///
    /// Each error has the number of its column, and the kind of the stream if it concerns one. Which of several faults
    /// is returned is unspecified.
    ///
    /// - `Run` if a stream has no valid runs, or too few or too many, with the fault that `decode` has for as many
    ///   values as the column needs;
    /// - `NotUtf8` if a text isn't UTF-8;
    /// - `BadIndex` if an index isn't below the size of its dictionary;
    /// - `LengthSum` if a stream of bytes doesn't have the length that its LENGTHs give together;
    /// - `OutOfRange` if a number is outside of its column's type;
    /// - `TooMany` if a column has more than 2,147,483,647 cells, with the number of the LIST or MAP above it, or of
    ///   the root if there are more rows than that;
    /// - `OutOfMemory` if there is no memory.
    ///
    /// `Run` means: the stream's bytes begin with whole runs of the column's version and sign, which have at most as
    /// many values as the column needs. After these runs, at the fault's place, come bytes that don't begin with a run,
    /// and the fault is that of these bytes; or a run that has more values than are needed, and the fault is `TooMany`;
    /// or no byte although values are missing, and the fault is `TooFew` at the length of the bytes. If only the first
    /// marks and lengths of the streams above are known, the fault holds for their number and for each larger one.
    ///
    /// The other errors are about the numbers that come first in the stream, in whole runs. `OutOfRange`: one of DATA's
    /// numbers isn't in the column's type, which isn't LONG. `BadIndex`: one of DATA's numbers isn't below the
    /// dictionary's size. `NotUtf8`: one of the texts that the LENGTHs cut off the front of DATA isn't UTF-8, or an
    /// entry that one of DATA's indexes names isn't. `LengthSum`: the first LENGTHs are together more than the bytes,
    /// or all LENGTHs are together less. `TooMany`: the first LENGTHs are together more than 2,147,483,647.
    pub fn rows(&self, alloc: Global) -> Result<Vec<Row<'a>>, StripeFault>
        // The view's bytes are a stripe of the returned rows: they have a valid footer, the number of rows is the one
        // in the stripe's record, each row fits the schema, no column has more than 2,147,483,647 cells, and each
        // column's streams spell exactly the column's cells.
        ensures found { IfOk result (λ rows. IsStripe self.now.schema self.now.info self.now.bytes (views rows.items)) }
        // If the view's bytes are a stripe of some rows, then `rows` returns these rows, or fails with `OutOfMemory`.
        ensures only { (rows : List Cell) → IsStripe self.now.schema self.now.info self.now.bytes rows
            → MatchResult result (λ answered. views answered.items ≡ rows) (λ fault. fault ≡ OutOfMemory) }
        // If `rows` fails with an error other than `OutOfMemory`, then the columns' streams don't spell as many rows of
        // the schema as the stripe's record says, and the error is `TooMany(0)` for 2^31 rows or more, or a fault that
        // a column of the schema has in its streams.
        ensures fault { IfErr result (λ cause. cause ≢ OutOfMemory
            → RowsFault self.now.schema (columns_of self.now.footer self.now.bytes)
            self.now.info.number_of_rows cause) }
    {
        // for the proof, which learns that the bytes have the footer when a field is used
        let _ = &self.schema;
        match self.cursor(alloc) {
            Ok(cursor) => match cursor.rest() {
                Ok(rows) => Ok(rows),
                Err(fault) => Err(fault),
            },
            Err(fault) => Err(fault),
        }
    }

    /// Returns a cursor at the first row. It reads the directory and the dictionaries, and nothing else.
    ///
    /// # Errors
    ///
    /// Those of `rows`; `TooMany(0)` if the stripe has more than 2,147,483,647 rows.
    pub fn cursor(&self, alloc: Global) -> Result<RowCursor<'a>, StripeFault>
        // If rows are the remaining rows of a returned cursor, then the view's bytes are a stripe of these rows.
        ensures found { IfOk result (λ cursor. (rows : List Cell) → StandsFor cursor rows
            → IsStripe self.now.schema self.now.info self.now.bytes rows) }
        // If the view's bytes are a stripe of some rows, then `cursor` returns a cursor whose remaining rows are these
        // rows, or fails with `OutOfMemory`.
        ensures only { (rows : List Cell) → IsStripe self.now.schema self.now.info self.now.bytes rows
            → MatchResult result (λ cursor. StandsFor cursor rows) (λ fault. fault ≡ OutOfMemory) }
        // The row type of a returned cursor is the view's schema.
        ensures of_type { IfOk result (λ cursor. row_type cursor ≡ self.now.schema) }
        // A returned cursor has not failed yet.
        ensures going { IfOk result IsGoing }
        // If the streams of a returned cursor, read for the rows still to come, have a fault, then a column of the
        // schema has this fault in the stripe's streams.
        ensures meets { IfOk result (λ cursor. (f : Fault) → MeetsFault cursor f
            → HasFault self.now.schema (columns_of self.now.footer self.now.bytes) self.now.info.number_of_rows f) }
        // If `cursor` fails with an error other than `OutOfMemory`, then the columns' streams don't spell as many rows
        // of the schema as the stripe's record says, and the error is `TooMany(0)` for 2^31 rows or more, or a fault
        // that a column of the schema has in its streams.
        ensures fault { IfErr result (λ cause. cause ≢ OutOfMemory
            → RowsFault self.now.schema (columns_of self.now.footer self.now.bytes)
            self.now.info.number_of_rows cause) }
    {
        let count = self.info.number_of_rows;
        if count >= CELL_LIMIT {
            return Err(StripeFault::TooMany(0));
        }
        let tree = self.schema.tree();
        let located = locate(alloc, &self.footer, self.bytes)?;
        let mut readers = Vec::with_capacity(alloc, self.schema.width())?;
        match put_tree(alloc, tree, &self.footer, &located, &mut readers) {
            Ok(()) => Ok(RowCursor {
                alloc,
                tree,
                readers,
                left: count,
                failed: false,
            }),
            Err(fault) => Err(fault),
        }
    }
}
