//! The directory of a stripe: its streams, and how each column is encoded.
use crate::canonical::{put_each, put_number};
use crate::encoding::Encoding;
use crate::fault::WireFault;
use crate::field::Field;
use crate::inner::{take_each, test_each};
use crate::items::Items;
use crate::members::{take_u32, take_u64, test_small};
use crate::message::Message;
use std::alloc::Global;

/// The kind of the stream that says which of a column's cells are not null.
pub const PRESENT: u32 = 0;

/// The kind of the stream of a column's values, or of their indexes in its dictionary.
pub const DATA: u32 = 1;

/// The kind of the stream of the lengths of a column's values, or of its dictionary's entries.
pub const LENGTH: u32 = 2;

/// The kind of the stream of the entries of a column's dictionary.
pub const DICTIONARY_DATA: u32 = 3;

/// The kinds below this one are those that a column's cells are read from.
pub const CELL_KINDS: u32 = 4;

/// The kind of the stream that is a column's row index.
pub const ROW_INDEX: u32 = 6;

/// A stream of a stripe (ORC specification, "Stripe Footer", Stream). Its kind must be there.
#[derive(Clone, Copy, Debug, PartialEq, Eq)]
pub struct StreamMsg {
    /// What it holds: `PRESENT` or another kind, up to 8 for BLOOM_FILTER_UTF8.
    pub kind: u32,
    /// The column that it belongs to.
    pub column: u32,
    /// How many bytes it has.
    pub length: u64,
}

impl Message for StreamMsg {
    ghost use Rattle.orc_wire.specs.Messages.{stream};
    ghost use Rattle.orc_wire.specs.CanonicalMessages.{stream_text, stream_complete};

    ghost members = { stream };

    ghost canonical = { stream_text };

    ghost REQUIRED = { 1 };

    const REQUIRED: u32 = 1;

    type Seen = ();

    fn empty(_alloc: Global) -> StreamMsg {
        StreamMsg {
            kind: PRESENT,
            column: 0,
            length: 0,
        }
    }

    fn take(&mut self, _alloc: Global, field: &Field) -> Result<(), WireFault> {
        take_u32(&mut self.kind, 1, field)?;
        take_u32(&mut self.column, 2, field)?;
        take_u64(&mut self.length, 3, field);
        Ok(())
    }

    fn nothing_seen() -> () {
        ()
    }

    fn test(_seen: &mut (), field: &Field) -> Result<(), WireFault> {
        test_small(1, field)?;
        test_small(2, field)
    }

    fn put_members(&self, out: &mut Vec<u8>) -> Result<(), WireFault> {
        put_number(1, u64::from(self.kind), out)?;
        put_number(2, u64::from(self.column), out)?;
        put_number(3, self.length, out)
    }

    ghost complete = { stream_complete };
}

/// The directory of a stripe (ORC specification, "Stripe Footer").
#[derive(Debug, Drop)]
pub struct StripeFooter {
    /// The streams, in the order of their bytes.
    pub streams: Items<StreamMsg>,
    /// The encodings of the columns, in the order of the types.
    pub columns: Items<Encoding>,
}

impl Message for StripeFooter {
    ghost use Rattle.orc_wire.specs.Messages.{stripe_footer};
    ghost use Rattle.orc_wire.specs.CanonicalMessages.{stripe_footer_text, stripe_footer_complete};

    ghost members = { stripe_footer };

    ghost canonical = { stripe_footer_text };

    ghost REQUIRED = { 0 };

    const REQUIRED: u32 = 0;

    type Seen = ();

    fn empty(alloc: Global) -> StripeFooter {
        StripeFooter {
            streams: Items::empty(alloc),
            columns: Items::empty(alloc),
        }
    }

    fn take(&mut self, alloc: Global, field: &Field) -> Result<(), WireFault> {
        take_each(alloc, &mut self.streams, 1, field)?;
        take_each(alloc, &mut self.columns, 2, field)
    }

    fn nothing_seen() -> () {
        ()
    }

    fn test(_seen: &mut (), field: &Field) -> Result<(), WireFault> {
        test_each::<StreamMsg>(1, field)?;
        test_each::<Encoding>(2, field)
    }

    fn put_members(&self, out: &mut Vec<u8>) -> Result<(), WireFault> {
        put_each(1, self.streams.as_slice(), out)?;
        put_each(2, self.columns.as_slice(), out)
    }

    ghost complete = { stripe_footer_complete };
}
