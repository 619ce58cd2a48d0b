//! The footer of a file, and the pairs of its user metadata.
use crate::canonical::{put_each, put_kept, put_known_u32, put_number, put_text};
use crate::column_stats::ColumnStats;
use crate::fault::WireFault;
use crate::field::Field;
use crate::inner::{take_each, test_each};
use crate::items::{Bytes, Items};
use crate::lists::{take_kept, take_text};
use crate::members::{take_known_u32, take_u32, take_u64, test_small};
use crate::message::Message;
use crate::stripe_info::StripeInfo;
use crate::type_msg::TypeMsg;
use std::alloc::Global;

/// A pair of a file's user metadata (ORC specification, "File Tail", UserMetadataItem).
#[derive(Debug, Drop)]
pub struct UserMetadataItem {
    /// Its name, in UTF-8 if the file is valid.
    pub name: Bytes,
    /// Its value.
    pub value: Bytes,
}

impl Message for UserMetadataItem {
    ghost use Rattle.orc_wire.specs.Messages.{user_metadata};
    ghost use Rattle.orc_wire.specs.CanonicalMessages.{user_metadata_text, user_metadata_complete};

    ghost members = { user_metadata };

    ghost canonical = { user_metadata_text };

    ghost REQUIRED = { 0 };

    const REQUIRED: u32 = 0;

    type Seen = ();

    fn empty(alloc: Global) -> UserMetadataItem {
        UserMetadataItem {
            name: Items::empty(alloc),
            value: Items::empty(alloc),
        }
    }

    fn take(&mut self, _alloc: Global, field: &Field) -> Result<(), WireFault> {
        take_text(&mut self.name, 1, field)?;
        take_text(&mut self.value, 2, field)
    }

    fn nothing_seen() -> () {
        ()
    }

    fn test(_seen: &mut (), _field: &Field) -> Result<(), WireFault> {
        Ok(())
    }

    fn put_members(&self, out: &mut Vec<u8>) -> Result<(), WireFault> {
        put_text(1, &self.name, out)?;
        put_text(2, &self.value, out)
    }

    ghost complete = { user_metadata_complete };
}

/// The footer of a file (ORC specification, "File Tail", Footer).
#[derive(Debug, Drop)]
pub struct Footer {
    /// The length of the file's header, which is 3.
    pub header_length: u64,
    /// The length of the file's header and stripes.
    pub content_length: u64,
    /// Where each stripe is, in the order of the stripes.
    pub stripes: Items<StripeInfo>,
    /// The types, each before those below it.
    pub types: Items<TypeMsg>,
    /// The user's own pairs.
    pub metadata: Items<UserMetadataItem>,
    /// How many rows the file holds.
    pub number_of_rows: u64,
    /// The statistics of the columns, in the order of the types.
    pub statistics: Items<ColumnStats>,
    /// How many rows a group of the row index has; 0 if there is no row index.
    pub row_index_stride: u32,
    /// The number of the program that wrote the file.
    pub writer: Option<u32>,
    /// The fields from 10 up as they stood, each with its key, one after the other.
    pub kept: Bytes,
}

impl Message for Footer {
    ghost use Rattle.orc_wire.specs.Messages.{footer};
    ghost use Rattle.orc_wire.specs.CanonicalMessages.{footer_text, footer_complete};

    ghost members = { footer };

    ghost canonical = { footer_text };

    ghost REQUIRED = { 0 };

    const REQUIRED: u32 = 0;

    type Seen = ();

    fn empty(alloc: Global) -> Footer {
        Footer {
            header_length: 0,
            content_length: 0,
            stripes: Items::empty(alloc),
            types: Items::empty(alloc),
            metadata: Items::empty(alloc),
            number_of_rows: 0,
            statistics: Items::empty(alloc),
            row_index_stride: 0,
            writer: None,
            kept: Items::empty(alloc),
        }
    }

    fn take(&mut self, alloc: Global, field: &Field) -> Result<(), WireFault> {
        take_u64(&mut self.header_length, 1, field);
        take_u64(&mut self.content_length, 2, field);
        take_each(alloc, &mut self.stripes, 3, field)?;
        take_each(alloc, &mut self.types, 4, field)?;
        take_each(alloc, &mut self.metadata, 5, field)?;
        take_u64(&mut self.number_of_rows, 6, field);
        take_each(alloc, &mut self.statistics, 7, field)?;
        take_u32(&mut self.row_index_stride, 8, field)?;
        take_known_u32(&mut self.writer, 9, field)?;
        take_kept(&mut self.kept, 10, field)
    }

    fn nothing_seen() -> () {
        ()
    }

    fn test(_seen: &mut (), field: &Field) -> Result<(), WireFault> {
        test_each::<StripeInfo>(3, field)?;
        test_each::<TypeMsg>(4, field)?;
        test_each::<UserMetadataItem>(5, field)?;
        test_each::<ColumnStats>(7, field)?;
        test_small(8, field)?;
        test_small(9, field)
    }

    fn put_members(&self, out: &mut Vec<u8>) -> Result<(), WireFault> {
        put_number(1, self.header_length, out)?;
        put_number(2, self.content_length, out)?;
        put_each(3, self.stripes.as_slice(), out)?;
        put_each(4, self.types.as_slice(), out)?;
        put_each(5, self.metadata.as_slice(), out)?;
        put_number(6, self.number_of_rows, out)?;
        put_each(7, self.statistics.as_slice(), out)?;
        put_number(8, u64::from(self.row_index_stride), out)?;
        put_known_u32(9, self.writer, out)?;
        put_kept(&self.kept, out)
    }

    ghost complete = { footer_complete };
}
