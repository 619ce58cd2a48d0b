//! The statistics of a column, of a stripe's columns, and of all stripes of a file.
use crate::canonical::{put_each, put_known_flag, put_number, put_shown};
use crate::fault::WireFault;
use crate::field::Field;
use crate::inner::{take_each, take_only, test_each, test_only};
use crate::items::Items;
use crate::members::{take_known_flag, take_u64};
use crate::message::Message;
use crate::stats_records::{
    BinaryStatistics, BucketStatistics, CollectionStatistics, DateStatistics, IntegerStatistics,
    StringStatistics,
};
use std::alloc::Global;

/// Statistics of a column (ORC specification, "Column Statistics"). A record of which no part is
/// known is not written.
#[derive(Debug, Drop)]
pub struct ColumnStats {
    /// How many values are not null.
    pub number_of_values: u64,
    /// What is known of a column of integers.
    pub int_statistics: Option<IntegerStatistics>,
    /// What is known of a column of texts.
    pub string_statistics: Option<StringStatistics>,
    /// What is known of a column of truth values.
    pub bucket_statistics: Option<BucketStatistics>,
    /// What is known of a column of dates.
    pub date_statistics: Option<DateStatistics>,
    /// What is known of a column of byte strings.
    pub binary_statistics: Option<BinaryStatistics>,
    /// Whether a value is null, if that is known.
    pub has_null: Option<bool>,
    /// What is known of a column of lists or maps.
    pub collection_statistics: Option<CollectionStatistics>,
}

/// Which of the statistics of a column's message have occurred.
#[derive(Clone, Copy, Debug)]
pub struct SeenStatistics {
    int_statistics: bool,
    string_statistics: bool,
    bucket_statistics: bool,
    date_statistics: bool,
    binary_statistics: bool,
    collection_statistics: bool,
}

impl Message for ColumnStats {
    ghost use Rattle.orc_wire.specs.Seen.{SeesStatistics};
    ghost use Rattle.orc_wire.specs.Messages.{column_statistics};
    ghost use Rattle.orc_wire.specs.CanonicalMessages.{column_stats_text, column_stats_complete};

    ghost members = { column_statistics };

    ghost canonical = { column_stats_text };

    ghost REQUIRED = { 0 };

    ghost sees = { λ seen m. SeesStatistics seen m };

    const REQUIRED: u32 = 0;

    type Seen = SeenStatistics;

    fn empty(_alloc: Global) -> ColumnStats {
        ColumnStats {
            number_of_values: 0,
            int_statistics: None,
            string_statistics: None,
            bucket_statistics: None,
            date_statistics: None,
            binary_statistics: None,
            has_null: None,
            collection_statistics: None,
        }
    }

    fn take(&mut self, alloc: Global, field: &Field) -> Result<(), WireFault> {
        take_u64(&mut self.number_of_values, 1, field);
        take_only(alloc, &mut self.int_statistics, 2, field)?;
        take_only(alloc, &mut self.string_statistics, 4, field)?;
        take_only(alloc, &mut self.bucket_statistics, 5, field)?;
        take_only(alloc, &mut self.date_statistics, 7, field)?;
        take_only(alloc, &mut self.binary_statistics, 8, field)?;
        take_known_flag(&mut self.has_null, 10, field);
        take_only(alloc, &mut self.collection_statistics, 12, field)
    }

    fn nothing_seen() -> SeenStatistics {
        SeenStatistics {
            int_statistics: false,
            string_statistics: false,
            bucket_statistics: false,
            date_statistics: false,
            binary_statistics: false,
            collection_statistics: false,
        }
    }

    fn test(seen: &mut SeenStatistics, field: &Field) -> Result<(), WireFault> {
        test_only::<IntegerStatistics>(&mut seen.int_statistics, 2, field)?;
        test_only::<StringStatistics>(&mut seen.string_statistics, 4, field)?;
        test_only::<BucketStatistics>(&mut seen.bucket_statistics, 5, field)?;
        test_only::<DateStatistics>(&mut seen.date_statistics, 7, field)?;
        test_only::<BinaryStatistics>(&mut seen.binary_statistics, 8, field)?;
        test_only::<CollectionStatistics>(&mut seen.collection_statistics, 12, field)
    }

    fn put_members(&self, out: &mut Vec<u8>) -> Result<(), WireFault> {
        put_number(1, self.number_of_values, out)?;
        put_shown(2, &self.int_statistics, out)?;
        put_shown(4, &self.string_statistics, out)?;
        put_shown(5, &self.bucket_statistics, out)?;
        put_shown(7, &self.date_statistics, out)?;
        put_shown(8, &self.binary_statistics, out)?;
        put_known_flag(10, self.has_null, out)?;
        put_shown(12, &self.collection_statistics, out)
    }

    ghost complete = { column_stats_complete };
}

/// The statistics of a stripe's columns, in the order of the types (StripeStatistics).
#[derive(Debug, Drop)]
pub struct StripeStatistics {
    /// One for each type.
    pub col_stats: Items<ColumnStats>,
}

impl Message for StripeStatistics {
    ghost use Rattle.orc_wire.specs.Messages.{stripe_stats};
    ghost use Rattle.orc_wire.specs.CanonicalMessages.{stripe_stats_text, stripe_stats_complete};

    ghost members = { stripe_stats };

    ghost canonical = { stripe_stats_text };

    ghost REQUIRED = { 0 };

    const REQUIRED: u32 = 0;

    type Seen = ();

    fn empty(alloc: Global) -> StripeStatistics {
        StripeStatistics {
            col_stats: Items::empty(alloc),
        }
    }

    fn take(&mut self, alloc: Global, field: &Field) -> Result<(), WireFault> {
        take_each(alloc, &mut self.col_stats, 1, field)
    }

    fn nothing_seen() -> () {
        ()
    }

    fn test(_seen: &mut (), field: &Field) -> Result<(), WireFault> {
        test_each::<ColumnStats>(1, field)
    }

    fn put_members(&self, out: &mut Vec<u8>) -> Result<(), WireFault> {
        put_each(1, self.col_stats.as_slice(), out)
    }

    ghost complete = { stripe_stats_complete };
}

/// The statistics of a file's stripes, in their order (ORC specification, "File Tail", Metadata).
#[derive(Debug, Drop)]
pub struct Metadata {
    /// One for each stripe.
    pub stripe_stats: Items<StripeStatistics>,
}

impl Message for Metadata {
    ghost use Rattle.orc_wire.specs.Messages.{metadata};
    ghost use Rattle.orc_wire.specs.CanonicalMessages.{metadata_text, metadata_complete};

    ghost members = { metadata };

    ghost canonical = { metadata_text };

    ghost REQUIRED = { 0 };

    const REQUIRED: u32 = 0;

    type Seen = ();

    fn empty(alloc: Global) -> Metadata {
        Metadata {
            stripe_stats: Items::empty(alloc),
        }
    }

    fn take(&mut self, alloc: Global, field: &Field) -> Result<(), WireFault> {
        take_each(alloc, &mut self.stripe_stats, 1, field)
    }

    fn nothing_seen() -> () {
        ()
    }

    fn test(_seen: &mut (), field: &Field) -> Result<(), WireFault> {
        test_each::<StripeStatistics>(1, field)
    }

    fn put_members(&self, out: &mut Vec<u8>) -> Result<(), WireFault> {
        put_each(1, self.stripe_stats.as_slice(), out)
    }

    ghost complete = { metadata_complete };
}
