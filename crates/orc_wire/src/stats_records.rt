//! The records of a column's statistics, one for each kind of column. A part that is missing is not
//! known.
use crate::canonical::{
    put_known_i32, put_known_i64, put_known_text, put_known_u64, put_packed_u64,
};
use crate::fault::WireFault;
use crate::field::Field;
use crate::items::{Bytes, Items};
use crate::lists::{take_known_text, take_packed_u64, test_packed};
use crate::members::{take_known_i32, take_known_i64, take_known_u64, test_small};
use crate::message::Message;
use std::alloc::Global;

/// Statistics of integers (ORC specification, "Column Statistics", IntegerStatistics).
#[derive(Clone, Copy, Debug, PartialEq, Eq)]
pub struct IntegerStatistics {
    /// The least value.
    pub minimum: Option<i64>,
    /// The greatest value.
    pub maximum: Option<i64>,
    /// The sum of all values.
    pub sum: Option<i64>,
}

impl Message for IntegerStatistics {
    ghost use Rattle.orc_wire.specs.Messages.{integer_stats};
    ghost use Rattle.orc_wire.specs.CanonicalMessages.{integer_stats_text, integer_stats_complete};

    ghost members = { integer_stats };

    ghost canonical = { integer_stats_text };

    ghost REQUIRED = { 0 };

    const REQUIRED: u32 = 0;

    type Seen = ();

    fn empty(_alloc: Global) -> IntegerStatistics {
        IntegerStatistics {
            minimum: None,
            maximum: None,
            sum: None,
        }
    }

    fn take(&mut self, _alloc: Global, field: &Field) -> Result<(), WireFault> {
        take_known_i64(&mut self.minimum, 1, field);
        take_known_i64(&mut self.maximum, 2, field);
        take_known_i64(&mut self.sum, 3, field);
        Ok(())
    }

    fn nothing_seen() -> () {
        ()
    }

    fn test(_seen: &mut (), _field: &Field) -> Result<(), WireFault> {
        Ok(())
    }

    fn put_members(&self, out: &mut Vec<u8>) -> Result<(), WireFault> {
        put_known_i64(1, self.minimum, out)?;
        put_known_i64(2, self.maximum, out)?;
        put_known_i64(3, self.sum, out)
    }

    ghost complete = { integer_stats_complete };
}

/// Statistics of texts (StringStatistics).
#[derive(Debug, Drop)]
pub struct StringStatistics {
    /// The least text, by its bytes.
    pub minimum: Option<Bytes>,
    /// The greatest text, by its bytes.
    pub maximum: Option<Bytes>,
    /// The sum of the texts' lengths, in bytes.
    pub sum: Option<i64>,
}

impl Message for StringStatistics {
    ghost use Rattle.orc_wire.specs.Messages.{string_stats};
    ghost use Rattle.orc_wire.specs.CanonicalMessages.{string_stats_text, string_stats_complete};

    ghost members = { string_stats };

    ghost canonical = { string_stats_text };

    ghost REQUIRED = { 0 };

    const REQUIRED: u32 = 0;

    type Seen = ();

    fn empty(_alloc: Global) -> StringStatistics {
        StringStatistics {
            minimum: None,
            maximum: None,
            sum: None,
        }
    }

    fn take(&mut self, alloc: Global, field: &Field) -> Result<(), WireFault> {
        take_known_text(alloc, &mut self.minimum, 1, field)?;
        take_known_text(alloc, &mut self.maximum, 2, field)?;
        take_known_i64(&mut self.sum, 3, field);
        Ok(())
    }

    fn nothing_seen() -> () {
        ()
    }

    fn test(_seen: &mut (), _field: &Field) -> Result<(), WireFault> {
        Ok(())
    }

    fn put_members(&self, out: &mut Vec<u8>) -> Result<(), WireFault> {
        put_known_text(1, &self.minimum, out)?;
        put_known_text(2, &self.maximum, out)?;
        put_known_i64(3, self.sum, out)
    }

    ghost complete = { string_stats_complete };
}

/// Statistics of truth values (BucketStatistics).
#[derive(Debug, Drop)]
pub struct BucketStatistics {
    /// How many values fall in each bucket; the first counts the values that are true.
    pub count: Items<u64>,
}

impl Message for BucketStatistics {
    ghost use Rattle.orc_wire.specs.Messages.{bucket_stats};
    ghost use Rattle.orc_wire.specs.CanonicalMessages.{bucket_stats_text, bucket_stats_complete};

    ghost members = { bucket_stats };

    ghost canonical = { bucket_stats_text };

    ghost REQUIRED = { 0 };

    const REQUIRED: u32 = 0;

    type Seen = ();

    fn empty(alloc: Global) -> BucketStatistics {
        BucketStatistics {
            count: Items::empty(alloc),
        }
    }

    fn take(&mut self, _alloc: Global, field: &Field) -> Result<(), WireFault> {
        take_packed_u64(&mut self.count, 1, field)
    }

    fn nothing_seen() -> () {
        ()
    }

    fn test(_seen: &mut (), field: &Field) -> Result<(), WireFault> {
        test_packed(1, u64::MAX, field)
    }

    fn put_members(&self, out: &mut Vec<u8>) -> Result<(), WireFault> {
        put_packed_u64(1, self.count.as_slice(), out)
    }

    ghost complete = { bucket_stats_complete };
}

/// Statistics of dates (DateStatistics).
#[derive(Clone, Copy, Debug, PartialEq, Eq)]
pub struct DateStatistics {
    /// The least date, in days since 1970-01-01.
    pub minimum: Option<i32>,
    /// The greatest date, in days since 1970-01-01.
    pub maximum: Option<i32>,
}

impl Message for DateStatistics {
    ghost use Rattle.orc_wire.specs.Messages.{date_stats};
    ghost use Rattle.orc_wire.specs.CanonicalMessages.{date_stats_text, date_stats_complete};

    ghost members = { date_stats };

    ghost canonical = { date_stats_text };

    ghost REQUIRED = { 0 };

    const REQUIRED: u32 = 0;

    type Seen = ();

    fn empty(_alloc: Global) -> DateStatistics {
        DateStatistics {
            minimum: None,
            maximum: None,
        }
    }

    fn take(&mut self, _alloc: Global, field: &Field) -> Result<(), WireFault> {
        take_known_i32(&mut self.minimum, 1, field)?;
        take_known_i32(&mut self.maximum, 2, field)
    }

    fn nothing_seen() -> () {
        ()
    }

    fn test(_seen: &mut (), field: &Field) -> Result<(), WireFault> {
        test_small(1, field)?;
        test_small(2, field)
    }

    fn put_members(&self, out: &mut Vec<u8>) -> Result<(), WireFault> {
        put_known_i32(1, self.minimum, out)?;
        put_known_i32(2, self.maximum, out)
    }

    ghost complete = { date_stats_complete };
}

/// Statistics of byte strings (BinaryStatistics).
#[derive(Clone, Copy, Debug, PartialEq, Eq)]
pub struct BinaryStatistics {
    /// The sum of the values' lengths, in bytes.
    pub sum: Option<i64>,
}

impl Message for BinaryStatistics {
    ghost use Rattle.orc_wire.specs.Messages.{binary_stats};
    ghost use Rattle.orc_wire.specs.CanonicalMessages.{binary_stats_text, binary_stats_complete};

    ghost members = { binary_stats };

    ghost canonical = { binary_stats_text };

    ghost REQUIRED = { 0 };

    const REQUIRED: u32 = 0;

    type Seen = ();

    fn empty(_alloc: Global) -> BinaryStatistics {
        BinaryStatistics { sum: None }
    }

    fn take(&mut self, _alloc: Global, field: &Field) -> Result<(), WireFault> {
        take_known_i64(&mut self.sum, 1, field);
        Ok(())
    }

    fn nothing_seen() -> () {
        ()
    }

    fn test(_seen: &mut (), _field: &Field) -> Result<(), WireFault> {
        Ok(())
    }

    fn put_members(&self, out: &mut Vec<u8>) -> Result<(), WireFault> {
        put_known_i64(1, self.sum, out)
    }

    ghost complete = { binary_stats_complete };
}

/// Statistics of lists and maps (CollectionStatistics): of how many elements, or pairs, each has.
#[derive(Clone, Copy, Debug, PartialEq, Eq)]
pub struct CollectionStatistics {
    /// The least number of children.
    pub min_children: Option<u64>,
    /// The greatest number of children.
    pub max_children: Option<u64>,
    /// How many children all have together.
    pub total_children: Option<u64>,
}

impl Message for CollectionStatistics {
    ghost use Rattle.orc_wire.specs.Messages.{collection_stats};
    ghost use Rattle.orc_wire.specs.CanonicalMessages.{collection_stats_text, collection_stats_complete};

    ghost members = { collection_stats };

    ghost canonical = { collection_stats_text };

    ghost REQUIRED = { 0 };

    const REQUIRED: u32 = 0;

    type Seen = ();

    fn empty(_alloc: Global) -> CollectionStatistics {
        CollectionStatistics {
            min_children: None,
            max_children: None,
            total_children: None,
        }
    }

    fn take(&mut self, _alloc: Global, field: &Field) -> Result<(), WireFault> {
        take_known_u64(&mut self.min_children, 1, field);
        take_known_u64(&mut self.max_children, 2, field);
        take_known_u64(&mut self.total_children, 3, field);
        Ok(())
    }

    fn nothing_seen() -> () {
        ()
    }

    fn test(_seen: &mut (), _field: &Field) -> Result<(), WireFault> {
        Ok(())
    }

    fn put_members(&self, out: &mut Vec<u8>) -> Result<(), WireFault> {
        put_known_u64(1, self.min_children, out)?;
        put_known_u64(2, self.max_children, out)?;
        put_known_u64(3, self.total_children, out)
    }

    ghost complete = { collection_stats_complete };
}
