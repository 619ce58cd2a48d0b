//! The record of each kind in a column's message (ORC specification, "Column Statistics").
ghost use Rattle.std.specs.Prelude.{◌≡◌, IfOk, IfErr, ◌||◌, true};
ghost use Rattle.std.specs.Option.{is_some};
ghost use Rattle.orc_stats.specs.Messages as spec;

use crate::stat::Body;
use crate::text_parts::copy_part;
use orc_wire::{
    BinaryStatistics, BucketStatistics, Bytes, CollectionStatistics, DateStatistics,
    IntegerStatistics, Items, StringStatistics,
};
use std::alloc::{AllocError, Global};

/// Reads the record of whole numbers.
pub(crate) fn ints_body(found: &Option<IntegerStatistics>) -> Body
    ensures { result ≡ spec.ints_body found.now }
{
    match found {
        Some(record) => Body::Ints {
            least: record.minimum,
            greatest: record.maximum,
            sum: record.sum,
        },
        None => Body::Ints {
            least: None,
            greatest: None,
            sum: None,
        },
    }
}

/// Makes the record of whole numbers, or none if no part is known.
pub(crate) fn ints_record(
    least: Option<i64>,
    greatest: Option<i64>,
    sum: Option<i64>,
) -> Option<IntegerStatistics>
    ensures { result ≡ spec.ints_record least greatest sum }
{
    if least.is_some() || greatest.is_some() || sum.is_some() {
        Some(IntegerStatistics {
            minimum: least,
            maximum: greatest,
            sum,
        })
    } else {
        None
    }
}

/// Reads the buckets of truth values; the first one is the number of true values.
pub(crate) fn bools_body(found: &Option<BucketStatistics>) -> Body
    ensures { result ≡ spec.bools_body found.now }
{
    match found {
        Some(record) => Body::Bools {
            trues: record.count.as_slice().first().copied(),
        },
        None => Body::Bools { trues: None },
    }
}

/// Makes the buckets of truth values, or none if the number of true values is unknown.
pub(crate) fn bools_record(
    alloc: Global,
    trues: Option<u64>,
) -> Result<Option<BucketStatistics>, AllocError>
    ensures found { IfOk result (λ found. found ≡ spec.bools_record trues) }
    ensures fault { IfErr result (λ _. is_some trues ≡ true) }
{
    let Some(number) = trues else {
        return Ok(None);
    };
    let mut count = Vec::new(alloc);
    count.push(number)?;
    Ok(Some(BucketStatistics {
        count: Items::from_vec(count),
    }))
}

/// Reads the record of dates.
pub(crate) fn dates_body(found: &Option<DateStatistics>) -> Body
    ensures { result ≡ spec.dates_body found.now }
{
    match found {
        Some(record) => Body::Dates {
            least: record.minimum,
            greatest: record.maximum,
        },
        None => Body::Dates {
            least: None,
            greatest: None,
        },
    }
}

/// Makes the record of dates, or none if no part is known.
pub(crate) fn dates_record(least: Option<i32>, greatest: Option<i32>) -> Option<DateStatistics>
    ensures { result ≡ spec.dates_record least greatest }
{
    if least.is_some() || greatest.is_some() {
        Some(DateStatistics {
            minimum: least,
            maximum: greatest,
        })
    } else {
        None
    }
}

/// Reads the record of texts.
pub(crate) fn texts_body(
    alloc: Global,
    found: &Option<StringStatistics>,
) -> Result<Body, AllocError>
    ensures { IfOk result (λ body. body ≡ spec.texts_body found.now) }
{
    match found {
        Some(record) => Ok(Body::Texts {
            least: copy_part(alloc, &record.minimum)?,
            greatest: copy_part(alloc, &record.maximum)?,
            sum: record.sum,
        }),
        None => Ok(Body::Texts {
            least: None,
            greatest: None,
            sum: None,
        }),
    }
}

/// Makes the record of texts, or none if no part is known.
pub(crate) fn texts_record(
    alloc: Global,
    least: &Option<Bytes>,
    greatest: &Option<Bytes>,
    sum: Option<i64>,
) -> Result<Option<StringStatistics>, AllocError>
    ensures found { IfOk result (λ found. found ≡ spec.texts_record least.now greatest.now sum) }
    ensures fault { IfErr result (λ _. (is_some least.now || is_some greatest.now) ≡ true) }
{
    if least.is_some() || greatest.is_some() || sum.is_some() {
        Ok(Some(StringStatistics {
            minimum: copy_part(alloc, least)?,
            maximum: copy_part(alloc, greatest)?,
            sum,
        }))
    } else {
        Ok(None)
    }
}

/// Reads the record of byte strings.
pub(crate) fn bins_body(found: &Option<BinaryStatistics>) -> Body
    ensures { result ≡ spec.bins_body found.now }
{
    match found {
        Some(record) => Body::Bins { sum: record.sum },
        None => Body::Bins { sum: None },
    }
}

/// Makes the record of byte strings, or none if the sum is unknown.
pub(crate) fn bins_record(sum: Option<i64>) -> Option<BinaryStatistics>
    ensures { result ≡ spec.bins_record sum }
{
    match sum {
        Some(_) => Some(BinaryStatistics { sum }),
        None => None,
    }
}

/// Reads the record of lists or maps.
pub(crate) fn children_body(found: &Option<CollectionStatistics>) -> Body
    ensures { result ≡ spec.children_body found.now }
{
    match found {
        Some(record) => Body::Children {
            least: record.min_children,
            greatest: record.max_children,
            total: record.total_children,
        },
        None => Body::Children {
            least: None,
            greatest: None,
            total: None,
        },
    }
}

/// Makes the record of lists or maps, or none if no part is known.
pub(crate) fn children_record(
    least: Option<u64>,
    greatest: Option<u64>,
    total: Option<u64>,
) -> Option<CollectionStatistics>
    ensures { result ≡ spec.children_record least greatest total }
{
    if least.is_some() || greatest.is_some() || total.is_some() {
        Some(CollectionStatistics {
            min_children: least,
            max_children: greatest,
            total_children: total,
        })
    } else {
        None
    }
}
