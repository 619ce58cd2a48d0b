//! The statistics of a file's columns, joined from those of its stripes.
ghost use Rattle.std.specs.Prelude.{◌≡◌, ◌≤◌, ◌<◌, ◌^◌, ◌⊎◌, ℕ, true, sum_by, All, IfOk, OnOk, IfErr};
ghost use Rattle.orc_values.specs.Shapes.{width};
ghost use Rattle.orc_stats.specs.declared.stat.Stat.{Stat};
ghost use Rattle.orc_stats.specs.declared.fault.StatFault.TheVariants as fault;
ghost use Rattle.orc_stats.specs.Kinds.{body_is_of};
ghost use Rattle.orc_tail.specs.Statistics.{kind_at, file_stats, column_stats};

use crate::tail::statistics::kind_of_type;
use orc_stats::{Body, Stat, StatFault, join_all};
use orc_types::Schema;
use orc_wire::{Bytes, Items};
use std::alloc::{AllocError, Global};

/// Copies bytes, if there are any.
fn copy_bytes(alloc: Global, bytes: &Option<Bytes>) -> Result<Option<Bytes>, AllocError>
    ensures { IfOk result (λ copy. copy ≡ bytes.now) }
{
    match bytes {
        None => Ok(None),
        Some(bytes) => Ok(Some(Items::from_vec(bytes.as_slice().to_vec(alloc)?))),
    }
}

/// Copies a statistic.
fn copy_stat(alloc: Global, stat: &Stat) -> Result<Stat, AllocError>
    ensures { IfOk result (λ copy. copy ≡ stat.now) }
{
    let body = match &stat.body {
        Body::Plain => Body::Plain,
        Body::Ints {
            least,
            greatest,
            sum,
        } => Body::Ints {
            least: *least,
            greatest: *greatest,
            sum: *sum,
        },
        Body::Bools { trues } => Body::Bools { trues: *trues },
        Body::Dates { least, greatest } => Body::Dates {
            least: *least,
            greatest: *greatest,
        },
        Body::Texts {
            least,
            greatest,
            sum,
        } => Body::Texts {
            least: copy_bytes(alloc, least)?,
            greatest: copy_bytes(alloc, greatest)?,
            sum: *sum,
        },
        Body::Bins { sum } => Body::Bins { sum: *sum },
        Body::Children {
            least,
            greatest,
            total,
        } => Body::Children {
            least: *least,
            greatest: *greatest,
            total: *total,
        },
    };
    Ok(Stat {
        count: stat.count,
        nulls: stat.nulls,
        body,
    })
}

/// Copies the statistics of a column from each stripe that has one.
fn of_column(alloc: Global, stats: &[Items<Stat>], column: usize) -> Result<Vec<Stat>, AllocError>
    ensures { IfOk result (λ found. found.items ≡ column_stats column stats.now) }
{
    let mut found = Vec::new(alloc);
    for stripe in stats {
        if let Some(stat) = stripe.as_slice().get(column) {
            found.push(copy_stat(alloc, stat)?)?;
        }
    }
    Ok(found)
}

/// Joins the statistics of stripes to one statistic for each column of the file (ORC specification, "Column
/// Statistics"). Each stripe's statistics are in the order of the columns, and each must be of its column's kind.
///
/// # Errors
///
/// - `CountTooLarge` if a column has more than 2^62 values;
/// - `OutOfMemory` if there is no memory.
pub fn file_statistics(
    alloc: Global,
    schema: &Schema,
    stats: &[Items<Stat>],
) -> Result<Vec<Stat>, StatFault>
    requires kinds { (c : ℕ) → c < width schema.now
        → All (λ (s : Stat). body_is_of (kind_at schema.now c) s.body ≡ true) (column_stats c stats.now) }
    // If each statistic of a stripe is of its column's kind and the call succeeds, then the answer has one statistic
    // for each column of `schema`, in order: the one that joins the statistics that the stripes have of this column.
    ensures found { IfOk result (λ found. found.items ≡ file_stats schema.now stats.now) }
    // If each statistic of a stripe is of its column's kind and the call succeeds, then for each column of `schema` the
    // counts of values in the stripes' statistics are together at most 2^62.
    ensures few { OnOk result ((c : ℕ) → c < width schema.now
        → sum_by (λ (s : Stat). s.count) (column_stats c stats.now) ≤ 2 ^ 62) }
    // If each statistic of a stripe is of its column's kind, then an error is `OutOfMemory` or `CountTooLarge`, and
    // `CountTooLarge` comes only if for some column of `schema` the counts of values in the stripes' statistics are
    // together more than 2^62.
    ensures fault { IfErr result (λ e. (e ≡ fault.OutOfMemory)
        ⊎ ((e ≡ fault.CountTooLarge) × (c : ℕ) × (c < width schema.now)
        × (2 ^ 62 < sum_by (λ (s : Stat). s.count) (column_stats c stats.now)))) }
{
    let types = schema.types();
    let mut found = Vec::new(alloc);
    for (column, type_of) in types.iter().enumerate() {
        let kind = kind_of_type(type_of);
        let stripes = of_column(alloc, stats, column)?;
        let stat = join_all(alloc, kind, &stripes)?;
        found.push(stat)?;
    }
    Ok(found)
}
