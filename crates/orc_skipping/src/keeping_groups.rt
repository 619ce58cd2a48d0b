//! The groups of a stripe's rows that the bold rule keeps, by the entries of a column's row index.
ghost use Rattle.std.specs.Prelude.{◌≡◌, ◌++◌, OnOk};
ghost use Rattle.std.specs.List.{AllByRecursion};
ghost use Rattle.orc_skipping.specs.Groups.{CountsFew, groups_kept};
ghost use Rattle.orc_skipping.specs.Tests.{predicate};

use crate::keeping_message::keeps_message;
use crate::test_of_column::Test;
use orc_stats::StatKind;
use orc_wire::RowIndexEntry;
use std::alloc::{AllocError, Global};

/// A group of rows: the number of its stripe, and its own among the stripe's groups.
#[derive(Clone, Copy, Debug, PartialEq, Eq)]
pub struct GroupPlace {
    pub stripe: usize,
    pub group: usize,
}

/// Appends the groups that the bold rule keeps, of those that the entries are about. A group whose
/// entry has no statistic is kept.
///
/// # Errors
///
/// `AllocError` if memory runs out. Some of the groups may then have been appended.
pub fn keep_groups(
    alloc: Global,
    entries: &[RowIndexEntry],
    kind: StatKind,
    stripe: usize,
    test: &Test,
    places: &mut Vec<GroupPlace>,
) -> Result<(), AllocError>
    // If no entry counts more than a statistic may, a success has appended exactly the groups that
    // the bold rule keeps, in order.
    ensures kept { AllByRecursion (CountsFew kind) entries.now
        → OnOk result (places.new.items
        ≡ places.old.items ++ groups_kept kind (predicate test.now) stripe 0 entries.now) }
{
    for group in 0..entries.len() {
        if keeps_message(alloc, &entries[group].statistics, kind, test)? {
            places.push(GroupPlace { stripe, group })?;
        }
    }
    Ok(())
}
