//! The bold rule for a column's statistic as a file stores it.
ghost use Rattle.std.specs.Prelude.{◌≡◌, true, IfOk, IfSome};
ghost use Rattle.std.specs.Option.{option_map};
ghost use Rattle.orc_stats.specs.Messages.{stat_read, in_limits};
ghost use Rattle.orc_skipping.specs.Rules.{bold};
ghost use Rattle.orc_skipping.specs.Tests.{predicate};

use crate::keeping::keeps;
use crate::test_of_column::Test;
use orc_stats::{Stat, StatFault, StatKind};
use orc_wire::ColumnStats;
use std::alloc::{AllocError, Global};

/// Returns whether the bold rule keeps the rows of a column of a kind, by the message of its
/// statistic. Without a message, or if it counts more than 2^62 values, the rows are kept.
///
/// # Errors
///
/// `AllocError` if memory runs out, which only texts need.
pub fn keeps_message(
    alloc: Global,
    told: &Option<ColumnStats>,
    kind: StatKind,
    test: &Test,
) -> Result<bool, AllocError>
    // If the message counts no more than a statistic may, the answer is true exactly if the bold
    // rule keeps the rows.
    ensures kept { IfSome told.now (λ message. in_limits (stat_read kind message) ≡ true)
        → IfOk result (λ kept. kept ≡ bold (λ _. option_map (stat_read kind) told.now) (predicate test.now)) }
{
    match told {
        None => Ok(true),
        Some(message) => match Stat::read(alloc, kind, message) {
            Ok(read) => Ok(keeps(&read, test)),
            Err(StatFault::CountTooLarge) => Ok(true),
            Err(StatFault::OutOfMemory) => Err(AllocError),
        },
    }
}
