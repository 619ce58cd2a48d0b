//! Reads the statistics of columns from their messages.
ghost use Rattle.std.specs.Prelude.{◌≡◌, ◌⊎◌, ◌≤◌, length, true, false, List, IfOk, IfErr};
ghost use Rattle.std.specs.List.{list_all};
ghost use Rattle.orc_values.specs.Shapes.{width};
ghost use Rattle.orc_stats.specs.Messages.{stat_read, in_limits};
ghost use Rattle.orc_tail.specs.Statistics.{kind_of_number, have_few, stats_read, stripe_stats_read};
ghost use Rattle.orc_tail.specs.declared.fault.FileFault.TheVariants.{OutOfMemory, Limit};

use crate::fault::FileFault;
use orc_stats::{Stat, StatFault, StatKind};
use orc_types::Schema;
use orc_values::Scalar;
use orc_wire::{ColumnStats, Items, StripeStatistics, TypeMsg};
use std::alloc::Global;

/// The number of kind LIST in a list of types.
const LIST: u32 = 10;

/// The number of kind MAP in a list of types.
const MAP: u32 = 11;

/// Returns the kind of statistics that a column of this type has.
pub(crate) fn kind_of_type(type_of: &TypeMsg) -> StatKind
    ensures { result ≡ kind_of_number type_of.now.kind }
{
    match Scalar::from_number(type_of.kind) {
        Some(kind) => StatKind::of_scalar(kind),
        None if type_of.kind == LIST || type_of.kind == MAP => StatKind::Children,
        None => StatKind::Plain,
    }
}

/// Reads a statistic of this kind.
fn stat_in(alloc: Global, kind: StatKind, message: &ColumnStats) -> Result<Stat, FileFault>
    ensures found { IfOk result (λ s. s ≡ stat_read kind message.now) }
    ensures limits { IfOk result (λ s. in_limits (stat_read kind message.now) ≡ true) }
    ensures fault { IfErr result (λ fault. (fault ≡ OutOfMemory)
        ⊎ ((fault ≡ Limit) × (in_limits (stat_read kind message.now) ≡ false))) }
{
    match Stat::read(alloc, kind, message) {
        Ok(stat) => Ok(stat),
        Err(StatFault::CountTooLarge) => Err(FileFault::Limit),
        Err(StatFault::OutOfMemory) => Err(FileFault::OutOfMemory),
    }
}

/// Reads the statistics of a schema's columns.
pub(crate) fn stats_in(
    alloc: Global,
    schema: &Schema,
    messages: &[ColumnStats],
) -> Result<Items<Stat>, FileFault>
    requires few { length messages.now ≤ width schema.now }
    ensures found { IfOk result (λ stats. stats ≡ stats_read schema.now 0 messages.now) }
    ensures limits { IfOk result (λ stats. list_all in_limits (stats_read schema.now 0 messages.now) ≡ true) }
    ensures fault { IfErr result (λ fault. (fault ≡ OutOfMemory)
        ⊎ ((fault ≡ Limit) × (list_all in_limits (stats_read schema.now 0 messages.now) ≡ false))) }
{
    let types = schema.types();
    let mut stats = Vec::with_capacity(alloc, messages.len())?;
    for (column, message) in messages.iter().enumerate() {
        let kind = kind_of_type(&types[column]);
        stats.push(stat_in(alloc, kind, message)?)?;
    }
    Ok(Items::from_vec(stats))
}

/// Reads the statistics of a schema's columns for each stripe.
pub(crate) fn stripe_stats_in(
    alloc: Global,
    schema: &Schema,
    messages: &[StripeStatistics],
) -> Result<Items<Items<Stat>>, FileFault>
    requires few { have_few (width schema.now) messages.now ≡ true }
    ensures found { IfOk result (λ stats. stats ≡ stripe_stats_read schema.now messages.now) }
    ensures limits { IfOk result
        (λ stats. list_all (list_all in_limits) (stripe_stats_read schema.now messages.now) ≡ true) }
    ensures fault { IfErr result (λ fault. (fault ≡ OutOfMemory)
        ⊎ ((fault ≡ Limit) × (list_all (list_all in_limits) (stripe_stats_read schema.now messages.now) ≡ false))) }
{
    let mut stats = Vec::with_capacity(alloc, messages.len())?;
    for message in messages {
        stats.push(stats_in(alloc, schema, message.col_stats.as_slice())?)?;
    }
    Ok(Items::from_vec(stats))
}
