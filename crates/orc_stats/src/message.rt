//! Reads statistics from their messages in a file, and makes these messages.
ghost use Rattle.std.specs.Prelude.{◌≡◌, IfOk, IfErr, true};
ghost use Rattle.orc_stats.specs.Messages as spec;
ghost use Rattle.orc_stats.specs.Messages.{stat_read, body_read, few_trues, in_limits, message_of, takes_memory};
ghost use Rattle.orc_stats.specs.Joining.{trues_of};
ghost use Rattle.orc_stats.specs.Faults.{MessageFault};
ghost use Rattle.orc_stats.specs.declared.kind.StatKind.TheVariants as kind_name;
ghost use Rattle.orc_stats.specs.declared.fault.StatFault.TheVariants.{OutOfMemory};

use crate::fault::StatFault;
use crate::kind::StatKind;
use crate::records::{
    bins_body, bins_record, bools_body, bools_record, children_body, children_record, dates_body,
    dates_record, ints_body, ints_record, texts_body, texts_record,
};
use crate::stat::{Body, Stat};
use crate::tally::MOST_VALUES;
use orc_wire::ColumnStats;
use std::alloc::{AllocError, Global};

impl Stat {
    /// Reads the statistic of a column of a kind from its message (ORC specification, "Column Statistics"). Only the
    /// record of that kind counts, and if there are no values, it means nothing.
    ///
    /// # Errors
    ///
    /// - `CountTooLarge`, if and only if there are more than 2^62 values, or more than 2^62 true ones.
    /// - `OutOfMemory`, which comes only for texts.
    pub fn read(alloc: Global, kind: StatKind, message: &ColumnStats) -> Result<Stat, StatFault>
        // A returned statistic has the message's `number_of_values` as its count, the message's `has_null`, and the
        // parts that the record of `kind` stores. If the message counts no values, each part is unknown, whatever the
        // record stores.
        ensures found { IfOk result (λ s. s ≡ stat_read kind message.now) }
        // `CountTooLarge` is returned if and only if the message counts more than 2^62 values, or if `kind` is that
        // of BOOLEAN columns, the message counts a value, and its record counts more than 2^62 true ones.
        // `OutOfMemory` is the only other error and comes only for the kind of STRING columns.
        ensures limits { IfOk result (λ s. in_limits s ≡ true) }
        ensures fault { IfErr result (MessageFault kind message.now) }
    {
        if message.number_of_values > MOST_VALUES {
            return Err(StatFault::CountTooLarge);
        }
        let body = if message.number_of_values == 0 {
            unknown(kind)
        } else {
            body_of(alloc, kind, message)?
        };
        if !has_few_trues(&body) {
            return Err(StatFault::CountTooLarge);
        }
        Ok(Stat {
            count: message.number_of_values,
            nulls: message.has_null,
            body,
        })
    }

    /// Makes the message of the statistic (ORC specification, "Column Statistics"). It has the record of the
    /// statistic's kind if a part is known.
    ///
    /// # Errors
    ///
    /// `OutOfMemory`, which comes only if a text or the number of true values is known.
    #[inline(always)]
    pub fn put(&self, alloc: Global) -> Result<ColumnStats, StatFault>
        // A returned message has the statistic's count and `nulls`, the record of the statistic's kind if a part is
        // known, and no other record.
        ensures put { IfOk result (λ m. m ≡ message_of self.now) }
        // The only error is `OutOfMemory`, which comes only if a least or a greatest text or a number of true values is
        // known.
        ensures fault { IfErr result (λ fault. (fault ≡ OutOfMemory) × (takes_memory self.now.body ≡ true)) }
    {
        let mut message = ColumnStats {
            number_of_values: self.count,
            int_statistics: None,
            string_statistics: None,
            bucket_statistics: None,
            date_statistics: None,
            binary_statistics: None,
            has_null: self.nulls,
            collection_statistics: None,
        };
        match &self.body {
            Body::Plain => {}
            Body::Ints {
                least,
                greatest,
                sum,
            } => message.int_statistics = ints_record(*least, *greatest, *sum),
            Body::Bools { trues } => message.bucket_statistics = bools_record(alloc, *trues)?,
            Body::Dates { least, greatest } => {
                message.date_statistics = dates_record(*least, *greatest);
            }
            Body::Texts {
                least,
                greatest,
                sum,
            } => message.string_statistics = texts_record(alloc, least, greatest, *sum)?,
            Body::Bins { sum } => message.binary_statistics = bins_record(*sum),
            Body::Children {
                least,
                greatest,
                total,
            } => message.collection_statistics = children_record(*least, *greatest, *total),
        }
        Ok(message)
    }
}

/// Returns the body of a kind in which no part is known.
pub(crate) fn unknown(kind: StatKind) -> Body
    ensures { result ≡ spec.unknown kind }
{
    match kind {
        StatKind::Plain => Body::Plain,
        StatKind::Ints => ints_body(&None),
        StatKind::Bools => bools_body(&None),
        StatKind::Dates => dates_body(&None),
        StatKind::Texts => Body::Texts {
            least: None,
            greatest: None,
            sum: None,
        },
        StatKind::Bins => bins_body(&None),
        StatKind::Children => children_body(&None),
    }
}

/// Reads the body of a kind from the message's record of that kind.
fn body_of(alloc: Global, kind: StatKind, message: &ColumnStats) -> Result<Body, AllocError>
    ensures found { IfOk result (λ body. body ≡ body_read kind message.now) }
    ensures fault { IfErr result (λ _. kind ≡ kind_name.Texts) }
{
    match kind {
        StatKind::Plain => Ok(Body::Plain),
        StatKind::Ints => Ok(ints_body(&message.int_statistics)),
        StatKind::Bools => Ok(bools_body(&message.bucket_statistics)),
        StatKind::Dates => Ok(dates_body(&message.date_statistics)),
        StatKind::Texts => texts_body(alloc, &message.string_statistics),
        StatKind::Bins => Ok(bins_body(&message.binary_statistics)),
        StatKind::Children => Ok(children_body(&message.collection_statistics)),
    }
}

/// Returns whether at most 2^62 values are true, or their number is unknown.
fn has_few_trues(body: &Body) -> bool
    ensures { result ≡ few_trues (trues_of body.now) }
{
    match body {
        Body::Bools { trues: Some(trues) } => *trues <= MOST_VALUES,
        _ => true,
    }
}
