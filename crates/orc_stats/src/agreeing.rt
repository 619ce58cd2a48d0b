//! Tests whether a stored statistic of cells is right. It may lack numbers of children.
ghost use Rattle.std.specs.Prelude.{◌≡◌, ◌∷◌, []};
ghost use Rattle.std.specs.Bool.{OnTrue, OnFalse};
ghost use Rattle.orc_stats.specs.Joining.{least_children, greatest_children, total_children};
ghost use Rattle.orc_stats.specs.Known.{where_known, known_in, known_as, Agrees};
ghost use Rattle.orc_stats.specs.Messages.{texts_body, body_read, stat_read};

use crate::kind::StatKind;
use crate::message::unknown;
use crate::records::{bins_body, bools_body, children_body, dates_body, ints_body};
use crate::stat::{Body, Stat};
use orc_wire::{Bytes, ColumnStats, StringStatistics};

/// Returns whether two texts are the same, or both are unknown.
fn same_text(told: &Option<Bytes>, right: &Option<Bytes>) -> bool
    ensures yes { OnTrue result (told.now ≡ right.now) }
    ensures no { OnFalse result (told.now ≡ right.now → ⊥) }
{
    match (told, right) {
        (None, None) => true,
        (Some(told), Some(right)) => told.as_slice() == right.as_slice(),
        (None, Some(_)) | (Some(_), None) => false,
    }
}

/// Returns whether a number of children is the right one or is unknown.
fn is_part(told: Option<u64>, right: Option<u64>) -> bool
    ensures yes { OnTrue result (told ≡ where_known (told ∷ []) right) }
    ensures no { OnFalse result (told ≡ where_known (told ∷ []) right → ⊥) }
{
    match told {
        Some(_) => told == right,
        None => true,
    }
}

/// Returns whether the parts of a body are right; numbers of children may be unknown.
fn is_body(told: &Body, right: &Body) -> bool
    ensures yes { OnTrue result (told.now ≡ known_in (told.now ∷ []) right.now) }
    ensures no { OnFalse result (told.now ≡ known_in (told.now ∷ []) right.now → ⊥) }
{
    match (told, right) {
        (Body::Plain, Body::Plain) => true,
        (
            Body::Ints {
                least,
                greatest,
                sum,
            },
            Body::Ints {
                least: right_least,
                greatest: right_greatest,
                sum: right_sum,
            },
        ) => least == right_least && greatest == right_greatest && sum == right_sum,
        (Body::Bools { trues }, Body::Bools { trues: right }) => trues == right,
        (
            Body::Dates { least, greatest },
            Body::Dates {
                least: right_least,
                greatest: right_greatest,
            },
        ) => least == right_least && greatest == right_greatest,
        (
            Body::Texts {
                least,
                greatest,
                sum,
            },
            Body::Texts {
                least: right_least,
                greatest: right_greatest,
                sum: right_sum,
            },
        ) => {
            same_text(least, right_least) && same_text(greatest, right_greatest) && sum == right_sum
        }
        (Body::Bins { sum }, Body::Bins { sum: right }) => sum == right,
        (
            Body::Children {
                least,
                greatest,
                total,
            },
            Body::Children {
                least: right_least,
                greatest: right_greatest,
                total: right_total,
            },
        ) => {
            is_part(*least, *right_least)
                && is_part(*greatest, *right_greatest)
                && is_part(*total, *right_total)
        }
        _ => false,
    }
}

/// Returns whether a record of texts stores the right parts. It copies no text.
fn are_texts(told: &Option<StringStatistics>, right: &Body) -> bool
    ensures yes { OnTrue result (texts_body told.now ≡ known_in (texts_body told.now ∷ []) right.now) }
    ensures no { OnFalse result (texts_body told.now ≡ known_in (texts_body told.now ∷ []) right.now → ⊥) }
{
    match (told, right) {
        (
            Some(told),
            Body::Texts {
                least,
                greatest,
                sum,
            },
        ) => {
            same_text(&told.minimum, least)
                && same_text(&told.maximum, greatest)
                && told.sum == *sum
        }
        (
            None,
            Body::Texts {
                least: None,
                greatest: None,
                sum: None,
            },
        ) => true,
        _ => false,
    }
}

/// Returns whether a message stores the right parts of the values of a column of a kind.
fn values_tell(kind: StatKind, message: &ColumnStats, right: &Body) -> bool
    ensures yes { OnTrue result (body_read kind message.now ≡ known_in (body_read kind message.now ∷ []) right.now) }
    ensures no { OnFalse result
        (body_read kind message.now ≡ known_in (body_read kind message.now ∷ []) right.now → ⊥) }
{
    match kind {
        StatKind::Plain => is_body(&Body::Plain, right),
        StatKind::Ints => is_body(&ints_body(&message.int_statistics), right),
        StatKind::Bools => is_body(&bools_body(&message.bucket_statistics), right),
        StatKind::Dates => is_body(&dates_body(&message.date_statistics), right),
        StatKind::Texts => are_texts(&message.string_statistics, right),
        StatKind::Bins => is_body(&bins_body(&message.binary_statistics), right),
        StatKind::Children => is_body(&children_body(&message.collection_statistics), right),
    }
}

/// Returns whether a message stores the same as the right statistic of a column of a kind; numbers of children may be
/// missing. The result is that of `Stat::agrees` for the statistic that `Stat::read` makes of the message. It takes
/// no memory.
pub fn tells(kind: StatKind, message: &ColumnStats, right: &Stat) -> bool
    // The call returns true if and only if the statistic of kind `kind` that `message` stores has the count, the null
    // flag and the parts of `right`, except that numbers of children may be unknown in it.
    ensures yes { OnTrue result (Agrees (stat_read kind message.now) right.now) }
    ensures no { OnFalse result (Agrees (stat_read kind message.now) right.now → ⊥) }
{
    if message.number_of_values != right.count || message.has_null != right.nulls {
        return false;
    }
    if message.number_of_values == 0 {
        return is_body(&unknown(kind), &right.body);
    }
    values_tell(kind, message, &right.body)
}

/// Returns a part of children, if another one is known.
fn kept(told: Option<u64>, part: Option<u64>) -> Option<u64>
    ensures { result ≡ where_known (told ∷ []) part }
{
    match told {
        Some(_) => part,
        None => None,
    }
}

/// Returns the numbers of children that a body knows: the least, the greatest and the total.
fn children_in(body: &Body) -> (Option<u64>, Option<u64>, Option<u64>)
    ensures least { result.0 ≡ least_children body.now }
    ensures greatest { result.1 ≡ greatest_children body.now }
    ensures total { result.2 ≡ total_children body.now }
{
    match body {
        Body::Children {
            least,
            greatest,
            total,
        } => (*least, *greatest, *total),
        _ => (None, None, None),
    }
}

impl Stat {
    /// Returns whether this statistic is the same as the right one, except that numbers of children may be unknown in
    /// this one. The opposite direction isn't tested.
    pub fn agrees(&self, right: &Stat) -> bool
        // The call returns true if and only if this statistic has the count, the null flag and the parts of `right`,
        // except that numbers of children may be unknown in this one.
        ensures yes { OnTrue result (Agrees self.now right.now) }
        ensures no { OnFalse result (Agrees self.now right.now → ⊥) }
    {
        self.count == right.count && self.nulls == right.nulls && is_body(&self.body, &right.body)
    }

    /// Forgets the numbers of children that another body doesn't know.
    pub fn keep_known(&mut self, told: &Body)
        // Each number of children that `told` doesn't know becomes unknown; all else of the statistic stays.
        ensures { self.new ≡ known_as told.now self.old }
    {
        if let Body::Children {
            least,
            greatest,
            total,
        } = &self.body
        {
            let known = children_in(told);
            self.body = Body::Children {
                least: kept(known.0, *least),
                greatest: kept(known.1, *greatest),
                total: kept(known.2, *total),
            };
        }
    }
}
