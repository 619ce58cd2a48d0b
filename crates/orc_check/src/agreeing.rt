//! Compares the statistics that a file stores with the right ones.
ghost use Rattle.std.specs.Prelude.{◌≡◌, slice_get, MatchBool};
ghost use Rattle.orc_stats.specs.Known.{known_as, told_body};
ghost use Rattle.orc_check.specs.Agreeing.{Tells};

use orc_stats::{Body, Stat};

/// Returns whether the statistic of a column is stored and agrees with the right one.
pub(crate) fn tells(told: &[Stat], column: usize, right: &Stat) -> bool
    ensures { MatchBool result
        (Tells (slice_get told.now column) right.now)
        (Tells (slice_get told.now column) right.now → ⊥) }
{
    match told.get(column) {
        Some(told) => told.agrees(right),
        None => false,
    }
}

/// Makes those element counts unknown that the stored statistic of the column doesn't have.
pub(crate) fn keep_told(stat: &mut Stat, told: &[Stat], column: usize)
    ensures { stat.new ≡ known_as (told_body (slice_get told.now column)) stat.old }
{
    match told.get(column) {
        Some(told) => stat.keep_known(&told.body),
        None => stat.keep_known(&Body::Plain),
    }
}
