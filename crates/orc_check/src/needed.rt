//! Decides which columns' groups are needed: those of a column whose row index may have an entry for each group. If it
//! can't, its number of entries is wrong, whatever the groups are. So the groups cost no more than the bytes of the row
//! indexes.
ghost use Rattle.std.specs.Prelude.{◌<◌, ◌≤◌, MatchBool};
ghost use Rattle.orc_values.specs.Shapes.{width};
ghost use Rattle.orc_check.specs.Needed.{MayBeWhole, NeedGroups};
ghost use Rattle.orc_check.specs.Walking.{HasStripeParts};

use crate::open_stripe::OpenStripe;

/// Returns whether a column's row index may have an entry for each group of the stripe's rows: an entry takes at least
/// a byte.
pub(crate) fn may_be_whole(stripe: &OpenStripe<'_, '_>, column: usize) -> bool
    requires laid_out { HasStripeParts stripe.now }
    requires there { column < width stripe.now.view.now.schema }
    ensures { MatchBool result
        (MayBeWhole stripe.now.view.now column)
        (MayBeWhole stripe.now.view.now column → ⊥) }
{
    let stride = stripe.view.stride();
    if stride == 0 {
        return false;
    }
    let groups = stripe.view.number_of_rows().div_ceil(u64::from(stride));
    let text = &stripe.texts[column];
    let Some(bytes) = text.bytes else {
        return false;
    };
    groups <= bytes.len() as u64
}

/// Returns whether the groups of some column from `first` on and before `end` are needed.
pub(crate) fn need_groups(stripe: &OpenStripe<'_, '_>, first: usize, end: usize) -> bool
    requires laid_out { HasStripeParts stripe.now }
    requires there { end ≤ width stripe.now.view.now.schema }
    ensures { MatchBool result
        (NeedGroups stripe.now.view.now first end)
        (NeedGroups stripe.now.view.now first end → ⊥) }
{
    for column in first..end {
        if may_be_whole(stripe, column) {
            return true;
        }
    }
    false
}
