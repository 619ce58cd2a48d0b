//! Counts the values of each column.
ghost use Rattle.std.specs.Prelude.{◌≡◌, ◌^◌, ◌≤◌, ◌++◌, ◌∷◌, [], ℕ, List, length, slice_index_or, OnOk, All};
ghost use Rattle.std.specs.Bool.{OnTrue, OnFalse};
ghost use Rattle.orc_stats.specs.declared.stat.Stat.{Stat};
ghost use Rattle.orc_merger.specs.Counts.{AreCounts};

use orc_stats::Stat;
use orc_wire::Items;
use std::alloc::AllocError;

/// The greatest number of values that a column may have in all stripes together.
const MOST_COLUMN_VALUES: u64 = 1 << 62;

/// Makes room for `columns` columns. New columns have no values.
fn widen(counts: &mut Vec<u64>, columns: usize) -> Result<(), AllocError>
    ensures wide { OnOk result (columns ≤ length counts.new.items) }
    ensures same { OnOk result ((c : ℕ) → slice_index_or counts.new.items c 0 ≡ slice_index_or counts.old.items c 0) }
{
    if counts.len() < columns {
        counts.resize(columns, 0)?;
    }
    Ok(())
}

/// Adds the numbers of values that a stripe's columns have. A count stops at 2^64 - 1.
fn add_stripe(counts: &mut Vec<u64>, stats: &[Stat]) -> Result<(), AllocError>
    ensures { OnOk result ((before : List (List Stat)) → AreCounts counts.old.items before
        → AreCounts counts.new.items (before ++ stats.now ∷ [])) }
{
    widen(counts, stats.len())?;
    for (i, stat) in stats.iter().enumerate() {
        counts[i] = counts[i].saturating_add(stat.count);
    }
    Ok(())
}

/// Adds the numbers of values of the columns of several stripes.
pub(crate) fn add_counts(counts: &mut Vec<u64>, stripes: &[Items<Stat>]) -> Result<(), AllocError>
    ensures { OnOk result ((before : List (List Stat)) → AreCounts counts.old.items before
        → AreCounts counts.new.items (before ++ stripes.now)) }
{
    for stats in stripes {
        add_stripe(counts, stats.as_slice())?;
    }
    Ok(())
}

/// Returns whether no column has more than 2^62 values.
pub(crate) fn are_few(counts: &[u64]) -> bool
    ensures yes { OnTrue result (All (λ n. n ≤ 2 ^ 62) counts.now) }
    ensures no { OnFalse result (All (λ n. n ≤ 2 ^ 62) counts.now → ⊥) }
{
    counts.iter().all(|count| *count <= MOST_COLUMN_VALUES)
}
