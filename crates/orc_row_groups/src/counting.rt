//! The counts of a column's cells, group after group.
ghost use Rattle.std.specs.Prelude.{◌≡◌, ◌+◌, ◌^◌, ◌<◌, ◌∷◌, [], min, length};
ghost use Rattle.orc_values.specs.Cells.{values};
ghost use Rattle.orc_values.specs.Lent.{lent_cells};
ghost use Rattle.orc_values.specs.Own.{own_cell};
ghost use Rattle.orc_row_groups.specs.OwnCells.{own_cells};
ghost use Rattle.orc_row_groups.specs.Counts.{octets, octets_in, most};

use crate::counts::Counts;
use orc_values::{Lent, Own, own_of};

/// Returns how many bytes a text or a byte string has, and 0 for any other cell.
fn octets_of(own: Own<'_>) -> usize
    ensures { result ≡ octets_in (own_cell own.entry) }
{
    match own {
        Own::Text(text) => text.as_bytes().len(),
        Own::Bytes(bytes) => bytes.len(),
        _ => 0,
    }
}

/// Returns 1 for a value and 0 for null.
fn value_of(own: Own<'_>) -> usize
    ensures { result ≡ length (values (own_cell own.entry ∷ [])) }
{
    if own.is_null() { 0 } else { 1 }
}

impl Counts {
    /// Returns the counts with one more cell, which is given without its children.
    pub fn add_own(self, own: Own<'_>) -> Counts
        requires cells { self.cells + 1 < 2 ^ 64 }
        requires values { self.values + 1 < 2 ^ 64 }
        // If both counts stay below 2^64, then one more cell is counted, and one more value if the cell is not null.
        ensures cells { result.cells ≡ self.cells + 1 }
        ensures values { result.values ≡ self.values + length (values (own_cell own.entry ∷ [])) }
        // The number of bytes of the cell, if it is a text or a byte string, is added to the count of bytes, which
        // stops at 2^64 - 1.
        ensures octets { result.octets ≡ min most (self.octets + octets_in (own_cell own.entry)) }
    {
        Counts {
            cells: self.cells + 1,
            values: self.values + value_of(own),
            octets: self.octets.saturating_add(octets_of(own)),
        }
    }
}

/// Returns the counts of cells that were counted before and of more cells after them.
pub fn counts_after(before: Counts, cells: &[Lent<'_, '_>]) -> Counts
    requires cells { before.cells + length cells.now < 2 ^ 64 }
    requires values { before.values + length cells.now < 2 ^ 64 }
    // If both counts plus the number of `cells` are below 2^64, then all `cells` are added to the count of cells, and
    // those that are not null to the count of values.
    ensures cells { result.cells ≡ before.cells + length (lent_cells cells.now) }
    ensures values { result.values ≡ before.values + length (values (lent_cells cells.now)) }
    // The number of bytes that the texts and byte strings among `cells` have is added to the count of bytes, which
    // stops at 2^64 - 1.
    ensures octets { result.octets ≡ min most (before.octets + octets (lent_cells cells.now)) }
{
    let mut counts = before;
    for cell in cells {
        counts = counts.add_own(own_of(cell.0));
    }
    counts
}

/// Returns the counts of cells that were counted before and of more cells after them, which are given without their
/// children.
pub fn counts_behind(before: Counts, owns: &[Own<'_>]) -> Counts
    requires cells { before.cells + length owns.now < 2 ^ 64 }
    requires values { before.values + length owns.now < 2 ^ 64 }
    // If both counts plus the number of `owns` are below 2^64, then all of these cells are added to the count of
    // cells, and those that are not null to the count of values.
    ensures cells { result.cells ≡ before.cells + length (own_cells owns.now) }
    ensures values { result.values ≡ before.values + length (values (own_cells owns.now)) }
    // The number of bytes that the texts and byte strings among `owns` have is added to the count of bytes, which
    // stops at 2^64 - 1.
    ensures octets { result.octets ≡ min most (before.octets + octets (own_cells owns.now)) }
{
    let mut counts = before;
    for own in owns {
        counts = counts.add_own(*own);
    }
    counts
}
