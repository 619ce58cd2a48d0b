//! What is counted of a column's cells while they are read.
ghost use Rattle.std.specs.Prelude.{◌≡◌, ◌<◌, ◌≤◌, ◌+◌, ◌-◌, ◌^◌, ◌++◌, ◌∷◌, [], true, List, length};
ghost use Rattle.orc_values.specs.Cells.{Cell, is_value, values as values_of};
ghost use Rattle.orc_values.specs.Own.{own_cell};
ghost use Rattle.orc_values.specs.Shapes.{Shape};
ghost use Rattle.orc_column_walk.specs.OwnLeft.{children};
ghost use Rattle.orc_column_walk.specs.Passed.{own_children, IsPassed};

use orc_row_groups::Counts;
use orc_values::Own;

/// The counts of the cells so far, and how many children they have, which are counted up to 2^64 - 1.
#[derive(Clone, Copy)]
pub(crate) struct Passed {
    pub(crate) counts: Counts,
    pub(crate) children: usize,
}

/// Returns how many children a value has.
fn children_of(own: Own<'_>) -> usize
    ensures { result ≡ own_children own.entry }
{
    match own {
        Own::List(size) | Own::Map(size) => size as usize,
        Own::Struct => 1,
        _ => 0,
    }
}

impl Passed {
    /// Returns the counts of no cells.
    pub(crate) fn nothing() -> Passed
        ensures { (s : Shape) → IsPassed s [] result }
    {
        Passed {
            counts: Counts::none(),
            children: 0,
        }
    }

    /// Returns the counts with one more value.
    pub(crate) fn add(self, own: Own<'_>) -> Passed
        requires cells { self.counts.cells + 1 < 2 ^ 64 }
        requires values { self.counts.values + 1 < 2 ^ 64 }
        ensures passed { (s : Shape) (cells : List Cell)
            → is_value (own_cell own.entry) ≡ true
            → own_children own.entry ≡ children s (own_cell own.entry ∷ [])
            → IsPassed s cells self
            → IsPassed s (cells ++ own_cell own.entry ∷ []) result }
        ensures cells { result.counts.cells ≡ self.counts.cells + 1 }
        ensures values { result.counts.values ≤ self.counts.values + 1 }
    {
        Passed {
            counts: self.counts.add_own(own),
            children: self.children.saturating_add(children_of(own)),
        }
    }

    /// Returns the counts with as many more nulls as there are cells besides the values.
    pub(crate) fn pad(self, cells: usize, values: usize) -> Passed
        requires few { values ≤ cells }
        requires cells { self.counts.cells + (cells - values) < 2 ^ 64 }
        ensures cells { result.counts.cells ≡ self.counts.cells + (cells - values) }
        ensures values { result.counts.values ≡ self.counts.values }
        ensures passed { (s : Shape) (front part : List Cell)
            → length part ≡ cells
            → length (values_of part) ≡ values
            → IsPassed s (front ++ values_of part) self
            → IsPassed s (front ++ part) result }
    {
        let mut counts = self.counts;
        counts.cells += cells - values;
        Passed {
            counts,
            children: self.children,
        }
    }
}
