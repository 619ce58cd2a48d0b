//! Cells of a column from one place to another.
ghost use Rattle.std.specs.Prelude.{◌≡◌, ◌-◌, ◌≤◌, take, drop, length};
ghost use Rattle.orc_values.specs.Lent.{lent_cells};
ghost use Rattle.orc_row_groups.specs.OwnCells.{own_cells};

use orc_values::{Lent, Own};

/// Returns the cells from one place to another.
pub fn cells_between<'c, 'r, 'a>(
    cells: &'c [Lent<'r, 'a>],
    start: usize,
    end: usize,
) -> &'c [Lent<'r, 'a>]
    requires ordered { start ≤ end }
    requires there { end ≤ length cells.now }
    // If `start` is at most `end`, and `end` is at most the number of cells, then the returned cells are those from
    // `start` to `end`, without the one at `end`, in order.
    ensures { lent_cells result.now ≡ take (end - start) (drop start (lent_cells cells.now)) }
{
    &cells[start..end]
}

/// Returns the cells, without their children, from one place to another.
pub fn owns_between<'c, 'r>(owns: &'c [Own<'r>], start: usize, end: usize) -> &'c [Own<'r>]
    requires ordered { start ≤ end }
    requires there { end ≤ length owns.now }
    // If `start` is at most `end`, and `end` is at most the number of cells, then the returned cells are those from
    // `start` to `end`, without the one at `end`, in order.
    ensures { own_cells result.now ≡ take (end - start) (drop start (own_cells owns.now)) }
{
    &owns[start..end]
}
