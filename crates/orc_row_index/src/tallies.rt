//! What is counted of some of a column's cells for their statistic.
ghost use Rattle.std.specs.Prelude.{◌≡◌, ◌≤◌, ◌^◌, true, All, length, IfOk};
ghost use Rattle.orc_stats.specs.Kinds.{is_of};
ghost use Rattle.orc_stats.specs.Tallies.{cells_kept, stat_of_kept};
ghost use Rattle.orc_row_groups.specs.OwnCells.{own_cells};

use orc_stats::{Stat, Tally};
use orc_values::Own;
use std::alloc::{AllocError, Global};

/// Returns what is counted of cells.
pub(crate) fn tally_of<'r, T: Tally<'r>>(owns: &[Own<'r>]) -> T
    requires kind { All (λ c. is_of T.kind c ≡ true) (own_cells owns.now) }
    requires most { length owns.now ≤ 2 ^ 62 }
    ensures { T.kept result ≡ cells_kept T.measure (own_cells owns.now) }
{
    let mut tally = T::unit();
    for own in owns {
        tally.add_own(*own);
    }
    tally
}

/// Returns the statistic of what was counted.
pub(crate) fn statistic_of<'r, T: Tally<'r>>(alloc: Global, tally: &T) -> Result<Stat, AllocError>
    ensures { IfOk result (λ found. found ≡ stat_of_kept T.measure (T.kept tally.now)) }
{
    match tally.close(alloc) {
        Ok(stat) => Ok(stat),
        Err(_) => Err(AllocError),
    }
}
