//! Compares the entries of a column's row index with the cells of their groups.
ghost use Rattle.std.specs.Prelude.{List, ◌≡◌, MatchBool};
ghost use Rattle.orc_values.specs.Cells.{Cell};
ghost use Rattle.orc_values.specs.Views.{shape};
ghost use Rattle.orc_stats.specs.Kinds.{kind_of};
ghost use Rattle.orc_stats.specs.Statistics.{stat};
ghost use Rattle.orc_check.specs.Findings.{TellsGroup};

use orc_stats::{Stat, StatKind, tells};
use orc_values::Tree;
use orc_wire::RowIndexEntry;

/// Returns whether an entry has a statistic that agrees with that of its group's cells.
pub(crate) fn entry_tells(tree: &Tree, entry: &RowIndexEntry, right: &Stat) -> bool
    ensures { (group : List Cell) → right.now ≡ stat (kind_of (shape tree.now)) group
        → MatchBool result
        (TellsGroup (shape tree.now) group entry.now)
        (TellsGroup (shape tree.now) group entry.now → ⊥) }
{
    match &entry.statistics {
        Some(message) => tells(StatKind::of_type(tree), message, right),
        None => false,
    }
}
