//! Counting: what is kept of all that was counted, and how two tallies join.
use crate::fault::StatFault;
use crate::kind::StatKind;
use crate::stat::Stat;
use orc_values::{Lent, Own, Row, own_of};
use std::alloc::Global;

/// One statistic counts at most this many values.
pub(crate) const MOST_VALUES: u64 = 1 << 62;

/// The statistic so far of a column's cells, of other statistics, or of both. Cells and tallies may come in any order
/// and grouping. It borrows the texts that it was given, so only `close` takes memory, and only for STRING columns.
pub trait Tally<'r>: Sized + Drop {
    ghost use Rattle.std.specs.Prelude.{◌≡◌, ◌+◌, ◌^◌, ◌≤◌, ◌<◌, ℕ, true, List, IfOk, IfErr, OnOk, All, length, sum_by};
    ghost use Rattle.orc_values.specs.Cells.{Cell, is_value, values};
    ghost use Rattle.orc_values.specs.Childless.{childless};
    ghost use Rattle.orc_values.specs.Own.{own_cell};
    ghost use Rattle.orc_values.specs.Views.{view};
    ghost use Rattle.orc_values.specs.Lent.{lent_cells};
    ghost use Rattle.orc_stats.specs.declared.kind.StatKind.{StatKind};
    ghost use Rattle.orc_stats.specs.declared.stat.Stat.{Stat};
    ghost use Rattle.orc_stats.specs.declared.fault.StatFault.TheVariants.{OutOfMemory};
    ghost use Rattle.orc_stats.specs.Kinds.{is_of, body_is_of};
    ghost use Rattle.orc_stats.specs.Statistics.{stat, bit};
    ghost use Rattle.orc_stats.specs.Joining.{joined};
    ghost use Rattle.orc_stats.specs.Tallies.{Measure, Kept, none_kept, together, cell_kept, stat_kept, cells_kept, stats_kept, stat_of_kept};
    ghost use Rattle.orc_stats.specs.Faults.{JoinFault};

    // What is counted of the values.
    ghost Parts: { Type 0 };
    // How the values are counted.
    ghost measure: { Measure Parts };
    // What is kept so far.
    ghost kept: { Self → Kept Parts };
    // The kind of column.
    ghost kind: { StatKind };
    // Whether `close` takes memory.
    ghost TakesMemory: { Type 0 };
    // A cell's children don't matter for what is counted of it.
    ghost childless_kept: { (c : Cell) → measure.of_cell (childless c) ≡ measure.of_cell c };
    // What was counted of cells, once closed, is their statistic.
    ghost cells_are: { (cells : List Cell)
        → length cells ≤ 2 ^ 62
        → stat_of_kept measure (cells_kept measure cells) ≡ stat kind cells };
    // What was counted of statistics, once closed, is the statistic that they join to.
    ghost stats_are: { (ss : List Stat) → stat_of_kept measure (stats_kept measure ss) ≡ joined kind ss };

    /// Returns the tally of nothing.
    fn unit() -> Self
        // The returned tally has counted nothing.
        ensures { kept result ≡ none_kept measure };

    /// Counts one more cell, which is given without its children.
    fn add_own(&mut self, own: Own<'r>)
        requires kind { is_of kind (own_cell own) ≡ true }
        requires most { (kept self.old).count + bit (is_value (own_cell own)) ≤ 2 ^ 62 }
        // If the cell is one of a column of the tally's kind and the tally counts at most 2^62 values with it, then the
        // tally has counted the cell `own` in addition to what it had counted before.
        ensures { kept self.new ≡ together measure (kept self.old) (cell_kept measure (own_cell own.entry)) };

    /// Returns the tally of what a statistic has counted.
    fn of_stat(stat: &'r Stat) -> Self
        requires kind { body_is_of kind stat.now.body ≡ true }
        requires most { stat.now.count ≤ 2 ^ 62 }
        // If the body of `stat` is of the tally's kind and `stat` counts at most 2^62 values, then the returned tally
        // has counted what `stat` is the statistic of.
        ensures { kept result ≡ stat_kept measure stat.now };

    /// Counts what another tally has counted, too.
    fn join(&mut self, other: &Self)
        requires { (kept self.old).count + (kept other.now).count ≤ 2 ^ 62 }
        // If both tallies together count at most 2^62 values, then the tally has counted what `other` has counted in
        // addition to what it had counted before.
        ensures { kept self.new ≡ together measure (kept self.old) (kept other.now) };

    /// Returns the statistic of all that was counted.
    ///
    /// # Errors
    ///
    /// `OutOfMemory`, which comes only if a text has to be copied.
    fn close(&self, alloc: Global) -> Result<Stat, StatFault>
        // A returned statistic is that of all that the tally has counted.
        ensures found { IfOk result (λ s. s ≡ stat_of_kept measure (kept self.now)) }
        // The only error is `OutOfMemory`, which comes only if the statistics of the tally's kind take memory.
        ensures fault { IfErr result (λ fault. (fault ≡ OutOfMemory) × TakesMemory) };

    /// Counts one more cell.
    final fn add(&mut self, cell: &'r Row<'_>)
        requires kind { is_of kind (view cell.now) ≡ true }
        requires most { (kept self.old).count + bit (is_value (view cell.now)) ≤ 2 ^ 62 }
        // If the cell is one of a column of the tally's kind and the tally counts at most 2^62 values with it, then the
        // tally has counted `cell` in addition to what it had counted before.
        ensures { kept self.new ≡ together measure (kept self.old) (cell_kept measure (view cell.now)) }
    {
        self.add_own(own_of(cell));
    }

    /// Returns the statistic of cells.
    ///
    /// # Errors
    ///
    /// `OutOfMemory`, which comes only if the statistics of the tally's kind take memory.
    final fn of_cells(alloc: Global, cells: &'r [Lent<'r, '_>]) -> Result<Stat, StatFault>
        requires kind { All (λ c. is_of kind c ≡ true) (lent_cells cells.now) }
        requires most { length cells.now ≤ 2 ^ 62 }
        // If each cell is one of a column of the tally's kind and there are at most 2^62 cells, then a returned
        // statistic is that of the cells.
        ensures found { IfOk result (λ s. s ≡ stat kind (lent_cells cells.now)) }
        // If each cell is one of a column of the tally's kind and there are at most 2^62 cells, then the only error is
        // `OutOfMemory`, which comes only if the statistics of the tally's kind take memory.
        ensures fault { IfErr result (λ fault. (fault ≡ OutOfMemory) × TakesMemory) }
    {
        let mut tally = Self::unit();
        for cell in cells {
            tally.add(cell.0);
        }
        tally.close(alloc)
    }

    /// Returns the statistic that several statistics join to.
    ///
    /// # Errors
    ///
    /// - `CountTooLarge`, if they have more than 2^62 values in all.
    /// - `OutOfMemory`, which comes only if the statistics of the tally's kind take memory.
    final fn of_stats(alloc: Global, stats: &'r [Stat]) -> Result<Stat, StatFault>
        requires { All (λ s. body_is_of kind s.body ≡ true) stats.now }
        // If each statistic's body is of the tally's kind, then a returned statistic is the one that `stats` join to.
        ensures found { IfOk result (λ s. s ≡ joined kind stats.now) }
        // If each statistic's body is of the tally's kind, then `CountTooLarge` is returned if and only if the counts
        // add up to more than 2^62. `OutOfMemory` is the only other error and comes only if the statistics of the
        // tally's kind take memory.
        ensures most { OnOk result (sum_by (λ s. s.count) stats.now ≤ 2 ^ 62) }
        ensures fault { IfErr result (JoinFault TakesMemory stats.now) }
    {
        let mut tally = Self::unit();
        let mut count = 0;
        for stat in stats {
            if stat.count > MOST_VALUES - count {
                return Err(StatFault::CountTooLarge);
            }
            count += stat.count;
            tally.join(&Self::of_stat(stat));
        }
        tally.close(alloc)
    }
}
