//! What is counted of the values of a column, by its kind of statistic.
ghost use Rattle.std.specs.Prelude.{ℕ};

mod bins;
mod bools;
mod children;
mod dates;
mod ints;
mod plain;
mod texts;

use crate::fault::StatFault;
use crate::stat::Body;
pub use bins::Bins;
pub use bools::Bools;
pub use children::Children;
pub use dates::Dates;
pub use ints::Ints;
use orc_values::Own;
pub use plain::Plain;
use std::alloc::Global;
pub use texts::Texts;

/// A total with a size, which bounds what may still be added.
pub trait Sizes {
    // The absolute value of the total so far.
    ghost size: { Self → ℕ };
}

/// What is counted of the values of one kind of column, and how two such counts join. It borrows the texts that it
/// was given.
pub trait Measures<'r>: Sizes + Sized + Drop {
    ghost use Rattle.std.specs.Prelude.{◌≡◌, ◌+◌, ◌^◌, ◌≤◌, ◌<◌, ℕ, true, List, IfOk, IfErr, All, length};
    ghost use Rattle.orc_values.specs.Cells.{Cell};
    ghost use Rattle.orc_values.specs.Childless.{childless};
    ghost use Rattle.orc_values.specs.Own.{own_cell};
    ghost use Rattle.orc_stats.specs.declared.kind.StatKind.{StatKind};
    ghost use Rattle.orc_stats.specs.declared.stat.Stat.{Stat};
    ghost use Rattle.orc_stats.specs.declared.fault.StatFault.TheVariants.{OutOfMemory};
    ghost use Rattle.orc_stats.specs.Kinds.{is_of, body_is_of};
    ghost use Rattle.orc_stats.specs.Statistics.{stat};
    ghost use Rattle.orc_stats.specs.Joining.{joined};
    ghost use Rattle.orc_stats.specs.Tallies.{Measure, cells_kept, stats_kept, stat_of_kept};

    // What is kept of the values.
    ghost Parts: { Type 0 };
    // How the values are counted.
    ghost measure: { Measure Parts };
    // What is kept so far.
    ghost parts: { Self → Parts };
    // The kind of column.
    ghost kind: { StatKind };
    // Whether `body` takes memory.
    ghost TakesMemory: { Type 0 };
    // A cell's children don't matter for what is counted of it.
    ghost childless_kept: { (c : Cell) → measure.of_cell (childless c) ≡ measure.of_cell c };
    // What was counted of cells, once closed, is their statistic.
    ghost cells_are: { (cells : List Cell)
        → length cells ≤ 2 ^ 62
        → stat_of_kept measure (cells_kept measure cells) ≡ stat kind cells };
    // What was counted of statistics, once closed, is the statistic that they join to.
    ghost stats_are: { (ss : List Stat) → stat_of_kept measure (stats_kept measure ss) ≡ joined kind ss };

    /// Returns the measures of no values.
    fn none() -> Self
        // The returned measures are those of no values.
        ensures none { parts result ≡ measure.joins.none }
        // The total of the returned measures has the size 0.
        ensures size { Self.size result ≡ 0 };

    /// Counts one more cell; null adds nothing.
    fn add_own(&mut self, own: Own<'r>)
        requires kind { is_of kind (own_cell own) ≡ true }
        requires room { Self.size self.old + 2 ^ 64 < 2 ^ 127 }
        // If the cell `own` is one of a column of this kind, and the size of the total is below 2^127 - 2^64, then
        // the measures become the join of what they were before with the measures of that cell.
        ensures joined { parts self.new ≡ measure.joins.join (parts self.old) (measure.of_cell (own_cell own.entry)) }
        // If the cell `own` is one of a column of this kind, and the size of the total is below 2^127 - 2^64, then
        // that size grows by at most 2^64.
        ensures size { Self.size self.new ≤ Self.size self.old + 2 ^ 64 };

    /// Returns the measures of the values that a statistic has counted.
    fn of_body(body: &'r Body) -> Self
        requires { body_is_of kind body.now ≡ true }
        // If `body` is of this kind, then the returned measures are those that the kind keeps of `body`.
        ensures body { parts result ≡ measure.of_body body.now }
        // If `body` is of this kind, then the total of the returned measures has a size of at most 2^64.
        ensures size { Self.size result ≤ 2 ^ 64 };

    /// Returns the measures of the values of both.
    fn join(&self, other: &Self) -> Self
        requires { Self.size self.now + Self.size other.now < 2 ^ 127 }
        // If the sizes of both totals add up to less than 2^127, then the returned measures are the join of both.
        ensures joined { parts result ≡ measure.joins.join (parts self.now) (parts other.now) }
        // If the sizes of both totals add up to less than 2^127, then the size of the returned total is at most their
        // sum.
        ensures size { Self.size result ≤ Self.size self.now + Self.size other.now };

    /// Returns the body of the statistic of all values that were counted.
    ///
    /// # Errors
    ///
    /// `OutOfMemory`, which comes only if a text has to be copied.
    fn body(&self, alloc: Global) -> Result<Body, StatFault>
        // The returned body is the one of what was counted.
        ensures found { IfOk result (λ body. body ≡ measure.body (parts self.now)) }
        // The only error is `OutOfMemory`, which comes only if the bodies of this kind take memory.
        ensures fault { IfErr result (λ fault. (fault ≡ OutOfMemory) × TakesMemory) };
}
