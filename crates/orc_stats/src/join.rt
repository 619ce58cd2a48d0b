//! The statistic of cells, and the statistic that several statistics join to.
ghost use Rattle.std.specs.Prelude.{◌≡◌, ◌≤◌, ◌^◌, IfOk, IfErr, OnOk, All, length, sum_by, true};
ghost use Rattle.orc_values.specs.Lent.{lent_cells};
ghost use Rattle.orc_stats.specs.declared.kind.StatKind.TheVariants.{Texts as text_kind};
ghost use Rattle.orc_stats.specs.declared.fault.StatFault.TheVariants.{OutOfMemory};
ghost use Rattle.orc_stats.specs.Kinds.{is_of, body_is_of};
ghost use Rattle.orc_stats.specs.Statistics.{stat};
ghost use Rattle.orc_stats.specs.Joining.{joined};
ghost use Rattle.orc_stats.specs.Faults.{JoinFault};

use crate::counted::Counted;
use crate::fault::StatFault;
use crate::kind::StatKind;
use crate::measures::{Bins, Bools, Children, Dates, Ints, Plain, Texts};
use crate::stat::Stat;
use crate::tally::Tally;
use orc_values::Lent;
use std::alloc::Global;

/// Returns the statistic of a column's cells (ORC specification, "Column Statistics"). For lists and maps it has the
/// least and the greatest number of elements or pairs of those that aren't null, and the exact total if it is below
/// 2^64.
///
/// # Errors
///
/// `OutOfMemory`, which comes only for texts.
pub fn of_cells(alloc: Global, kind: StatKind, cells: &[Lent<'_, '_>]) -> Result<Stat, StatFault>
    requires kind { All (λ c. is_of kind c ≡ true) (lent_cells cells.now) }
    requires most { length cells.now ≤ 2 ^ 62 }
    // If each cell is one of a column of `kind` and there are at most 2^62 cells, then a returned statistic is that of
    // the cells. It has the number of cells that aren't null, whether a cell is null, and of the values what `kind`
    // counts: the least and the greatest, how many are true, and the exact total. A part is unknown if there are no
    // values, and a total also if it doesn't fit 64 bits.
    ensures found { IfOk result (λ s. s ≡ stat kind (lent_cells cells.now)) }
    // If each cell is one of a column of `kind` and there are at most 2^62 cells, then the only error is `OutOfMemory`,
    // which comes only for the kind of STRING columns.
    ensures fault { IfErr result (λ fault. (fault ≡ OutOfMemory) × (kind ≡ text_kind)) }
{
    match kind {
        StatKind::Plain => Counted::<Plain>::of_cells(alloc, cells),
        StatKind::Ints => Counted::<Ints>::of_cells(alloc, cells),
        StatKind::Bools => Counted::<Bools>::of_cells(alloc, cells),
        StatKind::Dates => Counted::<Dates>::of_cells(alloc, cells),
        StatKind::Texts => Counted::<Texts<'_>>::of_cells(alloc, cells),
        StatKind::Bins => Counted::<Bins>::of_cells(alloc, cells),
        StatKind::Children => Counted::<Children>::of_cells(alloc, cells),
    }
}

/// Returns the statistic that several statistics of columns of one kind join to.
///
/// # Errors
///
/// - `CountTooLarge`, if they have more than 2^62 values in all.
/// - `OutOfMemory`, which comes only for texts.
pub fn join_all(alloc: Global, kind: StatKind, stats: &[Stat]) -> Result<Stat, StatFault>
    requires { All (λ s. body_is_of kind s.body ≡ true) stats.now }
    // If each statistic's body is of `kind`, then a returned statistic is the joined one. Its count is the sum of the
    // counts. It has a null if a statistic has one, else this is unknown if it is unknown in a statistic, else it has
    // none. A part of its body is that of all statistics that have values: the least of the least, the greatest of the
    // greatest, the sum of the others. A part is unknown if no statistic has values, if it is unknown in one that has,
    // if a total doesn't fit 64 bits, or if more than 2^62 values are true.
    ensures found { IfOk result (λ s. s ≡ joined kind stats.now) }
    // If each statistic's body is of `kind`, then `CountTooLarge` is returned if and only if the counts add up to
    // more than 2^62. `OutOfMemory` is the only other error and comes only for the kind of STRING columns.
    ensures most { OnOk result (sum_by (λ s. s.count) stats.now ≤ 2 ^ 62) }
    ensures fault { IfErr result (JoinFault (kind ≡ text_kind) stats.now) }
{
    match kind {
        StatKind::Plain => Counted::<Plain>::of_stats(alloc, stats),
        StatKind::Ints => Counted::<Ints>::of_stats(alloc, stats),
        StatKind::Bools => Counted::<Bools>::of_stats(alloc, stats),
        StatKind::Dates => Counted::<Dates>::of_stats(alloc, stats),
        StatKind::Texts => Counted::<Texts<'_>>::of_stats(alloc, stats),
        StatKind::Bins => Counted::<Bins>::of_stats(alloc, stats),
        StatKind::Children => Counted::<Children>::of_stats(alloc, stats),
    }
}
