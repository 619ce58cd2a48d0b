//! What a check finds in a file.
use std::fmt;

/// A stored statistic or row index that is missing or wrong. Stripes, columns and groups are counted from 0. A
/// statistic must have each part that the rows give it: if it lacks one, or doesn't say whether there are nulls, that
/// is a finding, too. Only element counts may be missing: many files don't have them.
#[derive(Clone, Copy, Debug, PartialEq, Eq)]
pub enum Finding {
    /// In this stripe, this column's statistic is missing, or isn't that of the stripe's rows.
    StripeStatistic(usize, usize),
    /// In this stripe, this column's row index is missing, can't be read, or has the wrong number of entries. This is
    /// found only if the file's stride is above 0.
    IndexEntries(usize, usize),
    /// In this stripe, for this column, this group's statistic is missing, or isn't that of the group's rows.
    IndexStatistic(usize, usize, usize),
    /// In this stripe, for this column, this group's positions aren't those from which a reader goes on at the group.
    IndexPosition(usize, usize, usize),
    /// This column's statistic of the whole file is missing, or isn't that of all rows. The right one has no sum if the
    /// sum of some stripe doesn't fit 64 bits, and an element count only if each stripe with a value of the column has
    /// it.
    FileStatistic(usize),
}

/// Prints the finding's name and its numbers, separated by blanks.
impl fmt::Display for Finding {
    ghost use Rattle.std.specs.Prelude.{Some};
    ghost use Rattle.orc_check.specs.FindingText.{finding_text};

    ghost output = { λ finding. Some (finding_text finding) };

    fn fmt<W: fmt::Write>(&self, f: &mut fmt::Formatter<W>) -> fmt::Result {
        match *self {
            Finding::StripeStatistic(stripe, column) => {
                write!(f, "StripeStatistic {stripe} {column}")
            }
            Finding::IndexEntries(stripe, column) => write!(f, "IndexEntries {stripe} {column}"),
            Finding::IndexStatistic(stripe, column, group) => {
                write!(f, "IndexStatistic {stripe} {column} {group}")
            }
            Finding::IndexPosition(stripe, column, group) => {
                write!(f, "IndexPosition {stripe} {column} {group}")
            }
            Finding::FileStatistic(column) => write!(f, "FileStatistic {column}"),
        }
    }
}
