//! What is found about a column that is read without those below it.
use orc_row_groups::Counts;
use orc_stats::Stat;

/// What is found about a group of a column's cells.
#[derive(Drop)]
pub struct GroupFound {
    /// The statistic of the group's cells.
    pub stat: Stat,
    /// The counts of the cells before the group.
    pub before: Counts,
}

/// What is found about a column's cells.
#[derive(Drop)]
pub struct ColumnFound {
    /// The statistic of all the cells.
    pub stat: Stat,
    /// What is found about each group.
    pub groups: Vec<GroupFound>,
    /// How many cells each column right below has: the elements of the lists, the pairs of the maps, or the structs
    /// that aren't null; 0 if there is no such column.
    pub below: usize,
    /// How many cells of a column right below come before each group.
    pub bounds_below: Vec<usize>,
}
