//! Row groups: where they begin in the rows and in each column below, and what is counted of a column's cells before
//! them.
#![tactic(auto)]

mod between;
mod bounds;
mod counting;
mod counts;
mod group_bounds;
mod starts;

pub use between::{cells_between, owns_between};
pub use bounds::{element_bounds, field_bounds, pair_bounds};
pub use counting::{counts_after, counts_behind};
pub use counts::Counts;
pub use group_bounds::{group_end, group_start};
pub use starts::group_starts;
