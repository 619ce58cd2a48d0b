//! Checks a file: whether its statistics and its row indexes are those of its rows.
#![tactic(auto)]

mod agreeing;
mod checking;
mod columns;
mod entries;
mod file_columns;
mod finding;
mod laws;
mod needed;
mod open_stripe;
mod reports;
mod row_index;
mod stripes;
mod written_index;

pub use checking::check;
pub use finding::Finding;
pub use laws::{finding_laws, start_laws};
