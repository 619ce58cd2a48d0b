//! Row indexes: where each group of a column's cells begins in the column's streams, and the statistic of the group.
#![tactic(auto)]

mod entries;
mod entry_text;
mod laws;
mod placed;
mod row_index;
mod run_bytes;
mod tallies;
mod walk;

pub use entry_text::put_entry;
pub use laws::index_laws;
pub use placed::{PlacedStreams, placed_streams, values_kind};
pub use row_index::put_index;
pub use run_bytes::RunBytes;
pub use walk::Walk;
