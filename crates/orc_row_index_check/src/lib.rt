//! Looks up positions: which entries of a column's row index have right positions.
#![tactic(auto)]

mod column_table;
mod decided;
mod stream_table;

pub use decided::positions_right_behind;
