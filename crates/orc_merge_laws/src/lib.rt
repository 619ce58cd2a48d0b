//! The laws of merging, in any grouping and any order. Their statements rest on the definitions of `orc_merger`, and
//! on those of the rows that a file has.
#![tactic(auto)]

mod laws;

pub use laws::{grouping, orders, outcomes};
