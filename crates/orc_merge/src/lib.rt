//! Merges and checks files: the calls of `orc_merger` and of `orc_check`, and the laws of `orc_merge_laws`.
#![tactic(auto)]

pub mod laws;

pub use orc_check::{Finding, check};
pub use orc_merger::{MergeFault, merge};
