//! The laws of merging, in any grouping and any order, and of findings.
pub use orc_check::finding_laws;
pub use orc_merge_laws::{grouping, orders, outcomes};
