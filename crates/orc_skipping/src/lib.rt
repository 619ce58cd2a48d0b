//! Which rows an engine may skip by their statistics.
#![tactic(auto)]

mod keeping;
mod keeping_groups;
mod keeping_message;
mod laws;
mod test_of_column;

pub use keeping::keeps;
pub use keeping_groups::{GroupPlace, keep_groups};
pub use keeping_message::keeps_message;
pub use laws::skipping_laws;
pub use test_of_column::{Comparison, Constant, Test};
