//! Reads files: their rows, stripe by stripe. `orc_tail` reads the tail.
#![tactic(auto)]

mod file;
mod laws;
mod rows;

pub use file::OrcFile;
pub use laws::{cap_laws, row_laws, whole_laws};
pub use rows::{load_stripe, stripe_rows, view_stripe};
