//! Writes files: rows to stripes, and a tail after them.
#![tactic(auto)]

mod writer;

pub use writer::Writer;
