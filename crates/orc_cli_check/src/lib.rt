//! Prints the findings of a file, one per line.
#![tactic(auto)]

mod findings;

pub use findings::check_to;
