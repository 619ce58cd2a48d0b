//! Prints the numbers of an integer stream as a line of text.
#![tactic(auto)]

mod ints;

pub use ints::ints_to;
