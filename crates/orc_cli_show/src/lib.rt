//! Prints the tail of a file as lines of text.
#![tactic(auto)]

mod show;

pub use show::show_to;
