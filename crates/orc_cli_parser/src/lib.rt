//! The parser of the command line: its table of commands and arguments, and its help.
#![tactic(auto)]

mod commands;
mod help;

pub use commands::{MOST_STRIDE, SIGNS, VERSIONS, orcm};
