//! A file's rows as lines of JSON.
#![tactic(auto)]

mod held;
mod judging;
mod lines;
mod nowhere;
mod one_stripe;
mod pieces;
mod plan;
mod printing;
mod reading;
mod rows;
mod start;

pub use printing::rows_to;
