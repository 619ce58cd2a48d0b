//! Merges files into one by copying stripes and merging their tails.
#![tactic(auto)]

mod copying;
mod differing;
mod fault;
mod gathered;
mod gathering;
mod merging;
mod stripe_places;
mod user_pairs;
mod value_counts;

pub use fault::MergeFault;
pub use merging::merge;
