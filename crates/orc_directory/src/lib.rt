//! The directory of a stripe: which streams the stripe has, where they lie, and the errors of stripes.
#![tactic(auto)]

mod directory;
mod fault;
mod located;

pub use directory::{check_directory, first_wrong};
pub use fault::{Spot, StreamKind, StripeFault, run_fault, wire_fault};
pub use located::{Located, locate};
