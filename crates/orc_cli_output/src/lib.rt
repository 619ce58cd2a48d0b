//! Errors of commands, numbers among their arguments, and writing their output.
#![tactic(auto)]

mod fault;
mod number;
mod output;
mod repeated;

pub use fault::CliFault;
pub use number::number_of;
pub use output::write_out;
pub use repeated::{Repeated, write_again};
