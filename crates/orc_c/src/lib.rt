//! The calls of `orcm` for programs in C, and in languages that call C. They take files as bytes in memory and write
//! into a buffer of the caller. `include/orcm.h` declares them for C.
#![tactic(auto)]

mod answer;
mod checking;
mod fault;
mod inputs;
mod joining;
mod memory;
mod numbers;
mod printing;
mod putting;
mod showing;
mod writing;

pub use answer::Answer;
pub use checking::orcm_check;
pub use fault::{CallFault, Fault};
pub use joining::orcm_merge;
pub use printing::orcm_rows;
pub use showing::orcm_show;
pub use writing::orcm_write;
