//! The tail of a file, which describes the file's contents: it is read from the file's bytes and tested, and written
//! after the stripes.
#![tactic(auto)]

mod fault;
mod laws;
mod tail;

pub use fault::{FileFault, stripe_fault};
pub use laws::{image_laws, tail_laws};
pub use orc_values::MOST_STRIPE_ROWS;
pub use tail::{
    MOST_BYTES, MOST_ROWS, MOST_STRIPES, Tail, file_statistics, read_capped_tail, read_tail,
    stripe_length,
};
