//! Writes stripes: from rows to the bytes of a stripe.
#![tactic(auto)]

mod below;
mod body;
mod byte_string;
mod cell_values;
mod column_streams;
mod columns;
mod dictionary;
mod indexes;
mod limits;
mod put_column;
mod writer;
mod written;

pub use limits::are_few;
pub use orc_row_batch::Options;
pub use writer::{StripeOut, write_batch, write_stripe};
pub use written::writing_laws;
