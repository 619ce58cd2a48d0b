//! What a writer is given: rows, which a batch keeps as columns, so that each row may be dropped once it was added; and
//! options, by which the rows are written.
#![tactic(auto)]

mod batch;
mod blocks;
mod keeping;
mod kept_cell;
mod laws;
mod options;
mod vector;

pub use batch::RowBatch;
pub use laws::batch_laws;
pub use options::Options;
