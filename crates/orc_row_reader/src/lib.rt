//! Rows: reads cells from the readers of a schema's columns, one after the other, down the schema.
#![tactic(auto)]

mod ending;
mod reader;
mod starting;

pub use ending::cells_end;
pub use reader::{next_cell, next_cells, next_value};
pub use starting::put_tree;
