//! The JSON of rows, straight from the readers of their columns: no row is made. Contracts say of what is printed that
//! it is the text of the cells that the readers have next, in the words in which a reader of rows says what it answers.
#![tactic(auto)]

mod cells;
mod rows;

pub use cells::push_cell;
pub use rows::push_next;
