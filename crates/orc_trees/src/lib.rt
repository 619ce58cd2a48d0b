//! What a tree of types says alone: the text of a type, and the cells of a column, lent from rows.
#![tactic(auto)]

mod columns;
mod fault;
mod laws;
mod lent;
mod name_text;
mod names;
mod schema_text;
mod words;

pub use columns::{cells_of, lend_all};
pub use fault::TypeFault;
pub use laws::cells_laws;
pub use lent::lend;
pub use names::name_of;
pub use schema_text::{MOST_LEVELS, is_struct, put_tree, whole_tree};
