//! Rows as JSON, over a tree of types: which row a value of JSON spells and which value a row prints as, both ways by values
//! of `serde_json`. The names of a tree's fields, and dates as text.
#![tactic(auto)]

mod day_text;
mod field_names;
mod json_fault;
mod json_leaf;
mod json_printing;
mod json_reading;
mod laws;

pub use day_text::date_text;
pub use field_names::is_distinct;
pub use json_fault::JsonFault;
pub use json_leaf::leaf_from_text;
pub use json_printing::json_of;
pub use json_reading::row_of;
pub use laws::{day_laws, json_laws};
