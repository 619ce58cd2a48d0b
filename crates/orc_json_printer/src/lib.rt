//! What rows are printed by: layouts of their types, the text of a single value, and where text is put.
#![tactic(auto)]

pub mod layout;
pub mod leaf_text;
pub mod output;
pub mod printing;
mod quoted;

pub use output::TextOutput;
