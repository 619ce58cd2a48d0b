//! Tests whether a stripe's columns store rows, column by column down the schema, each from its own streams. No row
//! is made, and no value is kept.
#![tactic(auto)]

mod bounds;
mod found;
mod group_values;
mod groups;
mod laws;
mod marks;
mod next_value;
mod own_values;
mod passed;
mod scalars;
mod sizes;
mod struct_groups;
mod values;
mod walk;

pub use found::{ColumnFound, GroupFound};
pub use groups::read_groups;
pub use laws::own_column_laws;
pub use walk::walk_columns;
