//! What a column is: schemas as trees of types, rows of a schema, and the cells of its columns.
#![tactic(auto)]

mod columns;
mod copies;
mod fitting;
mod json_printing;
mod json_reading;
mod laws;
mod listing;
mod preorder;
mod schema;
mod schema_text;

pub use columns::cells;
pub use fitting::fits;
pub use json_printing::row_to_json;
pub use json_reading::row_from_json;
pub use laws::{schema_laws, schema_text_laws};
pub use orc_json_rows::{JsonFault, date_text, day_laws, json_laws, leaf_from_text};
pub use orc_trees::{TypeFault, cells_laws, lend};
pub use orc_values::{
    Field, Lent, MapPair, Own, Row, Scalar, Tree, Value, int_fits, own_of, owned, pairs_of,
    parts_of, tree_at, width_of,
};
pub use schema::Schema;
