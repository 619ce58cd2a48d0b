//! Types and cells of columns: trees of types, values and rows, and cells without their children.
#![tactic(auto)]

mod children;
mod fitting;
mod kind;
mod lent;
mod limits;
mod own;
mod row_copies;
mod tree;
mod value;

pub use children::{pairs_of, parts_of};
pub use fitting::{int_fits, value_fits};
pub use kind::{LIST, MAP, STRUCT, Scalar};
pub use lent::Lent;
pub use limits::{CELL_LIMIT, MOST_CELLS, MOST_STRIPE_ROWS};
pub use own::{Own, own_of};
pub use row_copies::owned;
pub use tree::{Field, Tree, tree_at, width_of};
pub use value::{MapPair, Row, Value};
