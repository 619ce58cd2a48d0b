//! Reads stripes: from columns and streams to rows. `orc_column_reader` defines what streams spell.
#![tactic(auto)]

mod cursor;
mod groups;
mod laws;
mod stepping;
mod view;

pub use cursor::RowCursor;
pub use laws::{column_laws, group_laws, stripe_laws};
pub use view::{IndexText, StripeView, read_index};
