//! Statistics of a column's cells, how they join, and their messages.
#![tactic(auto)]

mod agreeing;
mod counted;
mod fault;
mod join;
mod kind;
mod laws;
mod measures;
mod message;
mod nulls;
mod records;
mod seen;
mod stat;
mod tally;
mod text_order;
mod text_parts;
mod totals;

pub use agreeing::tells;
pub use counted::Counted;
pub use fault::StatFault;
pub use join::{join_all, of_cells};
pub use kind::StatKind;
pub use laws::{agree_laws, join_laws, kind_laws, stat_laws, stat_message_laws, tally_laws};
pub use measures::{Bins, Bools, Children, Dates, Ints, Measures, Plain, Sizes, Texts};
pub use seen::Seen;
pub use stat::{Body, Stat};
pub use tally::Tally;
