//! Stripes: from columns and streams to rows, and back. Users call this crate, which exports the calls of
//! `orc_stripe_reader` and of `orc_stripe_writer`.
#![tactic(auto)]

pub use orc_directory::{Spot, StreamKind, StripeFault};
pub use orc_stripe_reader::{
    IndexText, RowCursor, StripeView, column_laws, group_laws, read_index, stripe_laws,
};
pub use orc_stripe_writer::{Options, StripeOut, are_few, write_stripe, writing_laws};
