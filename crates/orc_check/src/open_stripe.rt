//! A stripe whose columns are checked.
use orc_directory::Located;
use orc_stats::Stat;
use orc_stripe_reader::{IndexText, StripeView};

/// A stripe with its number, the statistics that the tail has of its columns, and the places of their streams and row
/// indexes.
#[derive(Drop)]
pub(crate) struct OpenStripe<'s, 'a> {
    pub number: usize,
    pub told: &'s [Stat],
    pub view: &'s StripeView<'a>,
    pub located: Located<'a>,
    pub texts: Vec<IndexText<'a>>,
}
