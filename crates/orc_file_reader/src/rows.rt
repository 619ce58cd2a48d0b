//! The rows of a file, stripe by stripe.
mod loading;
mod row_reading;

pub use loading::{load_stripe, stripe_rows, view_stripe};
