//! What test crates share: the bytes of whole files, and devices that fail or keep what was read; a stripe's rows as lines, and
//! the calls that stripes are read by without their contracts.
#![tactic(auto)]

mod calls;
mod fail_sink;
mod fail_source;
mod files;
mod lines;
mod narrow;
mod seen_source;

pub use calls::{cursor_of, next_row, next_text, rest_of, rows_of, schema_of};
pub use fail_sink::{FailSink, Full};
pub use fail_source::FailSource;
pub use files::{EMPTY, LISTS_BEFORE, NAMED, SEVENS, TWICE, UPWARDS};
pub use lines::{line_of, lines_at_once, lines_one_by_one, lines_straight};
pub use narrow::Narrow;
pub use seen_source::SeenSource;
