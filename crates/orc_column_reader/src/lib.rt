//! Columns: reads the values that a stripe's streams store, column by column.
#![tactic(auto)]

mod bits;
mod byte_strings;
mod bytes;
mod column;
mod dictionary;
mod entry;
mod marks;
mod numbers;
mod octets;
mod starting;
mod value_source;
mod version;
mod whole_numbers;

pub use bits::Bits;
pub use bytes::RunLengthBytes;
pub use column::{ColumnReader, ValueSource, next_present, next_size, scalar_end, scalar_left};
pub use dictionary::entries_of;
pub use entry::Entry;
pub use marks::{marks_end, marks_left, next_mark};
pub use numbers::{Numbers, numbers_end, numbers_left, numbers_of};
pub use octets::Octets;
pub use starting::{ColumnStreams, reader_of, streams_of};
pub use version::version_of;
