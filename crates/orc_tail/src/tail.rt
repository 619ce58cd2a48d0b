//! The tail of a file.
mod extent;
mod file_stats;
mod footer;
mod laid;
mod limits;
mod metadata;
mod postscript;
mod reading;
mod statistics;
mod writing;

pub use extent::stripe_length;
pub use file_stats::file_statistics;
pub use limits::{MOST_BYTES, MOST_ROWS, MOST_STRIPES};
use orc_stats::Stat;
use orc_types::Schema;
use orc_wire::{Bytes, Items, StripeInfo, UserMetadataItem};
pub use reading::{read_capped_tail, read_tail};

/// What a file stores about itself, after its stripes (ORC specification, "File Tail").
#[derive(Debug, Drop)]
pub struct Tail {
    /// The version of the format, such as 0 and 11.
    pub version: Items<u32>,
    /// The number of the program that wrote the file.
    pub writer: Option<u32>,
    /// The version of the writer in that program.
    pub writer_version: Option<u32>,
    /// The types of the columns.
    pub schema: Schema,
    /// The records of the stripes, in order: offset, lengths and number of rows.
    pub stripes: Items<StripeInfo>,
    /// The statistics of each stripe's columns, in the order of the columns.
    pub stripe_stats: Items<Items<Stat>>,
    /// The statistics of the file's columns, in the order of the columns.
    pub file_stats: Items<Stat>,
    /// The user metadata: pairs of a name and a value.
    pub user: Items<UserMetadataItem>,
    /// The number of rows of a row group; 0 if there are no row indexes.
    pub stride: u32,
    /// The number of rows of the file.
    pub rows: u64,
    /// The footer's fields with numbers above 10, unchanged, each with its key.
    pub other: Bytes,
}
