//! Protocol Buffers fields and the messages of ORC: a message is read if and only if the bytes
//! spell it, and written as its one canonical text.
#![tactic(auto)]

mod canonical;
mod column_stats;
mod encoding;
mod fault;
mod field;
mod field_writer;
mod fields;
mod footer;
mod inner;
mod items;
mod iter;
mod laws;
mod lists;
mod members;
mod message;
mod payload;
mod post_script;
mod row_index;
mod stats_records;
mod stripe_footer;
mod stripe_info;
mod type_msg;

pub use column_stats::{ColumnStats, Metadata, StripeStatistics};
pub use encoding::{DICTIONARY, DICTIONARY_V2, DIRECT, DIRECT_V2, Encoding};
pub use fault::WireFault;
pub use field::{Field, Value};
pub use field_writer::FieldWriter;
pub use footer::{Footer, UserMetadataItem};
pub use items::{Bytes, Items};
pub use iter::Fields;
pub use laws::{canonical_laws, field_laws, message_laws, table_laws, whole_laws};
pub use message::Message;
pub use post_script::PostScript;
pub use row_index::{RowIndexEntry, RowIndexMsg};
pub use stats_records::{
    BinaryStatistics, BucketStatistics, CollectionStatistics, DateStatistics, IntegerStatistics,
    StringStatistics,
};
pub use stripe_footer::{
    CELL_KINDS, DATA, DICTIONARY_DATA, LENGTH, PRESENT, ROW_INDEX, StreamMsg, StripeFooter,
};
pub use stripe_info::StripeInfo;
pub use type_msg::TypeMsg;
