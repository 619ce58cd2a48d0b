//! Files: the calls of `orc_file_reader`, which reads rows, and of `orc_file_writer`, which writes rows, and the laws
//! of both. The crate also exports the calls for tails and for devices, which `orc_tail` and `orc_io` define.
#![tactic(auto)]

mod laws;

pub use laws::written_laws;
pub use orc_file_reader::{
    OrcFile, cap_laws, load_stripe, row_laws, stripe_rows, view_stripe, whole_laws,
};
pub use orc_file_writer::Writer;
pub use orc_io::{
    Failures, FileSource, RangeFault, Sink, SinkFault, SliceSource, Source, SourceFault, StdSink,
    VecSink, read_range, write_all,
};
pub use orc_tail::{
    FileFault, MOST_BYTES, MOST_ROWS, MOST_STRIPES, Tail, file_statistics, image_laws, read_tail,
    stripe_length, tail_laws,
};
pub use orc_values::MOST_STRIPE_ROWS;
