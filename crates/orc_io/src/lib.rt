//! Devices: sources, from which the bytes of files are read, and sinks, to which they are written.
#![tactic(auto)]

mod failures;
mod file_source;
mod range_fault;
mod ranges;
mod sending;
mod sink;
mod slice_source;
mod source;
mod std_sink;
mod vec_sink;

pub use failures::Failures;
pub use file_source::FileSource;
pub use range_fault::RangeFault;
pub use ranges::read_range;
pub use sending::write_all;
pub use sink::{Sink, SinkFault};
pub use slice_source::SliceSource;
pub use source::{Source, SourceFault};
pub use std_sink::StdSink;
pub use vec_sink::VecSink;
