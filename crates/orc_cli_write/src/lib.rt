//! Writes files from lines of JSON, one row per line.
#![tactic(auto)]

mod from_reader;
mod line_end;
mod line_fault;
mod line_reader;
mod std_lines;
mod write;

pub use from_reader::write_lines;
pub use line_fault::LineFault;
pub use line_reader::LineReader;
pub use std_lines::StdLines;
pub use write::write_from;
