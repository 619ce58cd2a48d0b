//! Readers of columns from positions in the middle of their streams; what a stream has before its position's offset
//! doesn't matter.
#![tactic(auto)]

mod bits;
mod bytes;
mod entered;
mod entries;
mod faults;
mod laws;
mod marks;
mod numbers;
mod octets;
mod own;
mod reader;
mod readers;
mod run_starts;
mod value_source;

pub use bits::bits_at;
pub use bytes::bytes_at;
pub use laws::entering_laws;
pub use numbers::numbers_at;
pub use readers::readers_at;
