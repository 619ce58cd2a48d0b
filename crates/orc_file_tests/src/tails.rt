//! Tails: how they are read, under caps too, and whether stripes lie without gaps.

mod caps;
mod changed_bytes;
mod failing;
mod reads;

use crate::assertions::demand;
use orc_file::{FileFault, SliceSource, Tail, read_tail};
use orc_test_kit::TWICE;
use std::alloc::Global;

/// The tail of bytes.
fn tail_of(alloc: Global, bytes: &[u8]) -> Result<Tail, FileFault> {
    read_tail(alloc, &mut SliceSource::new(bytes))
}

/// Where the first stripe has a byte less, a gap is behind it.
#[test]
fn gaps_are_told(rt: HostRuntime) -> Result<(), FileFault> {
    let tail = tail_of(rt.alloc(), &TWICE)?;
    demand(&rt, tail.is_laid(), "no gap", &[]);
    let mut bytes = TWICE;
    bytes[96] = 0x02;
    let tail = tail_of(rt.alloc(), &bytes)?;
    demand(&rt, !tail.is_laid(), "gap", &[]);
    Ok(())
}
