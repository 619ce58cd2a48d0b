//! Each byte of a file made each other one: it has a tail then, or is refused for its bytes.

use super::tail_of;
use crate::assertions::demand;
use orc_file::FileFault;
use orc_test_kit::SEVENS;
use std::alloc::Global;

/// Whether a refusal is one of a file's bytes.
fn is_of_bytes(fault: FileFault) -> bool {
    !matches!(
        fault,
        FileFault::Stripe(..)
            | FileFault::RowShape
            | FileFault::SourceFailed
            | FileFault::WriteFailed
            | FileFault::OutOfMemory
            | FileFault::Failed
    )
}

/// Whether the file with this byte at a place is answered as it may be: none is read whose front isn't ORC's.
fn is_answered(alloc: Global, place: usize, byte: u8) -> bool {
    let mut bytes = SEVENS;
    if let Some(changed) = bytes.get_mut(place) {
        *changed = byte;
    }
    let is_same = bytes == SEVENS;
    match tail_of(alloc, &bytes).err() {
        None => is_same || place >= 3,
        Some(fault) => !is_same && is_of_bytes(fault),
    }
}

#[test]
fn each_changed_byte_is_answered(rt: HostRuntime) {
    for place in 0..120usize {
        for byte in 0..=255u8 {
            let is_right = is_answered(rt.alloc(), place, byte);
            demand(
                &rt,
                is_right,
                "byte, place",
                &[u64::from(byte), place as u64],
            );
        }
    }
}
