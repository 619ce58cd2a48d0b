//! A vector as a sink.
ghost use Rattle.std.specs.Prelude.{◌≡◌, ◌+◌, ◌<◌, ◌≤◌, length, [], ◌++◌, Some, IfOk, IsOk, OnErr, vec_len, vec_capacity, is_ok, if◌then◌else◌};
ghost use Rattle.orc_io.specs.Devices.{failures_after};

use crate::failures::Failures;
use crate::sink::{Sink, SinkFault};
use std::alloc::Global;

/// A sink that collects bytes in memory. They are known to contracts. A write takes the whole slice; it fails only if
/// the vector's capacity doesn't suffice and there is no memory for more. No write lowers the capacity.
#[derive(Drop)]
pub struct VecSink {
    bytes: Vec<u8>,
    failures: Failures,
}

impl VecSink {
    /// Makes a sink without bytes.
    pub fn new(alloc: Global) -> VecSink
        // The bytes of the returned sink are known and empty, and its count of failures is 0.
        ensures told { ⟦<VecSink as Sink>⟧.told result ≡ Some [] }
        ensures fresh { ⟦<VecSink as Sink>⟧.failures result ≡ 0 }
    {
        VecSink {
            bytes: Vec::new(alloc),
            failures: Failures::new(),
        }
    }

    /// Returns the bytes that the sink has got.
    pub fn into_vec(self) -> Vec<u8>
        // The returned bytes are the bytes of the sink, which are known.
        ensures told { ⟦<VecSink as Sink>⟧.told self ≡ Some result.items }
    {
        self.bytes
    }
}

impl Sink for VecSink {
    ghost told = { λ sink. Some sink.bytes.items };

    ghost failures = { λ sink. sink.failures };

    fn write(&mut self, bytes: &[u8]) -> Result<usize, SinkFault>
        // A write that succeeds takes all of `bytes`.
        ensures whole { IfOk result (λ n. n ≡ length bytes.now) }
        // The bytes of the sink's vector grow by exactly `bytes` if the write succeeds, and are unchanged if the write
        // fails.
        ensures told { self.new.bytes.items
            ≡ (if is_ok result then self.old.bytes.items ++ bytes.now else self.old.bytes.items) }
        // A write that fails raises the sink's count of failures by one. A write that succeeds leaves the count as it
        // is.
        ensures failures { self.new.failures ≡ failures_after result self.old.failures }
        // A write succeeds if the capacity of the sink's vector is at least the vector's length and the length of
        // `bytes` together. A write fails only if the capacity is less than these two lengths together.
        ensures full { OnErr result (vec_capacity self.old.bytes < vec_len self.old.bytes + length bytes.now) }
        ensures succeeds { vec_len self.old.bytes + length bytes.now ≤ vec_capacity self.old.bytes → IsOk result }
        // A write doesn't lower the capacity of the sink's vector.
        ensures capacity { vec_capacity self.old.bytes ≤ vec_capacity self.new.bytes }
    {
        match self.bytes.extend_from_slice(bytes) {
            Ok(()) => Ok(bytes.len()),
            Err(_) => {
                self.failures.note();
                Err(SinkFault)
            }
        }
    }
}
