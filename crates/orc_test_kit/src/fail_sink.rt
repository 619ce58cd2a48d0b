//! A sink that takes few bytes a call, and none once it is full.
ghost use Rattle.std.specs.Prelude.{◌≤◌, Some, vec_capacity};

use orc_io::{Failures, Sink, SinkFault};
use std::alloc::{AllocError, Global};

/// What a full sink answers.
#[derive(Clone, Copy, Debug, PartialEq, Eq)]
pub enum Full {
    Fails,
    TakesNothing,
}

/// It takes at most `a_call` bytes a call, and `room` in all.
#[derive(Drop)]
pub struct FailSink {
    bytes: Vec<u8>,
    a_call: usize,
    room: usize,
    full: Full,
    refusals: usize,
    failures: Failures,
    ghost reserved: { room ≤ vec_capacity bytes },
}

impl FailSink {
    /// Its memory is reserved here, and none is wanted later.
    pub fn new(
        alloc: Global,
        a_call: usize,
        room: usize,
        full: Full,
    ) -> Result<FailSink, AllocError> {
        Ok(FailSink {
            bytes: Vec::with_capacity(alloc, room)?,
            a_call,
            room,
            full,
            refusals: 0,
            failures: Failures::new(),
        })
    }

    /// The bytes so far.
    pub fn bytes(&self) -> &[u8] {
        &self.bytes
    }

    /// How often some bytes were offered to it in vain.
    pub fn refusals(&self) -> usize {
        self.refusals
    }
}

impl Sink for FailSink {
    ghost told = { λ sink. Some sink.bytes.items };

    ghost failures = { λ sink. sink.failures };

    fn write(&mut self, bytes: &[u8]) -> Result<usize, SinkFault> {
        let left = self.room.saturating_sub(self.bytes.len());
        let n = bytes.len().min(self.a_call).min(left);
        if n == 0 && !bytes.is_empty() {
            self.refusals = self.refusals.saturating_add(1);
            self.failures.note();
            return match self.full {
                Full::Fails => Err(SinkFault),
                Full::TakesNothing => Ok(0),
            };
        }
        self.bytes.extend_from_slice(&bytes[..n]).unwrap();
        Ok(n)
    }
}
