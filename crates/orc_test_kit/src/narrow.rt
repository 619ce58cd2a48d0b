//! A writer of the standard library that takes few bytes a call, and none once it is full.

use crate::fail_sink::FailSink;
use orc_io::Sink;
use std::io;
use std::io::Write;

/// It takes and answers what the sink in it does.
#[derive(Drop)]
pub struct Narrow(pub FailSink);

impl Write for Narrow {
    fn write(&mut self, bytes: &[u8]) -> io::Result<usize> {
        match self.0.write(bytes) {
            Ok(n) => Ok(n),
            Err(_) => Err(io::Error::from(io::ErrorKind::StorageFull)),
        }
    }

    fn flush(&mut self) -> io::Result<()> {
        Ok(())
    }
}
