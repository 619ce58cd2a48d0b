//! A device whose reads are reported to a meter.
ghost use Rattle.std.specs.Prelude.{◌≡◌};
ghost use Rattle.std.specs.Io.{ReadsAtMost};
ghost use Rattle.std.specs.Io.KnownBytes.{ReadConsumes};

use crate::progress::Progress;
use orc_io::{Source, SourceFault};
use std::io::{self, Read};

/// A device that reports to a meter how many bytes each of its reads gave. Its bytes and results are those of the
/// device. A read that failed isn't reported.
#[derive(Drop)]
pub struct Watched<'m, D, M: Progress> {
    device: D,
    meter: &'m M,
}

impl<'m, D, M: Progress> Watched<'m, D, M> {
    /// Takes a device, and the meter to which its reads are reported.
    pub fn new(device: D, meter: &'m M) -> Watched<'m, D, M>
        // The watched device is `device` as it was given.
        ensures device { result.device ≡ device }
    {
        Watched { device, meter }
    }
}

impl<D: Source, M: Progress> Source for Watched<'_, D, M> {
    ghost size = { λ watched. D.size watched.device };

    ghost told = { λ watched. D.told watched.device };

    ghost failures = { λ watched. D.failures watched.device };

    fn len(&self) -> u64 {
        self.device.len()
    }

    fn read_at(&mut self, at: u64, into: &mut [u8]) -> Result<(), SourceFault> {
        let answer = self.device.read_at(at, into);
        if answer.is_ok() {
            self.meter.done(into.len() as u64);
        }
        answer
    }

    fn rest(&mut self) {
        self.device.rest()
    }

    ghost told_size = { λ watched. D.told_size watched.device };

    ghost told_bytes = { λ watched. D.told_bytes watched.device };
}

/// Reports to the meter how many bytes a read gave, and returns the read's result.
fn noted<M: Progress>(meter: &M, answer: io::Result<usize>) -> io::Result<usize>
    ensures { result ≡ answer }
{
    if let Ok(count) = &answer {
        meter.done(*count as u64);
    }
    answer
}

impl<D: Read, M: Progress> Read for Watched<'_, D, M> {
    ghost remaining = { λ watched. D.remaining watched.device };

    fn read(&mut self, into: &mut [u8]) -> io::Result<usize>
        // A read gives at most as many bytes as `into` has.
        ensures bound { ReadsAtMost result into.new }
        // If the device's remaining bytes are known, then a read takes exactly the bytes that it gives from their front,
        // gives none of them only if none is left or `into` is empty, and takes none if it fails.
        ensures bytes { ReadConsumes (D.remaining self.old.device) (D.remaining self.new.device) result into.new }
    {
        noted(self.meter, self.device.read(into))
    }
}
