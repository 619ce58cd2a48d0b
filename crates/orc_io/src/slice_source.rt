//! A slice of bytes as a source.
ghost use Rattle.std.specs.Prelude.{◌≡◌, ◌+◌, ◌<◌, ◌≤◌, length, All, Some, Ok, OnOk};
ghost use Rattle.orc_io.specs.Devices.{bytes_at};

use crate::source::{Source, SourceFault};

/// Bytes in memory as a source. Its bytes are known to contracts, and no read fails.
#[derive(Drop)]
pub struct SliceSource<'a> {
    bytes: &'a [u8],
    ghost are_bytes: { All (λ byte. byte < 256) bytes.now },
}

impl<'a> SliceSource<'a> {
    /// Makes a source of these bytes.
    pub fn new(bytes: &'a [u8]) -> SliceSource<'a>
        // The bytes of the returned source are known, and they are `bytes`.
        ensures told { ⟦<SliceSource<'a> as Source>⟧.told result ≡ Some bytes.now }
    {
        SliceSource { bytes }
    }
}

impl Source for SliceSource<'_> {
    ghost use Rattle.std.specs.Prelude.{refl};

    ghost size = { λ source. length source.bytes.now };

    ghost told = { λ source. Some source.bytes.now };

    ghost failures = { λ _. 0 };

    fn len(&self) -> u64 {
        self.bytes.len() as u64
    }

    fn read_at(&mut self, at: u64, into: &mut [u8]) -> Result<(), SourceFault>
        requires { at + length into.old ≤ length self.old.bytes.now }
        // If the range lies within the slice, then a read succeeds and doesn't change the source.
        ensures never { result ≡ Ok tt }
        ensures same { self.new ≡ self.old }
        // If the range lies within the slice, then a read that succeeds fills `into` with the bytes of the slice from
        // `at` on.
        ensures bytes { OnOk result (into.new ≡ bytes_at at (length into.old) self.old.bytes.now) }
    {
        let start = at as usize;
        into.copy_from_slice(&self.bytes[start..start + into.len()]);
        Ok(())
    }

    fn rest(&mut self)
        // `rest` doesn't change the source.
        ensures same { self.new ≡ self.old }
    {}

    ghost told_size = { λ _. refl };

    ghost told_bytes = { λ source. source.are_bytes };
}
