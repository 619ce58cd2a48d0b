//! Outputs that are kept even if the power fails.
ghost use Rattle.std.specs.Prelude.{◌≡◌, OnOk, true, false};
ghost use Rattle.std.specs.Io.{WritesAtMost};
ghost use Rattle.std.specs.Io.KnownBytes.{Keeps};

use orc_cli_output::write_again;
use std::fs::File;
use std::io::{self, Write};

/// A writer that can be asked to keep what it has got, so that the bytes are still there after a power failure. No
/// clause can say that the device really confirmed a success, so each `impl` has to be read for that.
pub trait Durable: Write {
    /// The writer keeps all that it has got, even if the power fails.
    ghost durable: { Self → Type 0 };

    /// Asks for all that the writer has got to be kept. After an error the writer may have removed all its bytes, so
    /// that nobody takes them for kept.
    fn sync(&mut self) -> io::Result<()>
        // If the call succeeds, then the writer keeps all that it has got, even if the power fails.
        ensures durable { OnOk result (durable self.new) }
        // If the call succeeds, then the writer's bytes are unchanged if they are known.
        ensures bytes { OnOk result (Keeps (Self.contents self.old) (Self.contents self.new)) };
}

/// A file of the system, and whether the system has put all that was written to it on the device. A write that is
/// interrupted is made again.
#[derive(Drop)]
pub struct SystemFile {
    file: File,
    synced: bool,
}

impl SystemFile {
    /// Takes a file that was just opened.
    pub fn new(file: File) -> SystemFile
        // The returned file has `file` as it was given, and isn't marked as one whose bytes are on the device.
        ensures file { result.file ≡ file }
        ensures fresh { result.synced ≡ false }
    {
        SystemFile {
            file,
            synced: false,
        }
    }
}

impl Write for SystemFile {
    fn write(&mut self, bytes: &[u8]) -> io::Result<usize>
        // A write takes at most as many bytes as `bytes` has.
        ensures bound { WritesAtMost result bytes.now }
        // After a write the file isn't marked as one whose bytes are on the device.
        ensures unsynced { self.new.synced ≡ false }
    {
        self.synced = false;
        write_again(&mut self.file, bytes)
    }

    fn flush(&mut self) -> io::Result<()> {
        self.file.flush()
    }
}

impl Durable for SystemFile {
    ghost durable = { λ file. file.synced ≡ true };

    fn sync(&mut self) -> io::Result<()> {
        match self.file.sync_all() {
            Ok(()) => {
                self.synced = true;
                Ok(())
            }
            Err(error) => {
                // what isn't kept must not look like a whole file
                let _ = self.file.set_len(0);
                Err(error)
            }
        }
    }
}
