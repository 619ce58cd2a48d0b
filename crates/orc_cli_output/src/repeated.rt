//! Writers whose interrupted writes are made again.
ghost use Rattle.std.specs.Prelude.{◌≡◌};
ghost use Rattle.std.specs.Io.{WritesAtMost};
ghost use Rattle.std.specs.Io.KnownBytes.{WriteAppends};

use std::io::{self, ErrorKind, Write};

/// Writes once. A write that is interrupted is made again, as the standard library does; one that failed otherwise
/// isn't.
pub fn write_again<W: Write>(out: &mut W, bytes: &[u8]) -> io::Result<usize>
    // A write takes at most as many bytes as `bytes` has.
    ensures bound { WritesAtMost result bytes.now }
    // If the output's bytes are known, then they grow by exactly the prefix of `bytes` that the write takes, and are
    // unchanged if the write fails.
    ensures bytes { WriteAppends (W.contents out.old) (W.contents out.new) result bytes.now }
{
    for _ in 0..u64::MAX {
        match out.write(bytes) {
            Ok(count) => return Ok(count),
            Err(error) => {
                if error.kind() != ErrorKind::Interrupted {
                    return Err(error);
                }
            }
        }
    }
    // no program is interrupted as often as this
    Err(io::Error::from(ErrorKind::Interrupted))
}

/// A writer whose interrupted writes are made again. Its bytes and its other answers are those of the writer below it.
#[derive(Drop)]
pub struct Repeated<W: Write> {
    out: W,
}

impl<W: Write> Repeated<W> {
    /// Takes a writer as it is.
    pub fn new(out: W) -> Repeated<W>
        // The returned writer has `out` below it as it was given.
        ensures out { result.out ≡ out }
    {
        Repeated { out }
    }
}

impl<W: Write> Write for Repeated<W> {
    ghost contents = { λ repeated. W.contents repeated.out };

    fn write(&mut self, bytes: &[u8]) -> io::Result<usize> {
        write_again(&mut self.out, bytes)
    }

    fn flush(&mut self) -> io::Result<()> {
        self.out.flush()
    }
}
