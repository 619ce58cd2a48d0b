//! Finds the end of a line.
ghost use Rattle.std.specs.Prelude.{◌≡◌, ◌<◌, ◌≤◌, length, take, get_or};
ghost use Rattle.orc_cli_write.specs.Lines.{IsLine};

use memchr::memchr;

/// Returns the number of bytes before the first line end, or of all bytes if there is none.
pub(crate) fn line_length(bytes: &[u8]) -> usize
    ensures bound { result ≤ length bytes.now }
    ensures line { IsLine (take result bytes.now) }
    ensures end { result < length bytes.now → get_or bytes.now result 0 ≡ 10 }
{
    memchr(b'\n', bytes).unwrap_or(bytes.len())
}
