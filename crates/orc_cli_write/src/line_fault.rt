//! The reason why a line could not be read.

use orc_cli_output::CliFault;
use orc_tail::FileFault;

/// The reason why a line could not be read. A command reports it as a fault of the layer of files: `SourceFailed` if
/// reading failed, and `OutOfMemory` if there was no memory for the line.
#[derive(Clone, Copy, Debug, PartialEq, Eq)]
pub enum LineFault {
    /// Reading failed.
    Failed,
    /// There was no memory for the line.
    OutOfMemory,
}

impl From<LineFault> for CliFault {
    ghost use Rattle.std.specs.Prelude.{◌≡◌};
    ghost use Rattle.orc_cli_write.specs.Reads.{refusal_of};

    ghost from_gives = { λ line fault. fault ≡ refusal_of line };

    fn from(line: LineFault) -> CliFault {
        match line {
            LineFault::Failed => CliFault::File(FileFault::SourceFailed),
            LineFault::OutOfMemory => CliFault::File(FileFault::OutOfMemory),
        }
    }
}
