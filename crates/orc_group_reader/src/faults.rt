//! Why a stream can't be read from a position on.
ghost use Rattle.orc_group_reader.specs.Refusals.{IsEnteringFault};

use orc_directory::{Spot, StreamKind, StripeFault, run_fault};
use orc_rle::RunFault;

/// Returns the error of a column's stream that can't be read from a position on: `BadPosition` with the stream, if
/// the position isn't one of the stream, else the error of the run.
pub(crate) fn entering_fault(column: usize, kind: StreamKind, cause: RunFault) -> StripeFault
    ensures { IsEnteringFault column kind cause result }
{
    match cause {
        RunFault::BadPosition(_) => StripeFault::BadPosition(Spot::Stream(column, kind)),
        cause => run_fault(column, kind, cause),
    }
}
