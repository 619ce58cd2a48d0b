//! Faults of writing to a vector.
ghost use Rattle.orc_c.specs.Memory.{ToldAs, MergeToldAs};

use orc_cli_output::CliFault;
use orc_merger::MergeFault;
use orc_tail::FileFault;

/// Returns the fault, with `OutOfMemory` in place of `WriteFailed`: writing to a vector fails only for want of
/// memory.
pub(crate) fn told_of(fault: CliFault) -> CliFault
    ensures { ToldAs fault result }
{
    match fault {
        CliFault::File(FileFault::WriteFailed) => CliFault::File(FileFault::OutOfMemory),
        other => other,
    }
}

/// Returns the fault of a merge, with `OutOfMemory` in place of `WriteFailed`: writing to a vector fails only for
/// want of memory.
pub(crate) fn merge_told_of(fault: MergeFault) -> MergeFault
    ensures { MergeToldAs fault result }
{
    match fault {
        MergeFault::WriteFailed => MergeFault::OutOfMemory,
        other => other,
    }
}
