//! Why a range of a source can't be read.
ghost use Rattle.std.specs.Prelude.{◌≡◌};
ghost use Rattle.orc_io.specs.declared.range_fault.RangeFault.TheVariants as fault;

use crate::source::SourceFault;
use std::alloc::AllocError;

/// Why a range of a source can't be read.
#[derive(Clone, Copy, Debug, PartialEq, Eq)]
pub enum RangeFault {
    /// A read of the source failed.
    SourceFailed,
    /// There was no memory for the bytes.
    OutOfMemory,
}

impl From<SourceFault> for RangeFault {
    ghost from_gives = { λ _ e. e ≡ fault.SourceFailed };

    fn from(_fault: SourceFault) -> RangeFault {
        RangeFault::SourceFailed
    }
}

impl From<AllocError> for RangeFault {
    ghost from_gives = { λ _ e. e ≡ fault.OutOfMemory };

    fn from(_fault: AllocError) -> RangeFault {
        RangeFault::OutOfMemory
    }
}
