//! Errors of merging files.
ghost use Rattle.std.specs.Prelude.{◌≡◌};
ghost use Rattle.orc_merger.specs.declared.fault.MergeFault.TheVariants as fault;

use orc_tail::FileFault;
use std::alloc::{AllocError, AllocFailed};
use thiserror::Error;

/// Why files could not be merged. The number in an error is that of the refused input, counted from 0.
#[derive(Clone, Copy, Debug, PartialEq, Eq, Error)]
pub enum MergeFault {
    /// There is no input.
    #[error("merge 1 NoInput")]
    NoInput,
    /// The input isn't a file that opens, for this reason.
    #[error("merge 2 File({0}): {1}")]
    File(usize, FileFault),
    /// The input's schema differs from the first input's.
    #[error("merge 3 SchemaDiffers({0})")]
    SchemaDiffers(usize),
    /// The input's file version, writer or writer version differs from the first input's.
    #[error("merge 4 VersionDiffers({0})")]
    VersionDiffers(usize),
    /// The input's row index stride, the number of rows in a group, differs from the first input's.
    #[error("merge 5 StrideDiffers({0})")]
    StrideDiffers(usize),
    /// The input's other footer fields differ from the first input's.
    #[error("merge 6 OtherFooterFields({0})")]
    OtherFooterFields(usize),
    /// The input's user metadata has another value for a name than an earlier pair of this or an earlier input.
    #[error("merge 7 UserMetadataConflict({0})")]
    UserMetadataConflict(usize),
    /// The input lacks a statistic of some column of some stripe.
    #[error("merge 8 NoStripeStatistics({0})")]
    NoStripeStatistics(usize),
    /// With this input the merged file would exceed a limit.
    #[error("merge 9 Limit({0})")]
    Limit(usize),
    /// The input could not be read.
    #[error("merge 10 SourceFailed({0})")]
    SourceFailed(usize),
    /// The output failed.
    #[error("merge 11 WriteFailed")]
    WriteFailed,
    /// Memory ran out.
    #[error("merge 12 OutOfMemory")]
    OutOfMemory,
}

impl From<AllocError> for MergeFault {
    ghost from_gives = { λ _ e. e ≡ fault.OutOfMemory };

    fn from(_: AllocError) -> MergeFault {
        MergeFault::OutOfMemory
    }
}

impl<T: Drop> From<AllocFailed<T>> for MergeFault {
    ghost from_gives = { λ _ e. e ≡ fault.OutOfMemory };

    fn from(_: AllocFailed<T>) -> MergeFault {
        MergeFault::OutOfMemory
    }
}
