//! Why nothing is printed.
use orc_tail::FileFault;
use std::alloc::AllocError;
use thiserror::Error;

/// Why nothing is printed.
#[derive(Clone, Copy, Debug, Error)]
pub(crate) enum Trouble {
    /// The words ask for no call.
    #[error("usage: orc_test_reader rows|stripe_rows|view|next|rest FILE, or from FILE STRIPE GROUP")]
    Words,
    /// The file can't be read.
    #[error("the file can't be read")]
    Unread,
    /// The call was refused.
    #[error("{0}")]
    Refused(FileFault),
}

impl From<FileFault> for Trouble {
    fn from(fault: FileFault) -> Trouble {
        Trouble::Refused(fault)
    }
}

impl From<AllocError> for Trouble {
    fn from(_: AllocError) -> Trouble {
        Trouble::Refused(FileFault::OutOfMemory)
    }
}
