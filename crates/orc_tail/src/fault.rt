//! Why bytes are no file, or why a file can't be read or written.
ghost use Rattle.std.specs.Prelude.{◌≡◌, ◌≢◌, ◌⊎◌};
ghost use Rattle.orc_directory.specs.declared.fault.StripeFault.TheVariants as stripe;
ghost use Rattle.orc_tail.specs.declared.fault.FileFault.TheVariants as fault;

use orc_directory::StripeFault;
use orc_trees::TypeFault;
use std::alloc::{AllocError, AllocFailed};
use thiserror::Error;

/// Why bytes are no file, or why a file can't be read or written.
#[derive(Clone, Copy, Debug, PartialEq, Eq, Error)]
pub enum FileFault {
    /// The bytes don't begin with `ORC`, or the postscript has another magic.
    #[error("file 1 NotOrc")]
    NotOrc,
    /// The postscript's bytes are no valid message, or its version has more than 16 numbers.
    #[error("file 2 BadPostscript")]
    BadPostscript,
    /// The file is compressed, with the compression of this number.
    #[error("file 3 Compressed({0})")]
    Compressed(u32),
    /// The file is encrypted.
    #[error("file 4 Encrypted")]
    Encrypted,
    /// The parts of the tail don't fit into the file.
    #[error("file 5 BadLengths")]
    BadLengths,
    /// The footer's bytes are no valid message, or it has more statistics than columns.
    #[error("file 6 BadFooter")]
    BadFooter,
    /// The metadata's bytes are no valid message, or it has statistics of more stripes or columns than the footer has.
    #[error("file 7 BadMetadata")]
    BadMetadata,
    /// The footer's types make no schema.
    #[error("file 8 BadTypes: {0}")]
    BadTypes(TypeFault),
    /// The stripe with this number begins before the end of what comes before it, or ends after the start of the
    /// metadata.
    #[error("file 9 BadStripe({0})")]
    BadStripe(usize),
    /// The stripes don't have as many rows together as the footer says.
    #[error("file 10 RowCount")]
    RowCount,
    /// A limit is exceeded, or would be if the call went on.
    #[error("file 11 Limit")]
    Limit,
    /// The stripe with this number can't be read, for this reason.
    #[error("file 12 Stripe({0}): {1}")]
    Stripe(usize, StripeFault),
    /// A row doesn't fit the schema.
    #[error("file 13 RowShape")]
    RowShape,
    /// A read of the source failed.
    #[error("file 14 SourceFailed")]
    SourceFailed,
    /// A write to the output failed.
    #[error("file 15 WriteFailed")]
    WriteFailed,
    /// There is no memory.
    #[error("file 16 OutOfMemory")]
    OutOfMemory,
    /// The writer failed in an earlier call.
    #[error("file 17 Failed")]
    Failed,
}

impl From<AllocError> for FileFault {
    ghost from_gives = { λ _ e. e ≡ fault.OutOfMemory };

    fn from(_: AllocError) -> FileFault {
        FileFault::OutOfMemory
    }
}

impl<T: Drop> From<AllocFailed<T>> for FileFault {
    ghost from_gives = { λ _ e. e ≡ fault.OutOfMemory };

    fn from(_: AllocFailed<T>) -> FileFault {
        FileFault::OutOfMemory
    }
}

/// Returns the file's fault for a fault of its stripe with this number.
pub fn stripe_fault(number: usize, cause: StripeFault) -> FileFault
    // The answer is `OutOfMemory` if `cause` is `OutOfMemory`, and otherwise `Stripe` with `number` and `cause`.
    ensures { ((cause ≡ stripe.OutOfMemory) × (result ≡ fault.OutOfMemory))
        ⊎ ((cause ≢ stripe.OutOfMemory) × (result ≡ fault.Stripe number cause)) }
{
    match cause {
        StripeFault::OutOfMemory => FileFault::OutOfMemory,
        cause => FileFault::Stripe(number, cause),
    }
}
