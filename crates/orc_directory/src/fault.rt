//! Errors of stripes.
ghost use Rattle.std.specs.Prelude.{◌≡◌, ◌≢◌, ◌⊎◌};
ghost use Rattle.orc_directory.specs.declared.fault.StripeFault.TheVariants as fault;
ghost use Rattle.orc_wire.specs.declared.fault.WireFault.TheVariants as wire;
ghost use Rattle.orc_rle.specs.declared.fault.RunFault.TheVariants as run;

use orc_rle::RunFault;
use orc_wire::WireFault;
use std::alloc::{AllocError, AllocFailed};
use thiserror::Error;

/// The kinds of streams that a column's cells are read from.
#[derive(Clone, Copy, Debug, PartialEq, Eq, Error)]
pub enum StreamKind {
    #[error("PRESENT")]
    Present,
    #[error("DATA")]
    Data,
    #[error("LENGTH")]
    Length,
    #[error("DICTIONARY_DATA")]
    DictionaryData,
}

/// The part of a stripe's index that an error is about.
#[derive(Clone, Copy, Debug, PartialEq, Eq, Error)]
pub enum Spot {
    /// The stripe, whatever the column.
    #[error("")]
    Stripe,
    /// The column with this number.
    #[error("({0})")]
    Column(usize),
    /// A stream of the column with this number.
    #[error("({0}, {1})")]
    Stream(usize, StreamKind),
}

/// Why bytes are no stripe. An error has the number of the column and the stream, if it is about one.
#[derive(Clone, Copy, Debug, PartialEq, Eq, Error)]
pub enum StripeFault {
    /// The number of bytes isn't the sum of the stripe's three lengths; or the streams of the directory don't fit
    /// into the stripe, one is named twice, or one belongs to a column that doesn't exist.
    #[error("stripe 1 BadDirectory")]
    BadDirectory,
    /// The column has no encoding, or one that its type can't have.
    #[error("stripe 2 BadEncoding({0})")]
    BadEncoding(usize),
    /// The stream doesn't have the runs that are needed.
    #[error("stripe 3 Run({0}, {1}): {2}")]
    Run(usize, StreamKind, RunFault),
    /// A text is not UTF-8.
    #[error("stripe 4 NotUtf8({0}, {1})")]
    NotUtf8(usize, StreamKind),
    /// An index is not below the size of the dictionary.
    #[error("stripe 5 BadIndex({0})")]
    BadIndex(usize),
    /// A stream of bytes doesn't have the length that its LENGTHs add up to.
    #[error("stripe 6 LengthSum({0}, {1})")]
    LengthSum(usize, StreamKind),
    /// The rows have no index, or the column has none.
    #[error("stripe 7 NoIndex{0}")]
    NoIndex(Spot),
    /// There is no such group; or an index doesn't have one entry for each group, an entry doesn't have the number of
    /// positions of its column, or a position lies outside of its stream.
    #[error("stripe 8 BadPosition{0}")]
    BadPosition(Spot),
    /// The footer, or the index of a column, is not a valid message.
    #[error("stripe 9 Wire: {0}")]
    Wire(WireFault),
    /// There are more rows than a column may have cells (column 0), or the lists or maps of the column have more
    /// elements or pairs than that.
    #[error("stripe 10 TooMany({0})")]
    TooMany(usize),
    /// Memory ran out.
    #[error("stripe 11 OutOfMemory")]
    OutOfMemory,
    /// A number lies outside of its column's type.
    #[error("stripe 12 OutOfRange({0})")]
    OutOfRange(usize),
    /// The cursor has failed before.
    #[error("stripe 13 Failed")]
    Failed,
}

/// Returns the error of a column's stream for a cause in its runs.
pub fn run_fault(column: usize, kind: StreamKind, cause: RunFault) -> StripeFault
    // If `cause` isn't `OutOfMemory`, then the returned error is `Run` with `column`, `kind` and `cause`.
    ensures same { cause ≢ run.OutOfMemory → result ≡ fault.Run column kind cause }
    // If `cause` is `OutOfMemory`, then the returned error is `OutOfMemory`.
    ensures memory { cause ≡ run.OutOfMemory → result ≡ fault.OutOfMemory }
    // If the returned error isn't `OutOfMemory`, then it is `Run` with `column`, `kind` and `cause`, and `cause`
    // isn't `OutOfMemory`.
    ensures fails { result ≢ fault.OutOfMemory → (result ≡ fault.Run column kind cause) × (cause ≢ run.OutOfMemory) }
{
    match cause {
        RunFault::OutOfMemory => StripeFault::OutOfMemory,
        cause => StripeFault::Run(column, kind, cause),
    }
}

/// Returns the error of a stripe's footer for its cause.
pub fn wire_fault(cause: WireFault) -> StripeFault
    // If `cause` is `OutOfMemory`, then the returned error is `OutOfMemory`.
    ensures memory { cause ≡ wire.OutOfMemory → result ≡ fault.OutOfMemory }
    // The returned error is `OutOfMemory`, or it is `Wire` with `cause`, which isn't `OutOfMemory`.
    ensures either { (result ≡ fault.OutOfMemory) ⊎ ((result ≡ fault.Wire cause) × (cause ≢ wire.OutOfMemory)) }
{
    match cause {
        WireFault::OutOfMemory => StripeFault::OutOfMemory,
        cause => StripeFault::Wire(cause),
    }
}

impl<T: Drop> From<AllocFailed<T>> for StripeFault {
    ghost from_gives = { λ _ e. e ≡ fault.OutOfMemory };

    fn from(_: AllocFailed<T>) -> StripeFault {
        StripeFault::OutOfMemory
    }
}

impl From<AllocError> for StripeFault {
    ghost from_gives = { λ _ e. e ≡ fault.OutOfMemory };

    fn from(_: AllocError) -> StripeFault {
        StripeFault::OutOfMemory
    }
}
