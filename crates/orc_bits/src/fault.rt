//! Why no number can be read or written.
use thiserror::Error;

/// Why no number could be read or written.
#[derive(Clone, Copy, Debug, PartialEq, Eq, Error)]
pub enum BitFault {
    /// The bytes end within a number.
    #[error("bit 1 Short")]
    Short,
    /// A varint's tenth byte is above 1, so its number has more than 64 bits.
    #[error("bit 2 TooLong")]
    TooLong,
    /// Memory ran out.
    #[error("bit 3 OutOfMemory")]
    OutOfMemory,
}
