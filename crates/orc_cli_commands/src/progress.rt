//! The trait of what is told about progress.

/// Is told how many bytes are to be read, and how many were read. This changes no result: it is told through a shared
/// reference and returns nothing.
pub trait Progress {
    /// `bytes` more bytes are to be read.
    fn ahead(&self, bytes: u64);

    /// `bytes` more bytes were read.
    fn done(&self, bytes: u64);
}
