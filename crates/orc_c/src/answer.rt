//! What a call returns.

/// What a call returns. If the call succeeded, then the layer and the number are 0, and the length is that of all
/// bytes that it made. If it failed, then the layer and the number are those of its error, and the length is that of
/// the error's text.
#[repr(C)]
#[derive(Clone, Copy, Debug, PartialEq, Eq)]
pub struct Answer {
    /// The number of bytes that a buffer needs to have room for all of them. The buffer got as many of them as it has
    /// room for.
    pub length: usize,
    /// The layer of the error, or 0.
    pub layer: u32,
    /// The number of the error in its layer, or 0.
    pub number: u32,
}
