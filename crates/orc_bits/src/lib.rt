//! Numbers as bits and bytes: zigzag, varints and packed digits, as Protocol Buffers and the ORC run
//! lengths spell them.
#![tactic(auto)]

mod byte_parts;
mod fault;
mod lanes;
mod packed_digits;
mod sign_fold;
mod varint;
mod whole_bytes;
mod width;

pub use fault::BitFault;
pub use packed_digits::{pack, packed_laws, unpack};
pub use sign_fold::{unzigzag, zigzag};
pub use varint::{put_varint, read_varint, varint_laws};
pub use width::{Width, code_of, fixed_at_least, width_laws, width_of};
