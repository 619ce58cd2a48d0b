//! The reasons why a text isn't read straight to its row.

use json::Invalid;
use std::alloc::AllocError;

/// The reason why a text wasn't read straight to its row.
#[derive(Clone, Copy, Debug, Drop)]
pub enum Unread {
    /// The text spells no row of the type, or spells one in a way that isn't followed here.
    Declined,
    /// Memory ran out.
    OutOfMemory,
}

impl From<AllocError> for Unread {
    fn from(_: AllocError) -> Unread {
        Unread::OutOfMemory
    }
}

impl From<Invalid> for Unread {
    fn from(_: Invalid) -> Unread {
        Unread::Declined
    }
}
