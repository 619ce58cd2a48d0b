//! Why types or a text are no schema's.
ghost use Rattle.std.specs.Prelude.{◌≡◌};
ghost use Rattle.orc_trees.specs.declared.fault.TypeFault.TheVariants as fault;

use std::alloc::{AllocError, AllocFailed};
use thiserror::Error;

/// Why types or a text are no schema's.
#[derive(Clone, Copy, Debug, PartialEq, Eq, Error)]
pub enum TypeFault {
    /// A type has this kind, which columns can't have here.
    #[error("type 1 UnsupportedKind({0})")]
    UnsupportedKind(u32),
    /// The types are no tree's list in pre-order.
    #[error("type 2 BadTree")]
    BadTree,
    /// Types lie within one another more than 32 levels deep.
    #[error("type 3 TooDeep")]
    TooDeep,
    /// There are more than 4,096 types.
    #[error("type 4 TooMany")]
    TooMany,
    /// The first type is no STRUCT.
    #[error("type 5 RootNotStruct")]
    RootNotStruct,
    /// A name or a text isn't one of a schema, from this place on.
    #[error("type 6 BadText at {0}")]
    BadText(usize),
    /// Memory ran out.
    #[error("type 7 OutOfMemory")]
    OutOfMemory,
}

impl From<AllocError> for TypeFault {
    ghost from_gives = { λ _ e. e ≡ fault.OutOfMemory };

    fn from(_: AllocError) -> TypeFault {
        TypeFault::OutOfMemory
    }
}

impl<T: Drop> From<AllocFailed<T>> for TypeFault {
    ghost from_gives = { λ _ e. e ≡ fault.OutOfMemory };

    fn from(_: AllocFailed<T>) -> TypeFault {
        TypeFault::OutOfMemory
    }
}
