//! Why JSON is no row's, or a row has none.
ghost use Rattle.std.specs.Prelude.{◌≡◌};
ghost use Rattle.orc_json_rows.specs.declared.json_fault.JsonFault.TheVariants as fault;

use std::alloc::{AllocError, AllocFailed};
use thiserror::Error;

/// Why a text is no row's JSON.
#[derive(Clone, Copy, Debug, PartialEq, Eq, Error)]
pub enum JsonFault {
    /// The text is no JSON.
    #[error("json 1 Syntax")]
    Syntax,
    /// A value of JSON is of a type that the column doesn't take, or a number is no integer of 64 bits.
    #[error("json 2 WrongShape")]
    WrongShape,
    /// A number is an integer that lies outside the column's range.
    #[error("json 3 Range")]
    Range,
    /// An object has a key that no field of the column has.
    #[error("json 4 UnknownField")]
    UnknownField,
    /// Some struct of the schema names a field twice.
    #[error("json 5 DuplicateField")]
    DuplicateField,
    /// A string under a date is no date of the years 0001 to 9999, written `YYYY-MM-DD`.
    #[error("json 6 BadDate")]
    BadDate,
    /// A string under binary isn't pairs of hexadecimal digits.
    #[error("json 7 BadHex")]
    BadHex,
    /// Memory ran out.
    #[error("json 8 OutOfMemory")]
    OutOfMemory,
}

impl From<AllocError> for JsonFault {
    ghost from_gives = { λ _ e. e ≡ fault.OutOfMemory };

    fn from(_: AllocError) -> JsonFault {
        JsonFault::OutOfMemory
    }
}

impl<T: Drop> From<AllocFailed<T>> for JsonFault {
    ghost from_gives = { λ _ e. e ≡ fault.OutOfMemory };

    fn from(_: AllocFailed<T>) -> JsonFault {
        JsonFault::OutOfMemory
    }
}
