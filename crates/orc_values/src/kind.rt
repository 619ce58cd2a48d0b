//! The kinds of types, with their numbers in a list of types.
ghost use Rattle.std.specs.Prelude.{◌≡◌};
ghost use Rattle.orc_values.specs.Kinds.{number as number_of, scalar_of};

/// The kinds of types that contain no other type.
#[derive(Clone, Copy, Debug, PartialEq, Eq)]
pub enum Scalar {
    Boolean,
    Byte,
    Short,
    Int,
    Long,
    String,
    Binary,
    Date,
}

/// The number of kind LIST in a list of types.
pub const LIST: u32 = 10;

/// The number of kind MAP in a list of types.
pub const MAP: u32 = 11;

/// The number of kind STRUCT in a list of types.
pub const STRUCT: u32 = 12;

impl Scalar {
    /// Returns the kind without types inside that has a number in a list of types, or none if no such kind has it
    /// (ORC specification, "Types").
    pub fn from_number(number: u32) -> Option<Scalar>
        // The returned kind is the one with `number` in a list of types, among the kinds that contain no other type;
        // if none of these has it, the call returns none.
        ensures { result ≡ scalar_of number }
    {
        match number {
            0 => Some(Scalar::Boolean),
            1 => Some(Scalar::Byte),
            2 => Some(Scalar::Short),
            3 => Some(Scalar::Int),
            4 => Some(Scalar::Long),
            7 => Some(Scalar::String),
            8 => Some(Scalar::Binary),
            15 => Some(Scalar::Date),
            _ => None,
        }
    }

    /// Returns the number of this kind in a list of types (ORC specification, "Types").
    pub fn number(self) -> u32
        // The returned number is the one that the kind has in a list of types.
        ensures { result ≡ number_of self }
    {
        match self {
            Scalar::Boolean => 0,
            Scalar::Byte => 1,
            Scalar::Short => 2,
            Scalar::Int => 3,
            Scalar::Long => 4,
            Scalar::String => 7,
            Scalar::Binary => 8,
            Scalar::Date => 15,
        }
    }
}
