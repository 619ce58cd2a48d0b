//! Tests of a column's cells.

/// A value to compare with.
#[derive(Debug, Drop)]
pub enum Constant {
    /// Of BOOLEAN.
    Bool(bool),
    /// Of BYTE, SHORT, INT and LONG.
    Int(i64),
    /// Of DATE: the days since 1970-01-01.
    Date(i32),
    /// Of STRING: its bytes.
    Text(Vec<u8>),
    /// Of BINARY.
    Bytes(Vec<u8>),
}

/// How a value has to compare with a constant. `Test::Not` makes `<>`, `>` and `>=` of these.
#[derive(Clone, Copy, Debug, PartialEq, Eq)]
pub enum Comparison {
    /// `=`
    Equal,
    /// `<`
    Below,
    /// `<=`
    AtMost,
}

/// A test of a column's cells.
#[cycle(conditions)]
#[derive(Debug, Drop)]
pub enum Test {
    /// The value compares with the constant in this way. This is unknown for null, for a constant of
    /// another kind, and for a column of lists, maps or structs.
    Compare(Comparison, Constant),
    /// The cell is null.
    IsNull,
    Not(Box<Test>),
    Both(Box<Test>, Box<Test>),
    Either(Box<Test>, Box<Test>),
}
