//! A column's statistic.
use orc_wire::Bytes;

/// The statistic of a list of cells (ORC specification, "Column Statistics"). A part of `body` that is `None` is
/// unknown; if `count` is 0, every part is.
#[derive(Debug, Drop)]
pub struct Stat {
    /// How many cells are not null.
    pub count: u64,
    /// Whether a cell is null, if that is known.
    pub nulls: Option<bool>,
    /// What is known of the values, by the kind of column.
    pub body: Body,
}

/// What is known of the values of a column, by its kind.
#[derive(Debug, Drop)]
pub enum Body {
    /// For structs: only what every column has.
    Plain,
    /// For whole numbers: the least, the greatest and their sum.
    Ints {
        least: Option<i64>,
        greatest: Option<i64>,
        sum: Option<i64>,
    },
    /// For truth values: how many are true.
    Bools {
        trues: Option<u64>,
    },
    /// For dates: the least and the greatest, in days since 1970-01-01.
    Dates {
        least: Option<i32>,
        greatest: Option<i32>,
    },
    /// For texts: the least and the greatest by their bytes, which are compared as unsigned numbers, and the sum of
    /// their lengths in bytes.
    Texts {
        least: Option<Bytes>,
        greatest: Option<Bytes>,
        sum: Option<i64>,
    },
    /// For byte strings: the sum of their lengths in bytes.
    Bins {
        sum: Option<i64>,
    },
    /// For lists and maps: the least and the greatest number of children, and the total of these numbers. The
    /// children of a map are its pairs. In a file that was written without these numbers they are unknown.
    Children {
        least: Option<u64>,
        greatest: Option<u64>,
        total: Option<u64>,
    },
}
