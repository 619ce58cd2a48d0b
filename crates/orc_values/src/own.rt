//! A cell without its children: what the streams of its column store of it, without the columns below.
ghost use Rattle.std.specs.Prelude.{◌≡◌, not};
ghost use Rattle.orc_values.specs.Cells.{is_value};
ghost use Rattle.orc_values.specs.Childless.{childless};
ghost use Rattle.orc_values.specs.Own.{own_cell};
ghost use Rattle.orc_values.specs.Views.{view};

use crate::value::{Row, Value};

/// A cell without its children, as the streams of its column store it (ORC specification, "Column Encodings"). A list
/// or a map keeps only its size, a struct only that it is present. Texts and byte strings are borrowed.
#[derive(Clone, Copy, Debug, PartialEq)]
pub enum Own<'r> {
    Null,
    Bool(bool),
    Int(i64),
    Date(i32),
    Text(&'r str),
    Bytes(&'r [u8]),
    List(u64),
    Map(u64),
    Struct,
}

impl Own<'_> {
    /// Returns whether the cell is null.
    pub fn is_null(self) -> bool
        // The call returns true if and only if the cell is null.
        ensures { result ≡ not (is_value (own_cell self.entry)) }
    {
        matches!(self, Own::Null)
    }
}

/// Returns a row without its children.
pub fn own_of<'r>(row: &'r Row<'_>) -> Own<'r>
    // The returned cell is the row without its children: a list or a map has only its size, a struct only that it is
    // present, and null or any other value is whole.
    ensures { own_cell result ≡ childless (view row.now) }
{
    match row {
        None => Own::Null,
        Some(Value::Bool(truth)) => Own::Bool(*truth),
        Some(Value::Int(number)) => Own::Int(*number),
        Some(Value::Date(day)) => Own::Date(*day),
        Some(Value::Text(text)) => Own::Text(text.as_str()),
        Some(Value::Bytes(bytes)) => Own::Bytes(bytes.as_slice()),
        Some(Value::List(elements)) => Own::List(elements.len() as u64),
        Some(Value::Struct(_)) => Own::Struct,
        Some(Value::Map(pairs)) => Own::Map(pairs.len() as u64),
    }
}
