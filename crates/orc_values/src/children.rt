//! The children of a cell: a list's elements, a struct's fields, and a map's pairs.
ghost use Rattle.std.specs.Prelude.{◌≡◌, map};
ghost use Rattle.orc_values.specs.Cells.{parts, pairs_in};
ghost use Rattle.orc_values.specs.Views.{view, views, paired};

use crate::value::{MapPair, Row, Value};

/// Returns the elements of a list or the fields of a struct, in order, and nothing for any other row.
pub fn parts_of<'r, 'a>(row: &'r Row<'a>) -> &'r [Row<'a>]
    // The returned cells are a list's elements or a struct's fields, in order; for any other row there are none.
    ensures { views result.now ≡ parts (view row.now) }
{
    match row {
        Some(Value::List(items)) => items,
        Some(Value::Struct(items)) => items,
        _ => &[],
    }
}

/// Returns the pairs of a map, in order, and nothing for any other row.
pub fn pairs_of<'r, 'a>(row: &'r Row<'a>) -> &'r [MapPair<'a>]
    // The returned pairs are a map's pairs, in order; for any other row there are none.
    ensures { map paired result.now ≡ pairs_in (view row.now) }
{
    match row {
        Some(Value::Map(pairs)) => pairs,
        _ => &[],
    }
}
