//! Whether a row is one of a schema.
ghost use Rattle.std.specs.Prelude.{◌≡◌};
ghost use Rattle.orc_values.specs.Views.{view};
ghost use Rattle.orc_values.specs.Fits as spec;

use crate::schema::Schema;
use orc_values::{Row, value_fits};

/// Whether the row is one of the schema: it has the schema's shape, any part may be null, and
/// numbers are in their kind's range. Each text is UTF-8, as every `str` is.
pub fn fits(schema: &Schema, row: &Row<'_>) -> bool
    // The answer is whether the row fits the schema: it has the schema's shape, in which any part may be null, its
    // numbers and dates are in their kind's range, and its texts are UTF-8.
    ensures { result ≡ spec.fits (view row.now) schema.now }
{
    match row {
        None => true,
        Some(value) => value_fits(schema.tree(), value),
    }
}
