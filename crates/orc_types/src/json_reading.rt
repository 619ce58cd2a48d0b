//! JSON to rows of a schema.
ghost use Rattle.std.specs.Prelude.{◌≡◌, ◌≢◌, IfOk, IfErr, MatchResult, true, false};
ghost use Rattle.serde_json.specs.View.{view as json_view};
ghost use Rattle.orc_values.specs.Cells.{Cell};
ghost use Rattle.orc_values.specs.Fits.{fits};
ghost use Rattle.orc_values.specs.Views.{view};
ghost use Rattle.orc_json_rows.specs.FieldNames.{is_distinct as spec_distinct};
ghost use Rattle.orc_json_rows.specs.JsonRows.{JsonSpells};
ghost use Rattle.orc_json_rows.specs.JsonFaults.{FaultAt, Somewhere};
ghost use Rattle.orc_json_rows.specs.declared.json_fault.JsonFault.TheVariants as fault;

use crate::schema::Schema;
use orc_json_rows::{JsonFault, row_of};
use orc_values::Row;
use serde_json::Value as Json;
use std::alloc::Global;

/// The row that a JSON value spells under the schema. Null is null, whatever the type. A BOOLEAN is
/// true or false; whole numbers are numbers in their kind's range; a STRING is a string; a BINARY is
/// a string of hexadecimal digits in either case; a DATE is a string `YYYY-MM-DD` of the years 0001
/// to 9999, or a number of days since 1970-01-01 in 32 bits; a LIST is an array; a MAP is an array of
/// arrays of two, each a key and its value; a STRUCT is an object, in which a missing key is null
/// (kinds by the ORC specification, "Types").
///
/// Refusals: `DuplicateField` where some struct of the schema names a field twice; `WrongShape` for
/// JSON of another type, a number that is held neither as an `i64` nor as a `u64` among them;
/// `Range` for a number out of its kind's range; `UnknownField` for a key that no field has;
/// `BadDate` and `BadHex` for a string that is none; `OutOfMemory`.
pub fn row_from_json(alloc: Global, schema: &Schema, json: &Json) -> Result<Row<'static>, JsonFault>
    // The JSON value spells a returned row under the schema.
    ensures found { IfOk result (λ row. JsonSpells schema.now (json_view json.now) (view row)) }
    // If no struct of the schema names a field twice and the JSON value spells a row under the schema, then
    // `row_from_json` returns this row, or fails with `OutOfMemory`.
    ensures only { (row : Cell)
        → spec_distinct schema.now ≡ true
        → JsonSpells schema.now (json_view json.now) row
        → MatchResult result (λ found. view found ≡ row) (λ e. e ≡ fault.OutOfMemory) }
    // A returned row fits the schema.
    ensures fits { IfOk result (λ row. fits (view row) schema.now ≡ true) }
    // A row is returned only if no struct of the schema names a field twice.
    ensures distinct { IfOk result (λ row. spec_distinct schema.now ≡ true) }

    // If the error is neither `OutOfMemory` nor `DuplicateField`, then the JSON value, or a value inside it for which
    // the schema has a type, has this fault.
    ensures fault { IfErr result (λ e. e ≢ fault.OutOfMemory
        → e ≢ fault.DuplicateField
        → Somewhere (FaultAt e) schema.now (json_view json.now)) }
    // If the error is `DuplicateField`, then a struct of the schema names a field twice.
    ensures duplicate { IfErr result (λ e. e ≡ fault.DuplicateField → spec_distinct schema.now ≡ false) }
{
    if !schema.has_distinct_names() {
        return Err(JsonFault::DuplicateField);
    }
    row_of(alloc, schema.tree(), json)
}
