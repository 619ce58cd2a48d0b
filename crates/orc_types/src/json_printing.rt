//! Rows of a schema to JSON.
ghost use Rattle.std.specs.Prelude.{◌≡◌, ◌≢◌, IfOk, IfErr, true, false};
ghost use Rattle.serde_json.specs.View.{view as json_view};
ghost use Rattle.orc_values.specs.Fits.{fits};
ghost use Rattle.orc_values.specs.Views.{view};
ghost use Rattle.orc_json_rows.specs.FieldNames.{is_distinct as spec_distinct};
ghost use Rattle.orc_json_rows.specs.JsonRows.{JsonSpells};
ghost use Rattle.orc_json_rows.specs.JsonPrinting as spec;
ghost use Rattle.orc_json_rows.specs.declared.json_fault.JsonFault.TheVariants as fault;

use crate::schema::Schema;
use orc_json_rows::{JsonFault, json_of};
use orc_values::Row;
use serde_json::Value as Json;
use std::alloc::Global;

/// The JSON of a row of the schema: null; true and false; numbers; a date of the years 0001 to 9999
/// as `"YYYY-MM-DD"`, any other as its number of days since 1970-01-01; binary values as lower-case
/// hexadecimal text; lists as arrays; maps as arrays of arrays of two, each a key and its value;
/// structs as objects with their keys in byte order (kinds by the ORC specification, "Types"). It
/// spells the row, so that `row_from_json` reads the row back.
///
/// Refusals: `DuplicateField` where some struct of the schema names a field twice; `OutOfMemory`.
pub fn row_to_json(alloc: Global, schema: &Schema, row: &Row<'_>) -> Result<Json, JsonFault>
    requires { fits (view row.now) schema.now ≡ true }
    // If the row fits the schema, then the returned JSON is the row's JSON, and it spells the row under the schema.
    ensures found { IfOk result (λ json. json_view json ≡ spec.json_of schema.now (view row.now)) }
    ensures again { IfOk result (λ json. JsonSpells schema.now (json_view json) (view row.now)) }
    // If the row fits the schema, then JSON is returned only if no struct of the schema names a field twice.
    ensures distinct { IfOk result (λ json. spec_distinct schema.now ≡ true) }
    // If the row fits the schema and the error isn't `OutOfMemory`, then the error is `DuplicateField`, and a struct of
    // the schema names a field twice.
    ensures fault { IfErr result (λ e. e ≢ fault.OutOfMemory
        → (e ≡ fault.DuplicateField) × (spec_distinct schema.now ≡ false)) }
{
    if !schema.has_distinct_names() {
        return Err(JsonFault::DuplicateField);
    }
    Ok(json_of(alloc, schema.tree(), row)?)
}
