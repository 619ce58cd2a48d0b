//! Rows of nested types, pushed, and what each column says of its cells then, written by hand.
ghost use Rattle.std.specs.Prelude.{◌≡◌, length};
ghost use Rattle.orc_row_batch.specs.Batch.{HasEachColumn};

use orc_row_batch::RowBatch;
use orc_types::{JsonFault, Schema, row_from_json};
use orc_values::Own;
use serde_json::Value as Json;
use std::alloc::Global;

/// The type of the rows.
const TYPE: &str =
    "struct<a:array<string>,m:map<int,string>,s:struct<t:boolean,u:array<struct<d:date>>>,b:binary>";

/// Rows of it, a line each.
const ROWS: &str =
    r#"{"a":["x",null,"","yz"],"m":[[1,"one"],[null,null]],"s":{"t":true,"u":[{"d":"1970-01-02"},null]},"b":"0fff"}
{"a":[],"m":[],"s":{"t":null,"u":[]}}
{"a":null,"m":null,"s":null}
null
{"a":["é"],"m":[[-2,"two"]],"s":{"t":false,"u":null},"b":""}"#;

/// What each column says of its cells, a line a column: of a list or a map its size, of a struct that it is there.
const CELLS: &str = r#"Struct Struct Struct Null Struct
List(4) List(0) Null List(1)
Text("x") Null Text("") Text("yz") Text("é")
Map(2) Map(0) Null Map(1)
Int(1) Null Int(-2)
Text("one") Null Text("two")
Struct Struct Null Struct
Bool(true) Null Bool(false)
List(2) List(0) Null
Struct Null
Date(1)
Bytes([15, 255]) Null Null Bytes([])"#;

/// A column's cells as words.
fn words_of(alloc: Global, owns: &[Own<'_>]) -> Result<String, JsonFault> {
    let mut words = String::new(alloc);
    for own in owns {
        if !words.is_empty() {
            words.push_str(" ")?;
        }
        words.push_str(format!(in alloc; "{own:?}")?.as_str())?;
    }
    Ok(words)
}

/// Pushes a row.
fn push_line(
    alloc: Global,
    schema: &Schema,
    line: &str,
    batch: &mut RowBatch,
) -> Result<(), JsonFault>
    requires { HasEachColumn schema.now batch.old }
    ensures { HasEachColumn schema.now batch.new }
{
    match Json::from_str(alloc, line) {
        Ok(json) => {
            let row = row_from_json(alloc, schema, &json)?;
            batch.push(schema.tree(), &row)?;
            Ok(())
        }
        Err(_) => Err(JsonFault::OutOfMemory),
    }
}

/// Pushes the rows.
fn push_lines(alloc: Global, schema: &Schema, batch: &mut RowBatch) -> Result<(), JsonFault>
    requires { HasEachColumn schema.now batch.old }
    ensures { HasEachColumn schema.now batch.new }
{
    for line in ROWS.lines() {
        push_line(alloc, schema, line, batch)?;
    }
    Ok(())
}

/// Each column says its cells.
fn columns_hold(alloc: Global, width: usize, batch: &RowBatch) -> Result<bool, JsonFault>
    requires { length batch.now.columns.items ≡ width }
{
    for (column, expected) in CELLS.lines().enumerate() {
        if width <= column {
            return Ok(false);
        }
        let owns = batch.owns(alloc, column)?;
        if words_of(alloc, &owns)?.as_str() != expected {
            return Ok(false);
        }
    }
    Ok(true)
}

/// The columns say the cells of the rows, and say them again of rows that are pushed once more after the batch was cleared.
fn rows_hold(alloc: Global) -> Result<bool, JsonFault> {
    let Ok(schema) = Schema::parse(alloc, TYPE) else {
        return Err(JsonFault::OutOfMemory);
    };
    let mut batch = RowBatch::new(alloc, schema.width())?;
    push_lines(alloc, &schema, &mut batch)?;
    let once = batch.len() == 5 && columns_hold(alloc, schema.width(), &batch)?;
    batch.clear();
    let cleared = batch.len() == 0;
    push_lines(alloc, &schema, &mut batch)?;
    let again = batch.len() == 5 && columns_hold(alloc, schema.width(), &batch)?;
    Ok(once && cleared && again)
}

#[test]
fn nested_rows(rt: HostRuntime) {
    assert!(&rt; rows_hold(rt.alloc()) == Ok(true));
}
