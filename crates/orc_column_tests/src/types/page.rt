//! What the page of orc_types shows, line by line: a line of JSON is read as a row, which is printed again.
use super::*;
use serde_json::Value as Json;

/// What the row that a line of JSON spells prints as.
fn printed_again(alloc: Global, schema: &Schema, line: &str) -> Result<String, JsonFault> {
    let Ok(json) = Json::from_str(alloc, line) else {
        return Err(JsonFault::Syntax);
    };
    let row = row_from_json(alloc, schema, &json)?;
    let json = row_to_json(alloc, schema, &row)?;
    Ok(json.to_string(alloc)?)
}

/// A line whose names stand in another order, and whose date is a number of days, is printed as all rows are.
fn page_holds(alloc: Global) -> Result<bool, JsonFault> {
    let Ok(schema) = Schema::parse(alloc, "struct<n:int,d:date>") else {
        return Err(JsonFault::OutOfMemory);
    };
    let line = printed_again(alloc, &schema, r#"{"n":7,"d":3}"#)?;
    Ok(line.as_str() == r#"{"d":"1970-01-04","n":7}"#)
}

/// A type, a line of the schema of one field `v` of this type, and how its row is printed.
static PRINTED: &str = r#"int null null
int {"v":null} {"v":null}
map<string,array<int>> {"v":[["b",[1,null]],["a",null],[null,[]],["b",[]]]} {"v":[["b",[1,null]],["a",null],[null,[]],["b",[]]]}
array<date> {"v":["0001-01-01",-719163,"9999-12-31",2932897,"1970-01-01"]} {"v":["0001-01-01",-719163,"9999-12-31",2932897,"1970-01-01"]}
array<string> {"v":["\u00e9\u0041","\"\\\/\n\u0001",""]} {"v":["éA","\"\\/\n\u0001",""]}
binary {"v":"00FF0a"} {"v":"00ff0a"}
struct<b:boolean,B:bigint,a:struct<>,_e:tinyint,ab:smallint> {"v":{"_e":1,"b":true,"a":{},"B":-9223372036854775808}} {"v":{"B":-9223372036854775808,"_e":1,"a":{},"ab":null,"b":true}}"#;

/// Whether the row of the line is printed so.
fn line_is_printed(alloc: Global, case: &str) -> Result<bool, JsonFault> {
    let (kind, rest) = cut(case);
    let (line, wanted) = cut(rest);
    let schema = schema_of(alloc, kind)?;
    let found = printed_again(alloc, &schema, line)?;
    Ok(found.as_str() == wanted)
}

#[test]
fn rows_are_printed(rt: HostRuntime) {
    let alloc = rt.alloc();
    for case in PRINTED.lines() {
        demand_of(&rt, line_is_printed(alloc, case), &case);
    }
}

#[test]
fn a_line_is_printed_again(rt: HostRuntime) {
    let alloc = rt.alloc();
    let held = page_holds(alloc);
    assert!(rt; matches!(held, Ok(true)));
}
