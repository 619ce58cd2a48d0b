//! What no command line shows of `orc_json`: that a schema with a field's name twice has no layout, and a reader that reads on
//! after a refusal. Which text a row has, and which row a text spells, is said by the cases of the program and by the vectors;
//! what is said here of rows that are read over others is that no old row has a part in them.
use crate::assertions::demand_of;
use orc_json::{RowPrinter, RowReader};
use orc_types::{JsonFault, Schema, fits, row_to_json};
use orc_values::{Row, Value};
use std::alloc::{AllocError, Global};
use std::borrow::{CowSlice, CowStr};

/// The schema of a text. Of the texts of the tests, want of memory alone refuses any.
fn schema_of(alloc: Global, text: &str) -> Result<Schema, JsonFault> {
    match Schema::parse(alloc, text) {
        Ok(schema) => Ok(schema),
        Err(_) => Err(JsonFault::OutOfMemory),
    }
}

/// The line of a row, which is refused as `WrongShape` if it doesn't fit.
fn line_of(alloc: Global, schema: &Schema, row: &Row<'_>) -> Result<String, JsonFault> {
    if !fits(schema, row) {
        return Err(JsonFault::WrongShape);
    }
    Ok(row_to_json(alloc, schema, row)?.to_string(alloc)?)
}

/// A row of borrowed values.
fn borrowed_row(alloc: Global) -> Result<Row<'static>, AllocError> {
    let mut values = Vec::new(alloc);
    values.push(Some(Value::Text(CowStr::Borrowed("a\tb"))))?;
    values.push(Some(Value::Bytes(CowSlice::Borrowed(b"\x0f"))))?;
    Ok(Some(Value::Struct(values)))
}

/// A row of borrowed values fits, and has its line.
fn borrowed_row_holds(alloc: Global) -> Result<bool, JsonFault> {
    let schema = schema_of(alloc, "struct<t:string,b:binary>")?;
    let row = borrowed_row(alloc)?;
    Ok(line_of(alloc, &schema, &row)?.as_str() == r#"{"b":"0f","t":"a\tb"}"#)
}

#[test]
fn borrowed_rows(rt: HostRuntime) {
    let alloc = rt.alloc();
    demand_of(&rt, borrowed_row_holds(alloc), &"a borrowed row");
}

/// Whether such a schema has no layout, and its rows have no line, not even null.
fn refuses_twice(alloc: Global, schema: &str) -> Result<bool, JsonFault> {
    let schema = schema_of(alloc, schema)?;
    let printer = RowPrinter::new(alloc, &schema)?;
    let line = line_of(alloc, &schema, &None);
    Ok(printer.layout().is_none() && matches!(line, Err(JsonFault::DuplicateField)))
}

#[test]
fn names_twice(rt: HostRuntime) {
    let alloc = rt.alloc();
    demand_of(
        &rt,
        refuses_twice(alloc, "struct<a:int,a:int>"),
        &"a name twice",
    );
}

/// Whether a text, which is more than a line, spells the row of this line.
fn is_read_as(
    alloc: Global,
    schema: &Schema,
    reader: &mut RowReader,
    text: &str,
    line: &str,
) -> Result<bool, JsonFault> {
    let row = reader.read_row(alloc, schema, text.as_bytes())?;
    Ok(line_of(alloc, schema, &row)?.as_str() == line)
}

/// Whether a text is no JSON.
fn is_no_json(
    alloc: Global,
    schema: &Schema,
    reader: &mut RowReader,
    text: &str,
) -> Result<bool, JsonFault> {
    match reader.read_row(alloc, schema, text.as_bytes()) {
        Err(JsonFault::OutOfMemory) => Err(JsonFault::OutOfMemory),
        found => Ok(matches!(found, Err(JsonFault::Syntax))),
    }
}

/// A reader reads on after texts that it refuses, of which one has no bytes; a text's blanks may be ends of lines.
fn reads_on(alloc: Global) -> Result<bool, JsonFault> {
    let schema = schema_of(alloc, "struct<a:array<int>>")?;
    let mut reader = RowReader::new(alloc);
    Ok(
        is_read_as(
            alloc,
            &schema,
            &mut reader,
            "\n{\"a\"\n:\n[1\n]\r\n}\n",
            r#"{"a":[1]}"#,
        )? && is_no_json(alloc, &schema, &mut reader, "")?
            && is_no_json(alloc, &schema, &mut reader, r#"{"a":[1"#)?
            && is_read_as(alloc, &schema, &mut reader, r#"{"a":[2]}"#, r#"{"a":[2]}"#)?,
    )
}

#[test]
fn texts_one_after_another(rt: HostRuntime) {
    let alloc = rt.alloc();
    demand_of(&rt, reads_on(alloc), &"texts");
}

/// A schema, a text, and the row that the text spells as it is printed; or the text alone, where it spells none. Each row is read
/// over each other: other shapes, with as many fields and with fewer, longer texts and lists, keys that are missing, that stand
/// twice, and in another order.
const ROWS: &str =
    r#"struct<a:int,b:string,c:array<string>,d:map<string,int>,e:struct<f:date,g:binary>> {"a":1,"b":"short","c":["x","yy"],"d":[["k",1]],"e":{"f":"2020-02-29","g":"0f"}} {"a":1,"b":"short","c":["x","yy"],"d":[["k",1]],"e":{"f":"2020-02-29","g":"0f"}}
struct<a:int,b:string,c:array<string>,d:map<string,int>,e:struct<f:date,g:binary>> {"b":"a_text_of_more_than_sixty-four_bytes_whose_room_is_kept_for_one_of_half_its_length_or_more"} {"a":null,"b":"a_text_of_more_than_sixty-four_bytes_whose_room_is_kept_for_one_of_half_its_length_or_more","c":null,"d":null,"e":null}
struct<a:int,b:string,c:array<string>,d:map<string,int>,e:struct<f:date,g:binary>> {"e":{"g":"00ff"},"c":[],"b":""} {"a":null,"b":"","c":[],"d":null,"e":{"f":null,"g":"00ff"}}
struct<a:int,b:string,c:array<string>,d:map<string,int>,e:struct<f:date,g:binary>> {"c":["1","2","3","4",null,"6","7","8","9","10","11","12"],"d":[["k",1],["l",2],["m",3]],"e":{}} {"a":null,"b":null,"c":["1","2","3","4",null,"6","7","8","9","10","11","12"],"d":[["k",1],["l",2],["m",3]],"e":{"f":null,"g":null}}
struct<a:int,b:string,c:array<string>,d:map<string,int>,e:struct<f:date,g:binary>> {"d":[["k",null],[null,2]],"a":5,"b":"first","b":"last","c":["z"],"a":6,"d":[]} {"a":6,"b":"last","c":["z"],"d":[],"e":null}
struct<a:int,b:string,c:array<string>,d:map<string,int>,e:struct<f:date,g:binary>> {"e":null,"d":[[null,null]],"e":{"g":"07","f":0},"a":7} {"a":7,"b":null,"c":null,"d":[[null,null]],"e":{"f":"1970-01-01","g":"07"}}
struct<a:int,b:string,c:array<string>,d:map<string,int>,e:struct<f:date,g:binary>> {} {"a":null,"b":null,"c":null,"d":null,"e":null}
struct<a:int,b:string,c:array<string>,d:map<string,int>,e:struct<f:date,g:binary>> null null
struct<a:int,b:string,c:array<string>,d:map<string,int>,e:struct<f:date,g:binary>> {"c":["a","b"],"a":1,"b":2}
struct<a:string,b:array<int>,c:boolean,d:array<string>,e:string> {"e":"E","d":["D","DD"],"b":[1,2,3],"a":"A"} {"a":"A","b":[1,2,3],"c":null,"d":["D","DD"],"e":"E"}
struct<a:string,b:int> {"b":2,"a":"t"} {"a":"t","b":2}
struct<l:array<struct<a:int,b:string>>> {"l":[{"a":1,"b":"p"},null,{"b":"q"},{}]} {"l":[{"a":1,"b":"p"},null,{"a":null,"b":"q"},{"a":null,"b":null}]}
struct<l:array<struct<a:int,b:string>>> {"l":[{"b":"r"}]} {"l":[{"a":null,"b":"r"}]}
struct<l:array<struct<a:int,b:string>>> {"l":[{"b":"r"},3]}
struct<m:map<array<string>,struct<b:string>>> {"m":[[["k","l"],{"b":"v"}],[null,{}]]} {"m":[[["k","l"],{"b":"v"}],[null,{"b":null}]]}
struct<m:map<array<string>,struct<b:string>>> {"m":[[["k"],null]]} {"m":[[["k"],null]]}"#;

/// The row of a case, read over a spare one.
fn row_over(
    alloc: Global,
    reader: &mut RowReader,
    case: &str,
    spare: Row<'static>,
) -> Result<Row<'static>, JsonFault> {
    let (schema, texts) = case.split_once(" ").unwrap_or((case, ""));
    let (text, _) = texts.split_once(" ").unwrap_or((texts, ""));
    let schema = schema_of(alloc, schema)?;
    reader.read_row_over(alloc, &schema, text.as_bytes(), spare)
}

/// The row of a case, and null where its text spells none.
fn row_or_null(
    alloc: Global,
    reader: &mut RowReader,
    case: &str,
) -> Result<Row<'static>, JsonFault> {
    match row_over(alloc, reader, case, None) {
        Err(JsonFault::WrongShape) => Ok(None),
        found => found,
    }
}

/// Whether a row of a case has the line that the case says.
fn has_line(alloc: Global, case: &str, row: &Row<'_>) -> Result<bool, JsonFault> {
    let (schema, texts) = case.split_once(" ").unwrap_or((case, ""));
    let (_, line) = texts.split_once(" ").unwrap_or((texts, ""));
    let schema = schema_of(alloc, schema)?;
    Ok(line_of(alloc, &schema, row)?.as_str() == line)
}

/// Whether a case is read over the row of another as it says, a refusal included.
fn is_read_over(
    alloc: Global,
    reader: &mut RowReader,
    old: &str,
    case: &str,
) -> Result<bool, JsonFault> {
    let spare = row_or_null(alloc, reader, old)?;
    match row_over(alloc, reader, case, spare) {
        Err(JsonFault::WrongShape) => Ok(case.ends_with(",\"b\":2}") || case.ends_with(",3]}")),
        Err(fault) => Err(fault),
        Ok(row) => has_line(alloc, case, &row),
    }
}

/// Whether each case is read over the row of one.
fn are_read_over(alloc: Global, reader: &mut RowReader, old: &str) -> Result<bool, JsonFault> {
    for case in ROWS.lines() {
        if !is_read_over(alloc, reader, old, case)? {
            return Ok(false);
        }
    }
    Ok(true)
}

#[test]
fn rows_over_others(rt: HostRuntime) {
    let alloc = rt.alloc();
    let mut reader = RowReader::new(alloc);
    for old in ROWS.lines() {
        demand_of(&rt, are_read_over(alloc, &mut reader, old), &old);
    }
}

/// Whether cases are read over one row from the first to the last, and from the last to the first.
fn are_read_in_turn(
    alloc: Global,
    reader: &mut RowReader,
    turns: usize,
) -> Result<bool, JsonFault> {
    let mut row = None;
    for _ in 0..turns {
        for case in ROWS.lines() {
            row = match row_over(alloc, reader, case, row) {
                Err(JsonFault::WrongShape) => None,
                found => found?,
            };
        }
    }
    // the last case's
    has_line(alloc, ROWS.lines().last().unwrap_or(""), &row)
}

#[test]
fn one_row_over_and_over(rt: HostRuntime) {
    let alloc = rt.alloc();
    let mut reader = RowReader::new(alloc);
    demand_of(
        &rt,
        are_read_in_turn(alloc, &mut reader, 3),
        &"rows in turn",
    );
}
