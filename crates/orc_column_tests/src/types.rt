//! What no command line shows of `orc_types`: rows that don't fit a schema, the cells of columns, and copies of rows. Which
//! texts spell schemas and which lines spell rows is said by the cases of the program, which lists of types are no schemas
//! by the vectors.
ghost use Rattle.std.specs.Prelude.{◌<◌};
ghost use Rattle.orc_values.specs.Shapes.{width};

use crate::assertions::demand_of;
use orc_types::*;
use serde_json::Value as Json;
use std::alloc::{AllocError, Global};
use std::borrow::{CowSlice, CowStr};

mod names;
mod page;

// Long tables are texts, a case a line: the proof of each function that reads a table goes through each reference in
// it, but not through a text.

/// What stands before the first blank of a text, and what stands behind it: all and nothing where there is none.
fn cut(text: &str) -> (&str, &str) {
    text.split_once(" ").unwrap_or((text, ""))
}

/// The schema of one field of this type. Of the types of the tests, want of memory alone refuses any.
fn schema_of(alloc: Global, kind: &str) -> Result<Schema, JsonFault> {
    let text = format!(in alloc; "struct<v:{kind}>")?;
    match Schema::parse(alloc, text.as_str()) {
        Ok(schema) => Ok(schema),
        Err(_) => Err(JsonFault::OutOfMemory),
    }
}

/// A row of one field of this type, which has the value that the JSON spells.
fn row_of(alloc: Global, kind: &str, json: &str) -> Result<Row<'static>, JsonFault> {
    let schema = schema_of(alloc, kind)?;
    let text = format!(in alloc; "{{\"v\":{json}}}")?;
    match Json::from_str(alloc, text.as_str()) {
        Ok(json) => row_from_json(alloc, &schema, &json),
        Err(_) => Err(JsonFault::OutOfMemory),
    }
}

/// The types whose rows a value is looked at as.
const KINDS: &str = "boolean tinyint smallint int bigint string binary date struct<> struct<n:int> \
                     struct<n:int,m:int> array<int> array<array<int>> map<int,int> map<int,array<int>> \
                     map<array<int>,int>";

/// Types, JSON of values of them, and those of the types above that the values fit.
static FITTING: &str = r#"int null any
boolean true boolean
bigint -128 tinyint|smallint|int|bigint
bigint -129 smallint|int|bigint
bigint 127 tinyint|smallint|int|bigint
bigint 128 smallint|int|bigint
bigint -32768 smallint|int|bigint
bigint -32769 int|bigint
bigint 32767 smallint|int|bigint
bigint 32768 int|bigint
bigint -2147483648 int|bigint
bigint -2147483649 bigint
bigint 2147483647 int|bigint
bigint 2147483648 bigint
bigint -9223372036854775808 bigint
string "1" string
binary "01" binary
date -2147483648 date
struct<> {} struct<>
struct<n:bigint> {} struct<n:int>
struct<n:bigint> {"n":-2147483648} struct<n:int>
struct<n:bigint> {"n":2147483648} none
struct<n:bigint,m:int> {} struct<n:int,m:int>
array<bigint> [] array<int>|array<array<int>>
array<bigint> [null,2147483647] array<int>
array<bigint> [0,-2147483649] none
array<array<bigint>> [null,[2147483647]] array<array<int>>
array<array<bigint>> [[],[2147483648]] none
array<map<int,int>> [[]] none
map<bigint,bigint> [] map<int,int>|map<int,array<int>>|map<array<int>,int>
map<bigint,bigint> [[1,2]] map<int,int>
map<bigint,bigint> [[2147483648,1]] none
map<bigint,bigint> [[1,2],[1,2147483648]] none
map<bigint,array<int>> [[1,[]]] map<int,array<int>>
map<bigint,array<int>> [[null,null],[null,null]] map<int,int>|map<int,array<int>>|map<array<int>,int>
map<array<bigint>,int> [[[2147483647],1]] map<array<int>,int>
map<array<bigint>,int> [[[2147483648],1]] none"#;

/// Whether a type is among those between bars.
fn is_among(kind: &str, kinds: &str) -> bool {
    for listed in kinds.split('|') {
        if listed == kind {
            return true;
        }
    }
    kinds == "any"
}

/// Whether the row is one of this type's exactly where it is to.
fn is_fitting(
    alloc: Global,
    row: &Row<'static>,
    kind: &str,
    kinds: &str,
) -> Result<bool, JsonFault> {
    let schema = schema_of(alloc, kind)?;
    Ok(fits(&schema, row) == is_among(kind, kinds))
}

/// Whether the row is one of these types', and of no others.
fn are_fitting(alloc: Global, row: &Row<'static>, kinds: &str) -> Result<bool, JsonFault> {
    for kind in KINDS.split_whitespace() {
        if !is_fitting(alloc, row, kind, kinds)? {
            return Ok(false);
        }
    }
    Ok(true)
}

/// Whether the value of the line fits its types, and no other.
fn line_fits(alloc: Global, line: &str) -> Result<bool, JsonFault> {
    let (kind, rest) = cut(line);
    let (json, kinds) = cut(rest);
    let row = row_of(alloc, kind, json)?;
    are_fitting(alloc, &row, kinds)
}

/// What is no struct and no list has no parts, and what is no map has no pairs.
fn have_no_parts() -> bool {
    let text = Some(Value::Text(CowStr::Borrowed("a")));
    parts_of(&Some(Value::Bool(true))).is_empty()
        && parts_of(&text).is_empty()
        && pairs_of(&text).is_empty()
        && pairs_of(&None).is_empty()
}

/// Null is a row of every schema, and a value that is no struct of none.
fn roots_hold(alloc: Global) -> Result<bool, JsonFault> {
    let schema = schema_of(alloc, "boolean")?;
    Ok(fits(&schema, &None) && !fits(&schema, &Some(Value::Bool(true))) && have_no_parts())
}

#[test]
fn fitting(rt: HostRuntime) {
    let alloc = rt.alloc();
    for line in FITTING.lines() {
        demand_of(&rt, line_fits(alloc, line), &line);
    }
    demand_of(&rt, roots_hold(alloc), &"roots");
}

/// In each line the type of a field, values of it, a column of the schema of that field, its type, and its cells: of a
/// column below others those that their cells have, a null list or struct none, an empty list none, and a null in them one.
static CELLS: &str =
    r#"struct<n:int> [{"n":1},null,{"n":null}] 1 struct<n:int> [{"n":1},null,{"n":null}]
struct<n:int> [{"n":1},null,{"n":null}] 2 int [1,null]
struct<n:int> [{"n":1},null] 0 struct<v:struct<n:int>> [{"v":{"n":1}},{"v":null}]
array<array<int>> [[[1,2],[]],null,[],[null,[3]],[[4,5,6]]] 1 array<array<int>> [[[1,2],[]],null,[],[null,[3]],[[4,5,6]]]
array<array<int>> [[[1,2],[]],null,[],[null,[3]],[[4,5,6]]] 2 array<int> [[1,2],[],null,[3],[4,5,6]]
array<array<int>> [[[1,2],[]],null,[],[null,[3]],[[4,5,6]]] 3 int [1,2,3,4,5,6]
array<array<int>> [[[null,1],null]] 3 int [null,1]
boolean [true,null,false] 1 boolean [true,null,false]
tinyint [-128,127] 1 tinyint [-128,127]
smallint [null,-32768] 1 smallint [null,-32768]
bigint [9223372036854775807] 1 bigint [9223372036854775807]
binary ["00ff",null,""] 1 binary ["00ff",null,""]
array<struct<n:int>> [[{"n":1},{"n":null},null],null,[]] 2 struct<n:int> [{"n":1},{"n":null},null]
array<struct<n:int>> [[{"n":1},{"n":null},null],null,[]] 3 int [1,null]
struct<a:array<int>,m:map<int,int>,t:string,d:date> [{"a":[8,9],"m":[[1,2],[1,3]],"t":"x","d":4}] 3 int [8,9]
struct<a:array<int>,m:map<int,int>,t:string,d:date> [{"a":[8,9],"m":[[1,2],[1,3]],"t":"x","d":4}] 4 map<int,int> [[[1,2],[1,3]]]
struct<a:array<int>,m:map<int,int>,t:string,d:date> [{"a":[8,9],"m":[[1,2],[1,3]],"t":"x","d":4}] 6 int [2,3]
struct<a:array<int>,m:map<int,int>,t:string,d:date> [{"a":[8,9],"m":[[1,2],[1,3]],"t":"x","d":4}] 7 string ["x"]
struct<a:array<int>,m:map<int,int>,t:string,d:date> [{"a":[8,9],"m":[[1,2],[1,3]],"t":"x","d":4}] 8 date [4]
map<int,array<int>> [[[1,[10,null]],[null,null],[1,[]]],null,[],[[2,[20]]]] 2 int [1,null,1,2]
map<int,array<int>> [[[1,[10,null]],[null,null],[1,[]]],null,[],[[2,[20]]]] 3 array<int> [[10,null],null,[],[20]]
map<int,array<int>> [[[1,[10,null]],[null,null],[1,[]]],null,[],[[2,[20]]]] 4 int [10,null,20]
map<map<int,int>,struct<n:map<int,int>>> [[[[[1,2]],{"n":[[3,4],[5,6]]}],[null,{"n":null}],[[],null]]] 2 map<int,int> [[[1,2]],null,[]]
map<map<int,int>,struct<n:map<int,int>>> [[[[[1,2]],{"n":[[3,4],[5,6]]}],[null,{"n":null}],[[],null]]] 4 int [2]
map<map<int,int>,struct<n:map<int,int>>> [[[[[1,2]],{"n":[[3,4],[5,6]]}],[null,{"n":null}],[[],null]]] 6 map<int,int> [[[3,4],[5,6]],null]
map<map<int,int>,struct<n:map<int,int>>> [[[[[1,2]],{"n":[[3,4],[5,6]]}],[null,{"n":null}],[[],null]]] 7 int [3,5]"#;

/// The elements of the list that is the row's one field.
fn elements_of<'r>(row: &'r Row<'static>) -> &'r [Row<'static>] {
    match parts_of(row) {
        [list] => parts_of(list),
        parts => parts,
    }
}

/// A row of one field, a list of rows of one field of this type, whose values the JSON lists.
fn rows_of(alloc: Global, kind: &str, json: &str) -> Result<Row<'static>, JsonFault> {
    let found = row_of(alloc, format!(in alloc; "array<{kind}>")?.as_str(), json)?;
    let mut rows = Vec::new(alloc);
    for value in elements_of(&found) {
        rows.push(row_around(alloc, value)?)?;
    }
    Ok(Some(Value::List(rows)))
}

/// A row whose one field is a copy of this.
fn row_around(alloc: Global, value: &Row<'static>) -> Result<Row<'static>, AllocError> {
    let mut values = Vec::new(alloc);
    values.push(owned(alloc, value)?)?;
    Ok(Some(Value::Struct(values)))
}

/// Whether the cells are the rows.
fn are_rows(cells: &[Lent<'_, 'static>], rows: &[Row<'static>]) -> bool {
    if cells.len() != rows.len() {
        return false;
    }
    for (i, cell) in cells.iter().enumerate() {
        if *cell.0 != rows[i] {
            return false;
        }
    }
    true
}

/// The cells of the column, lent.
fn cells_at<'r>(
    alloc: Global,
    schema: &Schema,
    column: usize,
    rows: &'r [Row<'static>],
) -> Result<Vec<Lent<'r, 'static>>, TypeFault>
    requires { column < width schema.now }
{
    let found = cells(alloc, schema, column, rows)?;
    lend(alloc, found)
}

/// Whether the wanted rows are the cells of the column. Want of memory alone refuses it.
fn has_cells(
    alloc: Global,
    schema: &Schema,
    column: usize,
    rows: &[Row<'static>],
    wanted: &[Row<'static>],
) -> Result<bool, JsonFault>
    requires { column < width schema.now }
{
    match cells_at(alloc, schema, column, rows) {
        Ok(found) => Ok(are_rows(&found, wanted)),
        Err(_) => Err(JsonFault::OutOfMemory),
    }
}

/// Whether a column of the schema of a field of this type has these cells in the rows.
fn column_has(
    alloc: Global,
    kind: &str,
    column: usize,
    rows: &[Row<'static>],
    wanted: &[Row<'static>],
) -> Result<bool, JsonFault> {
    let schema = schema_of(alloc, kind)?;
    if schema.width() <= column {
        return Ok(false);
    }
    has_cells(alloc, &schema, column, rows, wanted)
}

/// Whether the column of the line has its cells.
fn line_has_cells(alloc: Global, line: &str) -> Result<bool, JsonFault> {
    let (kind, rest) = cut(line);
    let (values, rest) = cut(rest);
    let (column, rest) = cut(rest);
    let (cell_kind, cells) = cut(rest);
    let column = column.parse::<usize>().unwrap_or(usize::MAX);
    let rows = rows_of(alloc, kind, values)?;
    let list = format!(in alloc; "array<{cell_kind}>")?;
    let wanted = row_of(alloc, list.as_str(), cells)?;
    column_has(alloc, kind, column, parts_of(&rows), elements_of(&wanted))
}

/// A row that is null is a cell of the root, and has none below.
fn null_rows_hold(alloc: Global) -> Result<bool, JsonFault> {
    let rows = [None];
    Ok(column_has(alloc, "int", 0, &rows, &rows)? && column_has(alloc, "int", 1, &rows, &[])?)
}

#[test]
fn cells_of_columns(rt: HostRuntime) {
    let alloc = rt.alloc();
    for line in CELLS.lines() {
        demand_of(&rt, line_has_cells(alloc, line), &line);
    }
    demand_of(&rt, null_rows_hold(alloc), &"null rows");
}

/// A row of borrowed values, a list and a map.
fn borrowed_row(alloc: Global) -> Result<Row<'static>, AllocError> {
    let mut pairs = Vec::new(alloc);
    pairs.push(MapPair {
        key: Some(Value::Text(CowStr::Borrowed("a"))),
        value: None,
    })?;
    let mut values = Vec::new(alloc);
    values.push(Some(Value::Bytes(CowSlice::Borrowed(b"\x0f"))))?;
    values.push(Some(Value::Map(pairs)))?;
    Ok(Some(Value::Struct(values)))
}

/// A copy of borrowed values is the same row.
fn copies_hold(alloc: Global) -> Result<bool, AllocError> {
    let row = borrowed_row(alloc)?;
    Ok(owned(alloc, &row)? == row)
}

#[test]
fn copies(rt: HostRuntime) {
    let alloc = rt.alloc();
    demand_of(&rt, copies_hold(alloc), &"a borrowed row");
}
