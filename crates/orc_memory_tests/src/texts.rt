//! Texts: integer streams by their digits, and rows as JSON.
use crate::assertions::{demand, same, same_bytes};
use crate::sevens::{output, schema_of};
use orc_cli_ints::ints_to;
use orc_cli_output::CliFault;
use orc_file::FileFault;
use orc_rle::{Rle, RunFault, Sign};
use orc_stripe::StripeFault;
use orc_test_kit::{Narrow, line_of};
use orc_types::{JsonFault, Schema, fits, row_from_json, row_to_json};
use orc_values::Row;
use serde_json::Value as Json;
use std::alloc::{AllocError, Global};
use std::process::Abort;

/// A patched run in digits, and its numbers.
const DIGITS: &str = "8e03370183e80001020360000040";

const NUMBERS: &str = "-1000 2147482905 -998 -997\n";

// The calls `print`, `json_once` and `row_of` have no contract, so that what those that they make promise is no part of
// each caller's proof.

/// Prints the numbers.
fn print(alloc: Global, out: &mut Narrow) -> Result<(), CliFault> {
    ints_to(alloc, Rle::Two, Sign::Signed, DIGITS, out)
}

/// The fault is want of memory.
fn check_fault(rt: &impl Abort, fault: CliFault) {
    let wanted_memory = matches!(
        fault,
        CliFault::File(FileFault::OutOfMemory) | CliFault::Run(RunFault::OutOfMemory)
    );
    assert!(rt; wanted_memory, "{fault}");
}

/// The numbers are printed. Where memory was refused, nothing was written, and they are then.
fn check_printed(rt: &impl Abort, alloc: Global, out: &mut Narrow) {
    if let Err(fault) = print(alloc, out) {
        check_fault(rt, fault);
        demand(rt, out.0.bytes().is_empty(), "nothing written");
        demand(rt, print(alloc, out).is_ok(), "printed again");
    }
    same_bytes(rt, out.0.bytes(), NUMBERS.as_bytes());
}

/// Nothing was written, and the numbers are then.
#[test]
fn numbers_are_printed(rt: HostRuntime) -> Result<(), AllocError> {
    let mut out = Narrow(output(rt.alloc())?);
    check_printed(&rt, rt.alloc(), &mut out);
    Ok(())
}

/// A row of several kinds, in the order of its keys, and its schema.
const LINE: &str =
    r#"{"a":[8,null],"b":true,"d":"1970-01-04","n":7,"s":"ä","t":{"x":1},"v":"00ff"}"#;

const SCHEMA: &str =
    "struct<a:array<int>,b:boolean,d:date,n:bigint,s:string,t:struct<x:tinyint>,v:binary>";

/// The schema, once there is memory for it.
fn schema(alloc: Global) -> Result<Schema, JsonFault> {
    match schema_of(alloc, SCHEMA) {
        Ok(schema) => Ok(schema),
        Err(_) => Err(JsonFault::OutOfMemory),
    }
}

/// The line's JSON.
fn json_once(alloc: Global) -> Result<Json, JsonFault> {
    match Json::from_str(alloc, LINE) {
        Ok(json) => Ok(json),
        Err(_) => Err(JsonFault::Syntax),
    }
}

/// The same, once there is memory for it.
fn json(alloc: Global) -> Result<Json, JsonFault> {
    match json_once(alloc) {
        Err(_) => json_once(alloc),
        json => json,
    }
}

/// The row that the JSON spells.
fn row_of(alloc: Global, schema: &Schema, json: &Json) -> Result<Row<'static>, JsonFault> {
    row_from_json(alloc, schema, json)
}

/// The same, once there is memory for it: the row is read of the same JSON.
fn row_again(
    rt: &impl Abort,
    alloc: Global,
    schema: &Schema,
    json: &Json,
) -> Result<Row<'static>, JsonFault> {
    match row_of(alloc, schema, json) {
        Ok(row) => Ok(row),
        Err(fault) => {
            same(rt, &fault, &JsonFault::OutOfMemory);
            row_of(alloc, schema, json)
        }
    }
}

/// Whether the row prints as the line.
fn prints(alloc: Global, schema: &Schema, row: &Row<'_>) -> Result<bool, StripeFault> {
    let line = line_of(alloc, schema, row)?;
    Ok(line.as_str() == LINE)
}

/// Whether the row prints as the line, once there is memory for that.
fn is_line(alloc: Global, schema: &Schema, row: &Row<'_>) -> bool {
    let answer = match prints(alloc, schema, row) {
        Err(_) => prints(alloc, schema, row),
        answer => answer,
    };
    matches!(answer, Ok(true))
}

/// The row is read of the same JSON.
#[test]
fn a_row_is_read(rt: HostRuntime) -> Result<(), JsonFault> {
    let schema = schema(rt.alloc())?;
    let json = json(rt.alloc())?;
    let row = row_again(&rt, rt.alloc(), &schema, &json)?;
    demand(&rt, is_line(rt.alloc(), &schema, &row), "the line");
    Ok(())
}

/// `row_to_json`, of a row that fits.
fn to_json(alloc: Global, schema: &Schema, row: &Row<'_>) -> Result<Json, JsonFault> {
    if !fits(schema, row) {
        return Err(JsonFault::WrongShape);
    }
    row_to_json(alloc, schema, row)
}

/// Whether the row comes to this JSON.
fn comes_to(
    alloc: Global,
    schema: &Schema,
    row: &Row<'_>,
    wanted: &Json,
) -> Result<bool, JsonFault> {
    let spelled = to_json(alloc, schema, row)?;
    Ok(spelled == *wanted)
}

/// The row comes to this JSON, also where memory was refused first.
fn check_spelled(
    rt: &impl Abort,
    alloc: Global,
    schema: &Schema,
    row: &Row<'_>,
    wanted: &Json,
) -> Result<(), JsonFault> {
    match comes_to(alloc, schema, row, wanted) {
        Ok(holds) => demand(rt, holds, "JSON"),
        Err(fault) => {
            same(rt, &fault, &JsonFault::OutOfMemory);
            demand(rt, comes_to(alloc, schema, row, wanted)?, "JSON again");
        }
    }
    Ok(())
}

/// The row comes to its JSON again.
#[test]
fn a_row_is_spelled(rt: HostRuntime) -> Result<(), JsonFault> {
    let schema = schema(rt.alloc())?;
    let wanted = json(rt.alloc())?;
    let row = row_again(&rt, rt.alloc(), &schema, &wanted)?;
    check_spelled(&rt, rt.alloc(), &schema, &row, &wanted)
}
