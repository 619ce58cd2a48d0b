//! Files that are written.
use crate::assertions::{demand, is_front, same, same_bytes};
use crate::sevens::{output, schema_of};
use orc_file::{FileFault, Writer};
use orc_rle::Rle;
use orc_stripe::Options;
use orc_test_kit::{FailSink, SEVENS};
use orc_types::Schema;
use orc_values::{Row, Value};
use std::alloc::{AllocError, Global};
use std::process::Abort;

/// A writer of the file of sevens.
type SevensWriter = Writer<FailSink>;

fn seven_once(alloc: Global) -> Result<Row<'static>, AllocError> {
    let mut fields: Vec<Row<'static>> = Vec::new(alloc);
    fields.push(Some(Value::Int(7)))?;
    Ok(Some(Value::Struct(fields)))
}

/// A row with the number 7, once there is memory for it.
fn seven(alloc: Global) -> Result<Row<'static>, AllocError> {
    match seven_once(alloc) {
        Err(AllocError) => seven_once(alloc),
        row => row,
    }
}

// The next two calls have no contract, so that what a writer's promise is no part of each caller's proof.

/// A writer to this output.
fn writer_to(
    alloc: Global,
    schema: Schema,
    options: Options,
    out: FailSink,
) -> Result<SevensWriter, FileFault> {
    match Writer::new(alloc, schema, options, out) {
        Ok(writer) => Ok(writer),
        Err((fault, _)) => Err(fault),
    }
}

/// Pushes a row.
fn push(writer: &mut SevensWriter, row: &Row<'_>) -> Result<(), FileFault> {
    writer.push(row)
}

fn begun_once(alloc: Global, stripe_rows: u32) -> Result<SevensWriter, FileFault> {
    let Some(options) = Options::new(Rle::One, 0, stripe_rows) else {
        return Err(FileFault::Limit);
    };
    let Ok(schema) = schema_of(alloc, "struct<n:bigint>") else {
        return Err(FileFault::OutOfMemory);
    };
    let out = output(alloc)?;
    writer_to(alloc, schema, options, out)
}

/// A writer of one number a row, in stripes of so many rows, once there is memory for it.
fn begun(alloc: Global, stripe_rows: u32) -> Result<SevensWriter, FileFault> {
    match begun_once(alloc, stripe_rows) {
        Err(_) => begun_once(alloc, stripe_rows),
        writer => writer,
    }
}

/// Pushes three rows.
fn push_three(writer: &mut SevensWriter, row: &Row<'_>) -> Result<(), FileFault> {
    for _ in 0..3 {
        push(writer, row)?;
    }
    Ok(())
}

/// A writer that refused a row refuses what comes, and writes nothing more.
fn check_refused(rt: &impl Abort, writer: &mut SevensWriter, row: &Row<'_>, count: u64) {
    let found = push(writer, row).err();
    same(rt, &found, &Some(FileFault::Failed));
    same(rt, &writer.written(), &count);
}

/// Such a writer isn't finished, and its output has got a front of the file of sevens.
fn check_unfinished(rt: &impl Abort, writer: SevensWriter, count: u64) {
    match writer.finish() {
        Ok(_) => demand(rt, false, "finished"),
        Err((fault, out)) => {
            same(rt, &fault, &FileFault::Failed);
            same(rt, &(out.bytes().len() as u64), &count);
            is_front(rt, out.bytes(), &SEVENS);
        }
    }
}

/// A writer that refused a row refuses all that comes, and writes nothing more.
fn check_failed(rt: &impl Abort, mut writer: SevensWriter, row: &Row<'_>) {
    let count = writer.written();
    check_refused(rt, &mut writer, row, count);
    check_refused(rt, &mut writer, row, count);
    check_unfinished(rt, writer, count);
}

/// The first stripe is written to the output.
fn check_stripe(rt: &impl Abort, writer: SevensWriter) {
    same(rt, &writer.written(), &22);
    let out = writer.into_out();
    same_bytes(rt, out.bytes(), &SEVENS[..22]);
}

/// Whether a new writer takes the rows, and writes their stripe. If not, it refuses all that comes.
fn takes_rows(rt: &impl Abort, alloc: Global, row: &Row<'_>) -> Result<bool, FileFault> {
    let mut writer = begun(alloc, 3)?;
    match push_three(&mut writer, row) {
        Ok(()) => {
            check_stripe(rt, writer);
            Ok(true)
        }
        Err(fault) => {
            same(rt, &fault, &FileFault::OutOfMemory);
            check_failed(rt, writer, row);
            Ok(false)
        }
    }
}

/// Another writer takes the rows, and writes their stripe.
#[test]
fn rows_are_pushed(rt: HostRuntime) -> Result<(), FileFault> {
    let row = seven(rt.alloc())?;
    if takes_rows(&rt, rt.alloc(), &row)? {
        return Ok(());
    }
    if takes_rows(&rt, rt.alloc(), &row)? {
        return Ok(());
    }
    Err(FileFault::OutOfMemory)
}

fn filled_once(alloc: Global, row: &Row<'_>) -> Result<SevensWriter, FileFault> {
    let mut writer = begun(alloc, 4)?;
    push_three(&mut writer, row)?;
    Ok(writer)
}

/// A writer with three rows that aren't written yet, once there is memory for them.
fn filled(alloc: Global) -> Result<SevensWriter, FileFault> {
    let row = seven(alloc)?;
    match filled_once(alloc, &row) {
        Err(_) => filled_once(alloc, &row),
        writer => writer,
    }
}

/// Whether the writer writes the file whole. If not, the output comes back with a front of it.
fn finishes(rt: &impl Abort, writer: SevensWriter) -> bool {
    match writer.finish() {
        Ok((tail, out)) => {
            same(rt, &tail.rows, &3);
            same_bytes(rt, out.bytes(), &SEVENS);
            true
        }
        Err((fault, out)) => {
            same(rt, &fault, &FileFault::OutOfMemory);
            is_front(rt, out.bytes(), &SEVENS);
            false
        }
    }
}

/// The output comes back with a front of the file, and another writer writes it whole.
#[test]
fn files_are_finished(rt: HostRuntime) -> Result<(), FileFault> {
    if finishes(&rt, filled(rt.alloc())?) {
        return Ok(());
    }
    if finishes(&rt, filled(rt.alloc())?) {
        return Ok(());
    }
    Err(FileFault::OutOfMemory)
}
