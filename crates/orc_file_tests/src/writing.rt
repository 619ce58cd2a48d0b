//! The `Writer`: outputs that fail on the way, rows that don't fit, and the faults that it alone answers.

use crate::assertions::{check_list, check_same};
use crate::calls::{finish, give, new_writer, push, spare_row};
use orc_file::{FileFault, Sink, Tail, VecSink, Writer};
use orc_rle::Rle;
use orc_stripe::Options;
use orc_test_kit::{FailSink, Full, SEVENS};
use orc_types::Schema;
use orc_values::{Row, Value};
use std::alloc::Global;
use std::process::Abort;

/// A struct of one number, in stripes of three rows.
fn begun<W: Sink>(alloc: Global, out: W) -> Result<Writer<W>, (FileFault, W)> {
    let Ok(schema) = Schema::parse(alloc, "struct<n:bigint>") else {
        return Err((FileFault::OutOfMemory, out));
    };
    match Options::new(Rle::One, 0, 3) {
        Some(options) => new_writer(alloc, schema, options, out),
        None => Err((FileFault::Limit, out)),
    }
}

/// A row of that struct.
fn row(alloc: Global, number: i64) -> Result<Row<'static>, FileFault> {
    let mut fields: Vec<Row<'static>> = Vec::new(alloc);
    fields.push(Some(Value::Int(number)))?;
    Ok(Some(Value::Struct(fields)))
}

/// Whether a writer that has failed says so when it gets a row, and how many bytes it has written as before.
fn is_refused<W: Sink>(writer: &mut Writer<W>, row: &Row<'_>) -> bool {
    let before = writer.written();
    push(writer, row) == Err(FileFault::Failed) && writer.written() == before
}

/// Whether a writer that has failed says so when it gets a row and when it is to finish; and its output.
fn refused<W: Sink>(mut writer: Writer<W>, row: &Row<'_>) -> (bool, W) {
    let stands = is_refused(&mut writer, row);
    match finish(writer) {
        Ok((_, out)) => (false, out),
        Err((fault, out)) => (stands && fault == FileFault::Failed, out),
    }
}

/// What comes of a file: its tail, or the fault; how many bytes were written when the last row was pushed, where there
/// was a writer; and the output.
type Written<W> = (Result<Tail, FileFault>, Option<u64>, W);

/// Pushes a row three times.
fn push_thrice<W: Sink>(writer: &mut Writer<W>, row: &Row<'_>) -> Result<(), FileFault> {
    for _ in 0..3 {
        push(writer, row)?;
    }
    Ok(())
}

/// The file of a writer that has got all rows.
fn ended<W: Sink>(writer: Writer<W>) -> Written<W> {
    let count = writer.written();
    match finish(writer) {
        Ok((tail, out)) => (Ok(tail), Some(count), out),
        Err((fault, out)) => (Err(fault), Some(count), out),
    }
}

/// What comes of the file of a writer that has refused a row: it has to refuse what follows.
fn stopped<W: Sink>(writer: Writer<W>, row: &Row<'_>, fault: FileFault) -> Written<W> {
    let count = writer.written();
    let (stands, out) = refused(writer, row);
    let fault = if stands { fault } else { FileFault::Limit };
    (Err(fault), Some(count), out)
}

/// The file of a writer that gets a row three times.
fn filled<W: Sink>(mut writer: Writer<W>, row: &Row<'_>) -> Written<W> {
    match push_thrice(&mut writer, row) {
        Ok(()) => ended(writer),
        Err(fault) => stopped(writer, row, fault),
    }
}

/// A file of three sevens.
fn written<W: Sink>(alloc: Global, out: W) -> Written<W> {
    let writer = match begun(alloc, out) {
        Ok(writer) => writer,
        Err((fault, out)) => return (Err(fault), None, out),
    };
    match row(alloc, 7) {
        Ok(seven) => filled(writer, &seven),
        Err(fault) => (Err(fault), None, writer.into_out()),
    }
}

/// How many bytes are written once the last of three rows was pushed, with which their stripe is written, or refused.
fn count_at(room: usize) -> Option<u64> {
    if room < 3 {
        None
    } else {
        Some(room.min(22) as u64)
    }
}

/// Whether the writer said what became of an output with so much room, and counted the bytes. Nothing is offered to a
/// sink that has refused.
fn is_told(
    fault: Option<FileFault>,
    count: Option<u64>,
    out: &FailSink,
    room: usize,
) -> Option<bool> {
    let len = out.bytes().len();
    let (is_right, refusals) = match fault {
        None => (len == SEVENS.len(), 0),
        Some(FileFault::WriteFailed) => (len == room && room < 120, 1),
        Some(FileFault::OutOfMemory) => return None,
        Some(_) => return Some(false),
    };
    Some(is_right && count == count_at(room) && out.refusals() == refusals)
}

/// What a sink that is full after so many bytes has got, and whether the writer said so.
fn cut_off(rt: &impl Abort, alloc: Global, a_call: usize, room: usize, full: Full) -> Option<bool> {
    let Ok(out) = FailSink::new(alloc, a_call, room, full) else {
        return None;
    };
    let (answer, count, out) = written(alloc, out);
    let wanted = out.bytes().len().min(SEVENS.len());
    check_list(
        rt,
        out.bytes(),
        &SEVENS[..wanted],
        "room for",
        &[room as u64],
    );
    is_told(answer.err(), count, &out, room)
}

#[test]
fn outputs_fail(rt: HostRuntime) {
    for room in 0..122usize {
        for (a_call, full) in [
            (1, Full::Fails),
            (7, Full::TakesNothing),
            (200, Full::Fails),
        ] {
            let told = match cut_off(&rt, rt.alloc(), a_call, room, full) {
                None => cut_off(&rt, rt.alloc(), a_call, room, full),
                told => told,
            };
            check_same(&rt, &told, &Some(true), "room for", &[room as u64]);
        }
    }
}

/// How many bytes are written with no row, and with each of three.
static COUNTS: [u64; 4] = [3, 3, 3, 22];

/// A row that fits no schema of a struct is refused, and so many bytes are written behind it.
fn refuse(writer: &mut Writer<VecSink>, count: u64) -> Result<(), FileFault> {
    if push(writer, &Some(Value::Int(7))) != Err(FileFault::RowShape) {
        return Err(FileFault::NotOrc);
    }
    if writer.written() != count {
        return Err(FileFault::BadLengths);
    }
    Ok(())
}

/// Three rows; a row of another shape is refused before them and behind each.
fn push_between(writer: &mut Writer<VecSink>, seven: &Row<'_>) -> Result<(), FileFault> {
    for (rows, count) in COUNTS.iter().enumerate() {
        if rows > 0 {
            push(writer, seven)?;
        }
        refuse(writer, *count)?;
    }
    Ok(())
}

/// The file of those three rows.
fn refused_between(alloc: Global) -> Result<Vec<u8>, FileFault> {
    let seven = row(alloc, 7)?;
    let mut writer = match begun(alloc, VecSink::new(alloc)) {
        Ok(writer) => writer,
        Err((fault, _)) => return Err(fault),
    };
    push_between(&mut writer, &seven)?;
    match finish(writer) {
        Ok((_, out)) => Ok(out.into_vec()),
        Err((fault, _)) => Err(fault),
    }
}

#[test]
fn a_row_of_another_shape(rt: HostRuntime) -> Result<(), FileFault> {
    let bytes = refused_between(rt.alloc())?;
    check_list(&rt, &bytes, &SEVENS, "rows of another shape", &[]);
    Ok(())
}

/// Of eight rows whether each is given away, how many spare rows are taken behind it, and how many of these aren't null:
/// the one that was given away last, once. A stripe of three is written with the third row and the sixth.
static SPARES: [(bool, usize, usize); 8] = [
    (true, 1, 1),
    (false, 1, 0),
    (true, 2, 1),
    (true, 0, 0),
    (true, 1, 1),
    (false, 1, 0),
    (true, 0, 0),
    (false, 1, 1),
];

/// Takes so many spare rows: whether so many of them aren't null, those that come first.
fn are_taken(writer: &mut Writer<VecSink>, count: usize, wanted: usize) -> bool {
    for i in 0..count {
        if spare_row(writer).is_some() != (i < wanted) {
            return false;
        }
    }
    true
}

/// Eight rows, with spare rows taken behind each.
fn push_over(
    alloc: Global,
    writer: &mut Writer<VecSink>,
    seven: &Row<'_>,
) -> Result<(), FileFault> {
    for (is_given, count, wanted) in SPARES {
        if is_given {
            give(writer, row(alloc, 7)?)?;
        } else {
            push(writer, seven)?;
        }
        let before = writer.written();
        if !are_taken(writer, count, wanted) || writer.written() != before {
            return Err(FileFault::RowCount);
        }
    }
    Ok(())
}

/// Eight rows, with no spare row taken.
fn push_eight(writer: &mut Writer<VecSink>, seven: &Row<'_>) -> Result<(), FileFault> {
    for _ in 0..8 {
        push(writer, seven)?;
    }
    Ok(())
}

/// The file of eight rows, whether spare rows are taken or not.
fn of_eight(alloc: Global, over: bool) -> Result<Vec<u8>, FileFault> {
    let seven = row(alloc, 7)?;
    let mut writer = match begun(alloc, VecSink::new(alloc)) {
        Ok(writer) => writer,
        Err((fault, _)) => return Err(fault),
    };
    if over {
        push_over(alloc, &mut writer, &seven)?;
    } else {
        push_eight(&mut writer, &seven)?;
    }
    match finish(writer) {
        Ok((_, out)) => Ok(out.into_vec()),
        Err((fault, _)) => Err(fault),
    }
}

#[test]
fn the_row_given_away_last_is_spare(rt: HostRuntime) -> Result<(), FileFault> {
    let plain = of_eight(rt.alloc(), false)?;
    let over = of_eight(rt.alloc(), true)?;
    check_list(&rt, &over, &plain, "spare rows", &[]);
    Ok(())
}

/// The faults that the program never prints, and their texts.
static TEXTS: [(FileFault, &str); 2] = [
    (FileFault::RowShape, "file 13 RowShape"),
    (FileFault::Failed, "file 17 Failed"),
];

/// The text of a fault.
fn text_of(alloc: Global, fault: FileFault) -> Result<String, FileFault> {
    Ok(format!(in alloc; "{fault}")?)
}

#[test]
fn texts_of_faults(rt: HostRuntime) -> Result<(), FileFault> {
    for (fault, wanted) in TEXTS {
        let text = text_of(rt.alloc(), fault)?;
        check_same(&rt, &text.as_str(), &wanted, "text", &[]);
    }
    Ok(())
}
