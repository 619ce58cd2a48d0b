//! The callers, without their contracts, of which each test would prove more.
use orc_cli_output::CliFault;
use orc_file::{FileFault, OrcFile, Sink, SliceSource, Source, VecSink};
use orc_merge::MergeFault;
use orc_skipping::{GroupPlace, Test};
use orc_stripe::Options;
use orc_theorems::{
    CallFault, ColumnSought, Sought, append_and_read, in_two_steps, is_written_of, join_and_read,
    join_and_seek, join_both_ways, join_checked, join_in_groupings, join_in_orders, join_in_steps,
    join_in_steps_and_seek, join_in_steps_checked, matching_groups, print_from, print_other_from,
    rows_from, write_and_open, write_and_read, write_and_seek,
};
use orc_types::Schema;
use orc_values::{Row, Value};
use std::alloc::Global;

/// Merges in two steps, and forgets the tail.
pub(crate) fn two_steps<S: Source, W: Sink>(
    alloc: Global,
    left: &mut [S],
    right: &mut [S],
    out: &mut W,
) -> Result<(), MergeFault> {
    match in_two_steps(alloc, left, right, out) {
        Ok(_) => Ok(()),
        Err(fault) => Err(fault),
    }
}

/// The bytes of three files that are joined in steps.
pub(crate) fn steps(
    alloc: Global,
    first: &[u8],
    second: &[u8],
    third: &[u8],
) -> Result<Vec<u8>, MergeFault> {
    match join_in_steps(alloc, first, second, third) {
        Ok(done) => Ok(done.bytes),
        Err(fault) => Err(fault),
    }
}

/// The bytes of three files that are joined, and whether each grouping gave them.
pub(crate) fn groupings(
    alloc: Global,
    first: &[u8],
    second: &[u8],
    third: &[u8],
) -> Result<(Vec<u8>, bool), MergeFault> {
    match join_in_groupings(alloc, first, second, third) {
        Ok((done, same)) => Ok((done.bytes, same)),
        Err(fault) => Err(fault),
    }
}

/// The bytes of two files that are joined in both orders.
pub(crate) fn orders(
    alloc: Global,
    first: &[u8],
    second: &[u8],
) -> Result<(Vec<u8>, Vec<u8>), MergeFault> {
    match join_in_orders(alloc, first, second) {
        Ok((one, other)) => Ok((one.bytes, other.bytes)),
        Err(fault) => Err(fault),
    }
}

/// How much is found of two files, and of what they are joined into.
pub(crate) fn findings(
    alloc: Global,
    first: &[u8],
    second: &[u8],
) -> Result<[usize; 3], CallFault> {
    match join_checked(alloc, first, second) {
        Ok(done) => Ok([done.first.len(), done.second.len(), done.found.len()]),
        Err(fault) => Err(fault),
    }
}

/// The bytes of a file that was written, and how many rows were read of it.
pub(crate) fn written(
    alloc: Global,
    schema: Schema,
    options: Options,
    rows: &[Row<'_>],
) -> Result<(Vec<u8>, usize), FileFault> {
    match write_and_read(alloc, schema, options, rows) {
        Ok(done) => {
            let rows = done.rows.len();
            let file = done.file;
            Ok((file.bytes, rows))
        }
        Err(fault) => Err(fault),
    }
}

/// How many rows the tail names that opening a file finds which was written.
pub(crate) fn opened(
    alloc: Global,
    schema: Schema,
    options: Options,
    rows: &[Row<'_>],
) -> Result<u64, FileFault> {
    match write_and_open(alloc, schema, options, rows) {
        Ok((_, tail)) => Ok(tail.rows),
        Err(fault) => Err(fault),
    }
}

/// Whether a file is what is written of these rows.
pub(crate) fn is_written(
    alloc: Global,
    file: &[u8],
    schema: Schema,
    options: Options,
    rows: &[Row<'_>],
) -> Result<bool, FileFault> {
    is_written_of(alloc, file, schema, options, rows)
}

/// The bytes of three files that are joined in steps, and how much is found of them.
pub(crate) fn steps_checked(
    alloc: Global,
    first: &[u8],
    second: &[u8],
    third: &[u8],
) -> Result<(Vec<u8>, usize), CallFault> {
    match join_in_steps_checked(alloc, first, second, third) {
        Ok((joined, found)) => Ok((joined.bytes, found.len())),
        Err(fault) => Err(fault),
    }
}

/// What is printed of a file from a group on; nothing, where it isn't.
pub(crate) fn printed(alloc: Global, bytes: &[u8], from: &str) -> Result<Vec<u8>, CliFault> {
    let mut out = Vec::new(alloc);
    print_from(alloc, bytes, from, &mut out)?;
    Ok(out)
}

/// What is printed of another file from a group on; nothing, where it isn't.
pub(crate) fn printed_of(
    alloc: Global,
    checked: &[u8],
    other: &[u8],
    from: &str,
) -> Result<Vec<u8>, CliFault> {
    let mut out = Vec::new(alloc);
    print_other_from(alloc, checked, other, from, &mut out)?;
    Ok(out)
}

/// How many integers are left of the run that a position led to.
fn integers_left(found: &ColumnSought) -> usize {
    match &found.own {
        Sought::Numbers(run) => run.values().len(),
        _ => 0,
    }
}

/// The same of a group of column 1 of the first stripe, in a file that was written.
pub(crate) fn sought(
    alloc: Global,
    schema: Schema,
    options: Options,
    rows: &[Row<'_>],
    group: usize,
) -> Result<usize, FileFault> {
    match write_and_seek(alloc, schema, options, rows, 0, 1, group) {
        Ok(found) => Ok(integers_left(&found)),
        Err(fault) => Err(fault),
    }
}

/// The same of the second stripe of what two files are joined into.
pub(crate) fn sought_in_join(
    alloc: Global,
    first: &[u8],
    second: &[u8],
    group: usize,
) -> Result<usize, CallFault> {
    match join_and_seek(alloc, first, second, 1, 1, group) {
        Ok(found) => Ok(integers_left(&found)),
        Err(fault) => Err(fault),
    }
}

/// The groups of a file's rows that are kept by the statistics of a column; nothing, where something is found.
pub(crate) fn kept(
    alloc: Global,
    bytes: &[u8],
    column: usize,
    test: &Test,
) -> Result<Option<Vec<GroupPlace>>, FileFault> {
    match matching_groups(alloc, bytes, column, test) {
        Ok(found) => Ok(found),
        Err(fault) => Err(fault),
    }
}

/// The same of the third stripe of what three files are joined into in steps.
pub(crate) fn sought_in_steps(
    alloc: Global,
    first: &[u8],
    second: &[u8],
    third: &[u8],
    group: usize,
) -> Result<usize, CallFault> {
    match join_in_steps_and_seek(alloc, first, second, third, 2, 1, group) {
        Ok(found) => Ok(integers_left(&found)),
        Err(fault) => Err(fault),
    }
}

/// The number that a field is, and -1 for any other field.
fn number_in(field: &Row<'_>) -> i64 {
    match field {
        Some(Value::Int(number)) => *number,
        _ => -1,
    }
}

/// The number in the first field of a row, and -1 for any other row.
fn number_of(row: &Row<'_>) -> i64 {
    match row {
        Some(Value::Struct(fields)) => match fields.first() {
            Some(field) => number_in(field),
            None => -1,
        },
        _ => -1,
    }
}

/// Adds the numbers in rows of one number each at the end of a list.
fn push_numbers(rows: &[Row<'_>], numbers: &mut Vec<i64>) -> Result<(), FileFault> {
    for row in rows {
        numbers.push(number_of(row))?;
    }
    Ok(())
}

/// The numbers in the rows of two files, and in those of what they are joined into.
#[derive(Drop)]
pub(crate) struct JoinedNumbers {
    pub(crate) first: Vec<i64>,
    pub(crate) second: Vec<i64>,
    pub(crate) joined: Vec<i64>,
}

/// The numbers in rows of one number each.
fn numbers_in(alloc: Global, rows: &[Row<'_>]) -> Result<Vec<i64>, FileFault> {
    let mut numbers = Vec::new(alloc);
    push_numbers(rows, &mut numbers)?;
    Ok(numbers)
}

/// The numbers in the rows of two files, and in those of what they are joined into.
pub(crate) fn joined(
    alloc: Global,
    first: &[u8],
    second: &[u8],
) -> Result<JoinedNumbers, CallFault> {
    match join_and_read(alloc, first, second) {
        Ok(done) => Ok(JoinedNumbers {
            first: numbers_in(alloc, &done.first)?,
            second: numbers_in(alloc, &done.second)?,
            joined: numbers_in(alloc, &done.rows)?,
        }),
        Err(fault) => Err(fault),
    }
}

/// The numbers in the rows of what a file and one of these rows are joined into.
pub(crate) fn appended(
    alloc: Global,
    file: &[u8],
    schema: Schema,
    options: Options,
    rows: &[Row<'_>],
) -> Result<Vec<i64>, CallFault> {
    match append_and_read(alloc, file, schema, options, rows) {
        Ok(done) => Ok(numbers_in(alloc, &done.rows)?),
        Err(fault) => Err(fault),
    }
}

/// The bytes that three files are joined into in steps, and those that an output got of one merge.
pub(crate) fn both_ways(
    alloc: Global,
    first: &[u8],
    second: &[u8],
    third: &[u8],
) -> Result<(Vec<u8>, Vec<u8>), MergeFault> {
    let mut out = VecSink::new(alloc);
    match join_both_ways(alloc, first, second, third, &mut out) {
        Ok(steps) => Ok((steps, out.into_vec())),
        Err(fault) => Err(fault),
    }
}

/// The numbers in the rows of a stripe of a file from a group on.
pub(crate) fn numbers_from(
    alloc: Global,
    bytes: &[u8],
    stripe: usize,
    group: u64,
) -> Result<Vec<i64>, FileFault> {
    let mut file = match OrcFile::open(alloc, SliceSource::new(bytes)) {
        Ok(file) => file,
        Err((fault, _)) => return Err(fault),
    };
    if stripe >= file.tail().stripes.as_slice().len() {
        return Err(FileFault::BadStripe(stripe));
    }
    let mut own = Vec::new(alloc);
    file.load(stripe, &mut own)?;
    let tail = file.tail();
    let Some(info) = tail.stripes.as_slice().get(stripe) else {
        return Err(FileFault::BadStripe(stripe));
    };
    let mut numbers = Vec::new(alloc);
    match rows_from(alloc, &tail.schema, *info, tail.stride, &own, group) {
        Ok(read) => {
            if let Some(row) = &read.first {
                numbers.push(number_of(row))?;
            }
            push_numbers(&read.rest, &mut numbers)?;
            Ok(numbers)
        }
        Err(fault) => Err(FileFault::Stripe(stripe, fault)),
    }
}
