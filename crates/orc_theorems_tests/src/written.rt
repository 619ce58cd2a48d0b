//! Files that are written, read back, read from their middle, and sought there.
use crate::assertions::{check_bytes, check_numbers, check_same};
use crate::calls::{
    appended, is_written, numbers_from, opened, printed, printed_of, sought, sought_in_join,
    sought_in_steps, written,
};
use orc_cli_output::CliFault;
use orc_file::FileFault;
use orc_rle::Rle;
use orc_stripe::Options;
use orc_test_kit::SEVENS;
use orc_theorems::CallFault;
use orc_types::Schema;
use orc_values::{Row, Value};
use std::alloc::{AllocError, Global};

fn row(alloc: Global, number: i64) -> Result<Row<'static>, AllocError> {
    let mut fields: Vec<Row<'static>> = Vec::new(alloc);
    fields.push(Some(Value::Int(number)))?;
    Ok(Some(Value::Struct(fields)))
}

/// What a file is written by.
#[derive(Drop)]
struct Parts {
    schema: Schema,
    options: Options,
    rows: Vec<Row<'static>>,
}

/// What a file of these numbers is written by, in one stripe with this stride.
fn parts_of(alloc: Global, numbers: &[i64], stride: u32) -> Result<Parts, FileFault> {
    let Some(options) = Options::new(Rle::One, stride, 8) else {
        return Err(FileFault::Limit);
    };
    let Ok(schema) = Schema::parse(alloc, "struct<n:bigint>") else {
        return Err(FileFault::OutOfMemory);
    };
    let mut rows = Vec::new(alloc);
    for number in numbers {
        rows.push(row(alloc, *number)?)?;
    }
    Ok(Parts {
        schema,
        options,
        rows,
    })
}

/// The file of these numbers in one stripe with this stride, and how many rows are read of it.
fn file_of(alloc: Global, numbers: &[i64], stride: u32) -> Result<(Vec<u8>, usize), FileFault> {
    let Parts {
        schema,
        options,
        rows,
    } = parts_of(alloc, numbers, stride)?;
    written(alloc, schema, options, &rows)
}

/// How many numbers are left of the run that a group's position leads to, in the file of these with a stride of 2.
fn sought_among(alloc: Global, numbers: &[i64], group: usize) -> Result<usize, FileFault> {
    let Parts {
        schema,
        options,
        rows,
    } = parts_of(alloc, numbers, 2)?;
    sought(alloc, schema, options, &rows, group)
}

/// The same file with eights for three sevens in DATA, before other numbers there.
fn with_eights(alloc: Global, bytes: &[u8]) -> Result<Vec<u8>, AllocError> {
    let mut copy = Vec::new(alloc);
    let mut last = [0; 3];
    for byte in bytes {
        // the run's head and its base, which the next run's head follows
        let is_base = last == [0, 0, 14] && *byte == 254;
        if is_base {
            copy.pop();
            copy.push(16)?;
        }
        copy.push(*byte)?;
        last = [last[1], last[2], *byte];
    }
    Ok(copy)
}

#[test]
fn three_sevens(rt: HostRuntime) -> Result<(), FileFault> {
    let (bytes, rows) = file_of(rt.alloc(), &[7, 7, 7], 0)?;
    check_bytes(&rt, "written", &bytes, &SEVENS);
    check_same(&rt, "rows", &rows, &3);
    Ok(())
}

#[test]
fn from_the_middle(rt: HostRuntime) -> Result<(), CliFault> {
    let (bytes, _) = file_of(rt.alloc(), &[7, 7, 7], 2)?;
    let lines = printed(rt.alloc(), &bytes, "0:1")?;
    check_bytes(&rt, "lines", &lines, b"{\"n\":7}\n");
    Ok(())
}

#[test]
fn from_the_middle_of_a_damaged_file(rt: HostRuntime) -> Result<(), CliFault> {
    let (bytes, _) = file_of(rt.alloc(), &[7, 7, 7, 1, 9], 3)?;
    let damaged = with_eights(rt.alloc(), &bytes)?;
    let lines = printed_of(rt.alloc(), &bytes, &damaged, "0:0")?;
    let wanted = b"{\"n\":8}\n{\"n\":8}\n{\"n\":8}\n{\"n\":1}\n{\"n\":9}\n";
    check_bytes(&rt, "all lines", &lines, wanted);
    let lines = printed_of(rt.alloc(), &bytes, &damaged, "0:1")?;
    check_bytes(&rt, "lines behind", &lines, b"{\"n\":1}\n{\"n\":9}\n");
    Ok(())
}

#[test]
fn sought_in_the_middle(rt: HostRuntime) -> Result<(), FileFault> {
    let left = sought_among(rt.alloc(), &[7, 7, 7], 1)?;
    check_same(&rt, "left", &left, &1);
    Ok(())
}

#[test]
fn sought_in_a_join(rt: HostRuntime) -> Result<(), CallFault> {
    let (bytes, _) = file_of(rt.alloc(), &[7, 7, 7], 2)?;
    let left = sought_in_join(rt.alloc(), &bytes, &bytes, 1)?;
    check_same(&rt, "left", &left, &1);
    Ok(())
}

/// The numbers in the rows of what three sevens and a file of these numbers are joined into.
fn appended_to_sevens(alloc: Global, numbers: &[i64]) -> Result<Vec<i64>, CallFault> {
    let Parts {
        schema,
        options,
        rows,
    } = parts_of(alloc, numbers, 0)?;
    appended(alloc, &SEVENS, schema, options, &rows)
}

#[test]
fn rows_behind_those_of_a_file(rt: HostRuntime) -> Result<(), CallFault> {
    let numbers = appended_to_sevens(rt.alloc(), &[1, 9])?;
    check_numbers(&rt, "rows", &numbers, &[7, 7, 7, 1, 9]);
    Ok(())
}

#[test]
fn by_a_cursor_in_the_middle(rt: HostRuntime) -> Result<(), FileFault> {
    let (bytes, _) = file_of(rt.alloc(), &[7, 7, 7, 1, 9], 3)?;
    let damaged = with_eights(rt.alloc(), &bytes)?;
    let numbers = numbers_from(rt.alloc(), &damaged, 0, 0)?;
    check_numbers(&rt, "all rows", &numbers, &[8, 8, 8, 1, 9]);
    let numbers = numbers_from(rt.alloc(), &damaged, 0, 1)?;
    check_numbers(&rt, "rows behind", &numbers, &[1, 9]);
    Ok(())
}

/// Whether the file of three sevens is what is written of these numbers.
fn is_of_sevens(alloc: Global, numbers: &[i64]) -> Result<bool, FileFault> {
    let Parts {
        schema,
        options,
        rows,
    } = parts_of(alloc, numbers, 0)?;
    is_written(alloc, &SEVENS, schema, options, &rows)
}

#[test]
fn bytes_of_written_files(rt: HostRuntime) -> Result<(), FileFault> {
    let same = is_of_sevens(rt.alloc(), &[7, 7, 7])?;
    check_same(&rt, "three sevens", &same, &true);
    let same = is_of_sevens(rt.alloc(), &[7, 7])?;
    check_same(&rt, "two sevens", &same, &false);
    Ok(())
}

#[test]
fn opened_with_its_tail(rt: HostRuntime) -> Result<(), FileFault> {
    let Parts {
        schema,
        options,
        rows,
    } = parts_of(rt.alloc(), &[7, 7, 7, 1], 2)?;
    let count = opened(rt.alloc(), schema, options, &rows)?;
    check_same(&rt, "rows", &count, &4);
    Ok(())
}

#[test]
fn sought_in_steps_of_joining(rt: HostRuntime) -> Result<(), CallFault> {
    let (bytes, _) = file_of(rt.alloc(), &[7, 7, 7], 2)?;
    let left = sought_in_steps(rt.alloc(), &bytes, &bytes, &bytes, 1)?;
    check_same(&rt, "left", &left, &1);
    Ok(())
}
