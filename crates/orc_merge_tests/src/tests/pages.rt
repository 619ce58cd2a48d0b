//! What the pages of orc_file and orc_merge show, line by line: numbers are read of a file that two are joined into.
use orc_file::{FileFault, OrcFile, SliceSource, Source, VecSink};
use orc_merge::{MergeFault, merge};
use orc_test_kit::{SEVENS, UPWARDS};
use orc_values::Value;
use std::alloc::Global;

/// The numbers in the first column of a file, without its nulls.
fn numbers_of<S: Source + Drop>(alloc: Global, source: S) -> Result<Vec<i64>, FileFault> {
    let mut file = match OrcFile::open(alloc, source) {
        Ok(file) => file,
        Err((fault, _)) => return Err(fault),
    };
    let mut numbers = Vec::new(alloc);
    for row in file.rows(alloc)?.iter() {
        let Some(Value::Struct(fields)) = row else {
            continue;
        };
        if let Some(Some(Value::Int(number))) = fields.as_slice().first() {
            numbers.push(*number)?;
        }
    }
    Ok(numbers)
}

/// The file that two files are joined into.
fn merge_two(alloc: Global, first: &[u8], second: &[u8]) -> Result<Vec<u8>, MergeFault> {
    let mut inputs = [SliceSource::new(first), SliceSource::new(second)];
    let mut out = VecSink::new(alloc);
    merge(alloc, &mut inputs, &mut out)?;
    Ok(out.into_vec())
}

/// The numbers of two files, one behind the other.
fn numbers_joined(alloc: Global) -> Result<Vec<i64>, MergeFault> {
    let file = merge_two(alloc, &SEVENS, &UPWARDS)?;
    match numbers_of(alloc, SliceSource::new(&file)) {
        Ok(numbers) => Ok(numbers),
        Err(FileFault::OutOfMemory) => Err(MergeFault::OutOfMemory),
        Err(fault) => Err(MergeFault::File(0, fault)),
    }
}

#[test]
fn numbers_are_read_of_a_joined_file(rt: HostRuntime) {
    match numbers_joined(rt.alloc()) {
        Ok(numbers) => {
            assert!(rt; numbers.as_slice() == [7, 7, 7, 7, 7, 7, 8, 8, 8, 9, 9, 9].as_slice());
        }
        Err(fault) => assert!(rt; false, "{fault}"),
    }
}
