//! A caller that opens a file in memory and reads its rows. Its clauses rest on the public ones of `orc_file` alone: that the
//! rows of a file come back, and that nothing but want of memory may refuse them.
ghost use Rattle.std.specs.Prelude.{◌≡◌, List, MatchResult, IfOk};
ghost use Rattle.orc_values.specs.Cells.{Cell};
ghost use Rattle.orc_values.specs.Views.{views};
ghost use Rattle.orc_file_reader.specs.FileRows.{FileIs};
ghost use Rattle.orc_tail.specs.declared.tail.Tail.{Tail};
ghost use Rattle.orc_tail.specs.declared.fault.FileFault.TheVariants.{OutOfMemory};

use crate::assertions::check_same;
use crate::rows_of_files::have_numbers;
use orc_file::{FileFault, OrcFile, SliceSource};
use orc_test_kit::UPWARDS;
use orc_values::Row;
use std::alloc::Global;

/// The rows of the file with these bytes, or why there are none.
fn rows_of_file(alloc: Global, bytes: &[u8]) -> Result<Vec<Row<'static>>, FileFault>
    ensures read { IfOk result (λ rows. (tail : Tail) × FileIs bytes.now tail (views rows.items)) }
    ensures only { (tail : Tail) (rows : List Cell) → FileIs bytes.now tail rows
        → MatchResult result (λ answered. views answered.items ≡ rows) (λ fault. fault ≡ OutOfMemory) }
{
    match OrcFile::open(alloc, SliceSource::new(bytes)) {
        Ok(mut file) => file.rows(alloc),
        Err((fault, _)) => Err(fault),
    }
}

/// Whether the rows that come back have these numbers.
fn give_numbers(alloc: Global, bytes: &[u8], wanted: &[i64]) -> Result<bool, FileFault> {
    match rows_of_file(alloc, bytes) {
        Ok(rows) => Ok(have_numbers(&rows, wanted)),
        Err(fault) => Err(fault),
    }
}

#[test]
fn rows_come_back(rt: HostRuntime) {
    let wanted = [7, 7, 7, 8, 8, 8, 9, 9, 9];
    let found = give_numbers(rt.alloc(), &UPWARDS, &wanted);
    check_same(&rt, &found, &Ok(true), "rows", &[]);
}
