//! Callers of `merge_theorem` that read rows: those of two files and of the file that they are joined into.
ghost use Rattle.std.specs.Prelude.{◌≡◌, ◌∷◌, ◌++◌, [], ℕ, List, Some, IfOk, IfErr};
ghost use Rattle.orc_values.specs.Cells.{Cell};
ghost use Rattle.orc_values.specs.Views.{views};
ghost use Rattle.orc_file_reader.specs.FileRows.{FileIs};
ghost use Rattle.orc_tail.specs.declared.tail.Tail.{Tail};
ghost use Rattle.orc_merger.specs.Merging.{IsMerge};
ghost use Rattle.orc_merger.specs.Outcomes.{WroteMerge};
ghost use Rattle.orc_merge_laws.specs.Grouping.{HaveRows};
ghost use Rattle.orc_theorems.specs.Refusals.{IsJoinFault, IsAppendFault, IsOutsideFiles};

use crate::fault::CallFault;
use crate::memory::{FileInMemory, join_two};
use crate::merging::merge_theorem;
use crate::written_files::written_files_read_back;
use crate::written_files_calls::{read_rows, write_rows};
use orc_file_reader::row_laws;
use orc_merge_laws::outcomes;
use orc_row_batch::Options;
use orc_tail::tail_laws;
use orc_types::Schema;
use orc_values::Row;
use std::alloc::Global;

/// The rows of two files, the file that they were joined into, and its rows.
#[derive(Drop)]
pub struct JoinedRows {
    pub first: Vec<Row<'static>>,
    pub second: Vec<Row<'static>>,
    pub joined: FileInMemory,
    pub rows: Vec<Row<'static>>,
}

/// Reads two files, joins them, and reads the joined file. Its rows are those of the first file and then those of the
/// second, by clause `rows` of `merge_theorem`.
///
/// # Errors
///
/// Fails if opening or reading one of the three files fails, or its call of `merge`.
pub fn join_and_read(alloc: Global, first: &[u8], second: &[u8]) -> Result<JoinedRows, CallFault>
    // If the call succeeds, then `first` and `second` are files, and the rows that are returned for each are its rows.
    ensures before { IfOk result (λ done.
        HaveRows (first.now ∷ second.now ∷ []) (views done.first.items ∷ views done.second.items ∷ [])) }
    // If the call succeeds, then the returned file is the merged file of `first` and `second`, with its tail, and has
    // fewer than 2^64 bytes.
    ensures merged { IfOk result (λ done.
        WroteMerge (first.now ∷ second.now ∷ []) done.joined.tail (Some []) (Some done.joined.bytes.items)) }
    // If the call succeeds, then the rows that are returned for the merged file are its rows, and they are the rows of
    // `first` followed by those of `second`.
    ensures after { IfOk result (λ done. FileIs done.joined.bytes.items done.joined.tail (views done.rows.items)) }
    ensures joined { IfOk result (λ done.
        views done.rows.items ≡ views done.first.items ++ views done.second.items) }
    // An error in `File` is `OutOfMemory`, `SourceFailed`, or the reason why `first` or `second` isn't a file with
    // rows. An error in `Merge` is `SourceFailed`, `WriteFailed`, `OutOfMemory`, or the first fault of `first` and
    // `second` as inputs.
    ensures refused { IfErr result (IsJoinFault first.now second.now) }
    // If `first` and `second` are files with rows and have a merged file, then an error is `OutOfMemory`,
    // `SourceFailed` or, of the merge, `WriteFailed`.
    ensures only { IfErr result (λ e. (t u tail : Tail) (rows others : List Cell) (out : List ℕ)
        → FileIs first.now t rows → FileIs second.now u others
        → IsMerge (first.now ∷ second.now ∷ []) tail out
        → IsOutsideFiles e) }
{
    // each for its contract alone: the merged file has the rows of its inputs, in order, and bytes that are a file have
    // one tail, one list of rows and no fault
    merge_theorem();
    row_laws();
    tail_laws();
    outcomes();
    let rows_first = read_rows(alloc, first)?;
    let rows_second = read_rows(alloc, second)?;
    let joined = join_two(alloc, first, second)?;
    let rows = read_rows(alloc, &joined.bytes)?;
    Ok(JoinedRows {
        first: rows_first,
        second: rows_second,
        joined,
        rows,
    })
}

/// Writes a file of rows to memory, joins another file with it, and reads the joined file. Its rows are those of the
/// other file and then those that were written, by clause `rows` of `merge_theorem` and clause `read` of
/// `written_files_read_back`.
///
/// # Errors
///
/// Fails if a call of `Writer` fails, if opening or reading one of the three files fails, or its call of `merge`.
pub fn append_and_read(
    alloc: Global,
    file: &[u8],
    schema: Schema,
    options: Options,
    rows: &[Row<'_>],
) -> Result<JoinedRows, CallFault>
    // If the call succeeds, then `file` is a file, and the rows that are returned in `first` are its rows.
    ensures before { IfOk result (λ done. (tail : Tail) × FileIs file.now tail (views done.first.items)) }
    // If the call succeeds, then the rows that are returned in `second`, which were read from the written file, are
    // `rows`.
    ensures written { IfOk result (λ done. views done.second.items ≡ views rows.now) }
    // If the call succeeds, then the joined file has the returned tail, and its rows, which are returned, are those of
    // `file` followed by `rows`.
    ensures after { IfOk result (λ done. FileIs done.joined.bytes.items done.joined.tail (views done.rows.items)) }
    ensures joined { IfOk result (λ done. views done.rows.items ≡ views done.first.items ++ views rows.now) }
    // An error in `File` is `OutOfMemory`, `SourceFailed`, the reason why `file` isn't a file with rows, or an error
    // with which `write_to` may fail for `rows`. An error in `Merge` is `SourceFailed`, `WriteFailed`, `OutOfMemory`,
    // or the first fault of `file` and the file that was written as inputs.
    ensures refused { IfErr result (IsAppendFault file.now options schema (views rows.now)) }
{
    // each for its contract alone: written files read back, and bytes that are a file have one tail, one list of rows
    // and no fault
    written_files_read_back();
    row_laws();
    tail_laws();
    let written = write_rows(alloc, schema, options, rows)?;
    join_and_read(alloc, file, &written.bytes)
}
