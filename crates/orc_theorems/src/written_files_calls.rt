//! Callers of `written_files_read_back`. `write_to` writes rows to an output, which may fail. `write_and_read` writes
//! rows to memory, reads them back, and checks what it wrote.
ghost use Rattle.std.specs.Prelude.{◌≡◌, ◌<◌, ◌^◌, ◌++◌, ◌⊎◌, ◌↔◌, [], ℕ, List, length, Option, Some, false, IsTrue, IfOk, IfErr, OnOk, IsErrOf};
ghost use Rattle.orc_values.specs.Cells.{Cell};
ghost use Rattle.orc_values.specs.Views.{views};
ghost use Rattle.orc_io.specs.Devices.{appended};
ghost use Rattle.orc_file_reader.specs.FileRows.{FileIs};
ghost use Rattle.orc_file_reader.specs.Honest.{Honest, HasWholeStats};
ghost use Rattle.orc_tail.specs.Tails.{IsTail};
ghost use Rattle.orc_tail.specs.Images.{types_text};
ghost use Rattle.orc_file_writer.specs.Progress.{progress};
ghost use Rattle.orc_file_writer.specs.Writing.{HasPushed, WroteWholeFile, IsCutOff};
ghost use Rattle.orc_file.specs.FrontOfFile.{IsFrontOfFile};
ghost use Rattle.orc_tail.specs.declared.tail.Tail.{Tail};
ghost use Rattle.orc_tail.specs.declared.fault.FileFault.TheVariants as fault;
ghost use Rattle.orc_theorems.specs.Inputs.{AreFound};
ghost use Rattle.orc_theorems.specs.Refusals.{IsWriteFault, IsReadFault, IsSourceFault};
ghost use Rattle.orc_theorems.specs.WrittenIndexes.{WasWrittenAs};

use crate::memory::{FileInMemory, is_same};
use crate::merged_findings_calls::found_in;
use crate::written_files::written_files_read_back;
use orc_check::Finding;
use orc_file_reader::{OrcFile, cap_laws};
use orc_file_writer::Writer;
use orc_io::{Sink, SliceSource, VecSink};
use orc_row_batch::Options;
use orc_tail::{FileFault, Tail};
use orc_types::Schema;
use orc_values::Row;
use std::alloc::Global;

/// A file that was written, the rows that reading it gave, and its findings.
#[derive(Drop)]
pub struct ReadBack {
    pub file: FileInMemory,
    pub rows: Vec<Row<'static>>,
    pub found: Vec<Finding>,
}

/// Pushes rows to a writer, in order.
fn push_rows<W: Sink>(writer: &mut Writer<W>, rows: &[Row<'_>]) -> Result<(), FileFault>
    ensures pushed { (first : Option (List ℕ)) (before : List Cell)
        → HasPushed (progress W.told writer.old) first before
        → OnOk result (HasPushed (progress W.told writer.new) first (before ++ views rows.now)) }
    ensures going { writer.old.failed ≡ false → OnOk result (writer.new.failed ≡ false) }
    ensures cut { (first : Option (List ℕ)) (before : List Cell)
        → HasPushed (progress W.told writer.old) first before
        → writer.old.failed ≡ false
        → IsErrOf result fault.WriteFailed
        → IsCutOff writer.old.options writer.old.schema first (W.told writer.new.out) (before ++ views rows.now) }
    ensures refused { (first : Option (List ℕ)) (before : List Cell)
        → HasPushed (progress W.told writer.old) first before
        → writer.old.failed ≡ false
        → IfErr result (IsWriteFault writer.old.options writer.old.schema (before ++ views rows.now)) }
    ensures no_failure { OnOk result (W.failures writer.new.out ≡ W.failures writer.old.out) }
    ensures write_failed { IsErrOf result fault.WriteFailed → W.failures writer.old.out < W.failures writer.new.out }
    ensures same { (writer.new.schema ≡ writer.old.schema) × (writer.new.options ≡ writer.old.options) }
{
    for row in rows {
        writer.push(row)?;
    }
    Ok(())
}

/// Writes a file of rows to an output. Returns its tail and the output. If the output fails, then it has got a prefix
/// of a file of the first n rows, for some n, by clause `front` of `written_files_read_back`.
///
/// # Errors
///
/// Fails if a call of `Writer` fails. The output is returned beside the error.
pub fn write_to<W: Sink>(
    alloc: Global,
    schema: Schema,
    options: Options,
    rows: &[Row<'_>],
    out: W,
) -> Result<(Tail, W), (FileFault, W)>
    // If the call succeeds, then the output has got the whole file of `rows`, which has fewer than 2^64 bytes, if the
    // output's bytes are known, and the file's tail is returned.
    ensures written { IfOk result (λ done.
        WroteWholeFile options schema done.0 (W.told out) (W.told done.1) (views rows.now)) }
    // If the call succeeds, then the output has got, after what it had before, a file with the returned tail and `rows`
    // if the output's bytes are known.
    ensures file { IfOk result (λ done. (bytes : List ℕ)
        × (W.told done.1 ≡ appended (W.told out) bytes) × FileIs bytes done.0 (views rows.now)) }
    // If the error is `WriteFailed`, the output's bytes are known, and the text of the schema's types in the
    // footer has fewer than 2^62 bytes, then the output has got a prefix of a file with the schema and the
    // first n of `rows`, for some n.
    ensures front { IfErr result (λ e. e.0 ≡ fault.WriteFailed
        → length (types_text schema) < 2 ^ 62
        → IsFrontOfFile schema (W.told out) (W.told e.1) (views rows.now)) }
    // An error is `WriteFailed`, `OutOfMemory`, `RowShape` or `Limit`. `RowShape` comes only if one of `rows` doesn't
    // fit the schema. `Limit` comes only if with one of `rows`, after those before it, a limit of stripes, of rows or
    // of a column's cells in a stripe would be exceeded, or if the stripes of the first n of `rows`, for some n, would
    // have more than 2^40 bytes.
    ensures refused { IfErr result (λ e. IsWriteFault options schema (views rows.now) e.0) }
    // If the error is `WriteFailed`, then the output's count of failures is higher than before.
    ensures write_failed { IfErr result (λ e. e.0 ≡ fault.WriteFailed → W.failures out < W.failures e.1) }
{
    // for its contract alone: what a writer wrote is a file, and if a call of it fails, the output has got a prefix of
    // a file
    written_files_read_back();
    let mut writer = match Writer::new(alloc, schema, options, out) {
        Ok(writer) => writer,
        Err(refused) => return Err(refused),
    };
    match push_rows(&mut writer, rows) {
        Ok(()) => writer.finish(),
        Err(fault) => Err((fault, writer.into_out())),
    }
}

/// Writes a file of rows to memory.
pub(crate) fn write_rows(
    alloc: Global,
    schema: Schema,
    options: Options,
    rows: &[Row<'_>],
) -> Result<FileInMemory, FileFault>
    ensures wrote { IfOk result (λ file.
        WroteWholeFile options schema file.tail (Some []) (Some file.bytes.items) (views rows.now)) }
    ensures refused { IfErr result (IsWriteFault options schema (views rows.now)) }
{
    match write_to(alloc, schema, options, rows, VecSink::new(alloc)) {
        Ok((tail, out)) => Ok(FileInMemory {
            tail,
            bytes: out.into_vec(),
        }),
        Err((fault, _)) => Err(fault),
    }
}

/// Returns the rows of a file in memory.
pub(crate) fn read_rows(alloc: Global, bytes: &[u8]) -> Result<Vec<Row<'static>>, FileFault>
    ensures found { IfOk result (λ rows. (tail : Tail) × FileIs bytes.now tail (views rows.items)) }
    ensures only { (tail : Tail) (rows : List Cell) → FileIs bytes.now tail rows → IfErr result IsSourceFault }
    ensures refused { IfErr result (IsReadFault bytes.now) }
{
    // for its contract alone: the greatest cap refuses no stripe
    cap_laws();
    match OrcFile::open(alloc, SliceSource::new(bytes)) {
        Ok(mut file) => file.rows(alloc),
        Err((fault, _)) => Err(fault),
    }
}

/// Writes a file of rows to memory, reads it back, and checks it. The rows read are those that were written, by
/// clause `read` of `written_files_read_back`, and the file has no findings, by its clause `checked`.
///
/// # Errors
///
/// Fails if a call of `Writer`, opening or reading the file, or `check` fails.
pub fn write_and_read(
    alloc: Global,
    schema: Schema,
    options: Options,
    rows: &[Row<'_>],
) -> Result<ReadBack, FileFault>
    // If the call succeeds, then the returned bytes are the whole file of `rows`, which has fewer than 2^64
    // bytes, and the returned tail is its tail.
    ensures written { IfOk result (λ done.
        WroteWholeFile options schema done.file.tail (Some []) (Some done.file.bytes.items) (views rows.now)) }
    // If the call succeeds, then the returned rows are those of the returned file, and they are `rows`.
    ensures read { IfOk result (λ done. FileIs done.file.bytes.items done.file.tail (views done.rows.items)) }
    ensures same { IfOk result (λ done. views done.rows.items ≡ views rows.now) }
    // If the call succeeds, then the returned findings are exactly those of the returned file.
    ensures checked { IfOk result (λ done. AreFound done.file.bytes.items done.found.items) }
    // If the call succeeds, then it returns no findings.
    ensures nothing { IfOk result (λ done. done.found.items ≡ []) }
    // An error is `SourceFailed`, `WriteFailed`, `OutOfMemory`, `RowShape` or `Limit`. `RowShape` comes only if one of
    // `rows` doesn't fit the schema. `Limit` comes only if with one of `rows`, after those before it, a limit of
    // stripes, of rows or of a column's cells in a stripe would be exceeded, or if the stripes of the first n of
    // `rows`, for some n, would have more than 2^40 bytes.
    ensures refused { IfErr result (λ e. (e ≡ fault.SourceFailed) ⊎ IsWriteFault options schema (views rows.now) e) }
{
    // for its contract alone: written files read back
    written_files_read_back();
    let file = write_rows(alloc, schema, options, rows)?;
    let read = read_rows(alloc, &file.bytes)?;
    let found = found_in(alloc, &file.bytes)?;
    Ok(ReadBack {
        file,
        rows: read,
        found,
    })
}

/// Opens a file in memory and returns its tail.
fn tail_in(alloc: Global, bytes: &[u8]) -> Result<Tail, FileFault>
    ensures found { IfOk result (IsTail bytes.now) }
    ensures only { (tail : Tail) → IsTail bytes.now tail → IfErr result IsSourceFault }
{
    match OrcFile::open(alloc, SliceSource::new(bytes)) {
        Ok(file) => {
            let (tail, _) = file.into_parts();
            Ok(tail)
        }
        Err((fault, _)) => Err(fault),
    }
}

/// Writes a file of rows to memory and opens it. Opening finds the tail that `finish` returned, by clause `opened` of
/// `written_files_read_back`, and this has the statistics of the rows, by its clause `statistics`. Returns the file and
/// the tail that opening found.
///
/// # Errors
///
/// Fails if a call of `Writer` fails, or opening the file.
pub fn write_and_open(
    alloc: Global,
    schema: Schema,
    options: Options,
    rows: &[Row<'_>],
) -> Result<(FileInMemory, Tail), FileFault>
    // If the call succeeds, then the returned bytes are the whole file of `rows`, which has fewer than 2^64
    // bytes, and the returned tail is its tail.
    ensures written { IfOk result (λ done.
        WroteWholeFile options schema done.0.tail (Some []) (Some done.0.bytes.items) (views rows.now)) }
    // If the call succeeds, then the tail that is returned beside the file is the tail of the file's bytes, and it is
    // the one that the file is returned with.
    ensures opened { IfOk result (λ done. IsTail done.0.bytes.items done.1) }
    ensures same { IfOk result (λ done. done.1 ≡ done.0.tail) }
    // If the call succeeds, then the stripe statistics of the tail that is returned beside the file are those of `rows`
    // (element counts may be missing), and its file statistics are those of all `rows`, with two exceptions. A sum is
    // missing if the sum of some stripe doesn't fit 64 bits. An element count is missing if it is missing for some
    // stripe with a value in that column.
    ensures statistics { IfOk result (λ done.
        Honest done.1 (views rows.now) × HasWholeStats done.1 (views rows.now)) }
    // An error is `SourceFailed`, `WriteFailed`, `OutOfMemory`, `RowShape` or `Limit`. `RowShape` comes only if one of
    // `rows` doesn't fit the schema. `Limit` comes only if with one of `rows`, after those before it, a limit of
    // stripes, of rows or of a column's cells in a stripe would be exceeded, or if the stripes of the first n of
    // `rows`, for some n, would have more than 2^40 bytes.
    ensures refused { IfErr result (λ e. (e ≡ fault.SourceFailed) ⊎ IsWriteFault options schema (views rows.now) e) }
{
    // for its contract alone: written files open with their tail, which has the rows' statistics
    written_files_read_back();
    let written = write_rows(alloc, schema, options, rows)?;
    let tail = tail_in(alloc, &written.bytes)?;
    Ok((written, tail))
}

/// Writes a file of rows to memory and returns whether another file has its bytes. That is so for each file that a
/// writer writes of these rows with these options, by clause `one` of `written_files_read_back`.
///
/// # Errors
///
/// Fails if a call of `Writer` fails.
pub fn is_written_of(
    alloc: Global,
    file: &[u8],
    schema: Schema,
    options: Options,
    rows: &[Row<'_>],
) -> Result<bool, FileFault>
    // If the call succeeds, then `true` is returned if and only if `file` is a file that `finish` wrote of `rows` with
    // this schema and these options.
    ensures same { IfOk result (λ same. IsTrue same ↔ WasWrittenAs options schema file.now (views rows.now)) }
    // An error is `WriteFailed`, `OutOfMemory`, `RowShape` or `Limit`. `RowShape` comes only if one of `rows` doesn't
    // fit the schema. `Limit` comes only if with one of `rows`, after those before it, a limit of stripes, of rows or
    // of a column's cells in a stripe would be exceeded, or if the stripes of the first n of `rows`, for some n, would
    // have more than 2^40 bytes.
    ensures refused { IfErr result (IsWriteFault options schema (views rows.now)) }
{
    // for its contract alone: options, schema and rows determine the bytes
    written_files_read_back();
    let own = write_rows(alloc, schema, options, rows)?;
    Ok(is_same(&own.bytes, file))
}
