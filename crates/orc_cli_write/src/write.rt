//! `orcm write`: writes a file from lines of JSON.
ghost use Rattle.std.specs.Prelude.{◌≡◌, ◌≢◌, List, [], IfOk, IfErr, OnOk, false};
ghost use Rattle.orc_values.specs.Cells.{Cell};
ghost use Rattle.orc_values.specs.Shapes.{Shape};
ghost use Rattle.orc_types.specs.Schemas.{HasText};
ghost use Rattle.orc_io.specs.Leaves.{HandsBackSink};
ghost use Rattle.orc_file_writer.specs.Progress.{progress};
ghost use Rattle.orc_file_writer.specs.Writing.{WroteWholeFile};
ghost use Rattle.orc_cli_write.specs.Lines.{LineSpellsRows, AreRowsOfLines};
ghost use Rattle.orc_cli_output.specs.Output.{IsWantOfMemory, write_failed};
ghost use Rattle.orc_cli_write.specs.Pushes.{LeavesWriter};
ghost use Rattle.orc_cli_write.specs.Writes.{IsOfLine, IsOfWriter, IsWantOfWrite, EndsAtLine, EndsInLines, PushesAlso, LeavesAtLine, RefusesWrite};

use crate::line_end::line_length;
use orc_cli_output::CliFault;
use orc_file_writer::Writer;
use orc_io::Sink;
use orc_json::RowReader;
use orc_row_batch::Options;
use orc_tail::Tail;
use orc_types::Schema;
use std::alloc::Global;

/// Pushes the row of a line, unless the line is empty. The row reuses the memory of one that the writer no longer
/// needs.
pub(crate) fn push_line<W: Sink>(
    alloc: Global,
    reader: &mut RowReader,
    line: &[u8],
    writer: &mut Writer<W>,
) -> Result<(), CliFault>
    ensures pushed { OnOk result ((own : List Cell) × LineSpellsRows writer.old.schema line.now own
        × PushesAlso (progress W.told writer.old) (progress W.told writer.new) own) }
    ensures writer { LeavesWriter W.failures writer.old writer.new result }

    ensures refused { writer.old.failed ≡ false → IfErr result (λ fault. (own : List Cell) × (line.now ≢ [])
        × EndsAtLine writer.old.schema line.now fault own
        × LeavesAtLine writer.old.options writer.old.schema (progress W.told writer.old) (W.told writer.new.out)
        fault own) }
    ensures layer { IfErr result IsOfLine }
{
    if line.is_empty() {
        return Ok(());
    }
    let spare = writer.spare_row();
    let schema = writer.schema();
    schema.limit_laws();
    let row = reader.read_row_over(alloc, schema, line, spare)?;
    writer.push_owned(row)?;
    Ok(())
}

/// Pushes the rows of all lines.
fn push_lines<W: Sink>(alloc: Global, input: &[u8], writer: &mut Writer<W>) -> Result<(), CliFault>
    ensures pushed { OnOk result ((own : List Cell) × AreRowsOfLines writer.old.schema input.now own
        × PushesAlso (progress W.told writer.old) (progress W.told writer.new) own) }
    ensures writer { LeavesWriter W.failures writer.old writer.new result }

    ensures refused { writer.old.failed ≡ false → IfErr result (λ fault. (own : List Cell)
        × EndsInLines writer.old.schema input.now fault own
        × LeavesAtLine writer.old.options writer.old.schema (progress W.told writer.old) (W.told writer.new.out)
        fault own) }
    ensures layer { IfErr result IsOfLine }
{
    let mut reader = RowReader::new(alloc);
    let mut at = 0;
    while at < input.len() {
        let (_, rest) = input.split_at(at);
        let len = line_length(rest);
        let (line, _) = rest.split_at(len);
        push_line(alloc, &mut reader, line, writer)?;
        at += len;
        if at < input.len() {
            at += 1;
        }
    }
    Ok(())
}

/// Writes a file from lines of JSON, one row per line. A line ends with the byte 0a; the last line may have no end,
/// and empty lines are skipped. The schema is read first. Returns the file's tail and the output.
///
/// # Errors
///
/// The output is returned beside the error.
///
/// - `Types` if `schema` isn't the text of a schema. Then nothing was written.
/// - `Json` if a line spells no row, with `Syntax` if it isn't UTF-8 or not JSON. Then the output has got `ORC` and
///   the full stripes of the rows before, but neither a last stripe nor a tail.
/// - `File` with `Limit` if a file of the rows given to the writer would pass a limit: of stripes, of rows, of a
///   column's cells in a stripe, or of the stripes' bytes. Then the output has got a prefix of a file of the first n
///   of these rows, for some n.
/// - `File` with `WriteFailed` if the output failed. Then too it has got a prefix of a file of the first n rows.
/// - `OutOfMemory` if memory ran out: of `Types` for the schema, after which nothing was written, of `Json` for a
///   line, and of `File` in the writer.
pub fn write_from<W: Sink>(
    alloc: Global,
    schema: &str,
    options: Options,
    input: &[u8],
    out: W,
) -> Result<(Tail, W), (CliFault, W)>
    // If the call succeeds, then `schema` is the text of a schema, and the lines of `input` spell rows of this
    // schema. The output has got exactly the whole file of these rows, in order, if the output's bytes are
    // known. This file has fewer than 2^64 bytes, and its tail is returned.
    ensures written { IfOk result (λ done. (s : Shape) × (rows : List Cell)
        × HasText s schema.now × AreRowsOfLines s input.now rows
        × WroteWholeFile options s done.0 (W.told out) (W.told done.1) rows) }
    // If `schema` is the text of a schema, and each line of `input` that isn't empty spells a row of this
    // schema, then an error is `Limit`, `WriteFailed` or `OutOfMemory`.
    ensures only { (s : Shape) (rows : List Cell) → HasText s schema.now → AreRowsOfLines s input.now rows
        → IfErr result (λ e. IsOfWriter e.0) }

    // An error is `Types` with a fault of the text `schema`, or `schema` is the text of a schema and the error is
    // `Json` with the reason why a line spells no row, `Limit`, `WriteFailed` or `OutOfMemory`. The rows given to the
    // writer are those of the lines before the error, including the line with whose row the writer failed. `Limit`
    // comes only if a file of the rows given to the writer would pass a limit. If the output's bytes are known, the
    // output has got nothing after a fault of the text, exactly `ORC` and the full stripes of the rows given to the
    // writer after any error of `Json`, and after any other error a prefix of a file of the first n of these rows,
    // for some n.
    ensures refused { IfErr result (λ e. RefusesWrite options schema.now input.now (W.told out) (W.told e.1) e.0) }
    // The output's count of failures rises by one with `WriteFailed`, and stays the same after a success and after
    // any other error.
    ensures out { HandsBackSink W.failures write_failed (λ done. done.1) out result }
    // If the error is `OutOfMemory`, then it is that of `Json`, that of `File`, or that of `Types`, and after
    // that of `Types` the output's bytes are unchanged if they are known.
    ensures layer { IfErr result (λ e. IsWantOfMemory e.0 → IsWantOfWrite (W.told out) (W.told e.1) e.0) }
{
    let schema = match Schema::parse(alloc, schema) {
        Ok(schema) => schema,
        Err(fault) => return Err((CliFault::Types(fault), out)),
    };
    let mut writer = match Writer::new(alloc, schema, options, out) {
        Ok(writer) => writer,
        Err((fault, out)) => return Err((CliFault::File(fault), out)),
    };
    if let Err(fault) = push_lines(alloc, input, &mut writer) {
        return Err((fault, writer.into_out()));
    }
    match writer.finish() {
        Ok(done) => Ok(done),
        Err((fault, out)) => Err((CliFault::File(fault), out)),
    }
}
