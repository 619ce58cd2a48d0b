//! Writes a file from lines that are read one after another. One line is held at a time.
ghost use Rattle.std.specs.Prelude.{◌≡◌, ◌+◌, ◌⊎◌, List, IfOk, IfErr, IfSome, OnOk, false};
ghost use Rattle.orc_values.specs.Cells.{Cell};
ghost use Rattle.orc_values.specs.Shapes.{Shape};
ghost use Rattle.orc_types.specs.Schemas.{HasText};
ghost use Rattle.orc_io.specs.Leaves.{HandsBackSink};
ghost use Rattle.orc_file_writer.specs.Progress.{progress};
ghost use Rattle.orc_file_writer.specs.Writing.{WroteWholeFile};
ghost use Rattle.orc_tail.specs.declared.fault.FileFault.TheVariants as file;
ghost use Rattle.orc_cli_write.specs.Lines.{AreRowsOfLines};
ghost use Rattle.orc_cli_write.specs.Pushes.{LeavesWriter};
ghost use Rattle.orc_cli_write.specs.Writes.{IsOfWriter, IsWantOfLines, IsWantOfWrite, EndsInLines, PushesAlso};
ghost use Rattle.orc_cli_write.specs.Reads.{BeginWith, LeavesReading, RefusesLines};
ghost use Rattle.orc_cli_output.specs.Output.{IsWantOfMemory, IsOfSource, write_failed};
ghost use Rattle.orc_cli_output.specs.declared.fault.CliFault.TheVariants.{File};

use crate::line_reader::LineReader;
use crate::write::push_line;
use orc_cli_output::CliFault;
use orc_file_writer::Writer;
use orc_io::Sink;
use orc_json::RowReader;
use orc_row_batch::Options;
use orc_tail::{FileFault, Tail};
use orc_types::Schema;
use std::alloc::Global;

/// Pushes the rows of all lines that are left.
fn push_read<L: LineReader, W: Sink>(
    alloc: Global,
    lines: &mut L,
    writer: &mut Writer<W>,
) -> Result<(), CliFault>
    ensures pushed { OnOk result ((own : List Cell)
        × IfSome (L.remaining lines.old) (λ bytes. AreRowsOfLines writer.old.schema bytes own)
        × PushesAlso (progress W.told writer.old) (progress W.told writer.new) own) }
    ensures writer { LeavesWriter W.failures writer.old writer.new result }
    ensures kept { OnOk result (L.failures lines.new ≡ L.failures lines.old) }

    ensures refused { writer.old.failed ≡ false → IfErr result (λ fault. (own : List Cell)
        × IfSome (L.remaining lines.old) (λ bytes. EndsInLines writer.old.schema bytes fault own
        ⊎ (IsOfSource fault × BeginWith writer.old.schema bytes own))
        × LeavesReading writer.old.options writer.old.schema (progress W.told writer.old) (W.told writer.new.out)
        fault own) }
    ensures source { IfErr result (λ fault. fault ≡ File file.SourceFailed
        → L.failures lines.new ≡ L.failures lines.old + 1) }
    ensures unfailed { IfErr result (λ fault. (fault ≡ File file.SourceFailed)
        ⊎ (L.failures lines.new ≡ L.failures lines.old)) }
    ensures layer { IfErr result (λ fault. IsWantOfMemory fault → IsWantOfLines fault) }
{
    writer.schema().limit_laws();
    let mut reader = RowReader::new(alloc);
    let mut line = Vec::new(alloc);
    for _ in 0..u64::MAX {
        if !lines.next_line(&mut line)? {
            return Ok(());
        }
        push_line(alloc, &mut reader, &line, writer)?;
    }
    // no program reads as many lines as this
    Err(CliFault::File(FileFault::OutOfMemory))
}

/// Writes a file from lines of JSON, as `write_from` does, but reads the lines one after another. It holds one line
/// of the input, besides what the reader itself holds, and a buffer as long as the longest line for strings with
/// escapes. Even if nothing is known of the input's bytes, the output has got the whole file of some rows after a
/// success, and a prefix of one after an error.
///
/// # Errors
///
/// Those of `write_from`, and `File` with `SourceFailed` if the input failed. Then the input isn't read again, and
/// the output has got `ORC` and the full stripes of the rows before, but neither a last stripe nor a tail.
pub fn write_lines<L: LineReader, W: Sink>(
    alloc: Global,
    schema: &str,
    options: Options,
    lines: &mut L,
    out: W,
) -> Result<(Tail, W), (CliFault, W)>
    // If the call succeeds, then `schema` is the text of a schema. The output has got exactly the whole file of
    // some rows of this schema if the output's bytes are known. This file has fewer than 2^64 bytes, and its
    // tail is returned. The rows are those that the lines of the input spell, in order, if the input's bytes
    // are known.
    ensures written { IfOk result (λ done. (s : Shape) × (rows : List Cell) × HasText s schema.now
        × IfSome (L.remaining lines.old) (λ bytes. AreRowsOfLines s bytes rows)
        × WroteWholeFile options s done.0 (W.told out) (W.told done.1) rows) }
    // If the input's bytes are known, `schema` is the text of a schema, and each line of the input that isn't
    // empty spells a row of this schema, then an error is `Limit`, `WriteFailed`, `SourceFailed` or
    // `OutOfMemory`.
    ensures only { IfSome (L.remaining lines.old) (λ bytes. (s : Shape) (rows : List Cell) → HasText s schema.now
        → AreRowsOfLines s bytes rows → IfErr result (λ e. IsOfWriter e.0 ⊎ (e.0 ≡ File file.SourceFailed))) }
    // If the call succeeds, then the input's count of failures is unchanged.
    ensures kept { OnOk result (L.failures lines.new ≡ L.failures lines.old) }

    // An error is `Types` with a fault of the text `schema`, or `schema` is the text of a schema. `Limit` comes only
    // if a file of the rows given to the writer would pass a limit. If the output's bytes are known, the output has
    // got nothing after a fault of the text, exactly `ORC` and the full stripes of the rows given to the writer after
    // any error of `Json` and after `SourceFailed`, and after any other error a prefix of a file of the first n of
    // these rows, for some n. If the input's bytes are known, an error other than `Types` is `Json` with the reason
    // why a line spells no row, `Limit`, `WriteFailed`, `SourceFailed` or `OutOfMemory`, and the rows given to the
    // writer are those of the lines before the error, including the line with whose row the writer failed.
    ensures refused { IfErr result (λ e.
        RefusesLines options schema.now (L.remaining lines.old) (W.told out) (W.told e.1) e.0) }
    // If the error is `SourceFailed`, then the input's count of failures is higher by exactly one.
    ensures source { IfErr result (λ e. e.0 ≡ File file.SourceFailed
        → L.failures lines.new ≡ L.failures lines.old + 1) }
    // If the call fails with any error but `SourceFailed`, then the input's count of failures is unchanged.
    ensures unfailed { IfErr result (λ e. (e.0 ≡ File file.SourceFailed)
        ⊎ (L.failures lines.new ≡ L.failures lines.old)) }
    // The output's count of failures rises by one with `WriteFailed`, and stays the same after a success and after
    // any other error.
    ensures out { HandsBackSink W.failures write_failed (λ done. done.1) out result }
    // If the error is `OutOfMemory`, then it is that of `Json`, that of `File`, or that of `Types`, and after
    // that of `Types` the output's bytes are unchanged if they are known.
    ensures layer { IfErr result (λ e. IsWantOfMemory e.0 → IsWantOfWrite (W.told out) (W.told e.1) e.0) }
{
    let schema = match Schema::parse(alloc, schema) {
        Ok(schema) => schema,
        Err(fault) => return Err((CliFault::Types(fault), out)),
    };
    let mut writer = match Writer::new(alloc, schema, options, out) {
        Ok(writer) => writer,
        Err((fault, out)) => return Err((CliFault::File(fault), out)),
    };
    if let Err(fault) = push_read(alloc, lines, &mut writer) {
        return Err((fault, writer.into_out()));
    }
    match writer.finish() {
        Ok(done) => Ok(done),
        Err((fault, out)) => Err((CliFault::File(fault), out)),
    }
}
