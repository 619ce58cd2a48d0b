//! Written files read back. `written_files_read_back` does nothing: its contract is the statement.
//!
//! `WroteWholeFile options schema tail first told rows` is what `Writer::finish` promises if it succeeds: `tail` is
//! the tail that it returned, `rows` are the rows that were pushed, `first` is what the output had got before the
//! writer was made, and `told` what it has got now. Its field `bytes` has the bytes that were written.
//! `OrcFile::open` returns a tail for which `IsTail` holds, `OrcFile::rows` returns rows for which `FileIs` holds,
//! and `check` returns a list for which `Findings` holds.
ghost use Rattle.std.specs.Prelude.{◌≡◌, ◌<◌, ◌^◌, ℕ, List, [], length, Option};
ghost use Rattle.orc_values.specs.Cells.{Cell};
ghost use Rattle.orc_values.specs.Shapes.{Shape};
ghost use Rattle.orc_row_batch.specs.declared.options.Options.{Options};
ghost use Rattle.orc_io.specs.Devices.{appended};
ghost use Rattle.orc_tail.specs.Tails.{IsTail};
ghost use Rattle.orc_tail.specs.Images.{types_text};
ghost use Rattle.orc_file_reader.specs.FileRows.{FileIs};
ghost use Rattle.orc_file_reader.specs.Honest.{Honest, HasWholeStats};
ghost use Rattle.orc_file_writer.specs.Writing.{WroteWholeFile, IsCutOff};
ghost use Rattle.orc_file.specs.FrontOfFile.{IsFrontOfFile};
ghost use Rattle.orc_tail.specs.declared.tail.Tail.{Tail};
ghost use Rattle.orc_check.specs.Findings.{Findings};
ghost use Rattle.orc_check.specs.declared.finding.Finding.{Finding};

use crate::written_findings::written_finding_laws;
use orc_check::finding_laws;
use orc_file::written_laws;
use orc_file_reader::row_laws;
use orc_tail::tail_laws;

/// A file that was written opens with the tail that `finish` returned and is read as the rows that were pushed. It
/// has no findings: the statistics of its stripes and of the whole file, and its row indexes, are those of the rows.
pub fn written_files_read_back()
    // If `finish` succeeded, then what it wrote, after what the output had before, is a file with the returned
    // tail and the rows that were pushed.
    ensures written { (options : Options) (schema : Shape) (tail : Tail) (first told : Option (List ℕ)) (rows : List Cell)
        → (finish_wrote : WroteWholeFile options schema tail first told rows)
        → (told ≡ appended first finish_wrote.bytes) × FileIs finish_wrote.bytes tail rows }
    // If `finish` succeeded, and the bytes that it wrote have a tail, as opening finds it, then this tail is the one
    // that `finish` returned.
    ensures opened { (options : Options) (schema : Shape) (tail : Tail) (first told : Option (List ℕ)) (rows : List Cell)
        (opened : Tail)
        → (finish_wrote : WroteWholeFile options schema tail first told rows)
        → (open_found : IsTail finish_wrote.bytes opened)
        → opened ≡ tail }
    // If `finish` succeeded, and the bytes that it wrote are a file with a tail and rows, as reading finds them, then
    // this tail is the one that `finish` returned, and these rows are those that were pushed.
    ensures read { (options : Options) (schema : Shape) (tail : Tail) (first told : Option (List ℕ)) (rows : List Cell)
        (opened : Tail) (found : List Cell)
        → (finish_wrote : WroteWholeFile options schema tail first told rows)
        → (rows_found : FileIs finish_wrote.bytes opened found)
        → (opened ≡ tail) × (found ≡ rows) }
    // If `finish` succeeded, then the returned tail's stripe statistics are those of the rows (element counts
    // may be missing), and its file statistics are those of all rows, with two exceptions. A sum is missing if
    // the sum of some stripe doesn't fit 64 bits. An element count is missing if it is missing for some stripe
    // with a value in that column.
    ensures statistics { (options : Options) (schema : Shape) (tail : Tail) (first told : Option (List ℕ))
        (rows : List Cell)
        → (finish_wrote : WroteWholeFile options schema tail first told rows)
        → Honest tail rows × HasWholeStats tail rows }
    // If `finish` succeeded, and a list is the list of findings of the bytes that it wrote, with the returned tail
    // and the rows that were pushed, then this list is empty.
    ensures checked { (options : Options) (schema : Shape) (tail : Tail) (first told : Option (List ℕ)) (rows : List Cell)
        (found : List Finding)
        → (finish_wrote : WroteWholeFile options schema tail first told rows)
        → (check_found : Findings finish_wrote.bytes tail rows found)
        → found ≡ [] }
    // If `finish` succeeded twice for the same rows, options and schema, then it wrote the same bytes and
    // returned the same tail both times.
    ensures one { (options : Options) (schema : Shape) (tail other : Tail) (first told start end : Option (List ℕ))
        (rows : List Cell)
        → (finish_wrote : WroteWholeFile options schema tail first told rows)
        → (another_finish_wrote : WroteWholeFile options schema other start end rows)
        → (other ≡ tail) × (another_finish_wrote.bytes ≡ finish_wrote.bytes) }
    // If the output has got a prefix of a written file of the first n rows, for some n, as after the first call of a
    // writer that failed, and the text of the schema's types in the footer has fewer than 2^62 bytes, then it has got
    // a prefix of a file with the schema and the first n rows, for some n.
    ensures front { (options : Options) (schema : Shape) (first told : Option (List ℕ)) (rows : List Cell)
        → (a_call_failed : IsCutOff options schema first told rows)
        → (types_have_fewer_than_2_62_bytes : length (types_text schema) < 2 ^ 62)
        → IsFrontOfFile schema first told rows }
{
    // each for its contract alone
    written_laws();
    tail_laws();
    row_laws();
    finding_laws();
    written_finding_laws();
}
