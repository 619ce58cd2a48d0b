//! The law of findings of written files. `written_finding_laws` does nothing: its contract is the statement.
ghost use Rattle.std.specs.Prelude.{ℕ, List, []};
ghost use Rattle.orc_values.specs.Cells.{Cell};
ghost use Rattle.orc_values.specs.Shapes.{Shape};
ghost use Rattle.orc_row_batch.specs.declared.options.Options.{Options};
ghost use Rattle.orc_file_reader.specs.FileRows.{FileIs};
ghost use Rattle.orc_file_writer.specs.Writing.{IsWrittenFile};
ghost use Rattle.orc_tail.specs.declared.tail.Tail.{Tail};
ghost use Rattle.orc_check.specs.Findings.{Findings};

/// A file that is laid out as a writer writes it has no findings.
pub fn written_finding_laws()
    // If bytes are laid out as a writer writes a file of some rows with some tail, with any options, and are a file
    // with this tail and these rows, then the file has no findings.
    ensures { (options : Options) (s : Shape) (tail : Tail) (bytes : List ℕ) (rows : List Cell)
        → IsWrittenFile options s tail bytes rows
        → FileIs bytes tail rows → Findings bytes tail rows [] }
{}
