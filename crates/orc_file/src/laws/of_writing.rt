//! Laws of written files. The function does nothing: its contract is what it is for.
ghost use Rattle.std.specs.Prelude.{◌≡◌, ◌<◌, ◌^◌, ℕ, List, length, Option};
ghost use Rattle.orc_values.specs.Cells.{Cell};
ghost use Rattle.orc_values.specs.Shapes.{Shape};
ghost use Rattle.orc_types.specs.Schemas.{IsSchema};
ghost use Rattle.orc_row_batch.specs.declared.options.Options.{Options};
ghost use Rattle.orc_io.specs.Devices.{appended};
ghost use Rattle.orc_tail.specs.Tails.{IsTail};
ghost use Rattle.orc_tail.specs.Images.{types_text};
ghost use Rattle.orc_file_reader.specs.FileRows.{FileIs};
ghost use Rattle.orc_file_reader.specs.Honest.{Honest, HasWholeStats};
ghost use Rattle.orc_file_writer.specs.Writing.{IsWrittenFile, WroteWholeFile, IsCutOff};
ghost use Rattle.orc_file.specs.FrontOfFile.{IsFrontOfFile};
ghost use Rattle.orc_tail.specs.declared.tail.Tail.{Tail};

/// Laws of written files. What a writer wrote is a file with the tail that the writer returned and the rows that were
/// pushed: so opening it finds this tail, and reading it finds these rows and no others. The same holds for all bytes
/// that are laid out by the writer's rules for a valid schema, if they are fewer than 2^64, which they are if the text
/// of the schema's types in the footer has fewer than 2^62 bytes. What a writer wrote before it failed is then a prefix
/// of such a file. The tail's statistics are those of the rows, of each stripe and of the whole file. The options, the
/// schema and the rows determine the bytes.
pub fn written_laws()
    // If an output has got the whole written file of some rows with a tail, as `Writer::finish` promises, and the
    // output's bytes are known, then the bytes that it has got are laid out by the writer's rules, and they are a file
    // with this tail and these rows.
    ensures read { (options : Options) (s : Shape) (tail : Tail) (first told : Option (List ℕ)) (rows : List Cell)
        → WroteWholeFile options s tail first told rows → (bytes : List ℕ) × (told ≡ appended first bytes)
        × IsWrittenFile options s tail bytes rows
        × FileIs bytes tail rows }
    // If a schema is valid, and bytes, fewer than 2^64, are a written file of this schema with a tail and rows, then
    // the bytes have this tail, and they are a file with this tail and these rows when they are read.
    ensures tail { (options : Options) (s : Shape) (tail : Tail) (bytes : List ℕ) (rows : List Cell)
        → IsSchema s → IsWrittenFile options s tail bytes rows → length bytes < 2 ^ 64 → IsTail bytes tail }
    ensures rows { (options : Options) (s : Shape) (tail : Tail) (bytes : List ℕ) (rows : List Cell)
        → IsSchema s → IsWrittenFile options s tail bytes rows → length bytes < 2 ^ 64 → FileIs bytes tail rows }
    // If a schema is valid and the text of its types in the footer has fewer than 2^62 bytes, then a written file of
    // this schema has fewer than 2^64 bytes.
    ensures short { (options : Options) (s : Shape) (tail : Tail) (bytes : List ℕ) (rows : List Cell)
        → IsSchema s → length (types_text s) < 2 ^ 62 → IsWrittenFile options s tail bytes rows
        → length bytes < 2 ^ 64 }
    // If an output has got a prefix of a written file of the first n of some rows, for some n, as the calls of `Writer`
    // promise after an error, the output's bytes are known, and the text of the schema's types in the footer has fewer
    // than 2^62 bytes, then the output has got a prefix of a file, as it is read, with this schema and the first n of
    // the rows, for some n.
    ensures front { (options : Options) (s : Shape) (first told : Option (List ℕ)) (rows : List Cell)
        → IsCutOff options s first told rows → length (types_text s) < 2 ^ 62 → IsFrontOfFile s first told rows }
    // The tail of a written file has the statistics of each stripe's rows and those of all rows, with two exceptions:
    // element counts may be missing, and in the statistics of all rows a sum is unknown if the sum of some stripe
    // overflows 64 bits.
    ensures honest { (options : Options) (s : Shape) (tail : Tail) (bytes : List ℕ) (rows : List Cell)
        → IsWrittenFile options s tail bytes rows → Honest tail rows }
    ensures whole { (options : Options) (s : Shape) (tail : Tail) (bytes : List ℕ) (rows : List Cell)
        → IsWrittenFile options s tail bytes rows → HasWholeStats tail rows }
    // The options, the schema and the rows determine the tail and the bytes of a written file.
    ensures one { (options : Options) (s : Shape) (t u : Tail) (a b : List ℕ) (rows : List Cell)
        → IsWrittenFile options s t a rows → IsWrittenFile options s u b rows → (t ≡ u) × (a ≡ b) }
{}
