//! Laws of readers at positions. The function does nothing: its contract is the statement.
ghost use Rattle.std.specs.Prelude.{◌≡◌, ◌+◌, ℕ, Bool, Some, List, length, slice_get};
ghost use Rattle.orc_values.specs.Cells.{Cell};
ghost use Rattle.orc_values.specs.Columns.{cells};
ghost use Rattle.orc_values.specs.Fits.{RowsFit};
ghost use Rattle.orc_values.specs.Shapes.{Shape, shape_at};
ghost use Rattle.orc_wire.specs.declared.row_index.RowIndexEntry.{RowIndexEntry as IndexEntry};
ghost use Rattle.orc_column_reader.specs.Columns.{CellsLeft};
ghost use Rattle.orc_column_reader.specs.Faults.{FaultDown};
ghost use Rattle.orc_column_reader.specs.ReaderFaults.{CellsMeet};
ghost use Rattle.orc_column_reader.specs.Stripe.{Streams};
ghost use Rattle.orc_column_reader.specs.declared.column.ColumnReader.{ColumnReader as Reader};
ghost use Rattle.orc_directory.specs.declared.fault.StripeFault.{StripeFault as Fault};
ghost use Rattle.orc_group_reader.specs.Behind.{IsBehind};
ghost use Rattle.orc_group_reader.specs.ReadersAt.{ReadersAt};

/// States the laws of readers at positions after some rows. Each error that they meet is one of the whole columns.
/// What they still have to give depends on the positions alone.
pub fn entering_laws()
    // If rows fit the schema, the positions of each column's entry lead to the place after the column's cells in
    // these rows, and readers are at these positions, then each error that the readers meet with n cells to give is
    // one of the whole columns with n cells more than these rows, whatever the streams have after the rows.
    ensures faults { (s : Shape) (x : ℕ → Streams) (before : List Cell) (entries : List IndexEntry) (readers : List Reader)
        (all : Bool) (n : ℕ) (f : Fault)
        → RowsFit s before
        → ((c : ℕ) (entry : IndexEntry) → slice_get entries c ≡ Some entry
        → IsBehind (shape_at s c) (x c) (cells s c before) entry.positions)
        → ReadersAt s x entries readers → CellsMeet s readers all n f
        → FaultDown s x 0 all (length before + n) f }
    // If two lists of readers are at the same positions of the same columns, then each list of rows that the first
    // readers still have to give is one that the second ones still have to give.
    ensures same { (s : Shape) (x : ℕ → Streams) (entries : List IndexEntry) (a b : List Reader) (rows : List Cell)
        → ReadersAt s x entries a → ReadersAt s x entries b
        → CellsLeft s a rows → CellsLeft s b rows }
{}
