//! Laws of rows that are kept as columns. The function does nothing: its contract is what it is for.
ghost use Rattle.std.specs.Prelude.{◌≡◌, ◌<◌, ℕ, List, map};
ghost use Rattle.orc_values.specs.Cells.{Cell};
ghost use Rattle.orc_values.specs.Childless.{childless};
ghost use Rattle.orc_values.specs.Columns.{cells};
ghost use Rattle.orc_values.specs.Fits.{RowsFit};
ghost use Rattle.orc_values.specs.Shapes.{Shape, width};
ghost use Rattle.orc_row_batch.specs.Batch.{Holds, column_cells, kept_rows};
ghost use Rattle.orc_row_batch.specs.RowsFrom.{rows_from};
ghost use Rattle.orc_row_batch.specs.declared.batch.RowBatch.{RowBatch};

/// The cells of all columns, without their children, determine the rows.
pub fn batch_laws()
    // If a batch holds a list of rows of a type, then the rows of this type that are rebuilt from its columns are this
    // list.
    ensures rows { (s : Shape) (rows : List Cell) (batch : RowBatch)
        → Holds s rows batch
        → kept_rows s batch ≡ rows }
    // If a batch holds a list of rows of a type, then the cells that it keeps for a column of the type are the cells of
    // this column in the rows, each without its children.
    ensures own { (s : Shape) (rows : List Cell) (batch : RowBatch) (c : ℕ)
        → Holds s rows batch → c < width s
        → column_cells batch c ≡ map childless (cells s c rows) }
    // If all rows of a list fit a type, then the rows of this type that are rebuilt from the cells of each column, each
    // without its children, are this list.
    ensures columns { (s : Shape) (rows : List Cell)
        → RowsFit s rows
        → rows_from s (λ c. map childless (cells s c rows)) 0 ≡ rows }
{}
