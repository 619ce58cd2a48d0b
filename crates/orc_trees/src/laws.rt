//! Laws of cells. Each function does nothing: its contract is what it is for.
ghost use Rattle.std.specs.Prelude.{◌≡◌, ◌++◌, ◌+◌, ◌<◌, length, sum_by, slice_get, Some, ℕ, List};
ghost use Rattle.orc_values.specs.Shapes.{Shape, list_of, map_of, struct_of, Fields, width, shape_at, starts};
ghost use Rattle.orc_values.specs.Cells.{Cell, parts, pairs_in, values};
ghost use Rattle.orc_values.specs.Columns.{cells};
ghost use Rattle.orc_values.specs.Fits.{RowsFit};

/// Laws of cells: the cells of rows one after the other stand one after the other; those of a column
/// of rows that fit are rows of the column's type, and the columns below it have the cells of these. A
/// list's child has as many cells as the lists have elements together, a map's keys and its values as
/// many as the maps have pairs together, and in rows that fit a field's column, which `starts` tells,
/// has one for each struct that isn't null.
pub fn cells_laws()
    // The cells of rows joined are the cells joined.
    ensures append { (s : Shape) (column : ℕ) (a b : List Cell)
        → cells s column (a ++ b) ≡ cells s column a ++ cells s column b }
    // Where the schema has the column, the column's cells of rows that fit are of its type.
    ensures fit { (s : Shape) (column : ℕ) (rows : List Cell)
        → column < width s
        → RowsFit s rows
        → RowsFit (shape_at s column) (cells s column rows) }
    // Where the schema has the column, the columns below it have their cells in the column's cells.
    ensures deeper { (s : Shape) (column below : ℕ) (rows : List Cell)
        → column < width s
        → below < width (shape_at s column)
        → cells s (column + below) rows ≡ cells (shape_at s column) below (cells s column rows) }

    // A list's child has as many cells as the lists have elements together.
    ensures elements { (s : Shape) (kept : List ℕ) (rows : List Cell)
        → length (cells (list_of s kept) 1 rows) ≡ sum_by (λ c. length (parts c)) rows }
    // A map's keys, and its values, are as many cells as the maps have pairs together.
    ensures keys { (key value : Shape) (kept : List ℕ) (rows : List Cell)
        → length (cells (map_of key value kept) 1 rows) ≡ sum_by (λ c. length (pairs_in c)) rows }
    ensures map_values { (key value : Shape) (kept : List ℕ) (rows : List Cell)
        → length (cells (map_of key value kept) (1 + width key) rows) ≡ sum_by (λ c. length (pairs_in c)) rows }
    // Where the rows fit, a field's column has one cell for each struct that isn't null.
    ensures members { (fs : Fields) (kept : List ℕ) (i column : ℕ) (rows : List Cell)
        → RowsFit (struct_of fs kept) rows
        → slice_get (starts fs 1) i ≡ Some column
        → length (cells (struct_of fs kept) column rows) ≡ length (values rows) }
{}
