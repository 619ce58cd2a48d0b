//! Laws of columns that are read without those below them. The function does nothing: its contract is the statement.
ghost use Rattle.std.specs.Prelude.{◌≡◌, ◌<◌, ℕ, Bool, List, map};
ghost use Rattle.orc_values.specs.Cells.{Cell};
ghost use Rattle.orc_values.specs.Columns.{cells};
ghost use Rattle.orc_values.specs.Shapes.{Shape, width};
ghost use Rattle.orc_column_reader.specs.Faults.{RowsFault};
ghost use Rattle.orc_column_reader.specs.Stripe.{Streams, SpellRows};
ghost use Rattle.orc_directory.specs.declared.fault.StripeFault.{StripeFault};
ghost use Rattle.orc_values.specs.Childless.{childless};
ghost use Rattle.orc_column_walk.specs.OwnColumns.{AreOwnColumns};
ghost use Rattle.orc_column_walk.specs.OwnFaults.{RefusedDown};

/// States that there are rows if each column's own streams store as many cells as the column above has children, and
/// that the own streams of a column of rows store its cells without their children. If a column doesn't store as many
/// cells as the columns above require, then there are no rows, and its error is one of the stripe's.
pub fn own_column_laws()
    // If each column's own streams store cells, without children, n for the root and for any other column as many as
    // the column above has children, then there are n rows that the columns store.
    ensures rows { (s : Shape) (x : ℕ → Streams) (n : ℕ) (own : ℕ → List Cell)
        → AreOwnColumns s x own n
        → (rows : List Cell) × SpellRows s x n rows }
    // If columns store rows, then each column's own streams store its cells in these rows, without their children.
    ensures own { (s : Shape) (x : ℕ → Streams) (n : ℕ) (rows : List Cell)
        → SpellRows s x n rows
        → AreOwnColumns s x (λ c. map childless (cells s c rows)) n }
    // If columns store rows, and each column's own streams store cells, without children, and as many as the column
    // above has children, then these are the cells that the column has in the rows, without their children.
    ensures cells { (s : Shape) (x : ℕ → Streams) (n : ℕ) (own : ℕ → List Cell) (rows : List Cell)
        → AreOwnColumns s x own n → SpellRows s x n rows
        → (c : ℕ) → c < width s → own c ≡ map childless (cells s c rows) }
    // If the own streams of a column don't store the needed number of cells, which is n for the root and for any
    // other column the number of children of the column above, and those of the columns above it do, then there are
    // no n rows, and the column's error is one of the stripe's.
    ensures refused { (s : Shape) (columns : ℕ → Streams) (all : Bool) (n : ℕ) (f : StripeFault)
        → RefusedDown s columns 0 all n f
        → RowsFault s columns n f }
{}
