//! Laws of row indexes as they are written. The function does nothing: its contract is the statement.
ghost use Rattle.std.specs.Prelude.{◌≡◌, ◌<◌, ℕ, List, map, length};
ghost use Rattle.std.specs.List.{flat_map};
ghost use Rattle.orc_values.specs.Cells.{Cell, parts, keys_in, values_in, values};
ghost use Rattle.orc_values.specs.Fits.{RowsFit};
ghost use Rattle.orc_values.specs.Shapes.{Shape};
ghost use Rattle.orc_column_reader.specs.Stripe.{Streams};
ghost use Rattle.orc_values.specs.Limits.{cell_limit};
ghost use Rattle.orc_row_groups.specs.Bounds.{AreBounds, elements_before, pairs_before, values_before};
ghost use Rattle.orc_row_index.specs.Positions.{AreReadPositions, AreWrittenPositions};
ghost use Rattle.orc_row_index.specs.RowIndex.{IsWrittenIndex, IsRightIndex};

/// States the laws of row indexes as they are written. Cells, their streams and bounds have at most one index, and
/// the streams have at most one list of a writer's positions after given cells. A writer's positions are right for
/// every reader. If cells fit and there are fewer than 2^31, their index reads back with right positions and the
/// statistic of each group. Bounds that are taken down a level are bounds there.
pub fn index_laws()
    // A column's cells, their streams and bounds of groups have at most one written row index, byte by byte.
    ensures one_text { (s : Shape) (x : Streams) (cells : List Cell) (bounds a b : List ℕ)
        → IsWrittenIndex s x cells bounds a
        → IsWrittenIndex s x cells bounds b
        → a ≡ b }
    // The streams of a column have at most one list of a writer's positions after given cells.
    ensures one_places { (s : Shape) (x : Streams) (before : List Cell) (a b : List ℕ)
        → AreWrittenPositions s x before a
        → AreWrittenPositions s x before b
        → a ≡ b }
    // If positions are a writer's after given cells of a column, then they are right for every reader, which goes on
    // from them with the cells that come next.
    ensures places { (s : Shape) (x : Streams) (before : List Cell) (positions : List ℕ)
        → AreWrittenPositions s x before positions
        → AreReadPositions s x before positions }
    // If cells fit a column's type and there are fewer than 2^31, then their written index reads back as one entry
    // for each bound, with positions that are right for every reader and the statistic of the group's cells.
    ensures right { (s : Shape) (x : Streams) (cells : List Cell) (bounds text : List ℕ)
        → RowsFit s cells
        → length cells < cell_limit
        → IsWrittenIndex s x cells bounds text
        → IsRightIndex s x cells bounds text }
    // If bounds of groups are those of a column of lists, then the numbers of elements that the lists before each
    // group have are bounds of the elements.
    ensures elements { (cells : List Cell) (bounds : List ℕ) → AreBounds (length cells) bounds
        → AreBounds (length (flat_map parts (values cells))) (map (elements_before cells) bounds) }
    // If bounds of groups are those of a column of maps, then the numbers of pairs that the maps before each group
    // have are bounds of the keys.
    ensures keys { (cells : List Cell) (bounds : List ℕ) → AreBounds (length cells) bounds
        → AreBounds (length (flat_map keys_in (values cells))) (map (pairs_before cells) bounds) }
    // If bounds of groups are those of a column of maps, then the numbers of pairs that the maps before each group
    // have are bounds of the maps' values.
    ensures map_values { (cells : List Cell) (bounds : List ℕ) → AreBounds (length cells) bounds
        → AreBounds (length (flat_map values_in (values cells))) (map (pairs_before cells) bounds) }
    // If bounds of groups are those of a column of structs, then the numbers of structs before each group that are
    // not null are bounds of each field's cells.
    ensures fields { (cells : List Cell) (bounds : List ℕ) → AreBounds (length cells) bounds
        → AreBounds (length (values cells)) (map (values_before cells) bounds) }
{}
