//! Laws of columns, stripes and row groups. Each function does nothing: its contract is what it is for.
ghost use Rattle.orc_column_reader.specs.declared.column.ColumnReader.{ColumnReader};
ghost use Rattle.orc_column_reader.specs.Columns.{CellsLeft};
ghost use Rattle.orc_column_reader.specs.Faults.{HasFault};
ghost use Rattle.orc_directory.specs.declared.fault.StripeFault.{StripeFault};
ghost use Rattle.orc_column_reader.specs.Starting.{TreeStart};
ghost use Rattle.std.specs.Prelude.{◌≡◌, ◌<◌, ℕ, Bool, true, Some, List, length, slice_get};
ghost use Rattle.orc_values.specs.Cells.{Cell};
ghost use Rattle.orc_values.specs.Fits.{RowsFit};
ghost use Rattle.orc_values.specs.Shapes.{Shape, width};
ghost use Rattle.orc_column_reader.specs.Stripe.{Streams, SpellRows, SpellsCells, HasFooter, IsStripe, columns_of};
ghost use Rattle.orc_values.specs.Limits.{cell_limit};
ghost use Rattle.orc_stripe_reader.specs.Opened.{Opened};
ghost use Rattle.orc_stripe_reader.specs.RowIndexes.{HasIndex, HasEachGroup, ArePositionsDecided};
ghost use Rattle.orc_stripe_reader.specs.GroupCursors.{HasGroup, HasRightEntry, StartsGroup, SpellsFrom, LeadsBehind, MeetsFrom};
ghost use Rattle.orc_wire.specs.declared.row_index.RowIndexMsg.{RowIndexMsg};
ghost use Rattle.orc_wire.specs.declared.stripe_info.StripeInfo.{StripeInfo};
ghost use Rattle.orc_wire.specs.declared.stripe_footer.StripeFooter.{StripeFooter};

/// Laws of columns: streams spell at most one list of rows, and they spell rows column by column, by the columns'
/// numbers, if and only if they spell them recursively, down the schema.
pub fn column_laws()
    // Columns' streams spell at most one list of a given number of rows of a schema.
    ensures one_list { (s : Shape) (columns : ℕ → Streams) (count : ℕ) (a b : List Cell)
        → SpellRows s columns count a → SpellRows s columns count b
        → a ≡ b }
    // If columns' streams spell fewer than 2^31 rows recursively, down a schema, then they spell these rows column by
    // column, too.
    ensures by_number { (s : Shape) (columns : ℕ → Streams) (rows : List Cell)
        → length rows < cell_limit → SpellsCells s columns rows
        → SpellRows s columns (length rows) rows }
    // If columns' streams spell rows of a schema column by column, then they spell these rows recursively, down the
    // schema, too.
    ensures by_tree { (s : Shape) (columns : ℕ → Streams) (count : ℕ) (rows : List Cell)
        → SpellRows s columns count rows
        → SpellsCells s columns rows }
{}

/// Laws of stripes: bytes have at most one footer and at most one list of rows.
pub fn stripe_laws()
    // For a schema and a stripe's record, bytes are a stripe with at most one footer.
    ensures one_footer { (s : Shape) (info : StripeInfo) (bytes : List ℕ) (a b : StripeFooter)
        → HasFooter s info bytes a → HasFooter s info bytes b
        → a ≡ b }
    // For a schema and a stripe's record, bytes are a stripe of at most one list of rows.
    ensures one_list { (s : Shape) (info : StripeInfo) (bytes : List ℕ) (a b : List Cell)
        → IsStripe s info bytes a → IsStripe s info bytes b → a ≡ b }
{}

/// Laws of row groups: reading may start at a group if the positions in each column's entry are right, which
/// `positions_right` decides. From the positions on, the streams spell at most one list of rows, and these fit the
/// schema. A fault that is found from positions after the rows before a group is a fault of the stripe itself.
pub fn group_laws()
    // If the columns' streams of a stripe spell rows of the schema, as many as the stripe's record says, the stripe has
    // a group, each column's row index has an entry for each group, and the positions in this group's entries are right
    // for these rows, then the stripe starts at this group with these rows, as `StripeView::cursor_at` needs it.
    ensures starts { (view : Opened) (rows : List Cell) (group : ℕ)
        → SpellRows view.schema (columns_of view.footer view.bytes) view.info.number_of_rows rows
        → HasGroup view group
        → ((c : ℕ) → c < width view.schema → HasRightEntry view rows c group)
        → StartsGroup view (columns_of view.footer view.bytes) rows group }
    // If a list has as many rows as a stripe's record says, the stripe has a group, a column's row index reads and has
    // an entry for each group of the rows, a list of truth values says of each entry whether its positions are right
    // for these rows, and the truth value of the group is true, then the row index has an entry of the group, whose
    // positions are right for these rows.
    ensures right { (view : Opened) (rows : List Cell) (c group : ℕ) (message : RowIndexMsg) (right : List Bool)
        → length rows ≡ view.info.number_of_rows
        → HasGroup view group
        → HasIndex view.footer view.bytes c message
        → HasEachGroup view (length rows) message
        → ArePositionsDecided view c rows message right
        → slice_get right group ≡ Some true → HasRightEntry view rows c group }
    // A stripe's streams spell at most one list of rows from the positions in a group's entries on.
    ensures one_list { (view : Opened) (group : ℕ) (a b : List Cell)
        → SpellsFrom view group a → SpellsFrom view group b → a ≡ b }
    // If a stripe's streams spell rows from the positions in a group's entries on, then these rows fit the schema,
    // whatever the positions are.
    ensures fit { (view : Opened) (group : ℕ) (rows : List Cell)
        → SpellsFrom view group rows → RowsFit view.schema rows }
    // If a stripe has a group, there are rows that fit the schema, as many as come before the group, and in each column
    // the positions in the group's entry are positions after the column's cells of these rows, then a fault that the
    // streams have from these positions on, for as many rows as the stripe has from the group on, is a fault that a
    // column of the schema has in the stripe's streams.
    ensures faults { (view : Opened) (before : List Cell) (group : ℕ) (f : StripeFault)
        → LeadsBehind view before group → MeetsFrom view group f
        → HasFault view.schema (columns_of view.footer view.bytes) view.info.number_of_rows f }
{}

/// Readers at the start of the streams of a column and of the columns below it spell what the streams spell.
pub(crate) fn reader_laws()
    ensures found { (s : Shape) (columns : ℕ → Streams) (readers : List ColumnReader) (cells : List Cell)
        → TreeStart s columns readers
        → CellsLeft s readers cells → SpellsCells s columns cells }
    ensures only { (s : Shape) (columns : ℕ → Streams) (readers : List ColumnReader) (cells : List Cell)
        → TreeStart s columns readers
        → SpellsCells s columns cells → CellsLeft s readers cells }
{}
