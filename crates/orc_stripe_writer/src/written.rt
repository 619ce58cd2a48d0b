//! Laws of stripes as they are written. The function does nothing: its contract is what it is for.
ghost use Rattle.std.specs.Prelude.{◌≡◌, ◌<◌, ℕ, List};
ghost use Rattle.orc_rle.specs.declared.sign.Rle.{Rle};
ghost use Rattle.orc_wire.specs.declared.stripe_info.StripeInfo.{StripeInfo};
ghost use Rattle.orc_values.specs.Shapes.{Shape, width};
ghost use Rattle.orc_values.specs.Cells.{Cell};
ghost use Rattle.orc_values.specs.Fits.{RowsFit};
ghost use Rattle.orc_column_reader.specs.Stripe.{IsStripe};
ghost use Rattle.orc_stripe_writer.specs.WrittenStripe.{AreFew, IsWrittenStripe};
ghost use Rattle.orc_row_index.specs.RowIndex.{HasRightIndex};

/// Laws of written stripes. A stripe that is written of rows reads back as these rows if they fit the schema and are
/// few enough. At most one stripe is written of a list of rows. If the stride is above 0, each column has a row index
/// whose positions and statistics are right for a reader of the stripe.
pub fn writing_laws()
    // If bytes and a stripe's record are what the writer's rules make of rows, the rows fit the schema, and no column
    // has more than 2,147,483,647 cells, then the bytes are, with this record, a stripe of these rows.
    ensures read { (rle : Rle) (stride : ℕ) (s : Shape) (rows : List Cell) (info : StripeInfo) (bytes : List ℕ)
        → IsWrittenStripe rle stride s rows info bytes → RowsFit s rows → AreFew s rows → IsStripe s info bytes rows }
    // For a schema, rows, a version of integer runs and a stride, the writer's rules make at most one stripe: its bytes
    // and its record are determined.
    ensures one_text { (rle : Rle) (stride : ℕ) (s : Shape) (rows : List Cell) (i j : StripeInfo) (a b : List ℕ)
        → IsWrittenStripe rle stride s rows i a → IsWrittenStripe rle stride s rows j b → (i ≡ j) × (a ≡ b) }
    // If bytes are what the writer's rules make of rows with a stride above 0, the rows fit the schema, and no column
    // has more than 2,147,483,647 cells, then the directory lists a row index of each column, which is right for a
    // reader: it has an entry for each group, with positions from which a reader goes on after the cells before the
    // group, and with the statistic of the group's cells.
    ensures right { (rle : Rle) (stride : ℕ) (s : Shape) (rows : List Cell) (info : StripeInfo) (bytes : List ℕ)
        (h : IsWrittenStripe rle stride s rows info bytes) → 0 < stride → RowsFit s rows → AreFew s rows
        → (c : ℕ) → c < width s → HasRightIndex stride s rows h.footer bytes c }
{}
