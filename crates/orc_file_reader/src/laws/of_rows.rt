//! Laws of the rows of files. Each function does nothing: its contract is what it is for.
ghost use Rattle.std.specs.Prelude.{◌≡◌, ℕ, List, true, false};
ghost use Rattle.orc_wire.specs.declared.stripe_info.StripeInfo.{StripeInfo};
ghost use Rattle.orc_values.specs.Cells.{Cell};
ghost use Rattle.orc_values.specs.Shapes.{Shape};
ghost use Rattle.orc_values.specs.Columns.{cells};
ghost use Rattle.orc_stats.specs.Statistics.{stat};
ghost use Rattle.orc_tail.specs.Statistics.{kind_at};
ghost use Rattle.orc_file_reader.specs.Honest.{each_sum_fits, less_sum, whole_of};
ghost use Rattle.orc_file_reader.specs.FileRows.{AreOfStripes, HasRows, FileIs, FirstRefused, rows_together, cut_rows};
ghost use Rattle.orc_tail.specs.declared.tail.Tail.{Tail};
ghost use Rattle.orc_tail.specs.declared.fault.FileFault.{FileFault};

/// Laws of rows. Bytes are a file of at most one tail and one list of rows, and of none if a stripe has no rows.
/// Cutting a file's rows by the stripes' numbers of rows gives the rows of each stripe.
pub fn row_laws()
    // Bytes are a file of at most one tail and one list of rows.
    ensures one { (bytes : List ℕ) (t u : Tail) (a b : List Cell) → FileIs bytes t a → FileIs bytes u b → (t ≡ u)
        × (a ≡ b) }
    // If a fault is, in some bytes, that of the first stripe without rows, of those that a tail names, then these bytes
    // are no file with this tail, whatever the rows.
    ensures none { (bytes : List ℕ) (tail : Tail) (rows : List Cell) (fault : FileFault)
        → FirstRefused tail.schema bytes 0 tail.stripes fault → FileIs bytes tail rows → ⊥ }
    // If bytes are a file with a tail and rows, then cutting these rows by the stripes' numbers of rows gives the rows
    // of each stripe, in order.
    ensures cut { (bytes : List ℕ) (tail : Tail) (rows : List Cell) → FileIs bytes tail rows
        → AreOfStripes tail.schema bytes tail.stripes (cut_rows tail.stripes rows) }
    // If rows are those of listed stripes in some bytes, joined in order, then cutting these rows by the stripes'
    // numbers of rows and joining the parts again gives the same rows.
    ensures whole { (infos : List StripeInfo) (bytes : List ℕ) (s : Shape) (rows : List Cell)
        → HasRows s bytes infos rows
        → rows_together (cut_rows infos rows) ≡ rows }
{}

/// Laws of a column's statistic of the whole file, computed from the rows of the stripes: it is the statistic of the
/// column's cells in all rows if the column's sum overflows in no stripe; else it is that statistic with an unknown
/// sum.
pub fn whole_laws()
    // If the sum of a column overflows 64 bits in no part of the rows, then the column's statistic that is computed
    // from all parts is the statistic of its cells in the rows of all parts.
    ensures all { (s : Shape) (parts : List (List Cell)) (column : ℕ) → each_sum_fits s parts column ≡ true
        → whole_of s parts column ≡ stat (kind_at s column) (cells s column (rows_together parts)) }
    // If the sum of a column overflows 64 bits in some part of the rows, then the column's statistic that is computed
    // from all parts is the statistic of its cells in the rows of all parts, except that its sum is unknown.
    ensures less { (s : Shape) (parts : List (List Cell)) (column : ℕ) → each_sum_fits s parts column ≡ false
        → whole_of s parts column ≡ less_sum (stat (kind_at s column) (cells s column (rows_together parts))) }
{}
