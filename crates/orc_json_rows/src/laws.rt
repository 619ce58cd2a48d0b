//! Laws of days and JSON. Each function does nothing: its contract is what it is for.
ghost use Rattle.std.specs.Prelude.{◌≡◌, ◌≢◌, ◌↔◌, ◌≤ℤ◌, ◌⊎◌, ℕ, ℤ, pos, List, true};
ghost use Rattle.orc_values.specs.Shapes.{Shape};
ghost use Rattle.orc_values.specs.Cells.{Cell};
ghost use Rattle.orc_values.specs.Fits.{fits};
ghost use Rattle.orc_json_rows.specs.Days.{has_text, day_text, IsDayText};
ghost use Rattle.jiff.specs.Words.{epoch_day, date_text};
ghost use Rattle.jiff_core.specs.declared.civil.date.Date.{Date};
ghost use Rattle.orc_values.specs.declared.kind.Scalar.{Scalar};
ghost use Rattle.orc_json_rows.specs.JsonLeaves.{LeafFault};
ghost use Rattle.orc_json_rows.specs.FieldNames.{is_distinct};
ghost use Rattle.orc_json_rows.specs.JsonRows.{JsonSpells};
ghost use Rattle.orc_json_rows.specs.JsonFaults.{FaultAt, Somewhere};
ghost use Rattle.orc_json_rows.specs.JsonPrinting.{json_of, AreInOrder};
ghost use Rattle.serde_json.specs.Data.{Data, Members, object};
ghost use Rattle.orc_json_rows.specs.declared.json_fault.JsonFault.{JsonFault};
ghost use Rattle.orc_json_rows.specs.declared.json_fault.JsonFault.TheVariants.{OutOfMemory as NoMemory};

/// Laws of days: a text is one day's; the days that have a text are those of the calendar's dates from
/// the year 1 on, which ends with the year 9999, each such day is a date's, and the text is that of the
/// date.
pub fn day_laws()
    // A text is of one day at most.
    ensures one { (s : List ℕ) (m n : ℤ) → IsDayText s m → IsDayText s n → m ≡ n }
    // A date of the calendar has a text exactly where its year is 1 or later.
    ensures years { (d : Date) → (has_text (epoch_day d) ≡ true) ↔ (pos 1 ≤ℤ d.year) }
    // Each day that has a text is a date's.
    ensures dates { (n : ℤ) → has_text n ≡ true → (d : Date) × (epoch_day d ≡ n) }
    // Where a date's day has a text, it is the text of the date.
    ensures calendar { (d : Date) → has_text (epoch_day d) ≡ true → day_text (epoch_day d) ≡ date_text d }
{}

/// Laws of JSON rows: a JSON value spells one row at most, which fits; a fault that stands somewhere
/// in it leaves none, but for want of memory; a value that contains no other is refused in one way;
/// an object is printed with its keys in byte order; and where no struct names a field twice, a row
/// that fits is spelled by its JSON.
pub fn json_laws()
    // A JSON value spells one row at most.
    ensures one_row { (s : Shape) (json : Data) (a b : Cell) → JsonSpells s json a → JsonSpells s json b → a ≡ b }
    // A row that a JSON value spells fits the schema.
    ensures fit { (s : Shape) (json : Data) (row : Cell) → JsonSpells s json row → fits row s ≡ true }
    // Where a fault other than want of memory stands somewhere in a JSON value, it spells no row.
    ensures none { (fault : JsonFault) (s : Shape) (json : Data) (row : Cell)
        → fault ≢ NoMemory
        → Somewhere (FaultAt fault) s json
        → JsonSpells s json row
        → ⊥ }
    // Under a kind that contains no other, a value is refused in one way, but for want of memory.
    ensures one_fault { (kind : Scalar) (json : Data) (a b : JsonFault)
        → LeafFault kind json a
        → LeafFault kind json b
        → (a ≡ b) ⊎ ((a ≡ NoMemory) ⊎ (b ≡ NoMemory)) }
    // A row that is printed as an object has its keys in byte order.
    ensures keys { (s : Shape) (row : Cell) (members : Members) → json_of s row ≡ object members → AreInOrder members }
    // Where no struct names a field twice, the JSON of a row that fits spells the row.
    ensures again { (s : Shape) (row : Cell) → is_distinct s ≡ true → fits row s ≡ true → JsonSpells s (json_of s row) row }
{}
