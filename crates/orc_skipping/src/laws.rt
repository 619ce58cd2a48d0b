//! Which rows an engine may skip by their statistics. `skipping_laws` does nothing: its contract is the statement.
ghost use Rattle.std.specs.Prelude.{◌≡◌, ◌∷◌, ◌==◌, ℕ, Bool, true, false, not, List, [], length, Option, Some, None};
ghost use Rattle.std.specs.List.{AllByRecursion};
ghost use Rattle.std.specs.Ordering.{is_eq};
ghost use Rattle.orc_values.specs.Cells.{text, Cell, leaf};
ghost use Rattle.orc_values.specs.Shapes.{Shape};
ghost use Rattle.orc_stats.specs.declared.kind.StatKind.{StatKind};
ghost use Rattle.orc_stats.specs.declared.kind.StatKind.TheVariants as kind;
ghost use Rattle.orc_stats.specs.declared.stat.Stat.{Stat};
ghost use Rattle.orc_stats.specs.declared.stat.Body.TheVariants as body;
ghost use Rattle.orc_stats.specs.Kinds.{is_of};
ghost use Rattle.orc_stats.specs.Known.{Agrees};
ghost use Rattle.orc_stats.specs.Statistics.{stat, has_null, total, lengths};
ghost use Rattle.orc_skipping.specs.Predicates.{Predicate, compare, truth, cell_of_row};
ghost use Rattle.orc_skipping.specs.Rules.{cautious, bold, taken_boldly};
ghost use Rattle.orc_skipping.specs.Tests.{said_of, at_column};
ghost use Rattle.orc_skipping.specs.Right.{Admits, AreRight, LackNothing, LeaveRoom, NoneMatches};

/// An engine that skips by right statistics loses no row: by any rule that skips only what they
/// exclude, by the cautious rule, and by the bold one if they lack nothing. What a statistic of cells
/// gives is right and lacks nothing. A counterexample shows what the bold rule does otherwise.
pub fn skipping_laws()
    // If each statistic admits its column's cells in the rows, and no cells that the statistics admit
    // pass the test, then no row passes it. The test may be any function of a row's cells.
    ensures any { (s : Shape) (rows : List Cell) (told : ℕ → Option Stat) (test : (ℕ → Option Cell) → Bool)
        → (the_statistics_are_right : AreRight s rows told)
        → (no_admitted_cells_pass : (at : ℕ → Option Cell) → LeaveRoom told at → test at ≡ true → ⊥)
        → AllByRecursion (λ row. test (cell_of_row s row) ≡ true → ⊥) rows }

    // If each statistic admits its column's cells in the rows, and the cautious rule skips them, then
    // none of the rows matches.
    ensures cautious { (s : Shape) (rows : List Cell) (told : ℕ → Option Stat) (p : Predicate)
        → (the_statistics_are_right : AreRight s rows told)
        → (the_rows_are_skipped : cautious told p ≡ false)
        → NoneMatches s p rows }

    // If each statistic admits its column's cells in the rows and lacks nothing, and the bold rule
    // skips the rows, then none of them matches.
    ensures bold { (s : Shape) (rows : List Cell) (told : ℕ → Option Stat) (p : Predicate)
        → (the_statistics_are_right : AreRight s rows told)
        → (they_lack_nothing : LackNothing told)
        → (the_rows_are_skipped : bold told p ≡ false)
        → NoneMatches s p rows }

    // If the cautious rule skips rows, then the bold rule skips them.
    ensures bolder { (told : ℕ → Option Stat) (p : Predicate) → cautious told p ≡ false → bold told p ≡ false }

    // The bold rule goes by the statistic of the column that a predicate is said of, whatever that column's
    // number is: it keeps the same as if this were the statistic of every column.
    ensures one_column { (c : ℕ) (told : Option Stat) (p : Predicate)
        → bold (at_column c told) (said_of c p) ≡ bold (λ _. told) p }

    // If a statistic agrees with that of cells, then it admits each of them.
    ensures right { (k : StatKind) (cells : List Cell) (s : Stat)
        → Agrees s (stat k cells)
        → AllByRecursion (Admits s) cells }

    // If a statistic agrees with that of cells, and they are of its kind, then the bold rule takes it
    // as it is.
    ensures full { (k : StatKind) (cells : List Cell) (s : Stat)
        → AllByRecursion (λ c. is_of k c ≡ true) cells
        → Agrees s (stat k cells)
        → taken_boldly s ≡ s }

    // A cell is null exactly if there are more cells than the statistic counts values.
    ensures null_by_count { (k : StatKind) (cells : List Cell)
        → has_null cells ≡ not (length cells == (stat k cells).count) }

    // The bold rule needs bounds. Let a column have one text, and a statistic with the right count,
    // hasNull and sum, but without least and greatest text. It admits the text, which the predicate
    // `= text` matches. The cautious rule keeps the row, and the bold rule skips it.
    ensures why { (t : List ℕ) →
        let x : Cell = leaf (text t) in
        let told : Stat = record (stat kind.Texts (x ∷ [])) {
          body = body.Texts None None (total (lengths (t ∷ [])));
        } in
        let p : Predicate = compare 0 is_eq (text t) in
        Admits told x
        × (truth (λ c. Some x) p ≡ Some true)
        × (cautious (λ c. Some told) p ≡ true)
        × (bold (λ c. Some told) p ≡ false) }
{}
