//! Laws of statistics. Each function does nothing: its contract is the statement.
ghost use Rattle.std.specs.Ordering.{int_cmp, nat_cmp, flip_args};
ghost use Rattle.orc_stats.specs.Meanings.{IsLowest, sum_without_limit};
ghost use Rattle.std.specs.Prelude.{◌≡◌, ◌↔◌, ℕ, ℤ, pos, negsuc, ◌≤◌, ◌+◌, ◌^◌, ◌++◌, ◌∷◌, Bool, true, false, Option, Some, None, List, [], sum, sum_by, IsPermutation, flat_map, length, map};
ghost use Rattle.std.specs.List.{AllByRecursion};
ghost use Rattle.orc_values.specs.Cells.{Cell};
ghost use Rattle.orc_values.specs.Shapes.{Shape};
ghost use Rattle.orc_values.specs.Fits.{fits};
ghost use Rattle.orc_values.specs.Trues.{trues};
ghost use Rattle.orc_stats.specs.declared.kind.StatKind.{StatKind};
ghost use Rattle.orc_stats.specs.declared.kind.StatKind.TheVariants as kind;
ghost use Rattle.orc_stats.specs.declared.stat.Stat.{Stat};
ghost use Rattle.orc_stats.specs.declared.stat.Body.{Body};
ghost use Rattle.orc_stats.specs.declared.stat.Body.TheVariants as body;
ghost use Rattle.orc_stats.specs.Kinds.{is_of, kind_of, body_is_of};
ghost use Rattle.orc_stats.specs.Statistics.{reduce, bit, least, greatest, text_cmp, exact_total, stat};
ghost use Rattle.orc_stats.specs.Joining.{sum_of, joined};
ghost use Rattle.orc_stats.specs.Whole.{whole};
ghost use Rattle.orc_stats.specs.Known.{known_as, IsPart, Agrees, Part, part_cells, parts_of, known_whole, known_stats, AllAgree};
ghost use Rattle.orc_stats.specs.Messages.{IsStat, stat_read, message_of};
ghost use Rattle.orc_stats.specs.Tallies.{Kept, none_kept, together, cells_kept, stats_kept, stat_of_kept};

use crate::tally::Tally;

/// States that a cell that fits a type has the type's kind of statistic.
pub fn kind_laws()
    // If a cell fits a type, then the type's kind of statistic counts such cells.
    ensures { (c : Cell) (s : Shape) → fits c s ≡ true → is_of (kind_of s) c ≡ true }
{}

/// States what the parts of the statistic of cells mean. It doesn't depend on the cells' order. The least value is
/// one of the values, and no value is less; the greatest value is one of them, and no value is greater. The total is
/// the exact one, and the number of true values is how many are true.
pub fn stat_laws()
    // If cells are put in another order, then their statistic stays the same.
    ensures order { (k : StatKind) (xs ys : List Cell) → IsPermutation xs ys → stat k ys ≡ stat k xs }

    // A number is the least of a list if and only if it is in the list and no number of the list is less; it is the
    // greatest if and only if it is in the list and no number of the list is greater.
    ensures least_number { (zs : List ℤ) (z : ℤ) → (least int_cmp zs ≡ Some z) ↔ IsLowest int_cmp zs z }
    ensures greatest_number { (zs : List ℤ) (z : ℤ)
        → (greatest int_cmp zs ≡ Some z) ↔ IsLowest (flip_args int_cmp) zs z }
    // A number of children is the least of a list if and only if it is in the list and none of the list is less; it
    // is the greatest if and only if it is in the list and none of the list is greater.
    ensures least_count { (ns : List ℕ) (n : ℕ) → (least nat_cmp ns ≡ Some n) ↔ IsLowest nat_cmp ns n }
    ensures greatest_count { (ns : List ℕ) (n : ℕ)
        → (greatest nat_cmp ns ≡ Some n) ↔ IsLowest (flip_args nat_cmp) ns n }
    // A text is the least of a list if and only if it is in the list and no text of the list is less by its bytes; it
    // is the greatest if and only if it is in the list and no text of the list is greater by its bytes.
    ensures least_text { (ts : List (List ℕ)) (t : List ℕ) → (least text_cmp ts ≡ Some t) ↔ IsLowest text_cmp ts t }
    ensures greatest_text { (ts : List (List ℕ)) (t : List ℕ)
        → (greatest text_cmp ts ≡ Some t) ↔ IsLowest (flip_args text_cmp) ts t }
    // If a list of numbers isn't empty, then their exact total is known and is their sum without a limit.
    ensures total { (z : ℤ) (zs : List ℤ) → exact_total (z ∷ zs) ≡ Some (sum_without_limit (z ∷ zs)) }
    // If a list of truth values isn't empty, then their number of true ones is known and is how many of them are
    // true.
    ensures true_count { (b : Bool) (bs : List Bool) → reduce ◌+◌ (map bit (b ∷ bs)) ≡ Some (trues (b ∷ bs)) }
    // If a list of numbers of children isn't empty, then their total before any limit is known and is their sum.
    ensures count_total { (n : ℕ) (ns : List ℕ) → reduce ◌+◌ (n ∷ ns) ≡ Some (sum (n ∷ ns)) }

    // If each cell is one of a column of the kind and there are at most 2^62 cells, then their statistic has a body
    // of the kind, counts at most 2^62 values and at most 2^62 true ones, and knows no part if it counts no values.
    ensures normal { (k : StatKind) (cells : List Cell)
        → AllByRecursion (λ c. is_of k c ≡ true) cells
        → length cells ≤ 2 ^ 62
        → IsStat k (stat k cells) }
{}

/// States how statistics join. Their order doesn't matter, and one of no cells adds nothing. The statistics of the
/// parts of a column join to that of the whole, except that a sum is lost if the sum of a part is; a total of
/// children is known if the whole total fits. All statistics must be joined in one list: if two of three numbers are
/// joined first, their sum can be lost though the total of all three fits.
pub fn join_laws()
    // If statistics are put in another order, then they join to the same statistic.
    ensures order { (k : StatKind) (xs ys : List Stat) → IsPermutation xs ys → joined k ys ≡ joined k xs }
    // If a statistic with no values and no null is put in front of statistics, then they join to the same statistic
    // as without it, whatever its body is.
    ensures empty { (k : StatKind) (o : Body) (ss : List Stat) →
        let none : Stat = record { count = 0; nulls = Some false; body = o } in joined k (none ∷ ss) ≡ joined k ss }
    // If parts have cells of a column of the kind, at most 2^62 in all, then the statistics of the parts join to that
    // of all the cells, except that a sum of numbers or of lengths is unknown if the total of some part doesn't fit
    // 64 bits.
    ensures parts { (k : StatKind) (parts : List (List Cell))
        → AllByRecursion (AllByRecursion (λ c. is_of k c ≡ true)) parts
        → length (flat_map (λ p. p) parts) ≤ 2 ^ 62
        → joined k (map (stat k) parts) ≡ whole k parts }
    // If parts have cells of a column of the kind, at most 2^62 in all, and each part has a stored statistic or none,
    // then the statistics of the parts, each without the numbers of children that the stored one doesn't know, join
    // to the statistic of all the cells with two exceptions. A sum of numbers or of lengths is unknown if the total
    // of some part doesn't fit 64 bits. A number of children is unknown if it is unknown in the stored statistic of
    // some part with values, or if such a part has none.
    ensures known { (k : StatKind) (parts : List Part)
        → AllByRecursion (AllByRecursion (λ c. is_of k c ≡ true)) (part_cells parts)
        → length (flat_map (λ p. p) (part_cells parts)) ≤ 2 ^ 62
        → joined k (known_stats k parts) ≡ known_whole k parts }
    // If parts have cells of a column of the kind, at most 2^62 in all, and a list has a statistic for each part,
    // which agrees with the statistic of the part's cells, then the list joins to the statistic of all the cells with
    // two exceptions. A sum of numbers or of lengths is unknown if the total of some part doesn't fit 64 bits. A
    // number of children is unknown if it is unknown in the list's statistic of some part with values.
    ensures agreed { (k : StatKind) (ss : List Stat) (parts : List (List Cell))
        → AllByRecursion (AllByRecursion (λ c. is_of k c ≡ true)) parts
        → length (flat_map (λ p. p) parts) ≤ 2 ^ 62
        → AllAgree k ss parts
        → joined k ss ≡ known_whole k (parts_of (map (λ s. Some s) ss) parts) }
    // If parts have cells of a column of the kind, at most 2^62 in all, and the stored statistic of each part is that
    // of its cells, then what is known of the whole is the statistic of all the cells, except that a sum of numbers
    // or of lengths is unknown if the total of some part doesn't fit 64 bits.
    ensures all_told { (k : StatKind) (parts : List (List Cell))
        → AllByRecursion (AllByRecursion (λ c. is_of k c ≡ true)) parts
        → length (flat_map (λ p. p) parts) ≤ 2 ^ 62
        → known_whole k (parts_of (map (λ p. Some (stat k p)) parts) parts) ≡ whole k parts }
    // If the counts of statistics add up to at most 2^62, then the joined statistic has a body of its kind, counts at
    // most 2^62 values and at most 2^62 true ones, and knows no part if it counts no values.
    ensures normal { (k : StatKind) (ss : List Stat) → sum_by (λ s. s.count) ss ≤ 2 ^ 62 → IsStat k (joined k ss) }
    // A sum that joining all statistics in one list keeps can be lost by joining some of them first: the numbers 2^63
    // - 1, 1 and -1 in one list have the sum 2^63 - 1, but if the first two are joined first, the sum is unknown.
    ensures regrouped { let one : ℤ → Stat =
        λ z. record { count = 1; nulls = Some false; body = body.Ints (Some z) (Some z) (Some z) } in
        let most : ℤ = pos 9223372036854775807 in
        let two : Stat = joined kind.Ints (one most ∷ one (pos 1) ∷ []) in
        let three : Stat = joined kind.Ints (one most ∷ one (pos 1) ∷ one (negsuc 0) ∷ []) in
        (sum_of three.body ≡ Some most) × (sum_of (joined kind.Ints (two ∷ one (negsuc 0) ∷ [])).body ≡ None) }
{}

/// States when a statistic agrees with another: if they are the same, or if it only lacks numbers of children, each
/// of which may be missing. For other columns only the same statistic agrees. The relation has one direction.
pub fn agree_laws()
    // A statistic agrees with itself.
    ensures same { (s : Stat) → Agrees s s }
    // If the numbers of children that some body doesn't know are removed from a statistic, then the result agrees
    // with the statistic.
    ensures less { (o : Body) (s : Stat) → Agrees (known_as o s) s }
    // A statistic of lists or maps agrees with another one of lists or maps if and only if both have the same count
    // and the same null flag, and each number of children is unknown in the first or is that of the second.
    ensures parts { (n c : ℕ) (a b : Option Bool) (l g t m h u : Option ℕ) →
        let x : Stat = record { count = n; nulls = a; body = body.Children l g t } in
        let y : Stat = record { count = c; nulls = b; body = body.Children m h u } in
        Agrees x y ↔ ((n ≡ c) × (a ≡ b) × IsPart l m × IsPart g h × IsPart t u) }
    // If a statistic has the body of a kind other than that of lists and maps, then only an equal statistic agrees
    // with it.
    ensures others { (k : StatKind) (x y : Stat)
        → body_is_of k y.body ≡ true
        → (k ≡ kind.Children → ⊥)
        → Agrees x y
        → x ≡ y }
    // A statistic of one list that knows no number of children agrees with the statistic of one empty list, which
    // doesn't agree with it.
    ensures one_way { let none : Stat = record { count = 1; nulls = Some false; body = body.Children None None None } in
        let empty : Stat = record { count = 1; nulls = Some false; body = body.Children (Some 0) (Some 0) (Some 0) } in
        Agrees none empty × (Agrees empty none → ⊥) }
{}

/// States that a statistic reads back from its message.
pub fn stat_message_laws()
    // If a statistic has a body of the kind, counts at most 2^62 values and at most 2^62 true ones, and knows no part
    // if it counts no values, then its message, read for that kind, is the statistic again.
    ensures { (k : StatKind) (s : Stat) → IsStat k s → stat_read k (message_of s) ≡ s }
{}

/// States that tallies can be joined in any order and grouping, and that the tally of nothing adds nothing. The tally
/// of two lists of cells or of statistics, one after the other, is the join of their tallies. Closing the tally of
/// cells gives their statistic, and closing that of statistics gives what they join to.
pub fn tally_laws<'r, T: Tally<'r>>()
    // Joining tallies gives the same tally in any order and grouping.
    ensures commutative { (a b : Kept T.Parts) → together T.measure a b ≡ together T.measure b a }
    ensures associative { (a b c : Kept T.Parts)
        → together T.measure (together T.measure a b) c ≡ together T.measure a (together T.measure b c) }
    // If the tally of nothing is joined with a tally, then the result is that tally.
    ensures unit { (a : Kept T.Parts) → together T.measure (none_kept T.measure) a ≡ a }
    // The tally of two lists of cells, one after the other, is the join of their tallies.
    ensures append { (a b : List Cell)
        → cells_kept T.measure (a ++ b) ≡ together T.measure (cells_kept T.measure a) (cells_kept T.measure b) }
    // The tally of two lists of statistics, one after the other, is the join of their tallies.
    ensures append_statistics { (a b : List Stat)
        → stats_kept T.measure (a ++ b) ≡ together T.measure (stats_kept T.measure a) (stats_kept T.measure b) }

    // If there are at most 2^62 cells, then closing their tally gives their statistic.
    ensures cells { (cells : List Cell)
        → length cells ≤ 2 ^ 62
        → stat_of_kept T.measure (cells_kept T.measure cells) ≡ stat T.kind cells }
    // Closing the tally of statistics gives the statistic that they join to.
    ensures statistics { (ss : List Stat) → stat_of_kept T.measure (stats_kept T.measure ss) ≡ joined T.kind ss }
{}
