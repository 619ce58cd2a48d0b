//! Laws of merging. Each function does nothing: its contract is the statement. The laws are about definitions alone,
//! and so about whatever `merge` writes.
ghost use Rattle.std.specs.Prelude.{◌≡◌, ◌↔◌, ◌⊎◌, ◌&&◌, ◌+◌, ◌<◌, ◌^◌, ℕ, List, Option, length, take, IsPermutation};
ghost use Rattle.std.specs.List.{AllByRecursion, list_all, flat_map};
ghost use Rattle.orc_bits.specs.Varint.{AllBytes};
ghost use Rattle.orc_values.specs.Cells.{Cell};
ghost use Rattle.orc_stats.specs.declared.kind.StatKind.{StatKind};
ghost use Rattle.orc_stats.specs.declared.kind.StatKind.TheVariants.{Children};
ghost use Rattle.orc_stats.specs.declared.stat.Stat.{Stat};
ghost use Rattle.orc_stats.specs.Statistics.{stat};
ghost use Rattle.orc_stats.specs.Joining.{joined};
ghost use Rattle.orc_stats.specs.Whole.{has_sum, keeps_sum, whole};
ghost use Rattle.orc_stats.specs.Known.{Part, part_cells, known_whole};
ghost use Rattle.orc_io.specs.Devices.{appended};
ghost use Rattle.orc_file_reader.specs.FileRows.{FileIs};
ghost use Rattle.orc_file_reader.specs.FileRows as rows;
ghost use Rattle.orc_file_reader.specs.Honest.{Honest, HasWholeStats};
ghost use Rattle.orc_tail.specs.Tails.{IsTail};
ghost use Rattle.orc_tail.specs.declared.tail.Tail.{Tail};
ghost use Rattle.orc_merger.specs.declared.fault.MergeFault.{MergeFault};
ghost use Rattle.orc_merger.specs.declared.fault.MergeFault.TheVariants.{Limit};
ghost use Rattle.orc_merger.specs.Merging.{AreOpened, IsMerge};
ghost use Rattle.orc_merger.specs.Limits.{AreFewInAll};
ghost use Rattle.orc_merger.specs.Faults.{AreOne, IsMergeRefused};
ghost use Rattle.orc_merger.specs.Outcomes.{WroteMerge};
ghost use Rattle.orc_merge_laws.specs.Grouping.{Groups, merge, all_leaves, Gives, AllShort, Wrote, AllWrote, HaveRows, AreHonestFiles, AreFellows, IsFlatRefused, IsStepRefused};

/// Merging files in any grouping gives the file that one merge of all files gives, and no other. This file opens with
/// the merged tail, and its rows are the inputs' rows, in order. If the inputs are files that agree, then one merge
/// of all is refused for user metadata or a limit if and only if some step of a grouping is.
///
/// The premise is that each file that a step below the root gives has fewer than 2^64 bytes. What `merge` wrote step
/// by step meets it. So if a grouping was merged step by step, then all inputs can be merged by one merge, and two
/// groupings of the same list of inputs gave the same file.
pub fn grouping()
    // If the inputs of a grouping have a merged file, and each file that a step below the root gives has fewer
    // than 2^64 bytes, then the grouping gives this merged file.
    ensures same { (groups : Groups) (tail : Tail) (out : List ℕ)
        → AllShort groups → IsMerge (all_leaves groups) tail out
        → Gives (merge groups) out }
    // If the inputs of a grouping have a merged file, and each file that a step below the root gives has fewer
    // than 2^64 bytes, then the grouping gives no other file than this merged file.
    ensures one { (groups : Groups) (tail : Tail) (out other : List ℕ)
        → AllShort groups → IsMerge (all_leaves groups) tail out
        → Gives (merge groups) other
        → other ≡ out }
    // If a grouping gives a file, and each file that a step below the root gives has fewer than 2^64 bytes,
    // then this file is the merged file of all inputs of the grouping.
    ensures back { (groups : Groups) (out : List ℕ)
        → AllShort groups → Gives (merge groups) out
        → (tail : Tail) × IsMerge (all_leaves groups) tail out }

    // If each step of a grouping below the root wrote its file, and a `merge` of the files that the root's children
    // gave succeeded, then the whole grouping wrote a file, and the output of that `merge` has got exactly this file
    // if its bytes are known.
    ensures step { (groups : Groups) (files : List (List ℕ)) (tail : Tail) (old new : Option (List ℕ))
        → AllWrote groups files
        → WroteMerge files tail old new → (out : List ℕ) × Wrote (merge groups) out × (new ≡ appended old out) }
    // If each step of a grouping wrote its file, then the grouping gives the file that its last step wrote, and
    // each file that a step below the root gives has fewer than 2^64 bytes.
    ensures wrote { (groups : Groups) (out : List ℕ)
        → Wrote (merge groups) out
        → AllShort groups × Gives (merge groups) out }
    // If each step of two groupings of one list of inputs wrote its file, then both groupings wrote the same
    // bytes.
    ensures alike { (groups others : Groups) (out other : List ℕ) → all_leaves others ≡ all_leaves groups
        → Wrote (merge groups) out → Wrote (merge others) other → other ≡ out }

    // If a merged file has fewer than 2^64 bytes, then it opens with the merged tail.
    ensures accepted { (inputs : List (List ℕ)) (tail : Tail) (out : List ℕ)
        → IsMerge inputs tail out → length out < 2 ^ 64
        → IsTail out tail }
    // If each input is a file with rows, and their merged file has fewer than 2^64 bytes, then the merged file
    // is a file with the merged tail and the inputs' rows, in order.
    ensures rows { (inputs : List (List ℕ)) (tail : Tail) (out : List ℕ) (parts : List (List Cell))
        → IsMerge inputs tail out → length out < 2 ^ 64
        → HaveRows inputs parts → FileIs out tail (rows.rows_together parts) }

    // If the inputs of a grouping open, and have one schema, version, writer, writer version, stride and other footer
    // fields and a statistic of each column of each stripe, and each file that a step below the root gives has fewer
    // than 2^64 bytes, then one merge of all inputs is refused with `UserMetadataConflict` or `Limit` if and only if
    // some step of the grouping is.
    ensures refused { (groups : Groups) → AllShort groups
        → AreFellows (all_leaves groups)
        → IsFlatRefused groups ↔ IsStepRefused groups }
{}

/// Joined statistics don't depend on the order of the statistics that are joined. So inputs that can be merged can be
/// merged in every order, and the file statistics are the same. If the stripe statistics are those of their rows,
/// then the merged file's statistics are those of all rows, with two exceptions. A sum is stored if and only if there
/// is a value, and the sum of each stripe with values and the sum of all rows fit 64 bits, even if element counts are
/// missing. Missing element counts change no sum, and nothing at all in columns other than lists and maps.
pub fn orders()
    // If a list of statistics is a permutation of another list, then joining either list as statistics of one kind
    // gives the same statistic.
    ensures joined { (k : StatKind) (stats others : List Stat)
        → IsPermutation stats others
        → joined k others ≡ joined k stats }
    // If inputs have a merged file, then the inputs in any order have a merged file.
    ensures exists { (inputs others : List (List ℕ)) (tail : Tail) (out : List ℕ)
        → IsPermutation inputs others → IsMerge inputs tail out
        → (other : Tail) × (bytes : List ℕ) × IsMerge others other bytes }
    // If inputs have a merged file, and so has a permutation of them, then both merged files have the same file
    // statistics.
    ensures merged { (inputs others : List (List ℕ)) (tail other : Tail) (out bytes : List ℕ)
        → IsPermutation inputs others → IsMerge inputs tail out
        → IsMerge others other bytes → tail.file_stats ≡ other.file_stats }

    // If inputs have a merged file, and each input is a file whose stripe statistics are those of its rows (element
    // counts may be missing), then the merged tail's stripe statistics are those of the inputs' rows, in order
    // (element counts may be missing).
    ensures honest { (inputs : List (List ℕ)) (tail : Tail) (out : List ℕ) (parts : List (List Cell))
        → IsMerge inputs tail out
        → AreHonestFiles inputs parts → Honest tail (rows.rows_together parts) }
    // If inputs have a merged file, and each input is a file whose stripe statistics are those of its rows
    // (element counts may be missing), then the merged tail's file statistics are those of all the inputs'
    // rows, with two exceptions. A sum is missing if the sum of some stripe doesn't fit 64 bits. An element
    // count is missing if it is missing for some stripe with a value in that column.
    ensures whole { (inputs : List (List ℕ)) (tail : Tail) (out : List ℕ) (parts : List (List Cell))
        → IsMerge inputs tail out → AreHonestFiles inputs parts
        → HasWholeStats tail (rows.rows_together parts) }
    // In a column of a kind with sums, the statistic of several stripes together has one if and only if the column
    // has a value, and the sum of each stripe with values and the sum of all rows fit 64 bits.
    ensures sum { (k : StatKind) (stripes : List (List Cell))
        → has_sum (whole k stripes).body
        ≡ (list_all (λ rows. keeps_sum (stat k rows)) stripes
        && has_sum (stat k (flat_map (λ rows. rows) stripes)).body) }
    // Whether the statistic of a column in several stripes together has a sum doesn't depend on which element counts
    // the stripes' statistics have.
    ensures known { (k : StatKind) (stripes : List Part)
        → has_sum (known_whole k stripes).body ≡ has_sum (whole k (part_cells stripes)).body }
    // If a column is not of lists or maps, then its statistic in several stripes together doesn't depend on which
    // element counts the stripes' statistics have.
    ensures known_else { (k : StatKind) (stripes : List Part)
        → (k ≡ Children → ⊥) → known_whole k stripes ≡ whole k (part_cells stripes) }
{}

/// Inputs of bytes have a merged file or are refused. They have at most one merged file, and none if they are
/// refused. Only one fault is the first, except that a fault of a file's types may be described in several ways. If
/// this fault is a limit, then the inputs up to the one that it names have too many stripes, bytes, rows or values of
/// a column together.
pub fn outcomes()
    // Inputs have at most one merged file, with one tail.
    ensures one { (inputs : List (List ℕ)) (tail other : Tail) (out bytes : List ℕ)
        → IsMerge inputs tail out → IsMerge inputs other bytes
        → (other ≡ tail) × (bytes ≡ out) }
    // If each input is a list of bytes below 256, then the inputs have a merged file or are refused with a
    // fault.
    ensures cover { (inputs : List (List ℕ)) → AllByRecursion AllBytes inputs
        → ((tail : Tail) × (out : List ℕ) × IsMerge inputs tail out) ⊎ ((fault : MergeFault) × IsMergeRefused inputs fault) }
    // If inputs are refused with a fault, then they have no merged file.
    ensures none { (inputs : List (List ℕ)) (tail : Tail) (out : List ℕ) (fault : MergeFault)
        → IsMerge inputs tail out → IsMergeRefused inputs fault → ⊥ }
    // If inputs are refused with two faults, then these are equal, or both are `File` with the same number and with
    // `BadTypes`.
    ensures single { (inputs : List (List ℕ)) (e f : MergeFault)
        → IsMergeRefused inputs e → IsMergeRefused inputs f → AreOne e f }
    // If inputs are refused with `Limit(i)`, then the first i + 1 inputs are files that together exceed 65,536
    // stripes, 2^40 bytes of stripes, 2^40 rows or, in some column, 2^62 values.
    ensures limit { (inputs : List (List ℕ)) (i : ℕ) → IsMergeRefused inputs (Limit i)
        → (tails : List Tail) × AreOpened (take (i + 1) inputs) tails × (AreFewInAll tails → ⊥) }
{}
