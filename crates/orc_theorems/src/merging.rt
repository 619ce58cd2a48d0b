//! The merge theorem: what a file is that was merged in groups. `merge_theorem` does nothing: its contract is the
//! statement.
//!
//! `IsMerge files tail out` says that `out` is the merged file of the files and `tail` its tail. `WroteMerge files
//! tail old new` is what `merge` promises if it succeeds: it returned `tail`, and the output's bytes, which were
//! `old` before, are `new`, which is `old` followed by the merged file of fewer than 2^64 bytes. A grouping
//! (`Groups`) is an ordered tree with files at its leaves. Each inner node stands for a call of `merge` on the files
//! that its children gave, in order. `Wrote (merge groups) out` says that each of these calls succeeded, and that the
//! last one wrote `out`.
ghost use Rattle.std.specs.Prelude.{◌≡◌, ◌↔◌, ◌&&◌, ◌<◌, ◌^◌, ℕ, List, Option, Some, length, slice_get, IsPermutation};
ghost use Rattle.orc_values.specs.Cells.{Cell};
ghost use Rattle.orc_values.specs.Shapes.{width};
ghost use Rattle.orc_stats.specs.declared.stat.Stat.{Stat};
ghost use Rattle.orc_stats.specs.Whole.{has_sum};
ghost use Rattle.orc_stats.specs.ColumnStatistics.{column_stat};
ghost use Rattle.orc_io.specs.Devices.{appended};
ghost use Rattle.orc_file_reader.specs.FileRows.{FileIs, rows_together, cut_rows};
ghost use Rattle.orc_file_reader.specs.Honest.{Honest, HasWholeStats, each_sum_fits};
ghost use Rattle.orc_tail.specs.Tails.{IsTail};
ghost use Rattle.orc_tail.specs.declared.tail.Tail.{Tail};
ghost use Rattle.orc_merger.specs.Merging.{IsMerge};
ghost use Rattle.orc_merger.specs.Outcomes.{WroteMerge};
ghost use Rattle.orc_merge_laws.specs.Grouping.{Groups, merge, all_leaves, Gives, AllShort, Wrote, AllWrote, HaveRows, AreHonestFiles, AreFellows, IsFlatRefused, IsStepRefused};

use orc_file_reader::row_laws;
use orc_merge_laws::{grouping, orders, outcomes};
use orc_tail::tail_laws;

/// If each merge succeeds, then files that are merged in groups, however they are grouped, become the same bytes as
/// by one merge of all. These have all the files' rows, in order. The file statistics are the same for every order of
/// the files, and are those of all rows, with two exceptions, if the statistics of the files' stripes are those of
/// their rows. If the files open and agree, then one merge of all is refused for user metadata or a limit if and only
/// if some step of the grouping is.
///
/// Each conclusion has only the premises that it needs. That the files open and agree is a premise only of the clause
/// `refused`, because it follows if their merges succeed. That statistics are right is a premise only of clauses
/// about statistics, and that files have rows only of clauses about rows or statistics. What is said of a merged file
/// holds for the file that any grouping wrote, by the clause `merged`.
pub fn merge_theorem()
    // If each merge of a grouping wrote its file, and one merge of all files of the grouping succeeded, then
    // this one merge wrote the same bytes as the grouping.
    ensures bytes { (groups : Groups) (tail : Tail) (out : List ℕ) (old new : Option (List ℕ))
        → (each_merge_wrote : Wrote (merge groups) out)
        → (merge_at_once_wrote : WroteMerge (all_leaves groups) tail old new)
        → new ≡ appended old out }
    // If each merge of two groupings of one list of files wrote its file, then both groupings wrote the same
    // bytes.
    ensures alike { (groups others : Groups) (out other : List ℕ)
        → (each_merge_wrote : Wrote (merge groups) out)
        → (each_other_merge_wrote : Wrote (merge others) other)
        → (they_are_of_the_same_files : all_leaves others ≡ all_leaves groups)
        → other ≡ out }
    // If each merge of a grouping wrote its file, then the grouping wrote the merged file of all its files,
    // which has fewer than 2^64 bytes.
    ensures merged { (groups : Groups) (out : List ℕ)
        → (each_merge_wrote : Wrote (merge groups) out)
        → (tail : Tail) × IsMerge (all_leaves groups) tail out × (length out < 2 ^ 64) }
    // If each merge of a grouping below the last one wrote its file, and the last merge succeeded, then the
    // last merge wrote the merged file of all files of the grouping and returned its tail.
    ensures answered { (groups : Groups) (files : List (List ℕ)) (tail : Tail) (old new : Option (List ℕ))
        → (each_merge_below_wrote : AllWrote groups files)
        → (last_merge_wrote : WroteMerge files tail old new)
        → WroteMerge (all_leaves groups) tail old new }
    // If each file that a step of a grouping below the root gives has fewer than 2^64 bytes, then the grouping
    // gives a file if and only if this is the merged file of all files of the grouping.
    ensures given { (groups : Groups) (out : List ℕ)
        → (steps_below_give_fewer_than_2_64_bytes : AllShort groups)
        → Gives (merge groups) out ↔ ((tail : Tail) × IsMerge (all_leaves groups) tail out) }

    // If a merged file has fewer than 2^64 bytes, then it opens with the merged tail.
    ensures opens { (files : List (List ℕ)) (tail : Tail) (out : List ℕ)
        → (it_is_their_merge : IsMerge files tail out)
        → (it_has_fewer_than_2_64_bytes : length out < 2 ^ 64)
        → IsTail out tail }
    // If files have rows, and their merged file has fewer than 2^64 bytes, then the merged file is a file with
    // the merged tail and the rows of the files, in order.
    ensures rows { (files : List (List ℕ)) (tail : Tail) (out : List ℕ) (parts : List (List Cell))
        → (it_is_their_merge : IsMerge files tail out)
        → (it_has_fewer_than_2_64_bytes : length out < 2 ^ 64)
        → (each_file_has_rows : HaveRows files parts)
        → FileIs out tail (rows_together parts) }

    // If files have a merged file, and so has a permutation of them, then both merged files have the same file
    // statistics.
    ensures order { (files others : List (List ℕ)) (tail its_tail : Tail) (out other : List ℕ)
        → (it_is_their_merge : IsMerge files tail out)
        → (other_is_the_others_merge : IsMerge others its_tail other)
        → (others_are_the_files_in_some_order : IsPermutation files others)
        → tail.file_stats ≡ its_tail.file_stats }
    // If files have a merged file, then the files in any order have a merged file.
    ensures orders { (files others : List (List ℕ)) (tail : Tail) (out : List ℕ)
        → (it_is_their_merge : IsMerge files tail out)
        → (others_are_the_files_in_some_order : IsPermutation files others)
        → (its_tail : Tail) × (other : List ℕ) × IsMerge others its_tail other }
    // If files have a merged file, and the stripe statistics of each file are those of its rows (element counts
    // may be missing), then the merged tail's stripe statistics are those of all the rows (element counts may
    // be missing), and its file statistics are those of all the rows, with two exceptions. A sum is missing if
    // the sum of some stripe doesn't fit 64 bits. An element count is missing if it is missing for some stripe
    // with a value in that column.
    ensures statistics { (files : List (List ℕ)) (tail : Tail) (out : List ℕ) (parts : List (List Cell))
        → (it_is_their_merge : IsMerge files tail out)
        → (each_file_has_rows_and_their_statistics : AreHonestFiles files parts)
        → Honest tail (rows_together parts) × HasWholeStats tail (rows_together parts) }
    // If a merged file has fewer than 2^64 bytes, and the stripe statistics of each input are those of its rows
    // (element counts may be missing), then the merged tail has a file statistic of each column. In a column of a kind
    // with sums, this has one if and only if the column has a value, and the sum of each stripe with values and the sum
    // of all rows fit 64 bits.
    ensures sums { (files : List (List ℕ)) (tail : Tail) (out : List ℕ) (parts : List (List Cell)) (column : ℕ)
        → (it_is_their_merge : IsMerge files tail out)
        → (it_has_fewer_than_2_64_bytes : length out < 2 ^ 64)
        → (each_file_has_rows_and_their_statistics : AreHonestFiles files parts)
        → (it_has_the_column : column < width tail.schema)
        → (told : Stat) × (slice_get tail.file_stats column ≡ Some told)
        × (has_sum told.body
        ≡ (each_sum_fits tail.schema (cut_rows tail.stripes (rows_together parts)) column
        && has_sum (column_stat tail.schema (rows_together parts) column).body)) }

    // If the files of a grouping open, and have one schema, version, writer, writer version, stride and other footer
    // fields and a statistic of each column of each stripe, and each file that a step below the root gives has fewer
    // than 2^64 bytes, then one merge of all these files is refused with `UserMetadataConflict` or `Limit` if and
    // only if some step of the grouping is.
    ensures refused { (groups : Groups)
        → (steps_below_give_fewer_than_2_64_bytes : AllShort groups)
        → (files_open_and_agree : AreFellows (all_leaves groups))
        → IsFlatRefused groups ↔ IsStepRefused groups }
{
    // each for its contract alone
    grouping();
    orders();
    outcomes();
    tail_laws();
    row_laws();
}
