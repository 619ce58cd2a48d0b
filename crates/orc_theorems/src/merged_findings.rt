//! The findings of merged files. `findings_of_merges` does nothing: its contract is the statement.
//!
//! `Findings bytes tail rows found` says that `found` is the list that `check` returns for a file with this tail and
//! these rows. It has an entry for each statistic, of a stripe, of a row group or of the whole file, that isn't that
//! of the rows; for each row index that is missing, can't be read or has the wrong number of entries; and for each
//! entry whose positions don't lead to its group. `AreWithoutFinding files parts` says that each file has its rows in
//! `parts`, and no findings.
ghost use Rattle.std.specs.Prelude.{◌<◌, ◌^◌, ℕ, List, [], length};
ghost use Rattle.orc_values.specs.Cells.{Cell};
ghost use Rattle.orc_file_reader.specs.FileRows.{FileIs, rows_together};
ghost use Rattle.orc_tail.specs.declared.tail.Tail.{Tail};
ghost use Rattle.orc_check.specs.Findings.{Findings};
ghost use Rattle.orc_merger.specs.Merging.{IsMerge};
ghost use Rattle.orc_merge_laws.specs.Grouping.{Groups, merge, all_leaves, Wrote};
ghost use Rattle.orc_theorems.specs.Inputs.{AreWithoutFinding};

use orc_check::finding_laws;
use orc_merge_laws::{grouping, orders};

/// If none of several files has findings, then their merged file has their rows, in order, and no findings either.
/// This holds for merges of merges too. So reading from a row group, which is right in the inputs, is right in the
/// merged file.
pub fn findings_of_merges()
    // If a merged file has fewer than 2^64 bytes, and each input is a file with rows and no findings, then the
    // merged file has the merged tail, the inputs' rows, in order, and no findings.
    ensures merged { (files : List (List ℕ)) (tail : Tail) (out : List ℕ) (parts : List (List Cell))
        → (it_is_their_merge : IsMerge files tail out)
        → (it_has_fewer_than_2_64_bytes : length out < 2 ^ 64)
        → (nothing_is_found_of_the_files : AreWithoutFinding files parts)
        → FileIs out tail (rows_together parts) × Findings out tail (rows_together parts) [] }
    // If each merge of a grouping wrote its file, and each file of the grouping has rows and no findings, then
    // the grouping wrote a file with all these rows, in order, and no findings.
    ensures grouped { (groups : Groups) (out : List ℕ) (parts : List (List Cell))
        → (each_merge_wrote : Wrote (merge groups) out)
        → (nothing_is_found_of_the_files : AreWithoutFinding (all_leaves groups) parts)
        → (tail : Tail) × FileIs out tail (rows_together parts) × Findings out tail (rows_together parts) [] }
{
    // each for its contract alone: a file has no findings if and only if its statistics and row indexes are those of
    // its rows, and a merged file has its inputs' rows, in order, and the statistics of all of them
    finding_laws();
    grouping();
    orders();
}
