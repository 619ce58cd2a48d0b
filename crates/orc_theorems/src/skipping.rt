//! Rows that an engine skips by statistics of a file. `skipping_in_files` does nothing: its contract is the statement.
//!
//! `AreStoredStats bytes tail rows told part` says that a file stores the statistics `told` about `part` of its rows: a
//! stripe, a group of rows, or all rows. `bold told p` is false if the bold rule skips rows with these statistics, for
//! the predicate `p`; the cautious rule skips no other rows (`skipping_laws`). `NoneMatches` says that the predicate is
//! true of none of the rows.
ghost use Rattle.std.specs.Prelude.{◌≡◌, ℕ, List, [], Bool, true, false, Option, Some};
ghost use Rattle.std.specs.List.{AllByRecursion};
ghost use Rattle.orc_values.specs.Cells.{Cell};
ghost use Rattle.orc_values.specs.Columns.{cells};
ghost use Rattle.orc_values.specs.Shapes.{Shape};
ghost use Rattle.orc_stats.specs.declared.stat.Stat.{Stat};
ghost use Rattle.orc_skipping.specs.Predicates.{Predicate, truth, cell_of_row};
ghost use Rattle.orc_skipping.specs.Rules.{bold};
ghost use Rattle.orc_skipping.specs.Right.{AreRight, LackNothing, LeaveRoom, NoneMatches};
ghost use Rattle.orc_row_batch.specs.declared.options.Options.{Options};
ghost use Rattle.orc_file_reader.specs.FileRows.{FileIs, rows_together};
ghost use Rattle.orc_file_writer.specs.Writing.{WroteWholeFile};
ghost use Rattle.orc_tail.specs.declared.tail.Tail.{Tail};
ghost use Rattle.orc_check.specs.Findings.{Findings};
ghost use Rattle.orc_merge_laws.specs.Grouping.{Groups, merge, all_leaves, Wrote};
ghost use Rattle.orc_theorems.specs.Inputs.{AreWithoutFinding};
ghost use Rattle.orc_theorems.specs.StoredStats.{AreStoredStats};

use crate::merged_findings::findings_of_merges;
use crate::written_files::written_files_read_back;
use crate::written_findings::written_finding_laws;
use orc_check::finding_laws;
use orc_skipping::skipping_laws;

/// If a file has no findings, an engine loses no row that matches when it skips a stripe, a group of rows or the whole
/// file by the statistics that the file stores about it. The same holds for each file that was written, and for each
/// file that is merged of files without findings, in any grouping.
pub fn skipping_in_files()
    // If a file with rows has no findings, and the bold rule skips some of its rows by the statistics that the file
    // stores about them, then the predicate is true of none of these rows.
    ensures bold { (bytes : List ℕ) (tail : Tail) (rows : List Cell) (told : ℕ → Option Stat) (part : List Cell)
        (p : Predicate)
        → (it_is_a_file_of_the_rows : FileIs bytes tail rows)
        → (nothing_is_found_of_it : Findings bytes tail rows [])
        → (it_stores_these_statistics_about_the_part : AreStoredStats bytes tail rows told part)
        → (the_part_is_skipped : bold told p ≡ false)
        → NoneMatches tail.schema p part }
    // If a file with rows has no findings, then the statistics that it stores about some of its rows admit all cells of
    // their columns in these rows, and lack nothing that the bold rule goes by.
    ensures right { (bytes : List ℕ) (tail : Tail) (rows : List Cell) (told : ℕ → Option Stat) (part : List Cell)
        → (it_is_a_file_of_the_rows : FileIs bytes tail rows)
        → (nothing_is_found_of_it : Findings bytes tail rows [])
        → (it_stores_these_statistics_about_the_part : AreStoredStats bytes tail rows told part)
        → AreRight tail.schema part told × LackNothing told }
    // If a file with rows has no findings, and no cells that the statistics it stores about some of its rows admit pass
    // a test, then none of these rows passes it. The test may be any function of a row's cells.
    ensures any { (bytes : List ℕ) (tail : Tail) (rows : List Cell) (told : ℕ → Option Stat) (part : List Cell)
        (test : (ℕ → Option Cell) → Bool)
        → (it_is_a_file_of_the_rows : FileIs bytes tail rows)
        → (nothing_is_found_of_it : Findings bytes tail rows [])
        → (it_stores_these_statistics_about_the_part : AreStoredStats bytes tail rows told part)
        → (no_admitted_cells_pass : (at : ℕ → Option Cell) → LeaveRoom told at → test at ≡ true → ⊥)
        → AllByRecursion (λ row. test (cell_of_row tail.schema row) ≡ true → ⊥) part }
    // If a file with rows has no findings, and the bold rule skips some of its rows by the statistic that the file
    // stores of one column, then the predicate is true of none of this column's cells in these rows. These cells may be
    // elements of lists, or keys or values of maps.
    ensures cells { (bytes : List ℕ) (tail : Tail) (rows : List Cell) (told : ℕ → Option Stat) (part : List Cell)
        (c : ℕ) (x : Stat) (p : Predicate)
        → (it_is_a_file_of_the_rows : FileIs bytes tail rows)
        → (nothing_is_found_of_it : Findings bytes tail rows [])
        → (it_stores_these_statistics_about_the_part : AreStoredStats bytes tail rows told part)
        → (this_is_the_columns_statistic : told c ≡ Some x)
        → (the_part_is_skipped : bold (λ _. Some x) p ≡ false)
        → AllByRecursion (λ cell. truth (λ _. Some cell) p ≡ Some true → ⊥) (cells tail.schema c part) }

    // If `finish` succeeded, and the bold rule skips some of the rows that were pushed by the statistics that the
    // written file stores about them, then the predicate is true of none of these rows.
    ensures written { (options : Options) (schema : Shape) (tail : Tail) (before after : Option (List ℕ))
        (rows : List Cell) (told : ℕ → Option Stat) (part : List Cell) (p : Predicate)
        → (finish_wrote : WroteWholeFile options schema tail before after rows)
        → (it_stores_these_statistics_about_the_part : AreStoredStats finish_wrote.bytes tail rows told part)
        → (the_part_is_skipped : bold told p ≡ false)
        → NoneMatches tail.schema p part }
    // If each merge of a grouping wrote its file, and each file of the grouping has rows and no findings, then the
    // grouping wrote a file with all these rows, in order. If the bold rule skips some of them by the statistics that
    // this file stores about them, then the predicate is true of none of these.
    ensures merged { (groups : Groups) (out : List ℕ) (parts : List (List Cell))
        → (each_merge_wrote : Wrote (merge groups) out)
        → (nothing_is_found_of_the_files : AreWithoutFinding (all_leaves groups) parts)
        → (tail : Tail) × FileIs out tail (rows_together parts)
        × ((told : ℕ → Option Stat) (part : List Cell) (p : Predicate)
        → AreStoredStats out tail (rows_together parts) told part
        → bold told p ≡ false
        → NoneMatches tail.schema p part) }
{
    // each for its contract alone: a file without findings has the statistics of its rows, and by such statistics the
    // bold rule skips no row that matches
    finding_laws();
    skipping_laws();
    written_files_read_back();
    written_finding_laws();
    findings_of_merges();
}
