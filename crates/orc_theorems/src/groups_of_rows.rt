//! Reading from the middle of a file. `reading_from_the_middle` does nothing: its contract is the statement.
//!
//! `AreLinesFromGroup bytes tail stripe group lines` says which lines `rows_to` prints of a file from a group of a
//! stripe on. `EndsFrom bytes tail stripe group old new fault` says why printing them fails. `Findings bytes tail
//! rows []` says that `check` finds nothing. If `StartsGroup view x rows group` holds, then `cursor_at` gives `rows`
//! from the group's first row on, or fails with `OutOfMemory`. `DiffersOnlyBefore view group bytes` says that bytes
//! differ from the stripe's only before the offsets that the group's index entries record.
ghost use Rattle.std.specs.Prelude.{◌≡◌, ℕ, List, [], Option, drop};
ghost use Rattle.orc_values.specs.Cells.{Cell};
ghost use Rattle.orc_column_reader.specs.Stripe.{Streams, HasFooter};
ghost use Rattle.orc_stripe_reader.specs.Opened.{Opened};
ghost use Rattle.orc_stripe_reader.specs.GroupCursors.{StartsGroup};
ghost use Rattle.orc_file_reader.specs.FileRows.{FileIs, rows_together};
ghost use Rattle.orc_tail.specs.declared.tail.Tail.{Tail};
ghost use Rattle.orc_check.specs.Findings.{Findings};
ghost use Rattle.orc_check.specs.RightIndexes.{StartsAtGroups};
ghost use Rattle.orc_merge_laws.specs.Grouping.{Groups, merge, all_leaves, Wrote};
ghost use Rattle.orc_cli_output.specs.Output.{IsOutsideFile};
ghost use Rattle.orc_cli_output.specs.declared.fault.CliFault.{CliFault};
ghost use Rattle.orc_cli_rows.specs.Rows.{row_lines, HaveJson};
ghost use Rattle.orc_cli_rows.specs.FromGroup.{AreLinesFromGroup, EndsFrom};
ghost use Rattle.orc_theorems.specs.Places.{IsPlace, rows_before};
ghost use Rattle.orc_theorems.specs.Inputs.{AreWithoutFinding};
ghost use Rattle.orc_theorems.specs.BeforeGroups.{with_bytes, DiffersOnlyBefore, FileDiffersOnlyBefore};

use crate::merged_findings::findings_of_merges;
use crate::printed_from_a_group::printing_from_the_middle;
use orc_check::start_laws;

/// If a file has no findings, then reading may start at any group of its rows and gives exactly the rows from there
/// on. The same holds for each file that is merged of such files, in any grouping. The bytes before a group's offsets
/// don't matter: if another stripe differs from one of such a file only there, then reading it from the group on
/// gives the same rows.
pub fn reading_from_the_middle()
    // If a file with rows has no findings, then each of its stripes starts at each of its groups with the stripe's
    // rows, as the promise `starts` of `StripeView::cursor_at` presumes.
    ensures starts { (bytes : List ℕ) (tail : Tail) (rows : List Cell)
        → (it_is_a_file_of_the_rows : FileIs bytes tail rows)
        → (nothing_is_found_of_it : Findings bytes tail rows [])
        → StartsAtGroups bytes tail rows }
    // If a file with rows has no findings, then lines that are printed of it from a group of a stripe on are
    // those of the file's rows from the group's first row on.
    ensures lines { (bytes : List ℕ) (tail : Tail) (rows : List Cell) (stripe group : ℕ) (lines : List ℕ)
        → (it_is_a_file_of_the_rows : FileIs bytes tail rows)
        → (nothing_is_found_of_it : Findings bytes tail rows [])
        → (these_are_printed : AreLinesFromGroup bytes tail stripe group lines)
        → lines ≡ row_lines tail.schema (drop (rows_before tail stripe group) rows) }
    // If a file with rows has no findings, one of its stripes has a group, and the rows have JSON, then printing the
    // file from this group on fails only with `WriteFailed`, `SourceFailed` or `OutOfMemory`.
    ensures only { (bytes : List ℕ) (tail : Tail) (rows : List Cell) (stripe group : ℕ) (old new : Option (List ℕ))
        (fault : CliFault)
        → (it_is_a_file_of_the_rows : FileIs bytes tail rows)
        → (nothing_is_found_of_it : Findings bytes tail rows [])
        → (the_group_is_there : IsPlace tail stripe group)
        → (the_rows_have_json : HaveJson tail.schema rows)
        → (it_is_refused : EndsFrom bytes tail stripe group old new fault)
        → IsOutsideFile fault }
    // If each merge of a grouping wrote its file, and each file of the grouping has rows and no findings, then the
    // grouping wrote a file with all these rows, in order, and no findings. Each stripe of this file starts at each
    // of its groups with the stripe's rows, and lines that are printed of this file from a group on are those of its
    // rows from the group's first row on.
    ensures merged { (groups : Groups) (out : List ℕ) (parts : List (List Cell))
        → (each_merge_wrote : Wrote (merge groups) out)
        → (nothing_is_found_of_the_files : AreWithoutFinding (all_leaves groups) parts)
        → (tail : Tail) × FileIs out tail (rows_together parts) × Findings out tail (rows_together parts) []
        × StartsAtGroups out tail (rows_together parts)
        × ((stripe group : ℕ) (lines : List ℕ) → AreLinesFromGroup out tail stripe group lines
        → lines ≡ row_lines tail.schema (drop (rows_before tail stripe group) (rows_together parts))) }

    // If a stripe starts at a group with some rows, and other bytes differ from the stripe's only before the
    // offsets that the group's index entries record, then the stripe with these other bytes starts at the group
    // with the same rows.
    ensures alone { (view : Opened) (x : ℕ → Streams) (rows : List Cell) (group : ℕ) (bytes : List ℕ)
        → (the_stripe_starts_at_the_group : StartsGroup view x rows group)
        → (these_bytes_differ_only_before_it : DiffersOnlyBefore view group bytes)
        → StartsGroup (with_bytes view bytes) x rows group }
    // If a stripe has a footer, and other bytes differ from the stripe's only before the offsets that a group's index
    // entries record, then the other bytes have the same footer.
    ensures footer { (view : Opened) (group : ℕ) (bytes : List ℕ)
        → (the_stripe_has_its_footer : HasFooter view.schema view.info view.bytes view.footer)
        → (these_bytes_differ_only_before_the_group : DiffersOnlyBefore view group bytes)
        → HasFooter view.schema view.info bytes view.footer }
    // If a file with rows has no findings, and another file with the same tail differs from it, in one stripe, only
    // before the offsets that a group's index entries record, and in no later stripe, then lines that are printed of
    // the other file from this group on are those of the first file's rows from the group's first row on.
    ensures lines_alone { (bytes other : List ℕ) (tail : Tail) (rows : List Cell) (stripe group : ℕ) (lines : List ℕ)
        → (it_is_a_file_of_the_rows : FileIs bytes tail rows)
        → (nothing_is_found_of_it : Findings bytes tail rows [])
        → (another_differs_only_before_the_group : FileDiffersOnlyBefore bytes tail stripe group other)
        → (these_are_printed_of_the_other : AreLinesFromGroup other tail stripe group lines)
        → lines ≡ row_lines tail.schema (drop (rows_before tail stripe group) rows) }
    // If a file with rows that have JSON has no findings, one of its stripes has a group, and another file with the
    // same tail differs from it, in this stripe, only before the offsets that the group's index entries record, and
    // in no later stripe, then printing the other file from this group on fails only with `WriteFailed`,
    // `SourceFailed` or `OutOfMemory`.
    ensures only_alone { (bytes other : List ℕ) (tail : Tail) (rows : List Cell) (stripe group : ℕ)
        (old new : Option (List ℕ)) (fault : CliFault)
        → (it_is_a_file_of_the_rows : FileIs bytes tail rows)
        → (nothing_is_found_of_it : Findings bytes tail rows [])
        → (another_differs_only_before_the_group : FileDiffersOnlyBefore bytes tail stripe group other)
        → (the_group_is_there : IsPlace tail stripe group)
        → (the_rows_have_json : HaveJson tail.schema rows)
        → (the_other_is_refused : EndsFrom other tail stripe group old new fault)
        → IsOutsideFile fault }
{
    // each for its contract alone
    start_laws();
    printing_from_the_middle();
    findings_of_merges();
}
