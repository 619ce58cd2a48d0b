//! Laws of findings. Each function does nothing: its contract is what it is for.
ghost use Rattle.std.specs.Prelude.{◌≡◌, ◌↔◌, ℕ, List, [], Contains};
ghost use Rattle.orc_values.specs.Cells.{Cell};
ghost use Rattle.orc_file_reader.specs.FileRows.{FileIs, cut_rows};
ghost use Rattle.orc_file_reader.specs.Honest.{Honest};
ghost use Rattle.orc_tail.specs.declared.tail.Tail.{Tail};
ghost use Rattle.orc_check.specs.declared.finding.Finding.{Finding};
ghost use Rattle.orc_check.specs.Findings.{Findings, TellsWhole};
ghost use Rattle.orc_check.specs.Meanings.{IsSo};
ghost use Rattle.orc_check.specs.RightIndexes.{HasIndexes, StartsAtGroups};

use orc_stripe_reader::group_laws;

/// Laws of findings. A file has at most one list of findings. A finding is in it if and only if it is true of the file.
/// The list is empty if and only if the statistics of each stripe and, with two exceptions, those of the whole file are
/// those of the rows, and, if the stride is above 0, each column of each stripe has a right row index. Element counts
/// may be missing.
pub fn finding_laws()
    // For bytes, a tail and rows there is at most one list of findings.
    ensures one { (bytes : List ℕ) (tail : Tail) (rows : List Cell) (a b : List Finding)
        → Findings bytes tail rows a → Findings bytes tail rows b
        → a ≡ b }
    // If bytes are a file with rows, and a list has the file's findings, then a finding is in this list if and
    // only if it is true of the file.
    ensures each { (bytes : List ℕ) (tail : Tail) (rows : List Cell) (found : List Finding) (finding : Finding)
        → FileIs bytes tail rows → Findings bytes tail rows found
        → Contains found finding ↔ IsSo bytes tail (cut_rows tail.stripes rows) finding }
    // If bytes are a file with rows, then the file has no findings if and only if its stripe statistics are
    // those of the stripes' rows, its file statistics are those of all rows, and, if its stride is above 0,
    // each column of each stripe has a row index of one entry for each group, with the group's statistic and
    // with positions from which a reader continues at the group. Element counts may be missing in all these
    // statistics. A file statistic has no sum if the sum of some stripe doesn't fit 64 bits, and no element
    // count if some stripe with a value lacks it.
    ensures none { (bytes : List ℕ) (tail : Tail) (rows : List Cell) → FileIs bytes tail rows
        → Findings bytes tail rows [] ↔ (Honest tail rows × TellsWhole tail rows × HasIndexes bytes tail rows) }
{}

/// If a file has no findings, each of its stripes starts at each of its groups (`StartsGroup`). Then `cursor_at`
/// returns a cursor that gives the stripe's rows from the group's first row on, or fails for want of memory.
pub fn start_laws()
    // If a file with rows has no findings, then each of its stripes starts at each of its groups with the stripe's
    // rows, as `StripeView::cursor_at` needs it.
    ensures { (bytes : List ℕ) (tail : Tail) (rows : List Cell)
        → FileIs bytes tail rows → Findings bytes tail rows []
        → StartsAtGroups bytes tail rows }
{
    // for its contract alone: a stripe starts at a group whose positions are right
    group_laws();
}
