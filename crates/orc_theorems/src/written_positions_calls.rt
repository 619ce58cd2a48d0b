//! Callers of `writers_positions`. They go to the start of a row group in the streams of a column: in a file that was
//! written, and in a file that two others were joined into.
ghost use Rattle.std.specs.Prelude.{◌≡◌, ◌⊎◌, ◌<◌, ◌∷◌, [], ℕ, List, Option, Some, slice_get, IfOk, IfErr};
ghost use Rattle.orc_values.specs.Cells.{Cell};
ghost use Rattle.orc_values.specs.Shapes.{width, shape_at};
ghost use Rattle.orc_values.specs.Views.{views};
ghost use Rattle.orc_wire.specs.declared.row_index.RowIndexEntry.{RowIndexEntry as IndexEntry};
ghost use Rattle.orc_wire.specs.declared.row_index.RowIndexMsg.{RowIndexMsg as IndexMessage};
ghost use Rattle.orc_column_reader.specs.Stripe.{columns_of};
ghost use Rattle.orc_directory.specs.declared.fault.StripeFault.TheVariants as stripe;
ghost use Rattle.orc_stripe_reader.specs.RowIndexes.{HasIndex};
ghost use Rattle.orc_row_index.specs.Walking.{ArePlaced};
ghost use Rattle.orc_file_reader.specs.FileRows.{FileIs, rows_together};
ghost use Rattle.orc_file_writer.specs.Writing.{WroteWholeFile};
ghost use Rattle.orc_tail.specs.Caps.{no_cap};
ghost use Rattle.orc_tail.specs.Tails.{IsTail};
ghost use Rattle.orc_tail.specs.declared.tail.Tail.{Tail};
ghost use Rattle.orc_tail.specs.declared.fault.FileFault.TheVariants as fault;
ghost use Rattle.orc_check.specs.RightIndexes.{StartsAtGroups};
ghost use Rattle.orc_merger.specs.Merging.{IsMerge};
ghost use Rattle.orc_merge_laws.specs.Grouping.{Wrote};
ghost use Rattle.orc_theorems.specs.Groupings.{MergedTo, first_two};
ghost use Rattle.orc_theorems.specs.Inputs.{AreWithoutFinding};
ghost use Rattle.orc_theorems.specs.OneRunPositions.{AreOneRunPositions, ColumnReadsOneRun, ReadsOneRun};
ghost use Rattle.orc_theorems.specs.Places.{IsPlace};
ghost use Rattle.orc_theorems.specs.Refusals.{IsWriteFault, IsSourceFault, IsOutsideFiles, IsStepsFault};
ghost use Rattle.orc_theorems.specs.RunsRead.{ReadOneEach};
ghost use Rattle.orc_theorems.specs.SoughtGroups.{IsGroupSought, IsSoughtInFile, IsSoughtInWritten, IsSeekFault, IsJoinSeekFault};
ghost use Rattle.orc_theorems.specs.WrittenIndexes.{AreIndexedAsWritten, WasWritten};

use crate::fault::CallFault;
use crate::groups_of_rows::reading_from_the_middle;
use crate::memory::{join_two, opened};
use crate::merged_findings::findings_of_merges;
use crate::merging::merge_theorem;
use crate::merging_calls::join_in_steps;
use crate::seeking::{ColumnSought, seek_places};
use crate::written_files::written_files_read_back;
use crate::written_files_calls::write_rows;
use crate::written_findings::written_finding_laws;
use crate::written_positions::writers_positions;
use orc_column_reader::streams_of;
use orc_directory::{Spot, StripeFault};
use orc_file_reader::{OrcFile, row_laws};
use orc_io::Source;
use orc_merge_laws::outcomes;
use orc_row_batch::Options;
use orc_row_index::{PlacedStreams, placed_streams};
use orc_stripe_reader::StripeView;
use orc_tail::{FileFault, stripe_fault, tail_laws};
use orc_types::Schema;
use orc_values::{Row, tree_at};
use std::alloc::Global;

/// Returns the streams of a column of a stripe that have positions.
fn streams_placed<'a>(
    alloc: Global,
    view: &StripeView<'a>,
    column: usize,
) -> Result<PlacedStreams<'a>, StripeFault>
    ensures there { IfOk result (λ _. column < width view.now.schema) }
    ensures placed { IfOk result (ArePlaced (shape_at view.now.schema column)
        (columns_of view.now.footer view.now.bytes column)) }
    ensures only { column < width view.now.schema → IfErr result (λ fault. fault ≡ stripe.OutOfMemory) }
{
    let located = view.locate(alloc)?;
    let footer = view.footer();
    if column >= footer.columns.as_slice().len() {
        return Err(StripeFault::BadPosition(Spot::Column(column)));
    }
    let streams = streams_of(column, footer, &located);
    Ok(placed_streams(tree_at(view.tree(), column), &streams))
}

/// Goes to the start of a row group in the streams of a column of a stripe.
fn seek_group(
    alloc: Global,
    view: &StripeView<'_>,
    column: usize,
    group: usize,
) -> Result<ColumnSought, StripeFault>
    ensures sought { (rows : List Cell)
        → (0 < view.now.stride → column < width view.now.schema → ColumnReadsOneRun view.now rows column)
        → IfOk result (IsGroupSought view.now rows column group) }
    ensures only { (message : IndexMessage) (entry : IndexEntry) (before : List Cell)
        → 0 < view.now.stride → column < width view.now.schema
        → HasIndex view.now.footer view.now.bytes column message
        → slice_get message.entries group ≡ Some entry
        → AreOneRunPositions (shape_at view.now.schema column)
        (columns_of view.now.footer view.now.bytes column) before entry.positions
        → IfErr result (λ fault. fault ≡ stripe.OutOfMemory) }
{
    let index = match view.index(alloc, column) {
        Ok(index) => index,
        Err(fault) => return Err(fault),
    };
    let placed = streams_placed(alloc, view, column)?;
    let entries = index.entries.as_slice();
    if group >= entries.len() {
        return Err(StripeFault::BadPosition(Spot::Column(column)));
    }
    match seek_places(&placed, entries[group].positions.as_slice()) {
        Ok(sought) => Ok(sought),
        Err(_) => Err(StripeFault::BadPosition(Spot::Column(column))),
    }
}

/// Goes to the start of a row group in the streams of a column, in a stripe of a file.
fn seek_in_stripe<S: Source>(
    alloc: Global,
    file: &mut OrcFile<S>,
    stripe: usize,
    column: usize,
    group: usize,
) -> Result<ColumnSought, FileFault>
    ensures sought { (bytes : List ℕ) (rows : List Cell)
        → S.told file.old.source ≡ Some bytes
        → ReadsOneRun bytes file.old.tail rows
        → IfOk result (IsSoughtInFile bytes file.old.tail rows stripe column group) }
    ensures refused { file.old.cap ≡ no_cap → IfErr result (IsSeekFault file.old.tail stripe) }
    ensures only { (bytes : List ℕ) (rows : List Cell)
        → S.told file.old.source ≡ Some bytes → file.old.cap ≡ no_cap
        → FileIs bytes file.old.tail rows
        → ReadsOneRun bytes file.old.tail rows → StartsAtGroups bytes file.old.tail rows
        → IsPlace file.old.tail stripe group → column < width file.old.tail.schema
        → IfErr result IsSourceFault }
{
    // for its contract alone: a file's rows are those of its stripes
    row_laws();
    if stripe >= file.tail().stripes.as_slice().len() {
        return Err(FileFault::BadStripe(stripe));
    }
    let mut own = Vec::new(alloc);
    file.load(stripe, &mut own)?;
    let view = file.view(alloc, stripe, &own)?;
    match seek_group(alloc, &view, column, group) {
        Ok(sought) => Ok(sought),
        Err(cause) => Err(stripe_fault(stripe, cause)),
    }
}

/// Goes to the start of a row group in the streams of a column, in a stripe of a file in memory.
fn seek_in_file(
    alloc: Global,
    bytes: &[u8],
    stripe: usize,
    column: usize,
    group: usize,
) -> Result<ColumnSought, FileFault>
    ensures sought { (tail : Tail) (rows : List Cell)
        → FileIs bytes.now tail rows
        → ReadsOneRun bytes.now tail rows
        → IfOk result (IsSoughtInFile bytes.now tail rows stripe column group) }
    ensures refused { (tail : Tail) → IsTail bytes.now tail → IfErr result (IsSeekFault tail stripe) }
    ensures only { (tail : Tail) (rows : List Cell)
        → FileIs bytes.now tail rows
        → ReadsOneRun bytes.now tail rows → StartsAtGroups bytes.now tail rows
        → IsPlace tail stripe group → column < width tail.schema
        → IfErr result IsSourceFault }
{
    // for its contract alone: bytes have one tail
    tail_laws();
    let mut file = opened(alloc, bytes)?;
    seek_in_stripe(alloc, &mut file, stripe, column, group)
}

/// Writes a file of rows to memory, opens it, and goes to the start of a row group in the streams of a column of a
/// stripe. This reads at most one run in each stream, by clause `in_files` of `writers_positions`.
///
/// # Errors
///
/// - `BadStripe` if the file has no such stripe.
/// - `Stripe` with `NoIndex` or `BadPosition` if the stride is 0, or if the stripe has no such column or group.
/// - Those of `Writer`, and of opening the file and loading the stripe.
pub fn write_and_seek(
    alloc: Global,
    schema: Schema,
    options: Options,
    rows: &[Row<'_>],
    stripe: usize,
    column: usize,
    group: usize,
) -> Result<ColumnSought, FileFault>
    // If the call succeeds, then at most one run was read in each of the column's streams of runs to reach the
    // group.
    ensures one_run { IfOk result ReadOneEach }
    // If the call succeeds, then the file that a writer writes of `rows` has the stripe, the column and the group. In
    // each of the column's streams of runs the values that are left of the run that was read last, followed by those of
    // the runs after it, are the stream's values from the group's first value on.
    ensures sought { IfOk result (IsSoughtInWritten options schema (views rows.now) stripe column group) }
    // An error is one with which `write_to` may fail for `rows`. Or the file was written, and the error is `BadStripe`,
    // only if it has no such stripe, `OutOfMemory`, `SourceFailed`, or `Stripe` with this stripe's number.
    ensures refused { IfErr result (λ e. IsWriteFault options schema (views rows.now) e
        ⊎ ((tail : Tail) × (first : Option (List ℕ)) × (told : Option (List ℕ))
        × WroteWholeFile options schema tail first told (views rows.now) × IsSeekFault tail stripe e)) }
    // If the file that a writer writes of `rows` has the stripe, the group and the column, then an error is
    // `SourceFailed` or one with which `write_to` may fail for `rows`.
    ensures only { IfErr result (λ e. (tail : Tail) (first told : Option (List ℕ))
        → WroteWholeFile options schema tail first told (views rows.now)
        → IsPlace tail stripe group → column < width schema
        → (e ≡ fault.SourceFailed) ⊎ IsWriteFault options schema (views rows.now) e) }
{
    // each for its contract alone: from a writer's positions at most one run is read, written files read back, and a
    // file without findings starts at each of its groups
    writers_positions();
    written_files_read_back();
    written_finding_laws();
    reading_from_the_middle();
    let file = write_rows(alloc, schema, options, rows)?;
    seek_in_file(alloc, &file.bytes, stripe, column, group)
}

/// Joins two files, opens the joined file, and goes to the start of a row group in the streams of a column of a
/// stripe. If both files were written by `finish`, then this reads at most one run in each stream, by clause
/// `in_merges` of `writers_positions`.
///
/// # Errors
///
/// - `BadStripe` if the joined file has no such stripe.
/// - `Stripe` with `NoIndex` or `BadPosition` if the stride is 0, or if the stripe has no such column or group.
/// - Those of `merge`, and of opening the joined file and loading the stripe.
pub fn join_and_seek(
    alloc: Global,
    first: &[u8],
    second: &[u8],
    stripe: usize,
    column: usize,
    group: usize,
) -> Result<ColumnSought, CallFault>
    // If the call succeeds, and `first` and `second` were written by `finish`, then at most one run was read in
    // each of the column's streams of runs to reach the group.
    ensures one_run { (rows others : List Cell)
        → WasWritten first.now rows
        → WasWritten second.now others
        → IfOk result ReadOneEach }
    // If the call succeeds, and `first` and `second` are files with rows whose row indexes are as a writer writes them,
    // then their merged file is a file with all these rows, in order, and has the stripe, the column and the group. In
    // each of the column's streams of runs at most one run was read, and the values that are left of it, followed by
    // those of the runs after it, are the stream's values from the group's first value on.
    ensures sought { (rows others : List Cell)
        → AreIndexedAsWritten (first.now ∷ second.now ∷ []) (rows ∷ others ∷ [])
        → IfOk result (λ found. (out : List ℕ) × (tail : Tail)
        × MergedTo (first.now ∷ second.now ∷ []) out × FileIs out tail (rows_together (rows ∷ others ∷ []))
        × IsSoughtInFile out tail (rows_together (rows ∷ others ∷ [])) stripe column group found) }
    // An error in `Merge` is `SourceFailed`, `WriteFailed`, `OutOfMemory`, or the first fault of `first` and `second`
    // as inputs. After an error in `File` the two files have a merged file, and the error is `BadStripe`, only if this
    // has no such stripe, `OutOfMemory`, `SourceFailed`, or `Stripe` with this stripe's number.
    ensures refused { IfErr result (IsJoinSeekFault first.now second.now stripe) }
    // If `first` and `second` were written by `finish`, and have a merged file that has the stripe, the group and the
    // column, then an error is `OutOfMemory`, `SourceFailed` or, of the merge, `WriteFailed`.
    ensures only { (rows others : List Cell)
        → WasWritten first.now rows
        → WasWritten second.now others
        → IfErr result (λ e. (tail : Tail) (out : List ℕ) → IsMerge (first.now ∷ second.now ∷ []) tail out
        → IsPlace tail stripe group → column < width tail.schema
        → IsOutsideFiles e) }
{
    // each for its contract alone: from a writer's positions at most one run is read, a merged file opens with the
    // merged tail, and a file that is merged of written ones starts at each of its groups
    writers_positions();
    merge_theorem();
    outcomes();
    written_finding_laws();
    findings_of_merges();
    reading_from_the_middle();
    match join_two(alloc, first, second) {
        Ok(joined) => match seek_in_file(alloc, &joined.bytes, stripe, column, group) {
            Ok(sought) => Ok(sought),
            Err(fault) => Err(CallFault::File(fault)),
        },
        Err(fault) => Err(CallFault::Merge(fault)),
    }
}

/// Joins three files in two steps, as `join_in_steps` does, opens the joined file, and goes to the start of a row group
/// in the streams of a column of a stripe. If the three files have a writer's row indexes, then this reads at most one
/// run in each stream, by clause `grouped` of `writers_positions`. If they have no findings either, then a group that
/// the joined file has is found, by clause `merged` of `reading_from_the_middle`.
///
/// # Errors
///
/// - `BadStripe` if the joined file has no such stripe.
/// - `Stripe` with `NoIndex` or `BadPosition` if the stride is 0, or if the stripe has no such column or group.
/// - Those of `merge`, and of opening the joined file and loading the stripe.
pub fn join_in_steps_and_seek(
    alloc: Global,
    first: &[u8],
    second: &[u8],
    third: &[u8],
    stripe: usize,
    column: usize,
    group: usize,
) -> Result<ColumnSought, CallFault>
    // If the call succeeds, and the three files are files with rows whose row indexes are as a writer writes them, then
    // the two steps wrote a file with all these rows, in order, and it has the stripe, the column and the group. In
    // each of the column's streams of runs at most one run was read, and the values that are left of it, followed by
    // those of the runs after it, are the stream's values from the group's first value on.
    ensures sought { (parts : List (List Cell))
        → AreIndexedAsWritten (first.now ∷ second.now ∷ third.now ∷ []) parts
        → IfOk result (λ found. (out : List ℕ) × (tail : Tail)
        × Wrote (first_two first.now second.now third.now) out × FileIs out tail (rows_together parts)
        × IsSoughtInFile out tail (rows_together parts) stripe column group found) }
    // If the three files are files with rows whose row indexes are as a writer writes them, and without findings, and
    // the file that the two steps write has the stripe, the group and the column, then an error in `File` is
    // `OutOfMemory` or `SourceFailed`. An error in `Merge` is `SourceFailed`, `WriteFailed`, `OutOfMemory`, or the
    // first fault of the inputs of one of the two merges.
    ensures only { (parts : List (List Cell))
        → AreIndexedAsWritten (first.now ∷ second.now ∷ third.now ∷ []) parts
        → AreWithoutFinding (first.now ∷ second.now ∷ third.now ∷ []) parts
        → IfErr result (λ e. (tail : Tail) (out : List ℕ)
        → Wrote (first_two first.now second.now third.now) out → IsTail out tail
        → IsPlace tail stripe group → column < width tail.schema
        → IsStepsFault first.now second.now third.now e) }
{
    // each for its contract alone: a grouping keeps a writer's row indexes, and what it writes starts at each of its
    // groups; all groupings write the same bytes, and bytes are a file of one tail and one list of rows
    writers_positions();
    reading_from_the_middle();
    merge_theorem();
    tail_laws();
    row_laws();
    match join_in_steps(alloc, first, second, third) {
        Ok(steps) => match seek_in_file(alloc, &steps.bytes, stripe, column, group) {
            Ok(sought) => Ok(sought),
            Err(fault) => Err(CallFault::File(fault)),
        },
        Err(fault) => Err(CallFault::Merge(fault)),
    }
}
