//! Callers of `merge_theorem`. Each makes merges that the theorem speaks of, and its contract says what the theorem
//! says of them.
ghost use Rattle.std.specs.Prelude.{◌≡◌, ◌↔◌, ◌<◌, ◌^◌, ◌⊎◌, ◌&&◌, ◌++◌, ◌∷◌, [], ℕ, List, Some, Ok, Err, length, map, slice_get, IsTrue, IfOk, IfErr};
ghost use Rattle.orc_values.specs.Cells.{Cell};
ghost use Rattle.orc_values.specs.Shapes.{width};
ghost use Rattle.orc_stats.specs.declared.stat.Stat.{Stat};
ghost use Rattle.orc_stats.specs.Whole.{has_sum};
ghost use Rattle.orc_stats.specs.ColumnStatistics.{column_stat};
ghost use Rattle.orc_io.specs.Devices.{appended};
ghost use Rattle.orc_file_reader.specs.FileRows.{FileIs, cut_rows};
ghost use Rattle.orc_file_reader.specs.FileRows as rows;
ghost use Rattle.orc_file_reader.specs.Honest.{Honest, HasWholeStats, each_sum_fits};
ghost use Rattle.orc_tail.specs.Tails.{IsTail};
ghost use Rattle.orc_tail.specs.declared.tail.Tail.{Tail};
ghost use Rattle.orc_merger.specs.declared.fault.MergeFault.{MergeFault};
ghost use Rattle.orc_merger.specs.Faults.{IsMergeRefused, IsDeviceFault};
ghost use Rattle.orc_merger.specs.Merging.{IsMerge};
ghost use Rattle.orc_merger.specs.Outcomes.{WroteMerge, IsAnswer};
ghost use Rattle.orc_merge_laws.specs.Grouping as grouping;
ghost use Rattle.orc_merge_laws.specs.Grouping.{Groups, all_leaves, Gives, AllShort, HaveRows, AreHonestFiles, AreFellows, ComesOfJoining, Wrote};
ghost use Rattle.orc_theorems.specs.Groupings.{at_once, first_two, last_two, MergedTo, IsStepAnswer};
ghost use Rattle.orc_theorems.specs.declared.memory.FileInMemory.{FileInMemory};

use crate::memory::{FileInMemory, is_same, join_three, join_two};
use crate::merging::merge_theorem;
use orc_io::{Sink, SliceSource, Source, VecSink};
use orc_merger::{MergeFault, merge};
use orc_tail::Tail;
use std::alloc::Global;

/// Merges files and returns the merged file's bytes.
fn merge_in_memory<S: Source>(alloc: Global, inputs: &mut [S]) -> Result<Vec<u8>, MergeFault>
    ensures merged { IfOk result (λ bytes. (xs : List (List ℕ))
        → map S.told inputs.old ≡ map Some xs
        → (tail : Tail) × WroteMerge xs tail (Some []) (Some bytes.items)) }
    ensures refused { IfErr result (λ e. (xs : List (List ℕ))
        → map S.told inputs.old ≡ map Some xs
        → IsAnswer xs e) }
{
    let mut out = VecSink::new(alloc);
    match merge(alloc, inputs, &mut out) {
        Ok(_) => Ok(out.into_vec()),
        Err(fault) => Err(fault),
    }
}

/// Merges each of two lists of files into memory, and then the two merged files into `out`. This writes the merged
/// file of all files and returns its tail, by clause `answered` of `merge_theorem`.
///
/// # Errors
///
/// Fails if one of its three calls of `merge` fails.
pub fn in_two_steps<S: Source, W: Sink>(
    alloc: Global,
    left: &mut [S],
    right: &mut [S],
    out: &mut W,
) -> Result<Tail, MergeFault>
    // If merging succeeds and all sources' bytes are known, then the files of `left` followed by those of `right`
    // have a merged file of fewer than 2^64 bytes, and its tail is returned. The output has got exactly this file if
    // the output's bytes are known.
    ensures merged { IfOk result (λ tail. (xs ys : List (List ℕ))
        → map S.told left.old ≡ map Some xs
        → map S.told right.old ≡ map Some ys
        → WroteMerge (xs ++ ys) tail (W.told out.old) (W.told out.new)) }
    // If all sources' bytes are known, then an error is `SourceFailed`, `WriteFailed`, `OutOfMemory`, or the
    // first fault of the inputs of one of the three merges: that of `left`, that of `right`, and that of the
    // two merged files.
    ensures refused { IfErr result (λ e. (xs ys : List (List ℕ))
        → map S.told left.old ≡ map Some xs
        → map S.told right.old ≡ map Some ys
        → IsAnswer xs e ⊎ (IsAnswer ys e
        ⊎ ((first : List ℕ) × (second : List ℕ) × MergedTo xs first × MergedTo ys second × IsAnswer (first ∷ second ∷ []) e))) }
{
    // for its contract alone: the last merge of a grouping is the merge of all its files
    merge_theorem();
    let first = merge_in_memory(alloc, left)?;
    let second = merge_in_memory(alloc, right)?;
    let mut both = [SliceSource::new(&first), SliceSource::new(&second)];
    merge(alloc, &mut both, out)
}

/// Joins the first two of three files, and then joins the result with the third. The result is that of one merge of
/// all three, by clause `answered` of `merge_theorem`. If this fails for user metadata or a limit, then one merge of
/// all three does too, by its clause `refused`.
///
/// # Errors
///
/// Fails if one of its two calls of `merge` fails.
pub fn join_in_steps(
    alloc: Global,
    first: &[u8],
    second: &[u8],
    third: &[u8],
) -> Result<FileInMemory, MergeFault>
    // If joining succeeds, then `first` and `second` were merged, and what this wrote was merged with `third`
    // into the returned bytes.
    ensures wrote { IfOk result (λ done. Wrote (first_two first.now second.now third.now) done.bytes.items) }
    // If joining succeeds, then the returned bytes are the merged file of `first`, `second` and `third`, in
    // this order, which has fewer than 2^64 bytes, and the returned tail is its tail.
    ensures merged { IfOk result (λ done.
        WroteMerge (first.now ∷ second.now ∷ third.now ∷ []) done.tail (Some []) (Some done.bytes.items)) }
    // If the error is `UserMetadataConflict` or `Limit`, and the three inputs open and have one schema, version,
    // writer, writer version, stride and other footer fields and a statistic of each column of each stripe, then one
    // merge of the three files is refused with `UserMetadataConflict` or `Limit`, too.
    ensures refused { IfErr result (λ e. ComesOfJoining e
        → AreFellows (first.now ∷ second.now ∷ third.now ∷ [])
        → (fault : MergeFault) × ComesOfJoining fault × IsMergeRefused (first.now ∷ second.now ∷ third.now ∷ []) fault) }
    // An error is `SourceFailed`, `WriteFailed`, `OutOfMemory`, or the first fault of the inputs of one of the two
    // merges: that of `first` and `second`, and that of what this wrote and `third`.
    ensures step { IfErr result (IsStepAnswer (first_two first.now second.now third.now)) }
{
    // for its contract alone: user metadata or a limit refuses a step of a grouping if and only if it refuses one
    // merge of all files
    merge_theorem();
    match join_two(alloc, first, second) {
        Ok(front) => join_two(alloc, &front.bytes, third),
        Err(fault) => Err(fault),
    }
}

/// Joins the last two of three files, and then joins the first with the result.
fn join_from_the_last(
    alloc: Global,
    first: &[u8],
    second: &[u8],
    third: &[u8],
) -> Result<FileInMemory, MergeFault>
    ensures wrote { IfOk result (λ done. Wrote (last_two first.now second.now third.now) done.bytes.items) }
    ensures step { IfErr result (IsStepAnswer (last_two first.now second.now third.now)) }
{
    match join_two(alloc, second, third) {
        Ok(back) => join_two(alloc, first, &back.bytes),
        Err(fault) => Err(fault),
    }
}

/// Returns whether a join gave these bytes. Fails if the join failed.
fn gave(joined: Result<FileInMemory, MergeFault>, bytes: &[u8]) -> Result<bool, MergeFault>
    ensures gave { IfOk result (λ same. (done : FileInMemory) × (joined ≡ Ok done)
        × (IsTrue same ↔ (done.bytes.items ≡ bytes.now))) }
    ensures fault { IfErr result (λ e. joined ≡ Err e) }
{
    match joined {
        Ok(done) => Ok(is_same(&done.bytes, bytes)),
        Err(fault) => Err(fault),
    }
}

/// Joins three files in both groupings. Returns whether each gave these bytes.
fn both_gave(
    alloc: Global,
    first: &[u8],
    second: &[u8],
    third: &[u8],
    bytes: &[u8],
) -> Result<bool, MergeFault>
    ensures gave { IfOk result (λ same. (left right : List ℕ)
        × Wrote (first_two first.now second.now third.now) left
        × Wrote (last_two first.now second.now third.now) right
        × (IsTrue same ↔ (left ≡ bytes.now) × (right ≡ bytes.now))) }
    ensures refused { IfErr result (λ e. IsStepAnswer (first_two first.now second.now third.now) e
        ⊎ IsStepAnswer (last_two first.now second.now third.now) e) }
{
    let left = gave(join_in_steps(alloc, first, second, third), bytes)?;
    let right = gave(join_from_the_last(alloc, first, second, third), bytes)?;
    Ok(left && right)
}

/// Joins three files by one merge and in both groupings: the first two and then the third, and the first with the
/// result of the last two. Returns the file that the one merge gave, and whether each grouping gave the same bytes.
///
/// That the two groupings gave the same bytes follows from clause `alike` of `merge_theorem`, and that every grouping
/// gives them from its clause `given`. Its clauses `opens`, `rows`, `statistics` and `sums` say what the file is.
///
/// # Errors
///
/// Fails if one of its five calls of `merge` fails.
pub fn join_in_groupings(
    alloc: Global,
    first: &[u8],
    second: &[u8],
    third: &[u8],
) -> Result<(FileInMemory, bool), MergeFault>
    // If joining succeeds, then the returned bytes are the merged file of `first`, `second` and `third`, in
    // this order, which has fewer than 2^64 bytes, and the returned tail is its tail.
    ensures merged { IfOk result (λ done.
        WroteMerge (first.now ∷ second.now ∷ third.now ∷ []) done.0.tail (Some []) (Some done.0.bytes.items)) }
    // If joining succeeds, then `true` is returned beside the file: each of the two groupings gave the same bytes as
    // one merge of the three files.
    ensures same { IfOk result (λ done. IsTrue done.1) }
    // If joining succeeds, then two groupings wrote the returned bytes: the merge of what the first two files gave
    // with the third file, and the merge of the first file with what the last two gave.
    ensures grouped { IfOk result (λ done. Wrote (first_two first.now second.now third.now) done.0.bytes.items
        × Wrote (last_two first.now second.now third.now) done.0.bytes.items) }
    // If joining succeeds, and each file that a step below the root of some grouping of the three files, in this
    // order, gives has fewer than 2^64 bytes, then this grouping gives the returned bytes and no others.
    ensures given { IfOk result (λ done. (groups : Groups) (out : List ℕ) → AllShort groups
        → all_leaves groups ≡ first.now ∷ second.now ∷ third.now ∷ []
        → Gives (grouping.merge groups) out ↔ (out ≡ done.0.bytes.items)) }
    // If joining succeeds, then the returned file opens with the returned tail.
    ensures opens { IfOk result (λ done. IsTail done.0.bytes.items done.0.tail) }
    // If joining succeeds, and each of the three files is a file with rows, then the returned file has the returned
    // tail and the rows of the three files, in order.
    ensures rows { IfOk result (λ done. (parts : List (List Cell))
        → HaveRows (first.now ∷ second.now ∷ third.now ∷ []) parts
        → FileIs done.0.bytes.items done.0.tail (rows.rows_together parts)) }
    // If joining succeeds, and the stripe statistics of each of the three files are those of its rows (element
    // counts may be missing), then the returned tail's stripe statistics are those of all the rows (element
    // counts may be missing), and its file statistics are those of all the rows, with two exceptions. A sum is
    // missing if the sum of some stripe doesn't fit 64 bits. An element count is missing if it is missing for
    // some stripe with a value in that column.
    ensures statistics { IfOk result (λ done. (parts : List (List Cell))
        → AreHonestFiles (first.now ∷ second.now ∷ third.now ∷ []) parts
        → Honest done.0.tail (rows.rows_together parts) × HasWholeStats done.0.tail (rows.rows_together parts)) }
    // If joining succeeds, and the stripe statistics of each of the three files are those of its rows (element counts
    // may be missing), then the returned tail has a file statistic of each column. In a column of a kind with sums,
    // this has one if and only if the column has a value, and the sum of each stripe with values and the sum of all
    // rows fit 64 bits.
    ensures sums { IfOk result (λ done. (parts : List (List Cell)) (column : ℕ)
        → AreHonestFiles (first.now ∷ second.now ∷ third.now ∷ []) parts
        → column < width done.0.tail.schema
        → (told : Stat) × (slice_get done.0.tail.file_stats column ≡ Some told)
        × (has_sum told.body
        ≡ (each_sum_fits done.0.tail.schema (cut_rows done.0.tail.stripes (rows.rows_together parts)) column
        && has_sum (column_stat done.0.tail.schema (rows.rows_together parts) column).body))) }
    // An error is `SourceFailed`, `WriteFailed`, `OutOfMemory`, or the first fault of the inputs of one of the
    // merges: those of the two groupings, and the one merge of all three files.
    ensures refused { IfErr result (λ e. IsStepAnswer (first_two first.now second.now third.now) e
        ⊎ (IsStepAnswer (last_two first.now second.now third.now) e
        ⊎ IsStepAnswer (at_once first.now second.now third.now) e)) }
{
    // for its contract alone: however files are grouped, the same bytes are written
    merge_theorem();
    let joined = join_three(alloc, first, second, third)?;
    let same = both_gave(alloc, first, second, third, &joined.bytes)?;
    Ok((joined, same))
}

/// Joins two files in both orders. The two joined files have the same file statistics, by clause `order` of
/// `merge_theorem`. If the files can be joined in the first order, then neither call fails for a fault of the files,
/// by its clause `orders`.
///
/// # Errors
///
/// Fails if one of its two calls of `merge` fails.
pub fn join_in_orders(
    alloc: Global,
    first: &[u8],
    second: &[u8],
) -> Result<(FileInMemory, FileInMemory), MergeFault>
    // If joining succeeds, then the first returned file is the merged file of `first` and `second`, and the second
    // that of `second` and `first`, each with its tail and with fewer than 2^64 bytes.
    ensures one { IfOk result (λ done.
        WroteMerge (first.now ∷ second.now ∷ []) done.0.tail (Some []) (Some done.0.bytes.items)) }
    ensures other { IfOk result (λ done.
        WroteMerge (second.now ∷ first.now ∷ []) done.1.tail (Some []) (Some done.1.bytes.items)) }
    // If joining succeeds, then both returned files have the same file statistics.
    ensures same { IfOk result (λ done. done.0.tail.file_stats ≡ done.1.tail.file_stats) }
    // An error is `SourceFailed`, `WriteFailed`, `OutOfMemory`, or the first fault of `first` and `second` as
    // inputs in one of the two orders.
    ensures refused { IfErr result (λ e. IsAnswer (first.now ∷ second.now ∷ []) e
        ⊎ IsAnswer (second.now ∷ first.now ∷ []) e) }
    // If `first` and `second` have a merged file in this order, then an error is `SourceFailed`, `WriteFailed`
    // or `OutOfMemory`.
    ensures only { IfErr result (λ e. (tail : Tail) (out : List ℕ)
        → IsMerge (first.now ∷ second.now ∷ []) tail out → IsDeviceFault e) }
{
    // for its contract alone: the file statistics are the same in every order of the files
    merge_theorem();
    let one = join_two(alloc, first, second)?;
    let other = join_two(alloc, second, first)?;
    Ok((one, other))
}

/// Joins three files both ways: in two steps in memory, as `join_in_steps` does, and by one merge into an output.
/// Returns the bytes that the two steps gave. The output gets the same bytes, by clause `bytes` of `merge_theorem`.
///
/// # Errors
///
/// Fails if one of its three calls of `merge` fails.
pub fn join_both_ways<W: Sink>(
    alloc: Global,
    first: &[u8],
    second: &[u8],
    third: &[u8],
    out: &mut W,
) -> Result<Vec<u8>, MergeFault>
    // If joining succeeds, then `first` and `second` were merged, and what this wrote was merged with `third` into the
    // returned bytes.
    ensures wrote { IfOk result (λ steps. Wrote (first_two first.now second.now third.now) steps.items) }
    // If joining succeeds and the output's bytes are known, then the output has got exactly the returned bytes, after
    // what it had before.
    ensures bytes { IfOk result (λ steps. W.told out.new ≡ appended (W.told out.old) steps.items) }
    // If joining succeeds, then the returned bytes are the merged file of `first`, `second` and `third`, in this order,
    // which has fewer than 2^64 bytes.
    ensures merged { IfOk result (λ steps. (tail : Tail)
        × IsMerge (first.now ∷ second.now ∷ third.now ∷ []) tail steps.items × (length steps.items < 2 ^ 64)) }
    // An error is `SourceFailed`, `WriteFailed`, `OutOfMemory`, or the first fault of the inputs of one of the merges:
    // those of the two steps, and the one merge of all three files.
    ensures refused { IfErr result (λ e. IsStepAnswer (first_two first.now second.now third.now) e
        ⊎ IsStepAnswer (at_once first.now second.now third.now) e) }
{
    // for its contract alone: one merge writes the bytes that each grouping wrote
    merge_theorem();
    let steps = join_in_steps(alloc, first, second, third)?;
    let mut inputs = [
        SliceSource::new(first),
        SliceSource::new(second),
        SliceSource::new(third),
    ];
    match merge(alloc, &mut inputs, out) {
        Ok(_) => Ok(steps.bytes),
        Err(fault) => Err(fault),
    }
}
