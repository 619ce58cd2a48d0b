//! A caller of `skipping_in_files`. It checks a file and, if the file has no findings, returns the groups of its rows
//! that the bold rule keeps by the statistics of one column.
ghost use Rattle.std.specs.Prelude.{◌≡◌, ◌≢◌, ◌≤◌, ◌<◌, ◌⊎◌, ◌++◌, ℕ, List, [], length, None, Some, slice_get, IfOk, IfErr, IfSome, OnOk};
ghost use Rattle.std.specs.List.{AllByRecursion, Contains};
ghost use Rattle.orc_wire.specs.declared.row_index.RowIndexMsg.{RowIndexMsg};
ghost use Rattle.orc_wire.specs.declared.stripe_footer.StripeFooter.{StripeFooter};
ghost use Rattle.orc_values.specs.Cells.{Cell};
ghost use Rattle.orc_values.specs.Shapes.{width, shape_at};
ghost use Rattle.orc_stats.specs.Kinds.{kind_of};
ghost use Rattle.orc_stats.specs.declared.stat.Stat.{Stat};
ghost use Rattle.orc_skipping.specs.Groups.{CountsFew, groups_kept};
ghost use Rattle.orc_skipping.specs.Right.{NoneMatches};
ghost use Rattle.orc_skipping.specs.Tests.{predicate, said_of};
ghost use Rattle.orc_skipping.specs.declared.keeping_groups.GroupPlace.{GroupPlace};
ghost use Rattle.orc_directory.specs.declared.fault.StripeFault.TheVariants as stripe_fault;
ghost use Rattle.orc_column_reader.specs.Stripe.{HasFooter};
ghost use Rattle.orc_stripe_reader.specs.RowIndexes.{HasIndex};
ghost use Rattle.orc_tail.specs.Caps.{no_cap};
ghost use Rattle.orc_tail.specs.Stripes.{stripe_at, stripe_bytes};
ghost use Rattle.orc_tail.specs.declared.tail.Tail.{Tail};
ghost use Rattle.orc_tail.specs.declared.fault.FileFault.TheVariants as fault;
ghost use Rattle.orc_file_reader.specs.FileRows.{FileIs};
ghost use Rattle.orc_check.specs.Findings.{Findings, stripe_told};
ghost use Rattle.orc_check.specs.declared.finding.Finding.{Finding};
ghost use Rattle.orc_theorems.specs.Inputs.{AreFound};
ghost use Rattle.orc_theorems.specs.KeptGroups.{AreRowsAt, stripe_kept, AddsKept, AreGroupsKept};

use crate::memory::opened;
use crate::merged_findings_calls::found_in;
use crate::skipping::skipping_in_files;
use orc_check::finding_laws;
use orc_directory::{Spot, StripeFault};
use orc_file_reader::OrcFile;
use orc_io::Source;
use orc_skipping::{GroupPlace, Test, keep_groups, keeps, skipping_laws};
use orc_stats::{Stat, StatKind};
use orc_stripe_reader::StripeView;
use orc_tail::{FileFault, Tail, stripe_fault, tail_laws};
use orc_values::tree_at;
use std::alloc::Global;

/// Appends the groups of a stripe that the bold rule keeps, by the entries of a column's row index.
fn keep_by_index(
    alloc: Global,
    view: &StripeView<'_>,
    stripe: usize,
    column: usize,
    test: &Test,
    places: &mut Vec<GroupPlace>,
) -> Result<(), StripeFault>
    requires few { width view.now.schema ≤ 4096 }
    requires there { column < width view.now.schema }
    ensures kept { (message : RowIndexMsg)
        → 0 < view.now.stride
        → HasIndex view.now.footer view.now.bytes column message
        → AllByRecursion (CountsFew (kind_of (shape_at view.now.schema column))) message.entries
        → OnOk result (places.new.items ≡ places.old.items
        ++ groups_kept (kind_of (shape_at view.now.schema column)) (predicate test.now) stripe 0 message.entries) }
    ensures only { (message : RowIndexMsg)
        → 0 < view.now.stride
        → HasIndex view.now.footer view.now.bytes column message
        → IfErr result (λ cause. cause ≡ stripe_fault.OutOfMemory) }
{
    let kind = StatKind::of_type(tree_at(view.tree(), column));
    let index = match view.index(alloc, column) {
        Ok(index) => index,
        Err(cause) => return Err(cause),
    };
    match keep_groups(alloc, index.entries.as_slice(), kind, stripe, test, places) {
        Ok(()) => Ok(()),
        Err(_) => Err(StripeFault::OutOfMemory),
    }
}

/// Loads a stripe of a file, and appends its groups that the bold rule keeps, by the entries of a column's row index.
fn keep_groups_of_stripe<S: Source>(
    alloc: Global,
    file: &mut OrcFile<S>,
    stripe: usize,
    column: usize,
    test: &Test,
    places: &mut Vec<GroupPlace>,
) -> Result<(), FileFault>
    requires there { stripe < length file.old.tail.stripes }
    requires uncapped { file.old.cap ≡ no_cap }
    requires few { width file.old.tail.schema ≤ 4096 }
    requires column { column < width file.old.tail.schema }
    ensures tail { file.new.tail ≡ file.old.tail }
    ensures cap { file.new.cap ≡ file.old.cap }
    ensures told { S.told file.new.source ≡ S.told file.old.source }
    ensures kept { (bytes : List ℕ) (footer : StripeFooter) (message : RowIndexMsg)
        → S.told file.old.source ≡ Some bytes
        → 0 < file.old.tail.stride
        → HasFooter file.old.tail.schema (stripe_at file.old.tail.stripes stripe)
        (stripe_bytes (stripe_at file.old.tail.stripes stripe) bytes) footer
        → HasIndex footer (stripe_bytes (stripe_at file.old.tail.stripes stripe) bytes) column message
        → AllByRecursion (CountsFew (kind_of (shape_at file.old.tail.schema column))) message.entries
        → OnOk result (places.new.items ≡ places.old.items
        ++ groups_kept (kind_of (shape_at file.old.tail.schema column)) (predicate test.now) stripe 0 message.entries) }
    ensures only { (bytes : List ℕ) (footer : StripeFooter) (message : RowIndexMsg)
        → S.told file.old.source ≡ Some bytes
        → 0 < file.old.tail.stride
        → HasFooter file.old.tail.schema (stripe_at file.old.tail.stripes stripe)
        (stripe_bytes (stripe_at file.old.tail.stripes stripe) bytes) footer
        → HasIndex footer (stripe_bytes (stripe_at file.old.tail.stripes stripe) bytes) column message
        → IfErr result (λ e. (e ≡ fault.OutOfMemory) ⊎ (e ≡ fault.SourceFailed)) }
{
    let mut own = Vec::new(alloc);
    file.load(stripe, &mut own)?;
    let view = file.view(alloc, stripe, &own)?;
    match keep_by_index(alloc, &view, stripe, column, test, places) {
        Ok(()) => Ok(()),
        Err(cause) => Err(stripe_fault(stripe, cause)),
    }
}

/// Returns the statistics that the tail has of a stripe's columns.
fn stats_of_stripe(tail: &Tail, stripe: usize) -> &[Stat]
    ensures { result.now ≡ stripe_told tail.now stripe }
{
    match tail.stripe_stats.as_slice().get(stripe) {
        Some(told) => told.as_slice(),
        None => &[],
    }
}

/// Appends a stripe as one group, number 0, if the bold rule keeps it by the statistic that the tail has of a column.
fn keep_by_statistic(
    tail: &Tail,
    stripe: usize,
    column: usize,
    test: &Test,
    places: &mut Vec<GroupPlace>,
) -> Result<(), FileFault>
    ensures kept { IfSome (slice_get (stripe_told tail.now stripe) column) (λ told.
        OnOk result (places.new.items ≡ places.old.items ++ stripe_kept told (predicate test.now) stripe)) }
    ensures only { IfSome (slice_get (stripe_told tail.now stripe) column) (λ _.
        IfErr result (λ e. e ≡ fault.OutOfMemory)) }
{
    match stats_of_stripe(tail, stripe).get(column) {
        Some(told) => {
            if keeps(told, test) {
                places.push(GroupPlace { stripe, group: 0 })?;
            }
            Ok(())
        }
        None => Err(FileFault::Stripe(stripe, StripeFault::BadPosition(Spot::Column(column)))),
    }
}

/// Appends the groups of a stripe of a file that the bold rule keeps, by the statistics of a column.
fn keep_in_stripe<S: Source>(
    alloc: Global,
    file: &mut OrcFile<S>,
    stripe: usize,
    column: usize,
    test: &Test,
    places: &mut Vec<GroupPlace>,
) -> Result<(), FileFault>
    requires there { stripe < length file.old.tail.stripes }
    requires uncapped { file.old.cap ≡ no_cap }
    ensures tail { file.new.tail ≡ file.old.tail }
    ensures cap { file.new.cap ≡ file.old.cap }
    ensures told { S.told file.new.source ≡ S.told file.old.source }
    ensures kept { (bytes : List ℕ) (rows : List Cell)
        → S.told file.old.source ≡ Some bytes
        → FileIs bytes file.old.tail rows
        → Findings bytes file.old.tail rows []
        → OnOk result (AddsKept bytes file.old.tail column (predicate test.now) stripe
        places.old.items places.new.items) }
    ensures only { (bytes : List ℕ) (rows : List Cell)
        → S.told file.old.source ≡ Some bytes
        → FileIs bytes file.old.tail rows
        → Findings bytes file.old.tail rows []
        → column < width file.old.tail.schema
        → IfErr result (λ e. (e ≡ fault.OutOfMemory) ⊎ (e ≡ fault.SourceFailed)) }
{
    // for its contract alone: a file without findings has the statistics and row indexes of its rows
    finding_laws();
    if column >= file.schema().width() {
        return Err(FileFault::Stripe(stripe, StripeFault::BadPosition(Spot::Column(column))));
    }
    if file.tail().stride == 0 {
        return keep_by_statistic(file.tail(), stripe, column, test, places);
    }
    keep_groups_of_stripe(alloc, file, stripe, column, test, places)
}

/// Returns the groups of a file's rows that the bold rule keeps, stripe by stripe, by the statistics of a column.
fn keep_in_stripes<S: Source>(
    alloc: Global,
    file: &mut OrcFile<S>,
    column: usize,
    test: &Test,
) -> Result<Vec<GroupPlace>, FileFault>
    requires uncapped { file.old.cap ≡ no_cap }
    ensures kept { (bytes : List ℕ) (rows : List Cell)
        → S.told file.old.source ≡ Some bytes
        → FileIs bytes file.old.tail rows
        → Findings bytes file.old.tail rows []
        → IfOk result (λ places. AreGroupsKept bytes file.old.tail column (predicate test.now)
        (length file.old.tail.stripes) places.items) }
    ensures only { (bytes : List ℕ) (rows : List Cell)
        → S.told file.old.source ≡ Some bytes
        → FileIs bytes file.old.tail rows
        → Findings bytes file.old.tail rows []
        → column < width file.old.tail.schema
        → IfErr result (λ e. (e ≡ fault.OutOfMemory) ⊎ (e ≡ fault.SourceFailed)) }
{
    let mut places = Vec::new(alloc);
    for stripe in 0..file.tail().stripes.as_slice().len() {
        keep_in_stripe(alloc, file, stripe, column, test, &mut places)?;
    }
    Ok(places)
}

/// Returns the groups of the rows of a file in memory that the bold rule keeps, by the statistics of a column.
fn keep_in_file(
    alloc: Global,
    bytes: &[u8],
    column: usize,
    test: &Test,
) -> Result<Vec<GroupPlace>, FileFault>
    ensures kept { (tail : Tail) (rows : List Cell)
        → FileIs bytes.now tail rows
        → Findings bytes.now tail rows []
        → IfOk result (λ places. AreGroupsKept bytes.now tail column (predicate test.now)
        (length tail.stripes) places.items) }
    ensures only { (tail : Tail) (rows : List Cell)
        → FileIs bytes.now tail rows
        → Findings bytes.now tail rows []
        → column < width tail.schema
        → IfErr result (λ e. (e ≡ fault.OutOfMemory) ⊎ (e ≡ fault.SourceFailed)) }
{
    // for its contract alone: bytes have one tail
    tail_laws();
    let mut file = opened(alloc, bytes)?;
    keep_in_stripes(alloc, &mut file, column, test)
}

/// Checks a file and, if it has no findings, returns the groups of its rows that the bold rule keeps, in order, by the
/// statistics that the file stores of a column. Returns `None` if the file has findings. In a file without row groups
/// each stripe counts as one group with the number 0. Each row that matches lies in one of the returned groups, by
/// clause `bold` of `skipping_in_files`.
///
/// # Errors
///
/// - Those of `check`, and of opening the file and loading its stripes.
/// - `Stripe` with `BadPosition` if the file has a stripe but no such column.
pub fn matching_groups(
    alloc: Global,
    bytes: &[u8],
    column: usize,
    test: &Test,
) -> Result<Option<Vec<GroupPlace>>, FileFault>
    // If groups are returned, then `bytes` are a file with rows and no findings, and the groups are exactly those that
    // the bold rule keeps by the entries of the column's row indexes, stripe by stripe. If the file has no row groups,
    // they are the stripes that the rule keeps by the column's statistics in the tail.
    ensures kept { IfOk result (λ answer. IfSome answer (λ places.
        (tail : Tail) × (rows : List Cell) × FileIs bytes.now tail rows × Findings bytes.now tail rows []
        × AreGroupsKept bytes.now tail column (predicate test.now) (length tail.stripes) places.items)) }
    // If groups are returned, then the test, said of the column, is true of no row of a group that isn't among them.
    ensures others { IfOk result (λ answer. IfSome answer (λ places.
        (tail : Tail) (rows : List Cell) (place : GroupPlace) (part : List Cell)
        → FileIs bytes.now tail rows
        → AreRowsAt tail rows place part
        → Contains places.items place ⊎ NoneMatches tail.schema (said_of column (predicate test.now)) part)) }
    // If `None` is returned, then `bytes` are a file with rows and with at least one finding.
    ensures found { IfOk result (λ answer. answer ≡ None
        → (found : List Finding) × AreFound bytes.now found × (found ≢ [])) }
    // If `bytes` are a file with rows that has the column, then an error is `OutOfMemory` or `SourceFailed`.
    ensures only { (tail : Tail) (rows : List Cell) → FileIs bytes.now tail rows → column < width tail.schema
        → IfErr result (λ e. (e ≡ fault.OutOfMemory) ⊎ (e ≡ fault.SourceFailed)) }
{
    // each for its contract alone: a group that the bold rule skips has no row that matches, and a file without
    // findings has each row index
    skipping_in_files();
    skipping_laws();
    finding_laws();
    let found = found_in(alloc, bytes)?;
    if !found.is_empty() {
        return Ok(None);
    }
    match keep_in_file(alloc, bytes, column, test) {
        Ok(places) => Ok(Some(places)),
        Err(fault) => Err(fault),
    }
}
