//! PRESENT of a column without those below it: how many of its cells are not null.
ghost use Rattle.std.specs.Prelude.{◌≡◌, ◌≢◌, ◌+◌, ◌∷◌, [], ℕ, Bool, false, List, length, map, IfOk, IfErr, OnOk, OnErr};
ghost use Rattle.orc_column_reader.specs.Columns.{MarksLeft};
ghost use Rattle.orc_column_reader.specs.Faults.{RunsFail};
ghost use Rattle.orc_column_reader.specs.Fronts.{Leaves, Lacks};
ghost use Rattle.orc_column_reader.specs.RunFaults.{Always};
ghost use Rattle.orc_column_reader.specs.RunsMet.{MarksMeet};
ghost use Rattle.orc_directory.specs.declared.fault.StripeFault.{StripeFault as Fault};
ghost use Rattle.orc_directory.specs.declared.fault.StripeFault.TheVariants.{OutOfMemory};
ghost use Rattle.orc_directory.specs.declared.fault.StreamKind.TheVariants.{Present};
ghost use Rattle.orc_row_groups.specs.Bounds.{AreBounds, bound_at};
ghost use Rattle.orc_column_walk.specs.Passed.{trues_before};
ghost use Rattle.orc_values.specs.Trues.{trues};

use crate::bounds::bound_of;
use orc_column_reader::{Bits, marks_end, marks_left, next_mark};
use orc_directory::{StreamKind, StripeFault, run_fault};
use std::alloc::{AllocError, Global};

/// Returns how many values a cell with this mark is.
fn value_count(mark: bool) -> usize
    ensures { result ≡ trues (mark ∷ []) }
{
    if mark { 1 } else { 0 }
}

/// Reads the next `count` marks and returns how many are true.
fn read_marks(
    column: usize,
    present: &mut Option<Bits<'_>>,
    count: usize,
) -> Result<usize, StripeFault>
    ensures found { IfOk result (λ values. (marks : List Bool)
        × (length marks ≡ count)
        × Leaves (MarksLeft present.old) (MarksLeft present.new) marks
        × (values ≡ trues marks)) }
    ensures none { OnErr result (Lacks (MarksLeft present.old) count) }
    ensures before { OnOk result ((all : Bool) (n : ℕ) (f : Fault)
        → RunsFail Present column (Always all n (MarksMeet present.new)) f
        → RunsFail Present column (Always all (count + n) (MarksMeet present.old)) f) }
    ensures fault { IfErr result (λ cause. cause ≢ OutOfMemory
        → (n : ℕ) → RunsFail Present column (Always false (count + n) (MarksMeet present.old)) cause) }
{
    let mut values = 0;
    for _ in 0..count {
        values += value_count(next_mark(column, present)?);
    }
    Ok(values)
}

/// How many of a column's cells are values, and how many of the values come before each group.
#[derive(Drop)]
pub(crate) struct ValueBounds {
    pub(crate) values: usize,
    pub(crate) before: Vec<usize>,
}

/// Reads the marks of all groups, one group after the other. `bounds` are how many of the cells come before each
/// group.
fn read_groups_marks(
    alloc: Global,
    column: usize,
    present: &mut Option<Bits<'_>>,
    count: usize,
    bounds: &[usize],
) -> Result<ValueBounds, StripeFault>
    requires bounds { AreBounds count bounds.now }
    requires first { bound_at count bounds.now 0 ≡ 0 }
    ensures found { IfOk result (λ found. (marks : List Bool)
        × (length marks ≡ count)
        × Leaves (MarksLeft present.old) (MarksLeft present.new) marks
        × (found.values ≡ trues marks)
        × (found.before.items ≡ map (trues_before marks) bounds.now)) }
    ensures none { IfErr result (λ fault. fault ≢ OutOfMemory → Lacks (MarksLeft present.old) count) }
    ensures before { OnOk result ((all : Bool) (n : ℕ) (f : Fault)
        → RunsFail Present column (Always all n (MarksMeet present.new)) f
        → RunsFail Present column (Always all (count + n) (MarksMeet present.old)) f) }
    ensures fault { IfErr result (λ cause. cause ≢ OutOfMemory
        → RunsFail Present column (Always false count (MarksMeet present.old)) cause) }
{
    let mut values = 0;
    let mut before = Vec::new(alloc);
    for group in 0..bounds.len() {
        let cells = bound_of(bounds, group + 1, count) - bound_of(bounds, group, count);
        before.push(values)?;
        match read_marks(column, present, cells) {
            Ok(more) => values += more,
            Err(fault) => return Err(fault),
        }
    }
    Ok(ValueBounds { values, before })
}

/// Copies bounds.
fn copy_bounds(alloc: Global, bounds: &[usize]) -> Result<Vec<usize>, AllocError>
    ensures { IfOk result (λ copy. copy.items ≡ bounds.now) }
{
    let mut copy = Vec::new(alloc);
    copy.extend_from_slice(bounds)?;
    Ok(copy)
}

/// Reads all marks of a column, of which there must be `count`, and returns how many cells are values, and how many
/// of these come before each group. If there is no PRESENT, all cells are values, and none is looked at.
pub(crate) fn count_values_by_group(
    alloc: Global,
    column: usize,
    present: &mut Option<Bits<'_>>,
    count: usize,
    bounds: &[usize],
) -> Result<ValueBounds, StripeFault>
    requires bounds { AreBounds count bounds.now }
    requires first { bound_at count bounds.now 0 ≡ 0 }
    ensures found { IfOk result (λ found. (marks : List Bool)
        × (length marks ≡ count)
        × MarksLeft present.old marks
        × (found.values ≡ trues marks)
        × (found.before.items ≡ map (trues_before marks) bounds.now)) }
    ensures none { IfErr result (λ fault. fault ≢ OutOfMemory
        → (marks : List Bool) → MarksLeft present.old marks → length marks ≡ count → ⊥) }
    ensures fault { IfErr result (λ cause. cause ≢ OutOfMemory
        → (all : Bool) × RunsFail Present column (Always all count (MarksMeet present.old)) cause) }
{
    if present.is_none() {
        return Ok(ValueBounds {
            values: count,
            before: copy_bounds(alloc, bounds)?,
        });
    }
    match read_groups_marks(alloc, column, present, count, bounds) {
        Ok(found) => {
            if !marks_end(present) {
                return Err(run_fault(column, StreamKind::Present, marks_left(present)));
            }
            Ok(found)
        }
        Err(fault) => Err(fault),
    }
}

/// Reads all marks of a column, of which there must be `count`, and returns how many cells are values. If there is no
/// PRESENT, all cells are values, and none is looked at.
pub(crate) fn count_values(
    column: usize,
    present: &mut Option<Bits<'_>>,
    count: usize,
) -> Result<usize, StripeFault>
    ensures found { IfOk result (λ values. (marks : List Bool)
        × (length marks ≡ count)
        × MarksLeft present.old marks
        × (values ≡ trues marks)) }
    ensures none { IfErr result (λ fault. fault ≢ OutOfMemory
        → (marks : List Bool) → MarksLeft present.old marks → length marks ≡ count → ⊥) }
    ensures fault { IfErr result (λ cause. cause ≢ OutOfMemory
        → (all : Bool) × RunsFail Present column (Always all count (MarksMeet present.old)) cause) }
{
    if present.is_none() {
        return Ok(count);
    }
    let values = read_marks(column, present, count)?;
    if !marks_end(present) {
        return Err(run_fault(column, StreamKind::Present, marks_left(present)));
    }
    Ok(values)
}
