//! The values of a column, counted group by group. Only the least and the greatest text are kept.
ghost use Rattle.std.specs.Prelude.{◌≡◌, ◌≢◌, ◌<◌, ◌≤◌, ◌+◌, ◌-◌, ◌^◌, ◌++◌, ℕ, Bool, false, List, length, map, take, IfOk, IfErr, OnOk, OnErr};
ghost use Rattle.orc_values.specs.Cells.{Cell, values as values_of};
ghost use Rattle.orc_values.specs.Views.{shape};
ghost use Rattle.orc_column_reader.specs.Fronts.{Leaves, Lacks};
ghost use Rattle.orc_column_reader.specs.ReaderFaults.{ValuesMeet};
ghost use Rattle.orc_values.specs.Limits.{cell_limit};
ghost use Rattle.orc_directory.specs.declared.fault.StripeFault.{StripeFault as Fault};
ghost use Rattle.orc_directory.specs.declared.fault.StripeFault.TheVariants.{OutOfMemory};
ghost use Rattle.orc_row_groups.specs.Bounds.{AreBounds, bound_at};
ghost use Rattle.orc_stats.specs.Kinds.{kind_of};
ghost use Rattle.orc_stats.specs.Tallies.{together, cells_kept, stat_of_kept};
ghost use Rattle.orc_column_walk.specs.ColumnFound.{IsColumnFound};
ghost use Rattle.orc_column_walk.specs.OwnLeft.{OwnValuesLeft};
ghost use Rattle.orc_column_walk.specs.Passed.{IsPassed, HavePassedValues, AreValueBounds, AreGroupsCounted};

use crate::bounds::bound_of;
use crate::found::{ColumnFound, GroupFound};
use crate::next_value::{AnyValues, ListValues, NextValue, NumberValues, TextValues};
use crate::own_values::{values_end, values_left};
use crate::passed::Passed;
use orc_column_reader::ValueSource;
use orc_directory::StripeFault;
use orc_stats::{Bins, Bools, Children, Counted, Dates, Ints, Plain, Stat, StatKind, Tally, Texts};
use orc_values::{Own, Tree};
use std::alloc::{AllocError, Global};

/// The groups of a column's cells: how many of the cells come before each group, and how many of the values.
#[derive(Clone, Copy)]
pub(crate) struct GroupBounds<'b> {
    pub(crate) count: usize,
    pub(crate) bounds: &'b [usize],
    pub(crate) values: usize,
    pub(crate) value_bounds: &'b [usize],
}

/// Reads the next `count` values and counts each. `V` is the way to the next value.
fn read_values<'a, T: Tally<'a>, V: NextValue>(
    tree: &Tree,
    source: &mut ValueSource<'a>,
    count: usize,
    before: Passed,
    tally: &mut T,
) -> Result<Passed, StripeFault>
    requires kind { T.kind ≡ kind_of (shape tree.now) }
    requires most { (T.kept tally.old).count + count ≤ 2 ^ 62 }
    requires cells { before.counts.cells + count < 2 ^ 64 }
    requires values { before.counts.values + count < 2 ^ 64 }
    ensures found { IfOk result (λ passed. (values : List Cell)
        × (length values ≡ count)
        × Leaves (OwnValuesLeft (shape tree.now) source.old) (OwnValuesLeft (shape tree.now) source.new) values
        × (values_of values ≡ values)
        × (T.kept tally.new ≡ together T.measure (T.kept tally.old) (cells_kept T.measure values))
        × ((cells : List Cell) → IsPassed (shape tree.now) cells before
        → IsPassed (shape tree.now) (cells ++ values) passed)) }
    ensures cells { IfOk result (λ passed. passed.counts.cells ≡ before.counts.cells + count) }
    ensures values { IfOk result (λ passed. passed.counts.values ≤ before.counts.values + count) }
    ensures none { OnErr result (Lacks (OwnValuesLeft (shape tree.now) source.old) count) }
    ensures before { OnOk result ((all : Bool) (n : ℕ) (f : Fault)
        → ValuesMeet (shape tree.now) source.new all n f
        → ValuesMeet (shape tree.now) source.old all (count + n) f) }
    ensures fault { IfErr result (λ cause. cause ≢ OutOfMemory
        → (n : ℕ) → ValuesMeet (shape tree.now) source.old false (count + n) cause) }
{
    let mut passed = before;
    for _ in 0..count {
        match V::next(tree, source) {
            Ok(own) => {
                tally.add_own(own);
                passed = passed.add(own);
            }
            Err(fault) => return Err(fault),
        }
    }
    Ok(passed)
}

/// Reads the next `cells` cells, of which `count` are values, and counts each.
fn read_part<'a, T: Tally<'a>, V: NextValue>(
    tree: &Tree,
    source: &mut ValueSource<'a>,
    cells: usize,
    count: usize,
    before: Passed,
    tally: &mut T,
) -> Result<Passed, StripeFault>
    requires kind { T.kind ≡ kind_of (shape tree.now) }
    requires few { count ≤ cells }
    requires most { (T.kept tally.old).count + count ≤ 2 ^ 62 }
    requires cells { before.counts.cells + cells < 2 ^ 64 }
    requires values { before.counts.values + count < 2 ^ 64 }
    ensures found { IfOk result (λ passed. (values : List Cell)
        × (length values ≡ count)
        × Leaves (OwnValuesLeft (shape tree.now) source.old) (OwnValuesLeft (shape tree.now) source.new) values
        × ((part : List Cell) → values_of part ≡ values → length part ≡ cells
        → (T.kept tally.new ≡ together T.measure (T.kept tally.old) (cells_kept T.measure part))
        × ((front : List Cell) → IsPassed (shape tree.now) front before
        → IsPassed (shape tree.now) (front ++ part) passed))) }
    ensures counted { OnOk result ((T.kept tally.new).count ≡ (T.kept tally.old).count + count) }
    ensures cells { IfOk result (λ passed. passed.counts.cells ≡ before.counts.cells + cells) }
    ensures values { IfOk result (λ passed. passed.counts.values ≤ before.counts.values + count) }
    ensures none { OnErr result (Lacks (OwnValuesLeft (shape tree.now) source.old) count) }
    ensures before { OnOk result ((all : Bool) (n : ℕ) (f : Fault)
        → ValuesMeet (shape tree.now) source.new all n f
        → ValuesMeet (shape tree.now) source.old all (count + n) f) }
    ensures fault { IfErr result (λ cause. cause ≢ OutOfMemory
        → (n : ℕ) → ValuesMeet (shape tree.now) source.old false (count + n) cause) }
{
    match read_values::<T, V>(tree, source, count, before, tally) {
        Ok(passed) => {
            if count < cells {
                tally.add_own(Own::Null);
            }
            Ok(passed.pad(cells, count))
        }
        Err(fault) => Err(fault),
    }
}

/// Returns the statistic of what was counted.
fn statistic_of<'a, T: Tally<'a>>(alloc: Global, tally: &T) -> Result<Stat, AllocError>
    ensures { IfOk result (λ found. found ≡ stat_of_kept T.measure (T.kept tally.now)) }
{
    match tally.close(alloc) {
        Ok(stat) => Ok(stat),
        Err(_) => Err(AllocError),
    }
}

/// Reads the values of all groups and counts them group by group. Each value is counted once, and the groups' tallies
/// are joined.
fn count_groups<'a, T: Tally<'a>, V: NextValue>(
    alloc: Global,
    tree: &Tree,
    source: &mut ValueSource<'a>,
    groups: GroupBounds<'_>,
) -> Result<ColumnFound, StripeFault>
    requires kind { T.kind ≡ kind_of (shape tree.now) }
    requires few { groups.count < cell_limit }
    requires bounds { AreBounds groups.count groups.bounds.now }
    requires first { bound_at groups.count groups.bounds.now 0 ≡ 0 }
    requires values { AreValueBounds groups.count groups.bounds.now groups.values groups.value_bounds.now }
    ensures found { IfOk result (λ found. (read : List Cell)
        × (length read ≡ groups.entry.values)
        × Leaves (OwnValuesLeft (shape tree.now) source.old) (OwnValuesLeft (shape tree.now) source.new) read
        × ((cells : List Cell) → HavePassedValues groups.entry.count groups.entry.bounds.now groups.entry.value_bounds.now read cells
        → AreGroupsCounted (shape tree.now) cells groups.entry.bounds.now found)) }
    ensures none { IfErr result (λ fault. fault ≢ OutOfMemory
        → Lacks (OwnValuesLeft (shape tree.now) source.old) groups.entry.values) }
    ensures before { OnOk result ((all : Bool) (n : ℕ) (f : Fault)
        → ValuesMeet (shape tree.now) source.new all n f
        → ValuesMeet (shape tree.now) source.old all (groups.entry.values + n) f) }
    ensures fault { IfErr result (λ cause. cause ≢ OutOfMemory
        → ValuesMeet (shape tree.now) source.old false groups.entry.values cause) }
{
    let mut whole = T::unit();
    let mut passed = Passed::nothing();
    let mut found = Vec::with_capacity(alloc, groups.bounds.len())?;
    let mut bounds_below = Vec::with_capacity(alloc, groups.bounds.len())?;
    for group in 0..groups.bounds.len() {
        let cells = bound_of(groups.bounds, group + 1, groups.count)
            - bound_of(groups.bounds, group, groups.count);
        let part = bound_of(groups.value_bounds, group + 1, groups.values)
            - bound_of(groups.value_bounds, group, groups.values);
        let before = passed;
        let mut tally = T::unit();
        match read_part::<T, V>(tree, source, cells, part, before, &mut tally) {
            Ok(after) => passed = after,
            Err(fault) => return Err(fault),
        }
        let stat = statistic_of(alloc, &tally)?;
        found.push(GroupFound {
            stat,
            before: before.counts,
        })?;
        bounds_below.push(before.children)?;
        whole.join(&tally);
    }
    Ok(ColumnFound {
        stat: statistic_of(alloc, &whole)?,
        groups: found,
        below: passed.children,
        bounds_below,
    })
}

/// Reads the values of all groups and counts them group by group, with the tally for the column's kind.
fn count_by_kind(
    alloc: Global,
    tree: &Tree,
    source: &mut ValueSource<'_>,
    groups: GroupBounds<'_>,
) -> Result<ColumnFound, StripeFault>
    requires few { groups.count < cell_limit }
    requires bounds { AreBounds groups.count groups.bounds.now }
    requires first { bound_at groups.count groups.bounds.now 0 ≡ 0 }
    requires values { AreValueBounds groups.count groups.bounds.now groups.values groups.value_bounds.now }
    ensures found { IfOk result (λ found. (read : List Cell)
        × (length read ≡ groups.entry.values)
        × Leaves (OwnValuesLeft (shape tree.now) source.old) (OwnValuesLeft (shape tree.now) source.new) read
        × ((cells : List Cell) → HavePassedValues groups.entry.count groups.entry.bounds.now groups.entry.value_bounds.now read cells
        → AreGroupsCounted (shape tree.now) cells groups.entry.bounds.now found)) }
    ensures none { IfErr result (λ fault. fault ≢ OutOfMemory
        → Lacks (OwnValuesLeft (shape tree.now) source.old) groups.entry.values) }
    ensures before { OnOk result ((all : Bool) (n : ℕ) (f : Fault)
        → ValuesMeet (shape tree.now) source.new all n f
        → ValuesMeet (shape tree.now) source.old all (groups.entry.values + n) f) }
    ensures fault { IfErr result (λ cause. cause ≢ OutOfMemory
        → ValuesMeet (shape tree.now) source.old false groups.entry.values cause) }
{
    match StatKind::of_type(tree) {
        StatKind::Plain => count_groups::<Counted<Plain>, AnyValues>(alloc, tree, source, groups),
        StatKind::Ints => count_groups::<Counted<Ints>, NumberValues>(alloc, tree, source, groups),
        StatKind::Bools => count_groups::<Counted<Bools>, AnyValues>(alloc, tree, source, groups),
        StatKind::Dates => count_groups::<Counted<Dates>, AnyValues>(alloc, tree, source, groups),
        StatKind::Texts => count_groups::<Counted<Texts<'_>>, TextValues>(
            alloc, tree, source, groups,
        ),
        StatKind::Bins => count_groups::<Counted<Bins>, AnyValues>(alloc, tree, source, groups),
        StatKind::Children => count_groups::<Counted<Children>, ListValues>(
            alloc, tree, source, groups,
        ),
    }
}

/// Reads all values of a column, of which there must be `groups.values`, and counts them group by group.
pub(crate) fn find_values(
    alloc: Global,
    tree: &Tree,
    source: &mut ValueSource<'_>,
    groups: GroupBounds<'_>,
) -> Result<ColumnFound, StripeFault>
    requires few { groups.count < cell_limit }
    requires bounds { AreBounds groups.count groups.bounds.now }
    requires first { bound_at groups.count groups.bounds.now 0 ≡ 0 }
    requires values { AreValueBounds groups.count groups.bounds.now groups.values groups.value_bounds.now }
    ensures found { IfOk result (λ found. (read : List Cell)
        × (length read ≡ groups.entry.values)
        × OwnValuesLeft (shape tree.now) source.old read
        × ((cells : List Cell) → HavePassedValues groups.entry.count groups.entry.bounds.now groups.entry.value_bounds.now read cells
        → IsColumnFound (shape tree.now) cells groups.entry.bounds.now found)) }
    ensures none { IfErr result (λ fault. fault ≢ OutOfMemory
        → (read : List Cell) → OwnValuesLeft (shape tree.now) source.old read → length read ≡ groups.entry.values → ⊥) }
    ensures fault { IfErr result (λ cause. cause ≢ OutOfMemory
        → (all : Bool) × ValuesMeet (shape tree.now) source.old all groups.entry.values cause) }
{
    // for the proof: a number that is read is known to fit 64 bits
    let _room = source.room;
    match count_by_kind(alloc, tree, source, groups) {
        Ok(found) => {
            if !values_end(tree, source) {
                return Err(values_left(tree, source));
            }
            Ok(found)
        }
        Err(fault) => Err(fault),
    }
}
