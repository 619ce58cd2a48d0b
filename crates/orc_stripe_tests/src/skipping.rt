//! Which rows the bold rule keeps, by statistics of each kind, by their messages and by the entries of a row index. The
//! wanted answers were worked out by hand.

mod tables;

use crate::assertions::demand;
use orc_skipping::{Comparison, Constant, GroupPlace, Test, keep_groups, keeps, keeps_message};
use orc_stats::{Stat, StatKind};
use orc_wire::{ColumnStats, Message, RowIndexMsg};
use std::alloc::{AllocError, Global};
use std::process::Abort;
use tables::{BETWEEN, COMPARED, INDEX, MESSAGES, NULLS, ONE_OF, Operand, Told};

/// No row of a table has another answer than the wanted one.
fn none_differs(rt: &impl Abort, row: Result<Option<usize>, AllocError>) {
    assert_eq!(rt; row, Ok(None));
}

/// The message that bytes spell. Of the bytes of the tables, want of memory alone refuses any.
fn message_of(alloc: Global, bytes: &[u8]) -> Result<ColumnStats, AllocError> {
    match ColumnStats::read(alloc, bytes) {
        Ok(message) => Ok(message),
        Err(_) => Err(AllocError),
    }
}

/// The statistic that a column's message stores.
fn stat_of(alloc: Global, told: Told) -> Result<Box<Stat>, AllocError> {
    let message = message_of(alloc, told.1)?;
    match Stat::read(alloc, told.0, &message) {
        Ok(stat) => Ok(Box::new(alloc, stat)?),
        Err(_) => Err(AllocError),
    }
}

/// A copy of bytes.
fn copy_of(alloc: Global, bytes: &[u8]) -> Result<Vec<u8>, AllocError> {
    let mut copy = Vec::new(alloc);
    copy.extend_from_slice(bytes)?;
    Ok(copy)
}

/// The constant that an operand stands for.
fn constant_of(alloc: Global, operand: Operand) -> Result<Constant, AllocError> {
    match operand {
        Operand::Bool(value) => Ok(Constant::Bool(value)),
        Operand::Int(value) => Ok(Constant::Int(value)),
        Operand::Date(days) => Ok(Constant::Date(days)),
        Operand::Text(text) => Ok(Constant::Text(copy_of(alloc, text.as_bytes())?)),
        Operand::Bytes(bytes) => Ok(Constant::Bytes(copy_of(alloc, bytes)?)),
    }
}

/// The test that compares with an operand.
fn compared(
    alloc: Global,
    comparison: Comparison,
    operand: Operand,
) -> Result<Box<Test>, AllocError> {
    let constant = constant_of(alloc, operand)?;
    Ok(Box::new(alloc, Test::Compare(comparison, constant))?)
}

/// The test `BETWEEN low AND high`.
fn between(alloc: Global, low: i64, high: i64) -> Result<Box<Test>, AllocError> {
    let below = compared(alloc, Comparison::Below, Operand::Int(low))?;
    let from_low = Box::new(alloc, Test::Not(below))?;
    let up_to_high = compared(alloc, Comparison::AtMost, Operand::Int(high))?;
    Ok(Box::new(alloc, Test::Both(from_low, up_to_high))?)
}

/// The test `IN (first, second)`.
fn one_of(alloc: Global, first: i64, second: i64) -> Result<Box<Test>, AllocError> {
    let is_first = compared(alloc, Comparison::Equal, Operand::Int(first))?;
    let is_second = compared(alloc, Comparison::Equal, Operand::Int(second))?;
    Ok(Box::new(alloc, Test::Either(is_first, is_second))?)
}

/// Whether the rule keeps the rows for a test, and for its negation.
fn kept(alloc: Global, told: Told, test: Box<Test>) -> Result<(bool, bool), AllocError> {
    let stat = stat_of(alloc, told)?;
    let kept = keeps(&stat, &test);
    let negated = Box::new(alloc, Test::Not(test))?;
    Ok((kept, keeps(&stat, &negated)))
}

/// The first row of the comparisons for which the rule answers otherwise.
fn wrong_comparison(alloc: Global) -> Result<Option<usize>, AllocError> {
    for (row, (told, comparison, operand, wanted)) in COMPARED.iter().enumerate() {
        let test = compared(alloc, *comparison, *operand)?;
        if kept(alloc, *told, test)? != *wanted {
            return Ok(Some(row));
        }
    }
    Ok(None)
}

#[test]
fn comparisons(rt: HostRuntime) {
    none_differs(&rt, wrong_comparison(rt.alloc()));
}

/// The first row for which the rule answers otherwise to `IS NULL`, or to `IS NOT NULL`.
fn wrong_null(alloc: Global) -> Result<Option<usize>, AllocError> {
    for (row, (told, wanted)) in NULLS.iter().enumerate() {
        let test = Box::new(alloc, Test::IsNull)?;
        if kept(alloc, *told, test)? != *wanted {
            return Ok(Some(row));
        }
    }
    Ok(None)
}

#[test]
fn nulls(rt: HostRuntime) {
    none_differs(&rt, wrong_null(rt.alloc()));
}

/// The first row for which the rule answers otherwise to `BETWEEN`.
fn wrong_between(alloc: Global) -> Result<Option<usize>, AllocError> {
    for (row, (told, low, high, wanted)) in BETWEEN.iter().enumerate() {
        let test = between(alloc, *low, *high)?;
        if kept(alloc, *told, test)? != *wanted {
            return Ok(Some(row));
        }
    }
    Ok(None)
}

/// The first row for which the rule answers otherwise to `IN`.
fn wrong_one_of(alloc: Global) -> Result<Option<usize>, AllocError> {
    for (row, (told, first, second, wanted)) in ONE_OF.iter().enumerate() {
        let test = one_of(alloc, *first, *second)?;
        if kept(alloc, *told, test)? != *wanted {
            return Ok(Some(row));
        }
    }
    Ok(None)
}

#[test]
fn ranges_and_lists(rt: HostRuntime) {
    none_differs(&rt, wrong_between(rt.alloc()));
    none_differs(&rt, wrong_one_of(rt.alloc()));
}

/// Whether the rule keeps the rows for `= 8`, by the message of their column, if there is one.
fn kept_by_message(alloc: Global, told: Option<Told>) -> Result<bool, AllocError> {
    let test = Test::Compare(Comparison::Equal, Constant::Int(8));
    match told {
        None => keeps_message(alloc, &None, StatKind::Ints, &test),
        Some((kind, bytes)) => {
            let message = Some(message_of(alloc, bytes)?);
            keeps_message(alloc, &message, kind, &test)
        }
    }
}

/// The first message for which the rule answers otherwise.
fn wrong_message(alloc: Global) -> Result<Option<usize>, AllocError> {
    for (row, (told, wanted)) in MESSAGES.iter().enumerate() {
        if kept_by_message(alloc, *told)? != *wanted {
            return Ok(Some(row));
        }
    }
    Ok(None)
}

#[test]
fn messages(rt: HostRuntime) {
    none_differs(&rt, wrong_message(rt.alloc()));
}

/// Appends the groups of stripe 4 that the rule keeps to a group of stripe 1.
fn groups_kept(alloc: Global, test: &Test) -> Result<Vec<GroupPlace>, AllocError> {
    let Ok(index) = RowIndexMsg::read(alloc, &INDEX) else {
        return Err(AllocError);
    };
    let mut places = Vec::new(alloc);
    places.push(GroupPlace {
        stripe: 1,
        group: 7,
    })?;
    keep_groups(
        alloc,
        index.entries.as_slice(),
        StatKind::Ints,
        4,
        test,
        &mut places,
    )?;
    Ok(places)
}

/// Whether the rule keeps these groups of stripe 4 for a comparison with a number, and leaves the group that was there.
fn are_kept(
    alloc: Global,
    comparison: Comparison,
    number: i64,
    wanted: &[usize],
) -> Result<bool, AllocError> {
    let test = Test::Compare(comparison, Constant::Int(number));
    let places = groups_kept(alloc, &test)?;
    let [before, found @ ..] = places.as_slice() else {
        return Ok(false);
    };
    Ok((before.stripe, before.group) == (1, 7) && are_groups(found, wanted))
}

/// Whether the places are these groups of stripe 4.
fn are_groups(places: &[GroupPlace], groups: &[usize]) -> bool {
    if places.len() != groups.len() {
        return false;
    }
    for (place, group) in places.iter().zip(groups) {
        if (place.stripe, place.group) != (4, *group) {
            return false;
        }
    }
    true
}

#[test]
fn groups(rt: HostRuntime) {
    let alloc = rt.alloc();
    let equal = are_kept(alloc, Comparison::Equal, 2, &[0, 1]);
    demand(&rt, equal == Ok(true), "the groups for `= 2`");
    let below = are_kept(alloc, Comparison::Below, 9, &[0, 1, 2]);
    demand(&rt, below == Ok(true), "the groups for `< 9`");
    let at_most = are_kept(alloc, Comparison::AtMost, 0, &[1]);
    demand(&rt, at_most == Ok(true), "the groups for `<= 0`");
}
