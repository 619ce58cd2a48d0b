//! Groups of rows that are kept by the statistics of a column.
use crate::assertions::check_same;
use crate::calls::kept;
use orc_file::FileFault;
use orc_skipping::{Comparison, Constant, GroupPlace, Test};
use orc_stripe::{Spot, StripeFault};
use orc_test_kit::{EMPTY, LISTS_BEFORE, SEVENS, TWICE, UPWARDS};
use std::alloc::Global;
use std::process::Abort;

fn at(stripe: usize, group: usize) -> GroupPlace {
    GroupPlace { stripe, group }
}

/// These groups of a file are kept, or it has findings.
fn check_kept(
    rt: &impl Abort,
    alloc: Global,
    bytes: &[u8],
    column: usize,
    test: &Test,
    wanted: Option<&[GroupPlace]>,
) -> Result<(), FileFault> {
    match kept(alloc, bytes, column, test)? {
        Some(places) => check_same(rt, "groups", &Some(places.as_slice()), &wanted),
        None => check_same(rt, "findings", &None, &wanted),
    }
    Ok(())
}

#[test]
fn groups_of_elements(rt: HostRuntime) -> Result<(), FileFault> {
    // in groups of two rows, the inner lists have 1 and 2, then 3, then 4 to 6
    let three = Test::Compare(Comparison::Equal, Constant::Int(3));
    check_kept(&rt, rt.alloc(), &LISTS_BEFORE, 3, &three, Some(&[at(0, 1)]))?;
    let up_to_three = Test::Compare(Comparison::AtMost, Constant::Int(3));
    check_kept(
        &rt,
        rt.alloc(),
        &LISTS_BEFORE,
        3,
        &up_to_three,
        Some(&[at(0, 0), at(0, 1)]),
    )?;
    let above = Test::Not(Box::new(rt.alloc(), up_to_three)?);
    check_kept(&rt, rt.alloc(), &LISTS_BEFORE, 3, &above, Some(&[at(0, 2)]))
}

#[test]
fn groups_with_nulls(rt: HostRuntime) -> Result<(), FileFault> {
    // the second row's list is null, and one of the inner lists of the fourth
    check_kept(
        &rt,
        rt.alloc(),
        &LISTS_BEFORE,
        1,
        &Test::IsNull,
        Some(&[at(0, 0)]),
    )?;
    check_kept(
        &rt,
        rt.alloc(),
        &LISTS_BEFORE,
        2,
        &Test::IsNull,
        Some(&[at(0, 1)]),
    )
}

#[test]
fn stripes_without_groups(rt: HostRuntime) -> Result<(), FileFault> {
    let seven = Test::Compare(Comparison::Equal, Constant::Int(7));
    check_kept(
        &rt,
        rt.alloc(),
        &TWICE,
        1,
        &seven,
        Some(&[at(0, 0), at(1, 0)]),
    )?;
    let less = Test::Compare(Comparison::Below, Constant::Int(7));
    check_kept(&rt, rt.alloc(), &TWICE, 1, &less, Some(&[]))?;
    check_kept(&rt, rt.alloc(), &EMPTY, 1, &seven, Some(&[]))
}

#[test]
fn a_file_with_findings(rt: HostRuntime) -> Result<(), FileFault> {
    check_kept(&rt, rt.alloc(), &UPWARDS, 1, &Test::IsNull, None)
}

#[test]
fn no_such_column(rt: HostRuntime) {
    let fault = kept(rt.alloc(), &SEVENS, 2, &Test::IsNull).err();
    let wanted = StripeFault::BadPosition(Spot::Column(2));
    check_same(&rt, "fault", &fault, &Some(FileFault::Stripe(0, wanted)));
}
