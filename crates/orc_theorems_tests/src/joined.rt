//! Files that are joined in memory.
use crate::assertions::{check_bytes, check_numbers, check_same};
use crate::calls::{both_ways, findings, groupings, joined, orders, steps, steps_checked};
use orc_file::FileFault;
use orc_merge::MergeFault;
use orc_test_kit::{EMPTY, SEVENS, TWICE, UPWARDS};
use orc_theorems::CallFault;

#[test]
fn three_files(rt: HostRuntime) -> Result<(), MergeFault> {
    let (bytes, same) = groupings(rt.alloc(), &SEVENS, &EMPTY, &SEVENS)?;
    check_bytes(&rt, "at once", &bytes, &TWICE);
    check_same(&rt, "in groups", &same, &true);
    let bytes = steps(rt.alloc(), &SEVENS, &SEVENS, &EMPTY)?;
    check_bytes(&rt, "in steps", &bytes, &TWICE);
    Ok(())
}

#[test]
fn two_orders(rt: HostRuntime) -> Result<(), MergeFault> {
    let (one, other) = orders(rt.alloc(), &SEVENS, &EMPTY)?;
    check_bytes(&rt, "one", &one, &SEVENS);
    check_bytes(&rt, "the other", &other, &SEVENS);
    Ok(())
}

#[test]
fn findings_of_two_files(rt: HostRuntime) -> Result<(), CallFault> {
    check_same(
        &rt,
        "none",
        &findings(rt.alloc(), &SEVENS, &EMPTY)?,
        &[0, 0, 0],
    );
    check_same(
        &rt,
        "some",
        &findings(rt.alloc(), &SEVENS, &UPWARDS)?,
        &[0, 3, 3],
    );
    Ok(())
}

#[test]
fn both_ways_of_three_files(rt: HostRuntime) -> Result<(), MergeFault> {
    let (steps, once) = both_ways(rt.alloc(), &SEVENS, &EMPTY, &SEVENS)?;
    check_bytes(&rt, "in steps", &steps, &TWICE);
    check_bytes(&rt, "at once", &once, &TWICE);
    Ok(())
}

#[test]
fn rows_of_two_files(rt: HostRuntime) -> Result<(), CallFault> {
    let numbers = joined(rt.alloc(), &UPWARDS, &SEVENS)?;
    let all = [7, 7, 7, 8, 8, 8, 9, 9, 9, 7, 7, 7];
    check_numbers(&rt, "the first file", &numbers.first, &all[..9]);
    check_numbers(&rt, "the second file", &numbers.second, &all[9..]);
    check_numbers(&rt, "the joined file", &numbers.joined, &all);
    Ok(())
}

#[test]
fn rows_that_are_not_joined(rt: HostRuntime) {
    let fault = joined(rt.alloc(), &SEVENS, &SEVENS[..3]).err();
    let wanted = Some(CallFault::File(FileFault::NotOrc));
    check_same(&rt, "the second file", &fault, &wanted);
}

#[test]
fn findings_of_three_files(rt: HostRuntime) -> Result<(), CallFault> {
    let (bytes, found) = steps_checked(rt.alloc(), &SEVENS, &EMPTY, &SEVENS)?;
    check_bytes(&rt, "in steps", &bytes, &TWICE);
    check_same(&rt, "none", &found, &0);
    Ok(())
}
