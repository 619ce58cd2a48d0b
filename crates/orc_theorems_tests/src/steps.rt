//! Lists of files that are merged in two steps.
use crate::assertions::{check_bytes, check_same};
use crate::calls::two_steps;
use orc_file::{SliceSource, VecSink};
use orc_merge::MergeFault;
use orc_test_kit::{EMPTY, SEVENS, TWICE};
use std::alloc::Global;
use std::process::Abort;

/// A source for each file.
fn sources<'a>(alloc: Global, files: &[&'a [u8]]) -> Result<Vec<SliceSource<'a>>, MergeFault> {
    let mut sources = Vec::new(alloc);
    for file in files {
        sources.push(SliceSource::new(file))?;
    }
    Ok(sources)
}

/// What merging two lists of files writes, and then the two that this gave.
fn in_steps<'a>(
    alloc: Global,
    left: &[&'a [u8]],
    right: &[&'a [u8]],
) -> Result<Vec<u8>, MergeFault> {
    let mut lefts = sources(alloc, left)?;
    let mut rights = sources(alloc, right)?;
    let mut out = VecSink::new(alloc);
    two_steps(alloc, &mut lefts, &mut rights, &mut out)?;
    Ok(out.into_vec())
}

/// Two lists of files are merged into this one.
fn check_steps<'a>(
    rt: &impl Abort,
    alloc: Global,
    left: &[&'a [u8]],
    right: &[&'a [u8]],
    wanted: &[u8],
) -> Result<(), MergeFault> {
    let out = in_steps(alloc, left, right)?;
    check_bytes(rt, "two lists", out.as_slice(), wanted);
    Ok(())
}

#[test]
fn two_lists_of_files(rt: HostRuntime) -> Result<(), MergeFault> {
    check_steps(&rt, rt.alloc(), &[&EMPTY, &SEVENS], &[&SEVENS], &TWICE)?;
    check_steps(&rt, rt.alloc(), &[&EMPTY], &[&EMPTY, &EMPTY], &EMPTY)
}

#[test]
fn a_list_without_files(rt: HostRuntime) {
    let fault = in_steps(rt.alloc(), &[&SEVENS], &[]).err();
    check_same(
        &rt,
        "the list on the right",
        &fault,
        &Some(MergeFault::NoInput),
    );
}
