//! Files that are opened, loaded and read.
use crate::assertions::{demand, same, same_bytes};
use crate::sevens::have_numbers;
use orc_file::{FileFault, OrcFile, SliceSource};
use orc_test_kit::SEVENS;
use std::alloc::Global;
use std::process::Abort;

/// The bytes of a file of sevens.
type Source = SliceSource<'static>;

/// The file of sevens.
type File = OrcFile<Source>;

// The first two calls have no contract, so that what those of a file promise is no part of each caller's proof.

/// `OrcFile::open`.
fn open(alloc: Global, source: Source) -> Result<File, (FileFault, Source)> {
    OrcFile::open(alloc, source)
}

/// Whether `rows` gives the three rows.
fn gives_rows(alloc: Global, file: &mut File) -> Result<bool, FileFault> {
    let rows = file.rows(alloc)?;
    Ok(have_numbers(&rows, &[7, 7, 7]))
}

/// The file of a source that came back.
fn open_again(alloc: Global, source: Source) -> Result<File, FileFault> {
    match open(alloc, source) {
        Ok(file) => Ok(file),
        Err((fault, _)) => Err(fault),
    }
}

/// The file, once there is memory for its tail. Where it was refused for want of that, the source comes back, and is
/// opened.
fn open_sevens(rt: &impl Abort, alloc: Global) -> Result<File, FileFault> {
    match open(alloc, SliceSource::new(&SEVENS)) {
        Ok(file) => Ok(file),
        Err((fault, source)) => {
            same(rt, &fault, &FileFault::OutOfMemory);
            open_again(alloc, source)
        }
    }
}

/// Whether the file gives its three rows, once there is memory for them.
fn has_rows(alloc: Global, file: &mut File) -> Result<bool, FileFault> {
    match gives_rows(alloc, file) {
        Err(FileFault::OutOfMemory) => gives_rows(alloc, file),
        answer => answer,
    }
}

/// The source comes back, and is opened.
#[test]
fn a_source_is_opened(rt: HostRuntime) -> Result<(), FileFault> {
    let mut file = open_sevens(&rt, rt.alloc())?;
    demand(&rt, has_rows(rt.alloc(), &mut file)?, "rows");
    Ok(())
}

/// The file gives its rows, also where it was refused memory for them first.
fn check_rows(rt: &impl Abort, alloc: Global, file: &mut File) -> Result<(), FileFault> {
    match gives_rows(alloc, file) {
        Ok(given) => demand(rt, given, "rows"),
        Err(fault) => {
            same(rt, &fault, &FileFault::OutOfMemory);
            demand(rt, has_rows(alloc, file)?, "rows again");
        }
    }
    Ok(())
}

/// The file is as it was, and gives its rows.
#[test]
fn rows_are_read(rt: HostRuntime) -> Result<(), FileFault> {
    let mut file = open_sevens(&rt, rt.alloc())?;
    check_rows(&rt, rt.alloc(), &mut file)
}

/// `load` of the first stripe.
fn load(file: &mut File, into: &mut Vec<u8>) -> Result<(), FileFault> {
    if file.tail().stripes.as_slice().is_empty() {
        return Err(FileFault::RowCount);
    }
    file.load(0, into)
}

/// The file gives the stripe's bytes. Where it was refused memory for them, it gives its rows, and then those.
fn check_load(
    rt: &impl Abort,
    alloc: Global,
    file: &mut File,
    into: &mut Vec<u8>,
) -> Result<(), FileFault> {
    if let Err(fault) = load(file, into) {
        same(rt, &fault, &FileFault::OutOfMemory);
        demand(rt, has_rows(alloc, file)?, "rows");
        load(file, into)?;
    }
    same_bytes(rt, into, &SEVENS[3..22]);
    Ok(())
}

/// The file is as it was: it gives its rows, and then the stripe's bytes.
#[test]
fn a_stripe_is_loaded(rt: HostRuntime) -> Result<(), FileFault> {
    let mut file = open_sevens(&rt, rt.alloc())?;
    let mut bytes = Vec::new(rt.alloc());
    check_load(&rt, rt.alloc(), &mut file, &mut bytes)
}
