//! Devices: what is read of sources and written to sinks, and what is refused where they fail.

use crate::assertions::{check_list, check_same, demand};
use orc_io::{
    FileSource, RangeFault, Sink, SliceSource, Source, StdSink, VecSink, read_range, write_all,
};
use orc_test_kit::{FailSink, FailSource, Full, Narrow};
use std::alloc::{AllocError, Global};
use std::fs::File;
use std::path::PathBuf;
use std::process::Abort;
use std::time::{Duration, SystemTime};
use std::{env, fs, io, process};

/// Some bytes, no two of them alike.
static BYTES: [u8; 11] = [0x4f, 0x52, 0x43, 0, 1, 2, 0x80, 0xfe, 0xff, 7, 3];

/// A place, a length, and the bytes there.
static RANGES: [(u64, u64, &[u8]); 8] = [
    (0, 3, &[0x4f, 0x52, 0x43]),
    (10, 1, &[3]),
    (0, 1, &[0x4f]),
    (5, 3, &[2, 0x80, 0xfe]),
    (6, 5, &[0x80, 0xfe, 0xff, 7, 3]),
    (11, 0, &[]),
    (0, 0, &[]),
    (0, 11, &[0x4f, 0x52, 0x43, 0, 1, 2, 0x80, 0xfe, 0xff, 7, 3]),
];

/// `read_range`, where the range lies within the source.
fn range<S: Source>(
    alloc: Global,
    source: &mut S,
    at: u64,
    len: u64,
) -> Result<Vec<u8>, RangeFault> {
    if source.len() < len || source.len() - len < at {
        return Err(RangeFault::SourceFailed);
    }
    read_range(alloc, source, at, len)
}

/// Whether that range is read, and has these bytes.
fn has_range<S: Source>(alloc: Global, source: &mut S, at: u64, len: u64, wanted: &[u8]) -> bool {
    match range(alloc, source, at, len) {
        Ok(read) => read.as_slice() == wanted,
        Err(_) => false,
    }
}

/// Every range of the table is read from a source of `BYTES`.
fn reads_ranges<A: Abort, S: Source>(rt: &A, alloc: Global, source: &mut S) {
    check_same(rt, &source.len(), &11, "bytes", &[]);
    for (at, len, wanted) in RANGES {
        let is_wanted = has_range(alloc, source, at, len, wanted);
        demand(rt, is_wanted, "so many bytes, and their place", &[len, at]);
        // a source that rested is read on as any other
        if at == 10 {
            source.rest();
        }
    }
}

#[test]
fn slices_are_read(rt: HostRuntime) {
    let mut source = SliceSource::new(&BYTES);
    reads_ranges(&rt, rt.alloc(), &mut source);
    reads_ranges(&rt, rt.alloc(), &mut &mut source);
}

/// `write_all`, of whose contract its callers need nothing.
fn sent<W: Sink>(sink: &mut W, bytes: &[u8]) -> Result<(), usize> {
    write_all(sink, bytes)
}

#[test]
fn bytes_are_gathered(rt: HostRuntime) {
    let mut sink = VecSink::new(rt.alloc());
    for piece in [&BYTES[..3], &[], &BYTES[3..4], &BYTES[4..]] {
        let answer = sent(&mut sink, piece);
        check_same(&rt, &answer, &Ok(()), "a piece of", &[piece.len() as u64]);
    }
    check_list(&rt, &sink.into_vec(), &BYTES, "pieces", &[]);
    let mut sink = VecSink::new(rt.alloc());
    let answer = sent(&mut &mut sink, &BYTES);
    check_same(&rt, &answer, &Ok(()), "all at once", &[]);
    check_list(&rt, &sink.into_vec(), &BYTES, "all at once", &[]);
}

/// Bytes that a sink takes a call.
static A_CALL: [usize; 4] = [1, 2, 7, 100];

/// What `write_all` of `BYTES` answers where so many are taken in all.
fn answer_at(room: usize) -> Result<(), usize> {
    if room < BYTES.len() {
        Err(room)
    } else {
        Ok(())
    }
}

/// What was answered, and the bytes that were taken, where there is room for so many.
fn check_taken(
    rt: &impl Abort,
    answer: Result<(), usize>,
    taken: &[u8],
    a_call: usize,
    room: usize,
) {
    let numbers = [a_call as u64, room as u64];
    check_same(rt, &answer, &answer_at(room), "a call, room for", &numbers);
    check_list(
        rt,
        taken,
        &BYTES[..room.min(11)],
        "a call, room for",
        &numbers,
    );
}

fn check_writer(
    rt: &impl Abort,
    alloc: Global,
    a_call: usize,
    room: usize,
    full: Full,
) -> Result<(), AllocError> {
    let mut out = Narrow(FailSink::new(alloc, a_call, room, full)?);
    let answer = sent(&mut StdSink::new(&mut out), &BYTES);
    check_taken(rt, answer, out.0.bytes(), a_call, room);
    Ok(())
}

#[test]
fn writers_fill_up(rt: HostRuntime) -> Result<(), AllocError> {
    for a_call in A_CALL {
        for room in 0..13usize {
            for full in [Full::Fails, Full::TakesNothing] {
                check_writer(&rt, rt.alloc(), a_call, room, full)?;
            }
        }
    }
    Ok(())
}

/// The path of a file of this process alone.
fn path_of(rt: &HostRuntime) -> io::Result<PathBuf> {
    let mut path = env::temp_dir(rt)?;
    let name = format!(in rt.alloc(); "orc_io-{}", process::id(rt.process()))?;
    path.push(name.as_str())?;
    Ok(path)
}

/// A source of the file of that path.
fn source_of<'a>(files: &'a HostRuntime, path: &'a str) -> io::Result<FileSource<'a, HostRuntime>> {
    match FileSource::open(files, path) {
        Ok(source) => Ok(source),
        Err(_) => Err(io::Error::from(io::ErrorKind::NotFound)),
    }
}

/// Whether three bytes are read from the front.
fn is_read<S: Source>(alloc: Global, source: &mut S) -> bool {
    has_range(alloc, source, 0, 3, b"ORC")
}

/// `BYTES` and one more.
static LONGER: [u8; 12] = [0x4f, 0x52, 0x43, 0, 1, 2, 0x80, 0xfe, 0xff, 7, 3, 0];

/// How many bytes a file has then, in which second after 1970 it was changed last, and whether it is read where it was
/// found with eleven, changed last in the fifth.
static CHANGES: [(usize, u64, bool); 8] = [
    (11, 5, true),
    (12, 5, false),
    (10, 5, false),
    (11, 6, false),
    (11, 4, false),
    (3, 5, false),
    (12, 7, false),
    (11, 5, true),
];

/// The time so many seconds after 1970 began.
fn time_of(second: u64) -> SystemTime {
    let time = SystemTime::UNIX_EPOCH.checked_add(Duration::from_secs(second));
    time.unwrap_or(SystemTime::UNIX_EPOCH)
}

/// Writes so many bytes to the file of that path, as if it were changed last in that second.
fn put_file(rt: &HostRuntime, path: &PathBuf, len: usize, second: u64) -> io::Result<()> {
    fs::write(rt, path.as_path(), &LONGER[..len.min(12)])?;
    let file = File::open(rt, path.as_path())?;
    file.set_modified(time_of(second))
}

/// Whether a source that had eleven bytes is read from the front where its file was changed so.
fn check_change<S: Source>(
    rt: &impl Abort,
    alloc: Global,
    source: &mut S,
    change: [u64; 2],
    wanted: bool,
) {
    let is_read = is_read(alloc, source);
    check_same(rt, &is_read, &wanted, "bytes, second", &change);
    check_same(rt, &source.len(), &11, "bytes, second", &change);
}

/// What the last read kept open is still there, and after a rest the path is asked again.
fn check_removed<S: Source>(rt: &impl Abort, alloc: Global, source: &mut S) {
    demand(rt, is_read(alloc, source), "kept open", &[]);
    source.rest();
    demand(rt, !is_read(alloc, source), "of no file", &[]);
}

/// The source is read as the table says where its file is changed, or another one is put in its place.
fn check_changes<S: Source>(
    rt: &impl Abort,
    files: &HostRuntime,
    path: &PathBuf,
    source: &mut S,
    is_replaced: bool,
) -> io::Result<()> {
    for (len, second, wanted) in CHANGES {
        if is_replaced {
            source.rest();
            fs::remove_file(files, path.as_path())?;
        }
        put_file(files, path, len, second)?;
        check_change(rt, files.alloc(), source, [len as u64, second], wanted);
    }
    Ok(())
}

/// A file is read, before its source rests and then, changed under it or replaced, and removed.
fn change_file(
    rt: &impl Abort,
    files: &HostRuntime,
    path: &PathBuf,
    is_replaced: bool,
) -> io::Result<()> {
    put_file(files, path, 11, 5)?;
    let mut source = source_of(files, path.as_str())?;
    reads_ranges(rt, files.alloc(), &mut source);
    source.rest();
    reads_ranges(rt, files.alloc(), &mut &mut source);
    check_changes(rt, files, path, &mut source, is_replaced)?;
    fs::remove_file(files, path.as_path())?;
    check_removed(rt, files.alloc(), &mut source);
    Ok(())
}

#[test]
fn files_that_change_are_refused(rt: HostRuntime) -> io::Result<()> {
    let path = path_of(&rt)?;
    for is_replaced in [false, true] {
        change_file(&rt, &rt, &path, is_replaced)?;
    }
    Ok(())
}
