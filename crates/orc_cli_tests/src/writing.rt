//! Files written of lines that are there, and of lines whose reading fails.

use crate::assertions::{check_same, demand};
use crate::files::SIX_SEVENS;
use orc_cli_commands::{CliFault, StdLines, write_from, write_lines};
use orc_file::{FileFault, VecSink};
use orc_rle::Rle;
use orc_stripe::Options;
use orc_types::JsonFault;
use std::alloc::Global;
use std::io::{self, BufReader, Read};
use std::process::Abort;

const NUMBERS: &str = "struct<n:bigint>";

/// What is written of lines that are there, with or without a fault.
fn written_whole(
    alloc: Global,
    schema: &str,
    options: Options,
    input: &[u8],
) -> (Option<CliFault>, Vec<u8>) {
    match write_from(alloc, schema, options, input, VecSink::new(alloc)) {
        Ok((_, out)) => (None, out.into_vec()),
        Err((fault, out)) => (Some(fault), out.into_vec()),
    }
}

/// The same of lines that are read, so many bytes at once.
fn written_read<R: Read + Drop>(
    alloc: Global,
    schema: &str,
    options: Options,
    input: R,
    at_once: usize,
) -> (Option<CliFault>, Vec<u8>) {
    let Ok(reader) = BufReader::with_capacity(alloc, at_once, input) else {
        return (
            Some(CliFault::File(FileFault::OutOfMemory)),
            Vec::new(alloc),
        );
    };
    let mut lines = StdLines::new(reader);
    match write_lines(alloc, schema, options, &mut lines, VecSink::new(alloc)) {
        Ok((_, out)) => (None, out.into_vec()),
        Err((fault, out)) => (Some(fault), out.into_vec()),
    }
}

/// Bytes, and behind them one failure. A second try would find the end.
#[derive(Drop)]
struct Broken<'a> {
    left: &'a [u8],
    failed: bool,
}

impl Read for Broken<'_> {
    fn read(&mut self, into: &mut [u8]) -> io::Result<usize> {
        if self.left.is_empty() && !self.failed {
            self.failed = true;
            return Err(io::Error::from(io::ErrorKind::Other));
        }
        let count = self.left.len().min(into.len());
        into[..count].copy_from_slice(&self.left[..count]);
        self.left = &self.left[count..];
        Ok(count)
    }
}

/// Bytes, of which every other read is interrupted.
#[derive(Drop)]
struct Interrupted<'a> {
    left: &'a [u8],
    again: bool,
}

impl Read for Interrupted<'_> {
    fn read(&mut self, into: &mut [u8]) -> io::Result<usize> {
        self.again = !self.again;
        if !self.again {
            return Err(io::Error::from(io::ErrorKind::Interrupted));
        }
        let count = self.left.len().min(into.len());
        into[..count].copy_from_slice(&self.left[..count]);
        self.left = &self.left[count..];
        Ok(count)
    }
}

/// How lines are given.
#[derive(Clone, Copy)]
enum Given {
    /// They are there.
    There,
    /// They are read, nine bytes at once, and reading fails behind them.
    Broken,
    /// They are read, five bytes at once, and every other read is interrupted.
    Interrupted,
}

/// What is written of lines.
fn written(
    alloc: Global,
    options: Options,
    given: Given,
    lines: &[u8],
) -> (Option<CliFault>, Vec<u8>) {
    match given {
        Given::There => written_whole(alloc, NUMBERS, options, lines),
        Given::Broken => {
            let input = Broken {
                left: lines,
                failed: false,
            };
            written_read(alloc, NUMBERS, options, input, 9)
        }
        Given::Interrupted => {
            let input = Interrupted {
                left: lines,
                again: true,
            };
            written_read(alloc, NUMBERS, options, input, 5)
        }
    }
}

const FAILED: Option<CliFault> = Some(CliFault::File(FileFault::SourceFailed));

/// Lines in stripes of three rows, the fault, and how many bytes of a file of six sevens stand then.
static WRITTEN: [(Given, &[u8], Option<CliFault>, usize); 9] = [
    (
        Given::There,
        b"{\"n\":7}\n{\"n\":7}\n\n{\"n\":7}\n{\"n\":7}\n{\"n\":7}\n{\"n\":7}",
        None,
        173,
    ),
    (
        Given::There,
        b"{\"n\":7}\n{\"n\":7}\n{\"n\":7}\n{\"n\":7}\n{\"n\":true}\n",
        Some(CliFault::Json(JsonFault::WrongShape)),
        22,
    ),
    (
        Given::Interrupted,
        b"{\"n\":7}\n\n{\"n\":7}\n{\"n\":7}\n{\"n\":7}\n{\"n\":7}\n{\"n\":7}\n",
        None,
        173,
    ),
    (
        Given::Interrupted,
        b"{\"n\":7}\n{\"n\":7}\n{\"n\":7}\n{\"n\":7}\n{\"n\":7}\n{\"n\":7}",
        None,
        173,
    ),
    (Given::Broken, b"", FAILED, 3),
    (Given::Broken, b"{\"n\":7}\n{\"n\":7}", FAILED, 3),
    (
        Given::Broken,
        b"{\"n\":7}\n{\"n\":7}\n{\"n\":7}\n",
        FAILED,
        22,
    ),
    (
        Given::Broken,
        b"{\"n\":7}\n{\"n\":7}\n{\"n\":7}\n{\"n\":7}\n{\"n",
        FAILED,
        22,
    ),
    (
        Given::Broken,
        b"{\"n\":7}\n{\"n\":true}\n{\"n\":7}\n",
        Some(CliFault::Json(JsonFault::WrongShape)),
        3,
    ),
];

/// So many bytes of a file of six sevens stand.
fn check_stands(rt: &impl Abort, bytes: &[u8], stands: usize) {
    demand(rt, bytes.len() == stands, "bytes", bytes.len());
    demand(
        rt,
        SIX_SEVENS.starts_with(bytes),
        "front, bytes",
        bytes.len(),
    );
}

/// This fault is answered of the lines, and so many bytes stand.
fn check_written(
    rt: &impl Abort,
    alloc: Global,
    options: Options,
    lines: (Given, &[u8]),
    wanted: (Option<CliFault>, usize),
) {
    let (fault, bytes) = written(alloc, options, lines.0, lines.1);
    check_same(rt, "fault", &fault, &wanted.0);
    check_stands(rt, &bytes, wanted.1);
}

#[test]
fn files_of_lines(rt: HostRuntime) {
    let options = Options::new(Rle::One, 0, 3);
    demand(&rt, options.is_some(), "options", 3);
    let Some(options) = options else {
        return;
    };
    for (given, lines, fault, stands) in &WRITTEN {
        check_written(&rt, rt.alloc(), options, (*given, lines), (*fault, *stands));
    }
}
