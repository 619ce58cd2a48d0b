//! The meter that shows how far the work is, and the devices that it watches.

use crate::assertions::{check_bytes, check_same, demand};
use crate::devices::SeenSource;
use crate::screen::Screen;
use orc_cli_commands::{Meter, Progress, Watched};
use orc_file::Source;
use std::cell::Cell;
use std::io::{self, ErrorKind, Read};
use std::process::Abort;

/// As many blanks as the longest line has bytes, between carriage returns.
const WIPED: &str = "\r                                                \r";

/// What is done with a meter.
#[derive(Clone, Copy)]
enum Step {
    Ahead(u64),
    Done(u64),
    Wipe,
}

/// Carries out one step.
fn take_step(meter: &Meter<'_, Screen>, step: Step) {
    match step {
        Step::Ahead(bytes) => meter.ahead(bytes),
        Step::Done(bytes) => meter.done(bytes),
        Step::Wipe => meter.wipe(),
    }
}

/// Steps of one meter that is made at 0: the milliseconds of the clock, which fails without them; what is done; whether
/// blanks are printed, and the line.
static STEPS: [(Option<u64>, Step, bool, &str); 13] = [
    (Some(0), Step::Ahead(15_000_000), false, ""),
    (Some(10), Step::Ahead(5_000_000), false, ""),
    (Some(999), Step::Done(5_000_000), false, ""),
    (
        Some(1000),
        Step::Done(1_000_000),
        true,
        "orcm: 6 of 20 MB, 30 %",
    ),
    (Some(1000), Step::Done(1), false, ""),
    (Some(1999), Step::Done(1_000_000), false, ""),
    (Some(500), Step::Done(0), false, ""),
    (None, Step::Done(0), false, ""),
    (Some(2500), Step::Done(0), true, "orcm: 7 of 20 MB, 35 %"),
    (Some(3499), Step::Done(0), false, ""),
    (
        Some(60_000),
        Step::Done(14_000_000),
        true,
        "orcm: 20 of 20 MB, 100 %",
    ),
    (Some(60_001), Step::Wipe, true, ""),
    (Some(90_000), Step::Done(1), false, ""),
];

/// This was printed since this was asked last: blanks, and the line over them.
fn check_printed(rt: &impl Abort, screen: &Screen, is_wiped: bool, line: &str) {
    let printed = screen.take_printed();
    let wiped = if is_wiped { WIPED } else { "" };
    let bytes = printed.bytes();
    let (front, rest) = bytes.split_at(bytes.len().min(wiped.len()));
    check_bytes(rt, "blanks", front, wiped.as_bytes());
    check_bytes(rt, "line", rest, line.as_bytes());
}

#[test]
fn lines_of_a_meter(rt: HostRuntime) {
    let screen = Screen::new(false);
    let meter = Meter::new(&screen);
    for (millis, step, is_wiped, line) in &STEPS {
        screen.set_clock(*millis);
        take_step(&meter, *step);
        check_printed(&rt, &screen, *is_wiped, line);
    }
}

/// The steps, with how many prints there are of a screen that takes none, of a meter that is quiet, and of one whose
/// clock failed when it was made.
#[test]
fn meters_that_show_nothing(rt: HostRuntime) {
    let (full, silent, broken) = (Screen::new(true), Screen::new(false), Screen::new(false));
    broken.set_clock(None);
    let meters = [
        Meter::new(&full),
        Meter::quiet(&silent),
        Meter::new(&broken),
    ];
    for (millis, step, _, _) in &STEPS {
        for screen in [&full, &silent, &broken] {
            screen.set_clock(*millis);
        }
        for meter in &meters {
            take_step(meter, *step);
        }
    }
    let prints = (full.prints(), silent.prints(), broken.prints());
    check_same(&rt, "prints", &prints, &(4, 0, 0));
}

/// How many bytes are done, of how many, and the line; where it isn't known how many there are (0), what is done alone.
static LINES: [(u64, u64, &str); 13] = [
    (0, 0, "orcm: 0 kB"),
    (999, 0, "orcm: 0 kB"),
    (1000, 0, "orcm: 1 kB"),
    (9_999_999, 0, "orcm: 9999 kB"),
    (10_000_000, 0, "orcm: 10 MB"),
    (0, 1, "orcm: 0 of 0 kB, 0 %"),
    (1, 3, "orcm: 0 of 0 kB, 33 %"),
    (5, 4, "orcm: 0 of 0 kB, 100 %"),
    (9_999_999, 10_000_000, "orcm: 9 of 10 MB, 99 %"),
    (10_000_000, 10_000_000, "orcm: 10 of 10 MB, 100 %"),
    (1_200_000_000, 3_400_000_000, "orcm: 1200 of 3400 MB, 35 %"),
    (
        u64::MAX - 1,
        u64::MAX,
        "orcm: 18446744073709 of 18446744073709 MB, 99 %",
    ),
    (
        u64::MAX,
        u64::MAX,
        "orcm: 18446744073709 of 18446744073709 MB, 100 %",
    ),
];

#[test]
fn lines_of_numbers(rt: HostRuntime) {
    for (done, all, line) in &LINES {
        let screen = Screen::new(false);
        let meter = Meter::new(&screen);
        meter.ahead(*all);
        screen.set_clock(Some(1000));
        meter.done(*done);
        check_printed(&rt, &screen, true, line);
        demand(&rt, line.len() + 2 <= WIPED.len(), "length", line.len());
    }
}

/// Counts what it is told.
#[derive(Drop)]
struct Counts {
    ahead: Cell<u64>,
    done: Cell<u64>,
}

impl Counts {
    /// Nothing yet.
    fn new() -> Counts {
        Counts {
            ahead: Cell::new(0),
            done: Cell::new(0),
        }
    }
}

impl Progress for Counts {
    fn ahead(&self, bytes: u64) {
        self.ahead.set(self.ahead.get().saturating_add(bytes));
    }

    fn done(&self, bytes: u64) {
        self.done.set(self.done.get().saturating_add(bytes));
    }
}

/// The bytes of a source that is watched.
static BYTES: [u8; 9] = [79, 82, 67, 0, 255, 10, 13, 7, 1];

/// Places and lengths of reads, of which the second one fails; what they give, with zeros behind it; and how many bytes
/// are done then.
static READS: [(u64, usize, Option<[u8; 9]>, u64); 6] = [
    (0, 3, Some([79, 82, 67, 0, 0, 0, 0, 0, 0]), 3),
    (4, 2, None, 3),
    (4, 2, Some([255, 10, 0, 0, 0, 0, 0, 0, 0]), 5),
    (8, 1, Some([1, 0, 0, 0, 0, 0, 0, 0, 0]), 6),
    (9, 0, Some([0; 9]), 6),
    (0, 9, Some([79, 82, 67, 0, 255, 10, 13, 7, 1]), 15),
];

/// What a read gives of a range that lies in the source, if it doesn't fail.
fn read_of<S: Source>(source: &mut S, at: u64, len: usize) -> Option<[u8; 9]> {
    let size = source.len();
    let mut into = [0; 9];
    if len > 9 || at > size || len as u64 > size - at {
        return None;
    }
    match source.read_at(at, &mut into[..len]) {
        Ok(()) => Some(into),
        Err(_) => None,
    }
}

#[test]
fn watched_source(rt: HostRuntime) {
    let (counts, sent) = (Counts::new(), Cell::new(0));
    let mut source = Watched::new(SeenSource::new(&BYTES, 2, &sent), &counts);
    check_same(&rt, "length", &source.len(), &9);
    for (at, len, wanted, done) in &READS {
        check_same(&rt, "read", &read_of(&mut source, *at, *len), wanted);
        check_same(&rt, "done", &counts.done.get(), done);
        source.rest();
    }
    check_same(&rt, "ahead", &counts.ahead.get(), &0);
}

/// Reads of a reader, in turn: the bytes that each gives, or how it fails; and how many bytes are done then.
static GIVEN: [(Result<&[u8], ErrorKind>, u64); 6] = [
    (Ok(b"ORC"), 3),
    (Err(ErrorKind::Interrupted), 3),
    (Ok(b"\n\xff"), 5),
    (Err(ErrorKind::OutOfMemory), 5),
    (Err(ErrorKind::Other), 5),
    (Ok(b""), 5),
];

/// A reader that answers so.
#[derive(Drop)]
struct Answers {
    reads: usize,
}

impl Read for Answers {
    fn read(&mut self, into: &mut [u8]) -> io::Result<usize> {
        let given = GIVEN.get(self.reads);
        self.reads = self.reads.saturating_add(1);
        match given {
            Some((Ok(bytes), _)) => {
                let count = bytes.len().min(into.len());
                into[..count].copy_from_slice(&bytes[..count]);
                Ok(count)
            }
            Some((Err(kind), _)) => Err(io::Error::from(*kind)),
            None => Ok(0),
        }
    }
}

/// The read's answer is the one that the reader gives.
fn check_read(rt: &impl Abort, reader: &mut impl Read, given: Result<&[u8], ErrorKind>) {
    let mut into = [0; 9];
    match (reader.read(&mut into), given) {
        (Ok(count), Ok(bytes)) => check_bytes(rt, "bytes", &into[..count.min(9)], bytes),
        (Err(error), Err(kind)) => check_same(rt, "kind", &error.kind(), &kind),
        _ => demand(rt, false, "answer", 0),
    }
}

#[test]
fn watched_reader(rt: HostRuntime) {
    let counts = Counts::new();
    let mut reader = Watched::new(Answers { reads: 0 }, &counts);
    for (given, done) in &GIVEN {
        check_read(&rt, &mut reader, *given);
        check_same(&rt, "done", &counts.done.get(), done);
    }
}
