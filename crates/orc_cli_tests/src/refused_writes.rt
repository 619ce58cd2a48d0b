//! Outputs of which one call is refused. It isn't made again, and none is made behind it. A `Repeated` makes those again
//! that are interrupted.

use crate::assertions::{check_bytes, check_same, demand};
use crate::devices::{CountedOut, Refused, SeenSource};
use crate::files::{SIX_SEVENS, THREE_SEVENS};
use crate::reading::join;
use crate::three_stripes::{
    Command, FOUND, FROM_SECOND_STRIPE, ROWS, SHOWN, THREE_STRIPES, carry_out,
};
use orc_cli_commands::{CliFault, MergeFault, Repeated, StdLines, ints_to, write_lines};
use orc_file::{FileFault, Sink, StdSink};
use orc_rle::{Rle, Sign};
use orc_stripe::Options;
use std::alloc::Global;
use std::cell::Cell;
use std::io::Write;
use std::process::Abort;

/// What goes to the output.
#[derive(Clone, Copy)]
enum Work {
    /// The numbers of a stream.
    Numbers,
    /// What a command prints of the file of three stripes.
    Printed(Command),
    /// The file of six sevens, written of its lines.
    Written,
    /// The same, joined of two files.
    Joined,
}

fn print_numbers(alloc: Global, out: &mut CountedOut<'_>) -> Option<CliFault> {
    ints_to(alloc, Rle::One, Sign::Unsigned, "fb020306070b", out).err()
}

/// The lines of six sevens.
const SIX_LINES: &str = "{\"n\":7}\n{\"n\":7}\n{\"n\":7}\n{\"n\":7}\n{\"n\":7}\n{\"n\":7}\n";

/// `write_lines`, without its contract.
fn write_to<W: Sink + Drop>(alloc: Global, options: Options, out: W) -> Option<CliFault> {
    let mut lines = StdLines::new(SIX_LINES.as_bytes());
    match write_lines(alloc, "struct<n:bigint>", options, &mut lines, out) {
        Ok(_) => None,
        Err((fault, _)) => Some(fault),
    }
}

/// Writes the file in stripes of three rows, to an output as the program has it.
fn write_sevens(alloc: Global, out: &mut CountedOut<'_>) -> Option<CliFault> {
    match Options::new(Rle::One, 0, 3) {
        Some(options) => write_to(alloc, options, StdSink::new(&mut *out)),
        None => Some(CliFault::File(FileFault::Limit)),
    }
}

/// The fault of merging is told as one of the layer of files; `Limit` where it is none of a device or of memory.
fn join_sevens(alloc: Global, sent: &Cell<usize>, out: &mut CountedOut<'_>) -> Option<CliFault> {
    let (fault, _) = join(alloc, &THREE_SEVENS, &THREE_SEVENS, sent, out);
    match fault {
        None => None,
        Some(MergeFault::WriteFailed) => Some(CliFault::File(FileFault::WriteFailed)),
        Some(MergeFault::OutOfMemory) => Some(CliFault::File(FileFault::OutOfMemory)),
        Some(_) => Some(CliFault::File(FileFault::Limit)),
    }
}

/// What comes of the work where a call is refused: the fault, and the output.
fn answer(
    alloc: Global,
    work: Work,
    kth: usize,
    refused: Refused,
    sent: &Cell<usize>,
) -> (Option<CliFault>, CountedOut<'_>) {
    let mut out = CountedOut::new(kth, refused, sent);
    let fault = match work {
        Work::Numbers => print_numbers(alloc, &mut out),
        Work::Printed(command) => {
            let source = SeenSource::new(&THREE_STRIPES, 0, sent);
            let (fault, _) = carry_out(alloc, command, source, &mut out);
            fault
        }
        Work::Written => write_sevens(alloc, &mut out),
        Work::Joined => join_sevens(alloc, sent, &mut out),
    };
    (fault, out)
}

/// All went out in fewer calls.
fn check_whole(rt: &impl Abort, out: &CountedOut<'_>, kth: usize, all: &[u8]) {
    demand(rt, out.calls() < kth, "calls", out.calls());
    check_bytes(rt, "all", out.written(), all);
}

/// The k-th call was the last one, and a front went out before it.
fn check_refused(rt: &impl Abort, fault: CliFault, out: &CountedOut<'_>, kth: usize, all: &[u8]) {
    let wanted = CliFault::File(FileFault::WriteFailed);
    check_same(rt, "fault of a call", &fault, &wanted);
    check_same(rt, "calls", &out.calls(), &kth);
    let len = out.written().len().min(all.len());
    check_bytes(rt, "front", out.written(), &all[..len]);
}

/// Whether all goes out before the k-th call. If not, that call is refused.
fn is_done(
    rt: &impl Abort,
    alloc: Global,
    work: Work,
    kth: usize,
    refused: Refused,
    all: &[u8],
) -> bool {
    let sent = Cell::new(0);
    match answer(alloc, work, kth, refused, &sent) {
        (None, out) => {
            check_whole(rt, &out, kth, all);
            true
        }
        (Some(fault), out) => {
            check_refused(rt, fault, &out, kth, all);
            false
        }
    }
}

/// Each call is refused in turn, until there are fewer.
fn check_calls(rt: &impl Abort, alloc: Global, work: Work, refused: Refused, all: &[u8]) {
    for kth in 1..100 {
        if is_done(rt, alloc, work, kth, refused, all) {
            return;
        }
    }
    demand(rt, false, "calls", 100);
}

/// They are refused in each way.
fn check_work(rt: &impl Abort, alloc: Global, work: Work, all: &[u8]) {
    for refused in [Refused::Full, Refused::Interrupted, Refused::TakesNothing] {
        check_calls(rt, alloc, work, refused, all);
    }
}

/// What is printed, whole.
static PRINTED: [(Work, &str); 5] = [
    (Work::Numbers, "2 3 6 7 11\n"),
    (Work::Printed(Command::Rows(None)), ROWS),
    (
        Work::Printed(Command::Rows(Some("1:0"))),
        FROM_SECOND_STRIPE,
    ),
    (Work::Printed(Command::Show), SHOWN),
    (Work::Printed(Command::Check), FOUND),
];

#[test]
fn refused_calls(rt: HostRuntime) {
    for (work, all) in &PRINTED {
        check_work(&rt, rt.alloc(), *work, all.as_bytes());
    }
    check_work(&rt, rt.alloc(), Work::Written, &SIX_SEVENS);
    check_work(&rt, rt.alloc(), Work::Joined, &SIX_SEVENS);
}

/// How many of three bytes are taken behind a `Repeated`, where the first call is refused; none if that is told.
fn taken_again(refused: Refused, sent: &Cell<usize>) -> Option<usize> {
    let mut out = Repeated::new(CountedOut::new(1, refused, sent));
    out.write(b"ORC").ok()
}

#[test]
fn interrupted_writes_are_made_again(rt: HostRuntime) {
    let sent = Cell::new(0);
    for (refused, wanted) in [
        (Refused::Interrupted, Some(3)),
        (Refused::Full, None),
        (Refused::TakesNothing, Some(0)),
    ] {
        check_same(&rt, "taken", &taken_again(refused, &sent), &wanted);
        check_same(&rt, "sent", &sent.get(), &wanted.unwrap_or(0));
    }
}
