//! What is read of files, and when; and what comes of a read that fails.

use crate::assertions::{check_bytes, check_same, demand};
use crate::devices::{CountedOut, Refused, SeenRead, SeenSource};
use crate::three_stripes::{
    Command, FOUND, FROM_LAST_GROUP, FROM_SECOND_STRIPE, ROWS, SHOWN, THREE_STRIPES, carry_out,
};
use orc_cli_commands::{CliFault, MergeFault, merge_to};
use orc_file::{FileFault, StdSink};
use std::alloc::Global;
use std::cell::Cell;
use std::process::Abort;

/// The reads of the tail: both ends, the postscript, the footer, the metadata. Nothing is out before them.
static TAIL: [SeenRead; 5] = [
    (0, 3, 0),
    (444, 1, 0),
    (425, 19, 0),
    (345, 80, 0),
    (279, 66, 0),
];

/// Whether there were so many reads: those of the tail, and behind them these of stripes.
fn are_reads(seen: &[SeenRead], count: usize, stripes: &[SeenRead]) -> bool {
    let (tail, behind) = seen.split_at(seen.len().min(5));
    seen.len() == count && TAIL.starts_with(tail) && stripes.starts_with(behind)
}

/// A command's fault, and the devices as it left them.
type Answer<'a> = (Option<CliFault>, SeenSource<'a>, CountedOut<'a>);

/// What comes of the command for an output that takes all.
fn answer_of<'a>(
    alloc: Global,
    command: Command,
    source: SeenSource<'a>,
    sent: &'a Cell<usize>,
) -> Answer<'a> {
    let mut out = CountedOut::new(0, Refused::Full, sent);
    let (fault, source) = carry_out(alloc, command, source, &mut out);
    (fault, source, out)
}

/// What comes of it where the k-th read fails.
fn answer_failing(alloc: Global, command: Command, kth: usize, sent: &Cell<usize>) -> Answer<'_> {
    let source = SeenSource::new(&THREE_STRIPES, kth, sent);
    answer_of(alloc, command, source, sent)
}

/// The command reads the tail and these ranges of stripes, and prints all.
fn check_unfailed(
    rt: &impl Abort,
    alloc: Global,
    command: Command,
    stripes: &[SeenRead],
    all: &[u8],
) {
    let sent = Cell::new(0);
    let (fault, source, out) = answer_failing(alloc, command, 0, &sent);
    check_same(rt, "fault", &fault, &None);
    let count = stripes.len().saturating_add(5);
    demand(rt, are_reads(source.seen(), count, stripes), "reads", count);
    check_bytes(rt, "all", out.written(), all);
}

/// What was out before the last read.
fn out_before_last<'a>(seen: &[SeenRead], all: &'a [u8]) -> &'a [u8] {
    match seen.last() {
        Some((_, _, sent)) => &all[..(*sent).min(all.len())],
        None => &[],
    }
}

/// The source that came back is read again, and all is printed.
fn check_again(
    rt: &impl Abort,
    alloc: Global,
    command: Command,
    source: SeenSource<'_>,
    sent: &Cell<usize>,
    all: &[u8],
) {
    let (fault, _, out) = answer_of(alloc, command, source, sent);
    check_same(rt, "fault of a source that came back", &fault, &None);
    check_bytes(rt, "all of a source that came back", out.written(), all);
}

/// Where the k-th read fails, that is the refusal, nothing is read behind it, and nothing is written.
fn check_failed(
    rt: &impl Abort,
    alloc: Global,
    command: Command,
    kth: usize,
    stripes: &[SeenRead],
    all: &[u8],
) {
    let sent = Cell::new(0);
    let (fault, source, out) = answer_failing(alloc, command, kth, &sent);
    let wanted = CliFault::File(FileFault::SourceFailed);
    check_same(rt, "fault of a read", &fault, &Some(wanted));
    demand(
        rt,
        are_reads(source.seen(), kth, stripes),
        "reads up to",
        kth,
    );
    check_bytes(
        rt,
        "out",
        out.written(),
        out_before_last(source.seen(), all),
    );
    check_again(rt, alloc, command, source, &sent, all);
}

/// The command reads the tail and these ranges of stripes, and prints all; each of its reads fails in turn.
fn check_reads(rt: &impl Abort, alloc: Global, command: Command, stripes: &[SeenRead], all: &[u8]) {
    check_unfailed(rt, alloc, command, stripes, all);
    for kth in 1..stripes.len().saturating_add(6) {
        check_failed(rt, alloc, command, kth, stripes, all);
    }
}

/// Commands, the ranges of stripes that they read, and what they print. A stripe's rows are read once those before it
/// are out, and from a group on no stripe before that one; `show` reads no stripe, and `check` each once.
static READS: [(Command, &[SeenRead], &str); 5] = [
    (
        Command::Rows(None),
        &[(3, 121, 0), (124, 63, 40), (187, 92, 48)],
        ROWS,
    ),
    (
        Command::Rows(Some("1:0")),
        &[(124, 63, 0), (187, 92, 8)],
        FROM_SECOND_STRIPE,
    ),
    (Command::Rows(Some("2:1")), &[(187, 92, 0)], FROM_LAST_GROUP),
    (Command::Show, &[], SHOWN),
    (
        Command::Check,
        &[(3, 121, 0), (124, 63, 0), (187, 92, 0)],
        FOUND,
    ),
];

#[test]
fn reads_of_commands(rt: HostRuntime) {
    for (command, stripes, all) in &READS {
        check_reads(&rt, rt.alloc(), *command, stripes, all.as_bytes());
    }
}

/// Why two files aren't joined, and the sources.
pub(crate) type Joined<'a> = (Option<MergeFault>, [SeenSource<'a>; 2]);

/// Joins two files, to an output as the program has it.
pub(crate) fn join<'a>(
    alloc: Global,
    first: &'a [u8],
    second: &'a [u8],
    sent: &'a Cell<usize>,
    out: &mut CountedOut<'_>,
) -> Joined<'a> {
    let mut inputs = [
        SeenSource::new(first, 0, sent),
        SeenSource::new(second, 0, sent),
    ];
    let answer = merge_to(alloc, &mut inputs, &mut StdSink::new(out));
    (answer.err(), inputs)
}

/// The file joined with itself.
fn join_twice(alloc: Global, sent: &Cell<usize>) -> Joined<'_> {
    let mut out = CountedOut::new(0, Refused::Full, sent);
    join(alloc, &THREE_STRIPES, &THREE_STRIPES, sent, &mut out)
}

/// Where the stripes of the first file are read, and of the second: each behind all that stands before it in the joined
/// file.
static OF_THE_FIRST: [SeenRead; 3] = [(3, 121, 3), (124, 63, 124), (187, 92, 187)];

static OF_THE_SECOND: [SeenRead; 3] = [(3, 121, 279), (124, 63, 400), (187, 92, 463)];

/// Both tails are read before anything is written, and then the stripes of the one and of the other.
#[test]
fn reads_of_merges(rt: HostRuntime) {
    let sent = Cell::new(0);
    let (fault, inputs) = join_twice(rt.alloc(), &sent);
    let [first, second] = &inputs;
    check_same(&rt, "fault of a merge", &fault, &None);
    demand(&rt, are_reads(first.seen(), 8, &OF_THE_FIRST), "first", 8);
    demand(
        &rt,
        are_reads(second.seen(), 8, &OF_THE_SECOND),
        "second",
        8,
    );
}
