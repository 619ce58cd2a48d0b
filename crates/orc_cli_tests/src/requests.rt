//! Requests, answered over files in memory.

use crate::assertions::{check_bytes, check_same, demand};
use crate::files::{SIX_SEVENS, THREE_SEVENS};
use orc_cli_args::{Refusal, Request};
use orc_cli_commands::{CliFault, Ending, MemoryPlace, Outcome, answer_to};
use orc_file::FileFault;
use orc_rle::Rle;
use orc_stripe::Options;
use orc_types::JsonFault;
use std::alloc::Global;
use std::process::Abort;

const NUMBERS: &str = "struct<n:bigint>";

/// The lines of three sevens.
const LINES: &str = "{\"n\":7}\n{\"n\":7}\n{\"n\":7}\n";

/// The files that are there first.
static FILES: [(&str, &[u8]); 3] = [
    ("sevens", &THREE_SEVENS),
    ("lines", b"{\"n\":7}\n{\"n\":7}\n{\"n\":7}\n"),
    ("truth", b"{\"n\":7}\n{\"n\":true}\n"),
];

const NOT_FOUND: Ending = Ending::Refused(Refusal::Fault(CliFault::File(FileFault::SourceFailed)));

const NOT_MADE: Ending = Ending::Refused(Refusal::Fault(CliFault::File(FileFault::WriteFailed)));

const NO_NUMBER: Ending = Ending::Refused(Refusal::Fault(CliFault::Json(JsonFault::WrongShape)));

/// A request of each kind that finds or makes files; no table can hold the options of one that writes.
#[derive(Clone, Copy)]
enum Asked {
    Rows(&'static str),
    Write(&'static str, &'static str),
    Merge(&'static str, &'static [&'static str]),
}

/// Requests, the answer, what is printed, and what is made at `made`.
static ANSWERS: [(Asked, Result<Outcome, Ending>, &str, Option<&[u8]>); 10] = [
    (Asked::Rows("sevens"), Ok(Outcome::Done), LINES, None),
    (Asked::Rows("absent"), Err(NOT_FOUND), "", None),
    (
        Asked::Write("lines", "made"),
        Ok(Outcome::Done),
        "",
        Some(&THREE_SEVENS),
    ),
    (
        Asked::Write("truth", "made"),
        Err(NO_NUMBER),
        "",
        Some(b"ORC"),
    ),
    (Asked::Write("absent", "made"), Err(NOT_FOUND), "", None),
    (Asked::Write("lines", "sevens"), Err(NOT_MADE), "", None),
    (
        Asked::Merge("made", &["sevens", "sevens"]),
        Ok(Outcome::Done),
        "",
        Some(&SIX_SEVENS),
    ),
    (
        Asked::Merge("made", &["sevens", "absent"]),
        Err(NOT_FOUND),
        "",
        None,
    ),
    (Asked::Merge("sevens", &["sevens"]), Err(NOT_MADE), "", None),
    (
        Asked::Merge("sevens", &["absent"]),
        Err(NOT_FOUND),
        "",
        None,
    ),
];

/// The request, with these options.
fn request_of(asked: Asked, options: Options) -> Request<'static, 'static> {
    match asked {
        Asked::Rows(file) => Request::Rows { file, from: None },
        Asked::Write(input, output) => Request::Write {
            schema: NUMBERS,
            options,
            input,
            output,
        },
        Asked::Merge(output, inputs) => Request::Merge { output, inputs },
    }
}

/// What a request is answered with over these files, what it prints, and the files then.
fn answered(
    alloc: Global,
    request: Request<'_, 'static>,
) -> (Result<Outcome, Ending>, Vec<u8>, MemoryPlace<'static>) {
    let mut place = MemoryPlace::new(&FILES);
    let mut out = Vec::new(alloc);
    let answer = answer_to(alloc, &mut place, request, &mut out);
    (answer, out, place)
}

/// These bytes, if any, were made at `made`.
fn check_made(rt: &impl Abort, place: &MemoryPlace<'_>, wanted: Option<&[u8]>) {
    match (place.made_at("made"), wanted) {
        (Some(bytes), Some(wanted)) => check_bytes(rt, "made", bytes, wanted),
        (None, None) => {}
        _ => demand(rt, false, "made", 0),
    }
}

/// This is answered, printed and made.
fn check_answer(
    rt: &impl Abort,
    alloc: Global,
    request: Request<'_, 'static>,
    wanted: Result<Outcome, Ending>,
    printed: &[u8],
    made: Option<&[u8]>,
) {
    let (answer, out, place) = answered(alloc, request);
    check_same(rt, "answer", &answer, &wanted);
    check_bytes(rt, "printed", &out, printed);
    check_made(rt, &place, made);
}

#[test]
fn requests_over_files_in_memory(rt: HostRuntime) {
    let options = Options::new(Rle::One, 0, 3);
    demand(&rt, options.is_some(), "options", 3);
    let Some(options) = options else {
        return;
    };
    for (asked, wanted, printed, made) in &ANSWERS {
        let request = request_of(*asked, options);
        check_answer(&rt, rt.alloc(), request, *wanted, printed.as_bytes(), *made);
    }
}
