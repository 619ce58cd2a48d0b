//! Carries out requests.
ghost use Rattle.std.specs.Prelude.{◌≡◌, List, ℕ, OnOk};
ghost use Rattle.orc_cli_commands.specs.Answers.{Answers, IsMadeBy};

use crate::ending::Ending;
use crate::joining::join_files;
use crate::outcome::Outcome;
use crate::place::Place;
use crate::printing::{print_findings_at, print_ints, print_outline_at, print_rows_at};
use crate::writing::write_file;
use orc_cli_args::Request;
use std::alloc::Global;
use std::io::Write;

/// Carries out one request over the files of a place, and prints to `out`. The following holds as far as the bytes of
/// the files and of the output are known.
///
/// - `ints`, `rows`, `show` and `check` print, and fail, as the call of the command promises for the digits, or for
///   the bytes of the file at the path.
/// - `write` writes what `write_lines` promises for the lines of the file at the path, with the request's schema and
///   options. `merge` joins all inputs, in order, as `merge` of `orc_merger` promises. If the place lacked a file at
///   the output's path, then what was written is there afterwards, even after an error.
/// - All files that are read are found before a file is made. If the place lacks a file that is read, then nothing is
///   printed and no file is made. The error is `SourceFailed` then, or, for `write` and `merge`, perhaps
///   `OutOfMemory`.
/// - A file that exists isn't made anew. The error is `WriteFailed` then, or `OutOfMemory`, and the place is
///   unchanged.
/// - A request that makes no file leaves the place unchanged, and one that makes a file prints nothing. What the
///   place knows of files that were there first is unchanged.
/// - After a success, a file that was made is kept, even if the power fails. The place asks for that once, after the
///   last byte, and the error is `WriteFailed` if it can't be done.
///
/// The devices of a request are made and closed during the call, so their counts of failures can't be compared. The
/// promise is only that `SourceFailed` of a file that was found, and `WriteFailed` of a file that was made and
/// closed, come only if such devices can fail at all. Devices in memory can't.
///
/// # Errors
///
/// Those of the request's command; `SourceFailed` if a file isn't found; `WriteFailed` if a file isn't made or
/// doesn't take all its bytes. Once a merge has made its file, this is the merger's `WriteFailed`.
pub fn answer_to<'a, P: Place<'a>, W: Write>(
    alloc: Global,
    place: &mut P,
    request: Request<'_, 'a>,
    out: &mut W,
) -> Result<Outcome, Ending>
    // A request to print (`ints`, `rows`, `show`, `check`) leaves the place unchanged, and ends as `ints_to`,
    // `rows_to`, `show_to` or `check_to` promises for the digits, or for the bytes that the place knows at the path.
    // If its file isn't found, then the error is `SourceFailed` and the output's bytes are unchanged if they are
    // known. A request to make a file (`write`, `merge`) prints nothing, and ends as `write_lines` or `merge`
    // promises for the bytes that the place knows at the inputs' paths and, at the end, of the file made. What these
    // promises say of counts of failures is left out. A success is `Done`, except that of `check`: for a file that
    // the place knows it is `Found` if the file has findings, and `Done` if it has none. If an input isn't found,
    // then the place is unchanged and the error is `SourceFailed` or `OutOfMemory`. If all inputs are found and no
    // file is made, then the place is unchanged and the error is `WriteFailed` or `OutOfMemory`. If a file that the
    // place didn't lack is made and not closed, then the error is `WriteFailed`. A file that the place knows is
    // found, except that a merge may fail with `OutOfMemory`, and is not made anew. A file that the place lacks is
    // not found, and is made, empty, if it is the output and all inputs are found. `SourceFailed` of a file that was
    // found comes only if such a source or such lines can fail, and `WriteFailed` of a file that was made and closed
    // only if such an output can fail.
    ensures answered { Answers (P.told place.old) (P.lacks place.old) (P.made place.new) (place.new ≡ place.old)
        P.Input.failures P.Lines.failures P.Output.failures (W.contents out.old) (W.contents out.new)
        result request.entry }
    // If a request to make a file succeeds, then the place keeps this file, even if the power fails.
    ensures durable { OnOk result ((path : List ℕ) → IsMadeBy request.entry path → P.durable place.new path) }
    // What the place knows of the files that were there first is unchanged.
    ensures stays { P.told place.new ≡ P.told place.old }
    // If the request doesn't make a file at a path, then what the place knows of the file made at this path is
    // unchanged.
    ensures others { (path : List ℕ) → (IsMadeBy request.entry path → ⊥)
        → P.made place.new path ≡ P.made place.old path }
{
    match request {
        Request::Ints { rle, sign, hex } => Ok(print_ints(alloc, rle, sign, hex, out)?),
        Request::Rows { file, from } => print_rows_at(alloc, place, file, from, out),
        Request::Show { file } => print_outline_at(alloc, place, file, out),
        Request::Check { file } => print_findings_at(alloc, place, file, out),
        Request::Write {
            schema,
            options,
            input,
            output,
        } => write_file(alloc, place, schema, options, input, output),
        Request::Merge { output, inputs } => join_files(alloc, place, output, inputs),
    }
}
