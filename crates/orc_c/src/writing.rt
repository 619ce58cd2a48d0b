//! `orcm_write`: writes a file in memory from lines of JSON.
ghost use Rattle.std.specs.Prelude.{◌≡◌, ◌≢◌, IfOk, IfErr};
ghost use Rattle.orc_c.specs.Answers.{HasPut, HasTold};
ghost use Rattle.orc_c.specs.Refusals.{IsFileOf, IsFileOfLines, IsOptions, NotWritten, NotWrittenOf, NotWrittenLines};

use crate::answer::Answer;
use crate::fault::{CallFault, Fault};
use crate::memory::told_of;
use crate::putting::{put, tell};
use orc_cli_output::CliFault;
use orc_cli_write::write_from;
use orc_io::VecSink;
use orc_rle::Rle;
use orc_row_batch::Options;
use std::alloc::Global;

/// Returns the file of the rows that lines of JSON spell.
fn file_of(alloc: Global, schema: &str, options: Options, lines: &[u8]) -> Result<Vec<u8>, CliFault>
    ensures written { IfOk result (λ file. IsFileOf schema.now options lines.now file.items) }
    ensures refused { IfErr result (NotWritten schema.now options lines.now) }
{
    match write_from(alloc, schema, options, lines, VecSink::new(alloc)) {
        Ok((_, out)) => Ok(out.into_vec()),
        Err((fault, _)) => Err(told_of(fault)),
    }
}

/// Returns the options that numbers stand for, or `None` if no file can be written with them.
fn options_of(rle: u32, stride: u32, stripe_rows: u32) -> Option<Options>
    ensures { IsOptions rle stride stripe_rows result }
{
    match rle {
        1 => Options::new(Rle::One, stride, stripe_rows),
        2 => Options::new(Rle::Two, stride, stripe_rows),
        _ => None,
    }
}

/// Returns the file of the rows that lines of JSON spell. The schema's text must be UTF-8.
fn file_of_text(
    alloc: Global,
    schema: &[u8],
    options: Options,
    lines: &[u8],
) -> Result<Vec<u8>, Fault>
    ensures written { IfOk result (λ file. IsFileOf schema.now options lines.now file.items) }
    ensures refused { IfErr result (NotWrittenOf schema.now options lines.now) }
{
    match str::from_utf8(schema) {
        Ok(schema) => match file_of(alloc, schema, options, lines) {
            Ok(file) => Ok(file),
            Err(fault) => Err(Fault::Command(fault)),
        },
        Err(_) => Err(Fault::Call(CallFault::NotUtf8)),
    }
}

/// Returns the file of the rows that lines of JSON spell, with options that are given as numbers.
fn file_of_lines(
    alloc: Global,
    schema: &[u8],
    rle: u32,
    stride: u32,
    stripe_rows: u32,
    lines: &[u8],
) -> Result<Vec<u8>, Fault>
    ensures written { IfOk result (λ file. IsFileOfLines schema.now rle stride stripe_rows lines.now file.items) }
    ensures refused { IfErr result (NotWrittenLines schema.now rle stride stripe_rows lines.now) }
{
    match options_of(rle, stride, stripe_rows) {
        Some(options) => file_of_text(alloc, schema, options, lines),
        None => Err(Fault::Call(CallFault::BadOptions)),
    }
}

/// Writes a file from lines of JSON, one row per line, and puts it into the buffer. `rle`, 1 or 2, is the version of
/// the integer runs. `stride` is the number of rows in a group of the row index; with 0 no row index is written.
/// `stripe_rows` is the number of rows in a stripe.
///
/// # Errors
///
/// - `BadOptions` if `rle` is neither 1 nor 2, or if `stripe_rows` is 0 or more than 2,147,483,647.
/// - `NotUtf8` if `schema` isn't UTF-8.
/// - Those of `write_from`, but not `WriteFailed`.
#[unsafe(no_mangle)]
pub extern "C" fn orcm_write(
    alloc: Global,
    schema: &[u8],
    rle: u32,
    stride: u32,
    stripe_rows: u32,
    lines: &[u8],
    out: &mut [u8],
) -> Answer
    // If the returned layer is 0, then `schema` is the text of a schema, and `lines` spells rows of it. The returned
    // length is that of the whole file of these rows, in order, with these options. The buffer begins with this file,
    // as far as it has room, and is unchanged after it.
    ensures written { result.layer ≡ 0 → HasPut out.old out.new result
        (IsFileOfLines schema.now rle stride stripe_rows lines.now) }
    // If the returned layer isn't 0, then layer and number are those of `BadOptions`, and no file can be written with
    // these options; or of `NotUtf8`, and `schema` isn't UTF-8; or of a fault for which `write_from` refuses the
    // schema or the lines, with `OutOfMemory` in place of `WriteFailed`. If `schema` is UTF-8 and the text of a
    // schema, and each line that isn't empty spells a row of it, then the fault is `Limit`, `OutOfMemory` or
    // `BadOptions`. The returned length is that of a text. The buffer begins with this text, as far as it has room,
    // and is unchanged after it.
    ensures refused { result.layer ≢ 0 → HasTold out.old out.new result
        (NotWrittenLines schema.now rle stride stripe_rows lines.now) }
{
    match file_of_lines(alloc, schema, rle, stride, stripe_rows, lines) {
        Ok(file) => put(&file, out),
        Err(fault) => tell(alloc, fault, out),
    }
}
