//! `orcm_rows`: prints the rows of a file in memory as lines of JSON.
ghost use Rattle.std.specs.Prelude.{◌≡◌, ◌≢◌, IfOk, IfErr};
ghost use Rattle.orc_c.specs.Answers.{HasPut, HasTold};
ghost use Rattle.orc_c.specs.Refusals.{AreRowLines, ArePrintedLines, NotPrinted, NotPrintedFrom, OfCommand};

use crate::answer::Answer;
use crate::fault::{CallFault, Fault};
use crate::memory::told_of;
use crate::putting::{put, tell};
use orc_cli_rows::rows_to;
use orc_io::SliceSource;
use std::alloc::Global;

/// Returns the lines of a file's rows: all of them, or those from the stripe and group on that `from` names.
fn lines_from(alloc: Global, file: &[u8], from: Option<&str>) -> Result<Vec<u8>, Fault>
    ensures printed { IfOk result (λ lines. ArePrintedLines file.now from.entry lines.items) }
    ensures refused { IfErr result (OfCommand (NotPrinted file.now from.entry)) }
{
    let mut lines = Vec::new(alloc);
    match rows_to(alloc, SliceSource::new(file), from, &mut lines) {
        Ok(_) => Ok(lines),
        Err((fault, _)) => Err(Fault::Command(told_of(fault))),
    }
}

/// Returns the lines of a file's rows: all of them if `from` is empty, or those from the stripe and group on that
/// `from` names.
fn row_lines(alloc: Global, file: &[u8], from: &[u8]) -> Result<Vec<u8>, Fault>
    ensures printed { IfOk result (λ lines. AreRowLines file.now from.now lines.items) }
    ensures refused { IfErr result (NotPrintedFrom file.now from.now) }
{
    if from.is_empty() {
        return lines_from(alloc, file, None);
    }
    match str::from_utf8(from) {
        Ok(text) => lines_from(alloc, file, Some(text)),
        Err(_) => Err(Fault::Call(CallFault::NotUtf8)),
    }
}

/// Puts a line for each row of a file into the buffer, in order: the row's JSON without blanks. `from`, such as
/// `2:0`, names a stripe and a group of it. Then only the rows from this group on are put. If `from` is empty, then
/// all rows are.
///
/// # Errors
///
/// - `NotUtf8` if `from` isn't UTF-8.
/// - `Syntax`, in the layer of JSON, if `from` isn't empty and doesn't name a stripe and a group.
/// - Those of `rows_to`, but not `SourceFailed` or `WriteFailed`.
///
/// After an error the buffer has no lines.
#[unsafe(no_mangle)]
pub extern "C" fn orcm_rows(alloc: Global, file: &[u8], from: &[u8], out: &mut [u8]) -> Answer
    // If the returned layer is 0, then `file` has a tail, and the returned length is that of lines of rows, in order:
    // those of all rows if `from` is empty, and otherwise those of the rows from the stripe and the group on that
    // `from` names, as `rows_to` prints them. The buffer begins with these lines, as far as it has room, and is
    // unchanged after them.
    ensures printed { result.layer ≡ 0 → HasPut out.old out.new result (AreRowLines file.now from.now) }
    // If the returned layer isn't 0, then layer and number are those of a fault for which `rows_to` refuses `file` or
    // `from`, with `OutOfMemory` in place of `WriteFailed`, and never of `SourceFailed`; or those of `NotUtf8`, only
    // if `from` isn't UTF-8. If `from` is empty and `file` is a file with rows that have JSON, then they are those of
    // `OutOfMemory`. The returned length is that of a text. The buffer begins with this text, as far as it has room,
    // and is unchanged after it.
    ensures refused { result.layer ≢ 0 → HasTold out.old out.new result (NotPrintedFrom file.now from.now) }
{
    match row_lines(alloc, file, from) {
        Ok(lines) => put(&lines, out),
        Err(fault) => tell(alloc, fault, out),
    }
}
