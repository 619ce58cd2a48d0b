//! `orcm_show`: shows the tail of a file in memory.
ghost use Rattle.std.specs.Prelude.{◌≡◌, ◌≢◌, IfOk, IfErr};
ghost use Rattle.orc_c.specs.Answers.{HasPut, HasTold};
ghost use Rattle.orc_c.specs.Refusals.{IsOutline, NotShown, OfCommand};

use crate::answer::Answer;
use crate::fault::Fault;
use crate::memory::told_of;
use crate::putting::{put, tell};
use orc_cli_output::CliFault;
use orc_cli_show::show_to;
use orc_io::SliceSource;
use std::alloc::Global;

/// Returns the lines that show a file's tail.
fn outline_of(alloc: Global, file: &[u8]) -> Result<Vec<u8>, CliFault>
    ensures shown { IfOk result (λ lines. IsOutline file.now lines.items) }
    ensures refused { IfErr result (NotShown file.now) }
{
    let mut lines = Vec::new(alloc);
    match show_to(alloc, SliceSource::new(file), &mut lines) {
        Ok(_) => Ok(lines),
        Err((fault, _)) => Err(told_of(fault)),
    }
}

/// Puts the lines that show a file's tail into the buffer: schema, versions, rows, user metadata, stripes and
/// statistics.
///
/// # Errors
///
/// The first test of a tail that `file` fails, in the layer of files, or `OutOfMemory`, in the layer of files or of
/// types.
#[unsafe(no_mangle)]
pub extern "C" fn orcm_show(alloc: Global, file: &[u8], out: &mut [u8]) -> Answer
    // If the returned layer is 0, then `file` has a tail. The returned length is that of the lines that show this
    // tail. The buffer begins with these lines, as far as it has room, and is unchanged after them.
    ensures shown { result.layer ≡ 0 → HasPut out.old out.new result (IsOutline file.now) }
    // If the returned layer isn't 0, then layer and number are those of `OutOfMemory`, or of the first test of a tail
    // that `file` fails, and always of `OutOfMemory` if `file` has a tail. The returned length is that of a text. The
    // buffer begins with this text, as far as it has room, and is unchanged after it.
    ensures refused { result.layer ≢ 0 → HasTold out.old out.new result (OfCommand (NotShown file.now)) }
{
    match outline_of(alloc, file) {
        Ok(lines) => put(&lines, out),
        Err(fault) => tell(alloc, Fault::Command(fault), out),
    }
}
